//! The rows of a certificate: pools, prices and legs.
ghost use Rattle.std.specs.Prelude.{◌≡◌, ◌≤◌, ◌<◌, length, map, IfOk};
ghost use Rattle.serde_json.specs.View.{view};
ghost use Rattle.amm_model.specs.Outcome.{Gives};
ghost use Rattle.amm_model.specs.Json.{each};
ghost use Rattle.amm_cert.specs.Rows.{pool_parts, pool_row, as_problem_pool, as_problem_pools, price_row, as_price, each_price, prices_row, as_prices, side_of, pool_place, place_of, leg_row, as_leg, legs_row, as_legs};

use crate::form::{MISFIT, amount, list, pool, text, whole};
use amm_model::{Fault, Leg, Prices, ProblemPool, TokenName};
use serde_json::Value;
use std::alloc::Global;

/// The pools of a problem, with their reserves and balances.
#[tactic(auto, unfolding(crate::specs::Rows::as_problem_pools))]
pub fn problem_pools(alloc: Global, value: &Value) -> Result<Vec<ProblemPool>, Fault>
    ensures { Gives (λ pools. pools.items) result (as_problem_pools (view value.now)) }
{
    let values = list(value)?;
    each_pool(alloc, values)
}

fn each_pool(alloc: Global, values: &[Value]) -> Result<Vec<ProblemPool>, Fault>
    ensures { Gives (λ pools. pools.items) result (each as_problem_pool (map view values.now)) }
{
    let mut found = Vec::with_capacity(alloc, values.len())?;
    for value in values {
        found.push(problem_pool(alloc, value)?)?;
    }
    Ok(found)
}

#[tactic(auto, unfolding(crate::specs::Rows::as_problem_pool))]
fn problem_pool(alloc: Global, value: &Value) -> Result<ProblemPool, Fault>
    ensures { Gives (λ pool. pool) result (as_problem_pool (view value.now)) }
{
    let values = list(value)?;
    pool_row(alloc, values)
}

fn pool_row(alloc: Global, values: &[Value]) -> Result<ProblemPool, Fault>
    ensures { Gives (λ pool. pool) result (pool_row (map view values.now)) }
{
    match values {
        [name, r0, r1, b0, b1] => pool_parts(alloc, name, r0, r1, b0, b1),
        _ => Err(MISFIT),
    }
}

fn pool_parts(
    alloc: Global,
    name: &Value,
    r0: &Value,
    r1: &Value,
    b0: &Value,
    b1: &Value,
) -> Result<ProblemPool, Fault>
    ensures { Gives (λ pool. pool) result (pool_parts (view name.now) (view r0.now) (view r1.now) (view b0.now) (view b1.now)) }
{
    Ok(ProblemPool {
        name: pool(alloc, name)?,
        r0: amount(r0)?,
        r1: amount(r1)?,
        b0: amount(b0)?,
        b1: amount(b1)?,
    })
}

/// The prices of the tokens.
#[tactic(auto, unfolding(crate::specs::Rows::as_prices))]
pub fn prices(alloc: Global, tokens: &[TokenName], value: &Value) -> Result<Prices, Fault>
    ensures { Gives (λ prices. prices) result (as_prices tokens.now (view value.now)) }
{
    let values = list(value)?;
    let found = prices_row(alloc, tokens, values)?;
    match Prices::from_parts(found) {
        Some(prices) => Ok(prices),
        None => Err(MISFIT),
    }
}

fn prices_row(alloc: Global, tokens: &[TokenName], values: &[Value]) -> Result<Vec<u64>, Fault>
    ensures { Gives (λ prices. prices.items) result (prices_row tokens.now (map view values.now)) }
{
    if values.len() == tokens.len() {
        each_price(alloc, tokens, values)
    } else {
        Err(MISFIT)
    }
}

fn each_price(alloc: Global, tokens: &[TokenName], values: &[Value]) -> Result<Vec<u64>, Fault>
    requires { length values.now ≡ length tokens.now }
    ensures { Gives (λ prices. prices.items) result (each_price tokens.now (map view values.now)) }
{
    let mut found = Vec::with_capacity(alloc, values.len())?;
    for i in 0..tokens.len() {
        found.push(price(&tokens[i], &values[i])?)?;
    }
    Ok(found)
}

#[tactic(auto, unfolding(crate::specs::Rows::as_price))]
fn price(token: &TokenName, value: &Value) -> Result<u64, Fault>
    ensures { Gives (λ n. n) result (as_price token.now (view value.now)) }
{
    let values = list(value)?;
    price_row(token, values)
}

fn price_row(token: &TokenName, values: &[Value]) -> Result<u64, Fault>
    ensures { Gives (λ n. n) result (price_row token.now (map view values.now)) }
{
    match values {
        [name, price] => {
            let name = text(name)?;
            let price = whole(price)?;
            if name.as_bytes() == token.as_bytes() {
                Ok(price)
            } else {
                Err(MISFIT)
            }
        }
        _ => Err(MISFIT),
    }
}

/// The legs of a route over the pools.
#[tactic(auto, unfolding(crate::specs::Rows::as_legs))]
pub fn legs(alloc: Global, pools: &[ProblemPool], value: &Value) -> Result<Vec<Leg>, Fault>
    requires { length pools.now ≤ 256 }
    ensures { Gives (λ legs. legs.items) result (as_legs pools.now (view value.now)) }
{
    let values = list(value)?;
    legs_row(alloc, pools, values)
}

fn legs_row(alloc: Global, pools: &[ProblemPool], values: &[Value]) -> Result<Vec<Leg>, Fault>
    requires { length pools.now ≤ 256 }
    ensures { Gives (λ legs. legs.items) result (legs_row pools.now (map view values.now)) }
{
    if values.len() <= 256 {
        each_leg(alloc, pools, values)
    } else {
        Err(MISFIT)
    }
}

fn each_leg(alloc: Global, pools: &[ProblemPool], values: &[Value]) -> Result<Vec<Leg>, Fault>
    requires { length pools.now ≤ 256 }
    ensures { Gives (λ legs. legs.items) result (each (as_leg pools.now) (map view values.now)) }
{
    let mut found = Vec::with_capacity(alloc, values.len())?;
    for value in values {
        found.push(leg(pools, value)?)?;
    }
    Ok(found)
}

#[tactic(auto, unfolding(crate::specs::Rows::as_leg))]
fn leg(pools: &[ProblemPool], value: &Value) -> Result<Leg, Fault>
    requires { length pools.now ≤ 256 }
    ensures { Gives (λ leg. leg) result (as_leg pools.now (view value.now)) }
{
    let values = list(value)?;
    leg_row(pools, values)
}

fn leg_row(pools: &[ProblemPool], values: &[Value]) -> Result<Leg, Fault>
    requires { length pools.now ≤ 256 }
    ensures { Gives (λ leg. leg) result (leg_row pools.now (map view values.now)) }
{
    match values {
        [name, token, input, output] => {
            let place = place_of(pools, text(name)?)?;
            let zero_in = side_of(&pools[place], text(token)?)?;
            Ok(Leg {
                pool: place as u32,
                zero_in,
                input: amount(input)?,
                output: amount(output)?,
            })
        }
        _ => Err(MISFIT),
    }
}

/// Where the pool of a name stands.
fn place_of(pools: &[ProblemPool], name: &str) -> Result<usize, Fault>
    ensures value { Gives (λ place. place) result (place_of pools.now name.now) }
    ensures there { IfOk result (λ place. place < length pools.now) }
{
    for i in 0..pools.len() {
        if name.as_bytes() == pools[i].name.as_bytes() {
            return Ok(i);
        }
    }
    Err(MISFIT)
}

/// Whether a token is the pool's token 0, where it is one of its two.
fn side_of(pool: &ProblemPool, token: &str) -> Result<bool, Fault>
    ensures { Gives (λ zero. zero) result (side_of pool.now token.now) }
{
    if token.as_bytes() == pool.name.token0().as_bytes() {
        Ok(true)
    } else if token.as_bytes() == pool.name.token1().as_bytes() {
        Ok(false)
    } else {
        Err(MISFIT)
    }
}
