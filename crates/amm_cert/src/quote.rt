//! The parts of a quote, as what they send to a `Serializer`.
ghost use Rattle.std.specs.Prelude.{◌≡◌, ◌∷◌, [], ◌<◌, OnOk, All, map, length, if◌then◌else◌};
ghost use Rattle.std.specs.List.{zip};
ghost use Rattle.serde_json.specs.Data.{string};
ghost use Rattle.serde_json.specs.Events.{SendsValue};
ghost use Rattle.amm_model.specs.Json.{whole, list};
ghost use Rattle.amm_model.specs.Certificate.{pool_value, price_value, leg_value, priced_tokens_value, prices_value, route_value, legs_value, IsWritable};
ghost use Rattle.amm_model.specs.Routing.{token0_of, token1_of};
ghost use Rattle.amm_model.specs.declared.route.Leg as legs_view;
ghost use Rattle.amm_text.specs.Sends.{SendsEach};

use amm_model::{Leg, ProblemPool, Quote, TokenName};
use amm_text::{send_pool, send_token};
use serde::Serializer;

fn send_problem_pool<S: Serializer>(pool: &ProblemPool, out: &mut S) -> Result<(), S::Error>
    ensures { OnOk result (SendsValue (pool_value pool.now) (S.written out.old) (S.written out.new)) }
{
    out.begin_seq(Some(5))?;
    send_pool(&pool.name, out)?;
    out.u64(pool.r0)?;
    out.u64(pool.r1)?;
    out.u64(pool.b0)?;
    out.u64(pool.b1)?;
    out.end_seq()
}

fn send_each_pool<S: Serializer>(pools: &[ProblemPool], out: &mut S) -> Result<(), S::Error>
    ensures { OnOk result (SendsEach (map pool_value pools.now) (S.written out.old) (S.written out.new)) }
{
    for pool in pools {
        send_problem_pool(pool, out)?;
    }
    Ok(())
}

/// The pools of a problem, with their reserves and balances.
pub fn send_pools<S: Serializer>(pools: &[ProblemPool], out: &mut S) -> Result<(), S::Error>
    ensures { OnOk result (SendsValue (list (map pool_value pools.now)) (S.written out.old) (S.written out.new)) }
{
    out.begin_seq(Some(pools.len()))?;
    send_each_pool(pools, out)?;
    out.end_seq()
}

fn send_price<S: Serializer>(token: &TokenName, price: u64, out: &mut S) -> Result<(), S::Error>
    ensures { OnOk result (SendsValue (price_value (token.now, price)) (S.written out.old) (S.written out.new)) }
{
    out.begin_seq(Some(2))?;
    send_token(token, out)?;
    out.u64(price)?;
    out.end_seq()
}

fn send_each_price<S: Serializer>(
    tokens: &[TokenName],
    prices: &[u64],
    out: &mut S,
) -> Result<(), S::Error>
    requires { length prices.now ≡ length tokens.now }
    ensures { OnOk result (SendsEach (map price_value (zip tokens.now prices.now)) (S.written out.old) (S.written out.new)) }
{
    for (i, token) in tokens.iter().enumerate() {
        send_price(token, prices[i], out)?;
    }
    Ok(())
}

/// The tokens of a quote's problem with their prices.
pub fn send_prices<S: Serializer>(quote: &Quote, out: &mut S) -> Result<(), S::Error>
    requires { length quote.now.prices ≡ length quote.now.problem.tokens }
    ensures { OnOk result (SendsValue (prices_value quote.now) (S.written out.old) (S.written out.new)) }
{
    send_priced(quote.problem.tokens(), quote.prices.as_slice(), out)
}

/// Tokens with their prices.
pub fn send_priced<S: Serializer>(
    tokens: &[TokenName],
    prices: &[u64],
    out: &mut S,
) -> Result<(), S::Error>
    requires { length prices.now ≡ length tokens.now }
    ensures { OnOk result (SendsValue (priced_tokens_value tokens.now prices.now) (S.written out.old) (S.written out.new)) }
{
    out.begin_seq(Some(tokens.len()))?;
    send_each_price(tokens, prices, out)?;
    out.end_seq()
}

/// The token that goes into a pool.
fn token_in(pool: &ProblemPool, zero_in: bool) -> &TokenName
    ensures { result.now ≡ (if zero_in then token0_of pool.now else token1_of pool.now) }
{
    if zero_in {
        pool.name.token0()
    } else {
        pool.name.token1()
    }
}

fn send_leg<S: Serializer>(pool: &ProblemPool, leg: &Leg, out: &mut S) -> Result<(), S::Error>
    ensures { OnOk result (SendsValue (list (string pool.now.name
        ∷ string (if leg.now.zero_in then token0_of pool.now else token1_of pool.now)
        ∷ whole leg.now.input ∷ whole leg.now.output ∷ [])) (S.written out.old) (S.written out.new)) }
{
    out.begin_seq(Some(4))?;
    send_pool(&pool.name, out)?;
    send_token(token_in(pool, leg.zero_in), out)?;
    out.u64(leg.input)?;
    out.u64(leg.output)?;
    out.end_seq()
}

fn send_each_leg<S: Serializer>(
    pools: &[ProblemPool],
    legs: &[Leg],
    out: &mut S,
) -> Result<(), S::Error>
    requires { All (λ (leg : legs_view.Leg). leg.pool < length pools.now) legs.now }
    ensures { OnOk result (SendsEach (map (leg_value pools.now) legs.now) (S.written out.old) (S.written out.new)) }
{
    for leg in legs {
        send_leg(&pools[leg.pool as usize], leg, out)?;
    }
    Ok(())
}

/// The legs of a quote, in the order in which they are taken.
pub fn send_legs<S: Serializer>(quote: &Quote, out: &mut S) -> Result<(), S::Error>
    requires { IsWritable quote.now }
    ensures { OnOk result (SendsValue (legs_value quote.now) (S.written out.old) (S.written out.new)) }
{
    send_route(quote.problem.pools(), quote.route.legs.as_slice(), out)
}

/// Legs over these pools, in the order in which they are taken.
pub fn send_route<S: Serializer>(
    pools: &[ProblemPool],
    legs: &[Leg],
    out: &mut S,
) -> Result<(), S::Error>
    requires { All (λ (leg : legs_view.Leg). leg.pool < length pools.now) legs.now }
    ensures { OnOk result (SendsValue (route_value pools.now legs.now) (S.written out.old) (S.written out.new)) }
{
    out.begin_seq(Some(legs.len()))?;
    send_each_leg(pools, legs, out)?;
    out.end_seq()
}
