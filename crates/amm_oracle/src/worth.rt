//! What an amount of a token comes to at an average price.
ghost use Rattle.std.specs.Prelude.{◌≡◌, ◌*◌, nat_lt, Ok, Err, if◌then◌else◌};
ghost use Rattle.amm_model.specs.declared.fault.Refusal.TheVariants as refusal;
ghost use Rattle.amm_model.specs.declared.limits.TheConstants.{AMOUNT_LIMIT as LIMIT};
ghost use Rattle.amm_model.specs.Observations.{at_average};
ghost use Rattle.amm_model.specs.Oracle.{price_of, consult_between};

use crate::averages::averages_between;
use amm_model::limits::AMOUNT_LIMIT;
use amm_model::{Averages, Observation, PoolName, Refusal, TokenName};
use amm_num::mul_div;

// A price of 1, with 48 binary places.
const ONE: u128 = 0x1_0000_0000_0000;

// The average price of one of the two tokens of a pool.
fn price_of(pool: &PoolName, averages: &Averages, token: &TokenName) -> Result<u128, Refusal>
    ensures { result ≡ price_of pool.now averages.now token.now }
{
    if token == pool.token0() {
        return Ok(averages.price0);
    }
    if token == pool.token1() {
        return Ok(averages.price1);
    }
    Err(Refusal::UnknownToken)
}

// Whether the whole part of a price takes the product with an amount past 2^52-1, with no product
// worked out.
#[tactic(auto, using(crate::proofs::Products::past_limit, crate::proofs::Products::nothing_past))]
fn passes_limit(whole: u128, amount: u64) -> bool
    ensures { result ≡ nat_lt LIMIT (whole * amount) }
{
    amount > 0 && whole > (AMOUNT_LIMIT / amount) as u128
}

// What an amount comes to at an average price, if this is at most 2^52-1. The price's whole part
// and its broken part go apart, so that no step needs more than 128 bits.
#[tactic(auto, using(crate::proofs::Products::worth_parts, crate::proofs::Products::worth_past))]
fn worth(average: u128, amount: u64) -> Result<u64, Refusal>
    ensures { result ≡ (if nat_lt LIMIT (at_average average amount) then Err refusal.AmountLimit else Ok (at_average average amount)) }
{
    let whole = average / ONE;
    if passes_limit(whole, amount) {
        return Err(Refusal::AmountLimit);
    }
    let broken = (average % ONE) as u64;
    let total = whole * amount as u128 + mul_div(broken, amount, ONE);
    if total > AMOUNT_LIMIT as u128 {
        return Err(Refusal::AmountLimit);
    }
    Ok(total as u64)
}

/// What an amount of a token of a pool comes to in the other at the average price between two
/// observations of the pool.
#[tactic(auto, unfolding(amm_model::specs::Oracle::consult_between))]
pub(crate) fn consult_between(
    first: &Observation,
    second: &Observation,
    token: &TokenName,
    amount: u64,
) -> Result<u64, Refusal>
    ensures { result ≡ consult_between first.now second.now token.now amount }
{
    let averages = averages_between(first, second)?;
    let price = price_of(&first.pool, &averages, token)?;
    worth(price, amount)
}
