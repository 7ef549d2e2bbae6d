//! The average prices between two observations.
ghost use Rattle.std.specs.Prelude.{◌≡◌, ◌<◌, ◌/◌};
ghost use Rattle.amm_model.specs.Observations.{is_window, growth};
ghost use Rattle.amm_model.specs.Oracle.{averages_between};

use amm_model::{Averages, Observation, Refusal};

// The seconds after which the accumulators' times meet again.
const TURN: u64 = 0x1_0000_0000;

// Whether there is an average between the two.
fn is_window(first: &Observation, second: &Observation) -> bool
    ensures { result ≡ is_window first.now second.now }
{
    first.pool == second.pool && first.time < second.time && second.time - first.time < TURN
}

// How much an accumulator grew a second. It wraps, and so does its growth.
#[tactic(auto, using(crate::proofs::Products::growth_wraps))]
fn growth_rate(before: u128, now: u128, seconds: u64) -> u128
    requires { 0 < seconds }
    ensures { result ≡ growth before now / seconds }
{
    now.wrapping_sub(before) / seconds as u128
}

/// Both average prices between two observations, if they are of one pool, the second later by 1 to
/// 2^32-1 seconds.
#[tactic(auto, unfolding(amm_model::specs::Oracle::averages_between))]
pub(crate) fn averages_between(
    first: &Observation,
    second: &Observation,
) -> Result<Averages, Refusal>
    ensures { result ≡ averages_between first.now second.now }
{
    if !is_window(first, second) {
        return Err(Refusal::BadWindow);
    }
    let seconds = second.time - first.time;
    Ok(Averages {
        price0: growth_rate(first.acc0, second.acc0, seconds),
        price1: growth_rate(first.acc1, second.acc1, seconds),
    })
}
