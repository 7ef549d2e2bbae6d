//! The greatest one-way or two-way value between two tokens.
ghost use Rattle.std.specs.Prelude.{◌≡◌, ◌≢◌, ◌<◌, ◌^◌, [], ℕ, IfOk, MatchOption, length, slice_index_or};
ghost use Rattle.amm_model.specs.Values.{AtLeastTheWays, IsOneOrTwoWayValue};

use crate::sizes::best_way;
use amm_graph::paths_between;
use amm_model::{Memory, OpenProblem};
use std::alloc::Global;

/// The greatest one-way or two-way value of `d` of the token at one place brought to the token at
/// another; None where there is none.
pub fn greatest_value(
    alloc: Global,
    problem: &OpenProblem,
    from: usize,
    to: usize,
    d: u64,
) -> Result<Option<u64>, Memory>
    requires apart { from ≢ to }
    requires from { from < length problem.now.tokens }
    requires to { to < length problem.now.tokens }
    requires input { d < 2 ^ 52 }
    ensures { IfOk result (λ greatest. MatchOption greatest
        ((value : ℕ) → IsOneOrTwoWayValue problem.now.pools (slice_index_or problem.now.tokens from []) (slice_index_or problem.now.tokens to []) d value → ⊥)
        (λ amount. IsOneOrTwoWayValue problem.now.pools (slice_index_or problem.now.tokens from []) (slice_index_or problem.now.tokens to []) d amount
        × AtLeastTheWays problem.now.pools (slice_index_or problem.now.tokens from []) (slice_index_or problem.now.tokens to []) d amount)) }
{
    let paths = paths_between(alloc, problem, from, to)?;
    let best = best_way(alloc, problem, &paths, d)?;
    if best.amount == 0 {
        return Ok(None);
    }
    Ok(Some(best.amount))
}
