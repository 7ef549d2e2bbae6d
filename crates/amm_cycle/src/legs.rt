//! The legs of a cycle.
ghost use Rattle.std.specs.Prelude.{◌≡◌, ◌<◌, ◌≤◌, ◌^◌, All, IfOk};
ghost use Rattle.amm_model.specs.Paths.{IsHop, legs_along};
ghost use Rattle.amm_cycle.specs.Chains.{hops_of};

use crate::chain::Chain;
use amm_graph::hop_at;
use amm_model::{Leg, LegList, Memory, OpenProblem};
use std::alloc::Global;

/// The legs of the hops for `x`: each takes in what the one before gave.
pub fn legs_of(
    alloc: Global,
    problem: &OpenProblem,
    chain: &Chain,
    x: u64,
) -> Result<LegList, Memory>
    requires short { chain.now.count ≤ 4 }
    requires over { All (IsHop problem.now.pools) (hops_of chain.now) }
    requires input { x < 2 ^ 52 }
    ensures { IfOk result (λ legs. legs ≡ legs_along problem.now.pools (hops_of chain.now) x) }
{
    let mut legs = Vec::new(alloc);
    let mut input = x;
    for k in 0..chain.count as usize {
        let hop = chain.hops[k];
        let output = hop_at(problem, hop, input);
        legs.push(Leg {
            pool: hop.pool,
            zero_in: hop.zero_in,
            input,
            output,
        })?;
        input = output;
    }
    Ok(LegList::from_vec(legs))
}
