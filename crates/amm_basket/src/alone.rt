//! The best of the parts alone.
ghost use Rattle.std.specs.Prelude.{◌≡◌, ◌≤◌, ◌⊎◌, Contains, IfOk, map};
ghost use Rattle.amm_model.specs.Baskets.{IsValueOfPart};
ghost use Rattle.amm_model.specs.Legs.{Delivers};
ghost use Rattle.amm_model.specs.Paths.{AreAllPaths};
ghost use Rattle.amm_model.specs.Values.{AtLeastTheWays};
ghost use Rattle.amm_graph.specs.Hops.{hops_of};

use amm_graph::Path;
use amm_model::{Memory, OpenProblem, Part};
use amm_split::{Delivery, best_of_ways};
use std::alloc::Global;

/// The better of what is kept and of a part's greatest one-way or two-way value.
pub fn best_alone(
    alloc: Global,
    problem: &OpenProblem,
    part: &Part,
    paths: &[Path],
    kept: Delivery,
) -> Result<Delivery, Memory>
    requires part { Contains problem.now.parts part.now }
    requires paths { AreAllPaths problem.now.pools part.now.token problem.now.t (map hops_of paths.now) }
    requires kept { Delivers problem.now kept.legs kept.amount }
    requires value { (kept.amount ≡ 0) ⊎ IsValueOfPart problem.now kept.amount }
    ensures delivers { IfOk result (λ best. Delivers problem.now best.legs best.amount) }
    ensures value { IfOk result (λ best. (best.amount ≡ 0) ⊎ IsValueOfPart problem.now best.amount) }
    ensures more { IfOk result (λ best. kept.amount ≤ best.amount) }
    ensures ways { IfOk result (λ best. AtLeastTheWays problem.now.pools part.now.token problem.now.t part.now.amount best.amount) }
{
    let Some(found) = best_of_ways(alloc, problem, part, paths)? else {
        return Ok(kept);
    };
    if found.amount <= kept.amount {
        return Ok(kept);
    }
    Ok(found)
}
