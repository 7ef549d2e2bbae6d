//! The best of one and two ways, as legs.
ghost use Rattle.std.specs.Prelude.{◌≡◌, ℕ, Contains, IfOk, MatchOption, map};
ghost use Rattle.amm_model.specs.Routing.{open_view};
ghost use Rattle.amm_model.specs.Legs.{Delivers};
ghost use Rattle.amm_model.specs.Paths.{AreAllPaths};
ghost use Rattle.amm_model.specs.SplitAnswers.{HasNoRoute};
ghost use Rattle.amm_model.specs.Values.{AtLeastTheWays, IsOneOrTwoWayValue};
ghost use Rattle.amm_graph.specs.Hops.{hops_of};
ghost use Rattle.amm_split.specs.Sizes.{IsWayOf};
ghost use Rattle.amm_split.specs.Deliveries.{HasNoWay, IsBestOfWays};

use crate::deliveries::Delivery;
use crate::legs::push_legs;
use crate::shares::sixteenths;
use crate::sizes::{BestWay, best_way};
use crate::source::{part_amount, source_part};
use amm_graph::{Path, paths};
use amm_model::{LegList, Memory, OpenProblem, Part, Problem, Route};
use std::alloc::Global;

/// A route of the problem that delivers its greatest one-way or two-way value; None exactly where
/// it has none.
pub fn best_two_way(alloc: Global, problem: &Problem) -> Result<Option<Route>, Memory>
    ensures { IfOk result (λ best. MatchOption best (HasNoRoute problem.now) (λ route. (amount : ℕ) × Delivers (open_view problem.now) route.legs amount
        × IsOneOrTwoWayValue problem.now.pools problem.now.s problem.now.t problem.now.d amount
        × AtLeastTheWays problem.now.pools problem.now.s problem.now.t problem.now.d amount)) }
{
    let all = paths(alloc, problem)?;
    let Some(found) = best_of_ways(alloc, problem.as_open(), source_part(problem), &all)? else {
        return Ok(None);
    };
    Ok(Some(Route { legs: found.legs }))
}

/// Legs of the problem that deliver the greatest one-way or two-way value of one of its parts, over
/// all paths from the part's token; None exactly where it has none.
pub fn best_of_ways(
    alloc: Global,
    problem: &OpenProblem,
    part: &Part,
    paths: &[Path],
) -> Result<Option<Delivery>, Memory>
    requires part { Contains problem.now.parts part.now }
    requires paths { AreAllPaths problem.now.pools part.now.token problem.now.t (map hops_of paths.now) }
    ensures { IfOk result (λ best. MatchOption best (HasNoWay problem.now part.now) (λ found. IsBestOfWays problem.now part.now found)) }
{
    let best = best_way(alloc, problem, paths, part_amount(problem, part))?;
    if best.amount == 0 {
        return Ok(None);
    }
    let legs = legs_of_way(alloc, problem, part, paths, &best)?;
    Ok(Some(Delivery {
        legs,
        amount: best.amount,
    }))
}

// The legs of a part on one or two of its paths.
fn legs_of_way(
    alloc: Global,
    problem: &OpenProblem,
    part: &Part,
    paths: &[Path],
    way: &BestWay,
) -> Result<LegList, Memory>
    requires part { Contains problem.now.parts part.now }
    requires paths { AreAllPaths problem.now.pools part.now.token problem.now.t (map hops_of paths.now) }
    requires way { IsWayOf problem.now.pools paths.now part.now.amount way.now }
    ensures { IfOk result (λ legs. Delivers problem.now legs way.now.amount) }
{
    let d = part_amount(problem, part);
    let x = sixteenths(d, way.k as usize);
    let mut legs = Vec::new(alloc);
    push_legs(problem, &paths[way.first], x, &mut legs)?;
    let Some(second) = way.second else {
        return Ok(LegList::from_vec(legs));
    };
    push_legs(problem, &paths[second], d - x, &mut legs)?;
    Ok(LegList::from_vec(legs))
}
