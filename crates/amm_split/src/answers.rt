//! The answer to a split.
ghost use Rattle.std.specs.Prelude.{◌≡◌, IfOk, MatchOption, map};
ghost use Rattle.amm_model.specs.Paths.{AreAllPaths};
ghost use Rattle.amm_model.specs.SplitAnswers.{HasNoRoute, IsSplitAnswer};
ghost use Rattle.amm_graph.specs.Hops.{hops_of};
ghost use Rattle.amm_model.specs.Routing.{open_view};
ghost use Rattle.amm_split.specs.Deliveries.{IsBestOfWays, source_part as source_part_of};

use crate::deliveries::{Delivery, best_of};
use crate::rounding::rounded;
use crate::source::source_part;
use crate::ways::best_of_ways;
use amm_bound::bound;
use amm_dual::{planned, settle};
use amm_graph::{Path, paths};
use amm_model::{Memory, Problem, Quote, Route};
use std::alloc::Global;

/// A quote that answers the split of the problem; None exactly where nothing can be routed.
pub fn split(alloc: Global, problem: &Problem) -> Result<Option<Quote>, Memory>
    ensures { IfOk result (λ found. MatchOption found (HasNoRoute problem.now) (λ quote. (quote.problem ≡ problem.now) × (¬ HasNoRoute problem.now) × IsSplitAnswer quote)) }
{
    let all = paths(alloc, problem)?;
    let Some(found) = best_of_ways(alloc, problem.as_open(), source_part(problem), &all)? else {
        return Ok(None);
    };
    let quote = quoted(alloc, problem, &all, found)?;
    Ok(Some(quote))
}

// The quote of settled prices and of the best of all routes that are known.
fn quoted(
    alloc: Global,
    problem: &Problem,
    paths: &[Path],
    found: Delivery,
) -> Result<Quote, Memory>
    requires paths { AreAllPaths problem.now.pools problem.now.s problem.now.t (map hops_of paths.now) }
    requires found { IsBestOfWays (open_view problem.now) (source_part_of problem.now) found }
    ensures problem { IfOk result (λ quote. quote.problem ≡ problem.now) }
    ensures answer { IfOk result (λ quote. IsSplitAnswer quote) }
{
    let _sound = problem.d();
    let plan = planned(alloc, problem.as_open())?;
    let prices = settle(alloc, problem.as_open(), &plan)?;
    let kept = best_of(problem.as_open(), found, plan.legs);
    let best = rounded(alloc, problem, paths, &prices, kept)?;
    Ok(Quote {
        problem: problem.copy(alloc)?,
        bound: bound(problem, &prices),
        prices,
        route: Route { legs: best.legs },
        delivered: best.amount,
    })
}
