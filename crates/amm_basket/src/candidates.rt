//! What the parts of a problem give: the best of them alone, and all of them in turn.
ghost use Rattle.std.specs.Prelude.{◌≡◌, ◌<◌, IfOk, length, map, slice_index_or};
ghost use Rattle.amm_model.specs.Paths.{AreAllPaths};
ghost use Rattle.amm_graph.specs.Hops.{hops_of};
ghost use Rattle.amm_basket.specs.Candidates.{AreCandidates, no_part};

use crate::alone::best_alone;
use crate::in_turn::{rows_of_part, sell, sell_in_eighths};
use amm_graph::{Path, paths_between};
use amm_model::{LegList, Memory, OpenProblem};
use amm_split::{Delivery, no_legs};
use std::alloc::Global;

/// Candidates for a basket's route.
#[derive(Drop)]
pub struct Candidates {
    /// The best one-way or two-way value of all parts, and its legs.
    pub alone: Delivery,
    /// The legs of all parts in turn, each whole on its best way.
    pub in_turn: LegList,
    /// Legs of all parts in turn, each in eighths: they may be anything.
    pub in_eighths: LegList,
}

/// What the parts give, each over all its paths.
pub fn candidates_of(alloc: Global, problem: &OpenProblem) -> Result<Candidates, Memory>
    ensures { IfOk result (λ candidates. AreCandidates problem.now candidates) }
{
    let parts = problem.parts();
    let mut alone = no_legs(alloc, problem);
    let mut whole = Vec::new(alloc);
    let mut used = Vec::new(alloc);
    let mut eighths = Vec::new(alloc);
    let mut taken = Vec::new(alloc);
    for i in 0..parts.len() {
        let part = &parts[i];
        let paths = paths_of_part(alloc, problem, i)?;
        let rows = rows_of_part(alloc, problem, part, &paths)?;
        alone = best_alone(alloc, problem, part, &paths, alone)?;
        sell(problem, part, &paths, &rows, &mut whole, &mut used)?;
        sell_in_eighths(problem, part, &paths, &rows, &mut eighths, &mut taken)?;
    }
    Ok(Candidates {
        alone,
        in_turn: LegList::from_vec(whole),
        in_eighths: LegList::from_vec(eighths),
    })
}

// All paths from a part's token to the target.
fn paths_of_part(alloc: Global, problem: &OpenProblem, i: usize) -> Result<Vec<Path>, Memory>
    requires { i < length problem.now.parts }
    ensures { IfOk result (λ paths. AreAllPaths problem.now.pools (slice_index_or problem.now.parts i no_part).token problem.now.t (map hops_of paths.items)) }
{
    let places = problem.part_places();
    paths_between(alloc, problem, places[i], problem.target())
}
