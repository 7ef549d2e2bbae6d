//! The routing problem of a ledger, and paths over the pools of a problem with what they give.
#![tactic(auto)]

mod amounts;
mod market;
mod path;
mod walk;

ghost use Rattle.std.specs.Prelude.{◌≡◌, ◌≢◌, ◌<◌, [], IfOk, length, map, slice_index_or};
ghost use Rattle.amm_model.specs.Paths.{AreAllPaths};
ghost use Rattle.amm_graph.specs.Hops.{hops_of};

use amm_model::{Memory, OpenProblem, Problem};
pub use amounts::{along, gives, hop_at};
pub use market::{open_problem, open_problem_of_book, problem, problem_of_book};
pub use path::Path;
use std::alloc::Global;
pub use walk::side;
use walk::{Ends, extend};

/// All paths of the problem, in the order of the places of their pools.
pub fn paths(alloc: Global, problem: &Problem) -> Result<Vec<Path>, Memory>
    ensures { IfOk result (λ paths. AreAllPaths problem.now.pools problem.now.s problem.now.t (map hops_of paths.items)) }
{
    let general = problem.as_open();
    let places = general.part_places();
    paths_between(alloc, general, places[0], general.target())
}

/// All paths from the token at one place to the token at another, in the order of the places of
/// their pools.
pub fn paths_between(
    alloc: Global,
    problem: &OpenProblem,
    from: usize,
    to: usize,
) -> Result<Vec<Path>, Memory>
    requires apart { from ≢ to }
    requires from { from < length problem.now.tokens }
    requires to { to < length problem.now.tokens }
    ensures { IfOk result (λ paths. AreAllPaths problem.now.pools (slice_index_or problem.now.tokens from []) (slice_index_or problem.now.tokens to []) (map hops_of paths.items)) }
{
    let _sound = problem.target();
    let mut found = Vec::new(alloc);
    extend(problem, Ends { from, to }, &Path::empty(), from, &mut found)?;
    Ok(found)
}
