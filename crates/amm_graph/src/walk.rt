//! The walk that finds all paths: hop by hop, at each token the pools in their order.
ghost use Rattle.std.specs.Prelude.{◌≡◌, ◌<◌, ◌-◌, ◌++◌, [], IfNone, IfOk, IfSome, None, Some, length, map, slice_index_or};
ghost use Rattle.amm_model.specs.Routing.{IsOpenProblem};
ghost use Rattle.amm_model.specs.Paths.{hop_to};
ghost use Rattle.amm_graph.specs.Hops.{hops_of};
ghost use Rattle.amm_graph.specs.Ways.{behind, hop_over, is_admissible, through, ways};

use crate::Path;
use amm_model::limits::RESERVE_LIMIT;
use amm_model::{Hop, Memory, OpenProblem, ProblemPool};

/// The places of the tokens between which paths are sought.
#[derive(Clone, Copy, Drop)]
pub struct Ends {
    pub from: usize,
    pub to: usize,
}

/// Adds the paths that begin with these hops, which lead to the token at the place.
#[cycle(walk)]
pub fn extend(
    problem: &OpenProblem,
    ends: Ends,
    begun: &Path,
    at: usize,
    found: &mut Vec<Path>,
) -> Result<(), Memory>
    requires short { begun.now.count < 3 }
    requires from { ends.from < length problem.now.tokens }
    requires to { ends.to < length problem.now.tokens }
    requires at { at < length problem.now.tokens }
    ensures { IfOk result (λ _. map hops_of found.new.items ≡ map hops_of found.old.items
        ++ behind (hops_of begun.now) (ways (3 - begun.now.count) problem.now.pools (slice_index_or problem.now.tokens ends.from []) (slice_index_or problem.now.tokens ends.to []) (slice_index_or problem.now.tokens at []))) }
{
    let pools = problem.pools();
    for i in 0..pools.len() {
        follow(problem, ends, begun, at, i, found)?;
    }
    Ok(())
}

// Adds those whose next hop is over the pool at a place.
#[cycle(walk)]
fn follow(
    problem: &OpenProblem,
    ends: Ends,
    begun: &Path,
    at: usize,
    i: usize,
    found: &mut Vec<Path>,
) -> Result<(), Memory>
    requires short { begun.now.count < 3 }
    requires from { ends.from < length problem.now.tokens }
    requires to { ends.to < length problem.now.tokens }
    requires at { at < length problem.now.tokens }
    requires pool { i < length problem.now.pools }
    ensures { IfOk result (λ _. map hops_of found.new.items ≡ map hops_of found.old.items
        ++ behind (hops_of begun.now) (through (ways (2 - begun.now.count) problem.now.pools (slice_index_or problem.now.tokens ends.from []) (slice_index_or problem.now.tokens ends.to []))
        problem.now.pools (slice_index_or problem.now.tokens ends.from []) (slice_index_or problem.now.tokens ends.to []) (slice_index_or problem.now.tokens at []) i)) }
{
    let Some((hop, next)) = side(problem, at, i) else {
        return Ok(());
    };
    let longer = begun.with(hop);
    if next == ends.to {
        found.push(longer)?;
        return Ok(());
    }
    if next == ends.from || longer.count == 3 {
        return Ok(());
    }
    extend(problem, ends, &longer, next, found)?;
    Ok(())
}

/// The hop over the pool at a place from a token, and the place of the token that it leads to; None
/// where the pool is not admissible or does not have the token.
pub fn side(problem: &OpenProblem, at: usize, i: usize) -> Option<(Hop, usize)>
    requires at { at < length problem.now.tokens }
    requires pool { i < length problem.now.pools }
    ensures sound { IsOpenProblem problem.now }
    ensures none { IfNone result (hop_over problem.now.pools (slice_index_or problem.now.tokens at []) i ≡ None) }
    ensures some { IfSome result (λ found. (hop_over problem.now.pools (slice_index_or problem.now.tokens at []) i ≡ Some found.0)
        × (slice_index_or problem.now.tokens found.1 [] ≡ hop_to problem.now.pools found.0) × (found.1 < length problem.now.tokens)) }
{
    let pools = problem.pools();
    if !is_admissible(&pools[i]) {
        return None;
    }
    let places = problem.places();
    let sides = places[i];
    let pool = i as u32;
    if at == sides.zero {
        return Some((
            Hop {
                pool,
                zero_in: true,
            },
            sides.one,
        ));
    }
    if at == sides.one {
        return Some((
            Hop {
                pool,
                zero_in: false,
            },
            sides.zero,
        ));
    }
    None
}

// Whether both balances have room for an update.
fn is_admissible(pool: &ProblemPool) -> bool
    ensures { result ≡ is_admissible pool.now }
{
    pool.b0 <= RESERVE_LIMIT && pool.b1 <= RESERVE_LIMIT
}
