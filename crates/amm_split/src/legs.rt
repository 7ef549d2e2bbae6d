//! The legs of paths.
ghost use Rattle.std.specs.Prelude.{◌≡◌, ◌<◌, ◌≤◌, ◌^◌, ◌++◌, ◌∷◌, [], All, IfOk, length};
ghost use Rattle.amm_model.specs.Paths.{IsHop, hop_gives as hop_gives_of, hop_places, leg_of_hop, legs_along};
ghost use Rattle.amm_graph.specs.Hops.{hops_of};

use amm_graph::{Path, gives};
use amm_model::{Hop, Leg, Memory, OpenProblem};

/// Adds the legs of a path for `x`.
pub fn push_legs(
    problem: &OpenProblem,
    path: &Path,
    x: u64,
    legs: &mut Vec<Leg>,
) -> Result<(), Memory>
    requires short { (1 ≤ length (hops_of path.now)) × (length (hops_of path.now) ≤ 3) }
    requires over { All (IsHop problem.now.pools) (hops_of path.now) }
    requires input { x < 2 ^ 52 }
    ensures { IfOk result (λ _. legs.new.items ≡ legs.old.items ++ legs_along problem.now.pools (hops_of path.now) x) }
{
    let second = push_leg(problem, path.hop0, x, legs)?;
    if path.count == 1 {
        return Ok(());
    }
    let third = push_leg(problem, path.hop1, second, legs)?;
    if path.count == 2 {
        return Ok(());
    }
    push_leg(problem, path.hop2, third, legs)?;
    Ok(())
}

// Adds the leg of a hop for `x`, and answers what it gives.
fn push_leg(problem: &OpenProblem, hop: Hop, x: u64, legs: &mut Vec<Leg>) -> Result<u64, Memory>
    requires hop { IsHop problem.now.pools hop }
    requires input { x < 2 ^ 52 }
    ensures legs { IfOk result (λ _. legs.new.items ≡ legs.old.items ++ leg_of_hop problem.now.pools hop x ∷ []) }
    ensures value { IfOk result (λ y. y ≡ hop_gives_of problem.now.pools hop x) }
    ensures below { IfOk result (λ y. y < 2 ^ 52) }
{
    let output = hop_gives(problem, hop, x);
    legs.push(Leg {
        pool: hop.pool,
        zero_in: hop.zero_in,
        input: x,
        output,
    })?;
    Ok(output)
}

// What a hop gives: what the path of this one hop does.
fn hop_gives(problem: &OpenProblem, hop: Hop, x: u64) -> u64
    requires hop { IsHop problem.now.pools hop }
    requires input { x < 2 ^ 52 }
    ensures value { result ≡ hop_gives_of problem.now.pools hop x }
    ensures below { result < 2 ^ 48 }
{
    let path = Path::empty().with(hop);
    gives(problem, &path, x)
}

/// Adds the places of a path's pools.
pub fn push_places(path: &Path, used: &mut Vec<u32>) -> Result<(), Memory>
    requires short { (1 ≤ length (hops_of path.now)) × (length (hops_of path.now) ≤ 3) }
    ensures { IfOk result (λ _. used.new.items ≡ used.old.items ++ hop_places (hops_of path.now)) }
{
    used.push(path.hop0.pool)?;
    if path.count == 1 {
        return Ok(());
    }
    used.push(path.hop1.pool)?;
    if path.count == 2 {
        return Ok(());
    }
    used.push(path.hop2.pool)?;
    Ok(())
}
