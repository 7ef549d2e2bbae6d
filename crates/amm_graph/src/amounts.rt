//! What a path gives.
ghost use Rattle.std.specs.Prelude.{◌≡◌, ◌<◌, ◌≤◌, ◌^◌, All, MatchOption, length};
ghost use Rattle.amm_model.specs.Swap.{IsFee, amount_out_of};
ghost use Rattle.amm_model.specs.Routing.{HasBalances, HasReserves};
ghost use Rattle.amm_model.specs.Paths.{IsHop, IsPath, gives as gives_of, hop_gives as hop_gives_of, side_gives as side_gives_of};
ghost use Rattle.amm_graph.specs.Hops.{hops_of};

use crate::Path;
use amm_model::limits::RESERVE_LIMIT;
use amm_model::{Hop, OpenProblem, Problem};
use amm_pool::amount_out;

/// What the path gives for `x`; None where it gives nothing.
pub fn along(problem: &Problem, path: &Path, x: u64) -> Option<u64>
    requires path { IsPath problem.now.pools problem.now.s problem.now.t (hops_of path.now) }
    requires input { (1 ≤ x) × (x < 2 ^ 52) }
    ensures { MatchOption result (gives_of problem.now.pools (hops_of path.now) x ≡ 0) (λ y. (1 ≤ y) × (y ≡ gives_of problem.now.pools (hops_of path.now) x)) }
{
    let y = gives(problem.as_open(), path, x);
    if y == 0 { None } else { Some(y) }
}

/// What the path gives for `x`, 0 where it gives nothing.
pub fn gives(problem: &OpenProblem, path: &Path, x: u64) -> u64
    requires short { (1 ≤ length (hops_of path.now)) × (length (hops_of path.now) ≤ 3) }
    requires over { All (IsHop problem.now.pools) (hops_of path.now) }
    requires input { x < 2 ^ 52 }
    ensures value { result ≡ gives_of problem.now.pools (hops_of path.now) x }
    ensures below { result < 2 ^ 48 }
{
    let first = hop_at(problem, path.hop0, x);
    if path.count == 1 {
        return first;
    }
    let second = hop_at(problem, path.hop1, first);
    if path.count == 2 {
        return second;
    }
    hop_at(problem, path.hop2, second)
}

/// What a hop gives for `x`, 0 where its pool has no room for it.
pub fn hop_at(problem: &OpenProblem, hop: Hop, x: u64) -> u64
    requires there { hop.pool < length problem.now.pools }
    requires input { x < 2 ^ 52 }
    ensures value { result ≡ hop_gives_of problem.now.pools hop x }
    ensures below { result < 2 ^ 48 }
{
    let pools = problem.pools();
    let pool = &pools[hop.pool as usize];
    let fee = pool.name.fee();
    if hop.zero_in {
        side_gives(fee, pool.b0, pool.r0, pool.r1, x)
    } else {
        side_gives(fee, pool.b1, pool.r1, pool.r0, x)
    }
}

// What a side of a pool pays for `x`, 0 where its balance has no room for it.
fn side_gives(fee: u8, balance: u64, rin: u64, rout: u64, x: u64) -> u64
    requires fee { IsFee fee }
    requires balance { balance < 2 ^ 52 }
    requires reserve_in { (1 ≤ rin) × (rin < 2 ^ 48) }
    requires reserve_out { (1 ≤ rout) × (rout < 2 ^ 48) }
    requires input { x < 2 ^ 52 }
    ensures value { result ≡ side_gives_of fee balance rin rout x }
    ensures below { result < 2 ^ 48 }
{
    if balance + x > RESERVE_LIMIT {
        0
    } else if x == 0 {
        0
    } else {
        amount_out(fee, x, rin, rout)
    }
}
