//! The walk over all cycles: hop by hop, at each token the pools in their order.
ghost use Rattle.std.specs.Prelude.{◌≡◌, ◌<◌, ◌≤◌, ◌++◌, ◌∷◌, [], ℕ, List, length, slice_index_or};
ghost use Rattle.amm_model.specs.declared.route.Hop as hop_view;
ghost use Rattle.amm_model.specs.Paths.{hop_to};
ghost use Rattle.amm_model.specs.Cycles.{IsCycle, IsCycleValue};
ghost use Rattle.amm_cycle.specs.Chains.{AreGiven, IsBegun, IsFound, IsMost, IsMostBelow, IsMostOver, hops_of};

use crate::chain::Chain;
use crate::found::{Found, judged};
use crate::powers::Powers;
use crate::reach::is_within;
use amm_graph::side;
use amm_model::{Hop, OpenProblem};

// A cycle has at most so many hops.
const MOST_HOPS: u8 = 4;

/// The best cycle of the problem, none with less profit than a cycle value.
pub fn best_cycle(problem: &OpenProblem) -> Found
    ensures found { IsFound problem.now.pools problem.now.t result }
    ensures most { (value : ℕ) → IsCycleValue problem.now.pools problem.now.t value → value ≤ result.profit }
{
    let target = problem.target();
    extend(
        problem,
        &Chain::empty(),
        target,
        &Powers::start(),
        Found::none(),
    )
}

// The better of what is kept and of the cycles that begin with these hops, which lead to the token
// at the place.
#[cycle(walk)]
fn extend(problem: &OpenProblem, begun: &Chain, at: usize, powers: &Powers, kept: Found) -> Found
    requires short { begun.now.count < 4 }
    requires at { at < length problem.now.tokens }
    requires begun { IsBegun problem.now.pools problem.now.t (slice_index_or problem.now.tokens at []) (hops_of begun.now) }
    requires powers { AreGiven problem.now.pools (hops_of begun.now) powers.now.amounts }
    requires kept { IsFound problem.now.pools problem.now.t kept }
    ensures found { IsFound problem.now.pools problem.now.t result }
    ensures more { kept.profit ≤ result.profit }
    ensures most { IsMostBelow problem.now.pools problem.now.t (hops_of begun.now) result.profit (length problem.now.pools) }
{
    let mut best = kept;
    for i in 0..problem.pools().len() {
        best = over(problem, begun, at, i, powers, best);
    }
    best
}

// Of those whose next hop is over the pool at a place.
#[cycle(walk)]
fn over(
    problem: &OpenProblem,
    begun: &Chain,
    at: usize,
    i: usize,
    powers: &Powers,
    kept: Found,
) -> Found
    requires short { begun.now.count < 4 }
    requires at { at < length problem.now.tokens }
    requires pool { i < length problem.now.pools }
    requires begun { IsBegun problem.now.pools problem.now.t (slice_index_or problem.now.tokens at []) (hops_of begun.now) }
    requires powers { AreGiven problem.now.pools (hops_of begun.now) powers.now.amounts }
    requires kept { IsFound problem.now.pools problem.now.t kept }
    ensures found { IsFound problem.now.pools problem.now.t result }
    ensures more { kept.profit ≤ result.profit }
    ensures most { IsMostOver problem.now.pools problem.now.t (hops_of begun.now) result.profit i }
{
    let Some((hop, next)) = side(problem, at, i) else {
        return kept;
    };
    if !begun.is_apart(problem, hop, next) {
        return kept;
    }
    follow(problem, begun, hop, next, powers, kept)
}

// Of those that go on with this hop, which leads to the token at the place.
#[cycle(walk)]
fn follow(
    problem: &OpenProblem,
    begun: &Chain,
    hop: Hop,
    next: usize,
    powers: &Powers,
    kept: Found,
) -> Found
    requires short { begun.now.count < 4 }
    requires next { next < length problem.now.tokens }
    requires leads { slice_index_or problem.now.tokens next [] ≡ hop_to problem.now.pools hop }
    requires begun { IsBegun problem.now.pools problem.now.t (hop_to problem.now.pools hop) (hops_of begun.now ++ hop ∷ []) }
    requires powers { AreGiven problem.now.pools (hops_of begun.now) powers.now.amounts }
    requires kept { IsFound problem.now.pools problem.now.t kept }
    ensures found { IsFound problem.now.pools problem.now.t result }
    ensures more { kept.profit ≤ result.profit }
    ensures most { (rest : List hop_view.Hop) → IsCycle problem.now.pools problem.now.t (hops_of begun.now ++ hop ∷ rest) → IsMost problem.now.pools (hops_of begun.now ++ hop ∷ rest) result.profit }
{
    if next == problem.target() {
        return closed(problem, begun, hop, powers, kept);
    }
    let longer = begun.with(hop);
    if longer.count == MOST_HOPS {
        return kept;
    }
    let given = powers.with(problem, hop);
    extend(problem, &longer, next, &given, kept)
}

// The better of what is kept and of the cycle that this hop closes, of which nothing is worked out
// where on no power of two it can bring half as much.
fn closed(problem: &OpenProblem, begun: &Chain, hop: Hop, powers: &Powers, kept: Found) -> Found
    requires short { begun.now.count < 4 }
    requires cycle { IsCycle problem.now.pools problem.now.t (hops_of begun.now ++ hop ∷ []) }
    requires powers { AreGiven problem.now.pools (hops_of begun.now) powers.now.amounts }
    requires kept { IsFound problem.now.pools problem.now.t kept }
    ensures found { IsFound problem.now.pools problem.now.t result }
    ensures more { kept.profit ≤ result.profit }
    ensures most { IsMost problem.now.pools (hops_of begun.now ++ hop ∷ []) result.profit }
{
    // Where some power brings half of what is kept, an input between the powers may bring more.
    let most = (kept.profit / 2).saturating_sub(1);
    if is_within(problem, powers, hop, most) {
        return kept;
    }
    let longer = begun.with(hop);
    let given = powers.with(problem, hop);
    judged(problem, &longer, &given, kept)
}
