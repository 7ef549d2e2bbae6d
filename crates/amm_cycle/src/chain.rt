//! At most four hops, one after the other.
ghost use Rattle.std.specs.Prelude.{◌≡◌, ◌<◌, ◌≤◌, ◌+◌, ◌++◌, ◌∷◌, ◌^◌, [], All, length, slice_index_or, true, false};
ghost use Rattle.amm_model.specs.Routing.{IsOpenProblem};
ghost use Rattle.amm_model.specs.Paths.{IsHop, gives, hop_to};
ghost use Rattle.amm_cycle.specs.Chains.{IsApart, hops_of};

use amm_graph::hop_at;
use amm_model::{Hop, OpenProblem};

/// Hops, of which those past `count` mean nothing.
#[derive(Clone, Copy, Drop)]
pub struct Chain {
    pub count: u8,
    pub hops: [Hop; 4],
}

// Stands where a chain has no hop.
const NO_HOP: Hop = Hop {
    pool: 0,
    zero_in: false,
};

impl Chain {
    /// No hop yet.
    pub fn empty() -> Chain
        ensures hops { hops_of result ≡ [] }
        ensures count { result.count ≡ 0 }
    {
        Chain {
            count: 0,
            hops: [NO_HOP; 4],
        }
    }

    /// One hop more.
    pub fn with(&self, hop: Hop) -> Chain
        requires { self.now.count < 4 }
        ensures hops { hops_of result ≡ hops_of self.now ++ hop ∷ [] }
        ensures count { result.count ≡ self.now.count + 1 }
        ensures long { length (hops_of result) ≡ result.count }
    {
        let mut hops = self.hops;
        hops[self.count as usize] = hop;
        Chain {
            count: self.count + 1,
            hops,
        }
    }

    /// Whether none of the hops is over the pool of this one or leads to the token at the place,
    /// to which this one leads.
    pub fn is_apart(&self, problem: &OpenProblem, hop: Hop, next: usize) -> bool
        requires short { self.now.count ≤ 4 }
        requires over { All (IsHop problem.now.pools) (hops_of self.now) }
        requires there { next < length problem.now.tokens }
        requires next { slice_index_or problem.now.tokens next [] ≡ hop_to problem.now.pools hop }
        ensures yes { result ≡ true → All (IsApart problem.now.pools hop) (hops_of self.now) }
        ensures no { result ≡ false → ¬ All (IsApart problem.now.pools hop) (hops_of self.now) }
    {
        for k in 0..self.count as usize {
            let passed = self.hops[k];
            if passed.pool == hop.pool || leads_to(problem, passed) == next {
                return false;
            }
        }
        true
    }

    /// What the hops give for `x`, 0 where they give nothing.
    pub fn gives(&self, problem: &OpenProblem, x: u64) -> u64
        requires short { self.now.count ≤ 4 }
        requires over { All (IsHop problem.now.pools) (hops_of self.now) }
        requires input { x < 2 ^ 52 }
        ensures value { result ≡ gives problem.now.pools (hops_of self.now) x }
        ensures below { result < 2 ^ 52 }
    {
        let mut amount = x;
        for k in 0..self.count as usize {
            amount = hop_at(problem, self.hops[k], amount);
        }
        amount
    }
}

// The place of the token that a hop leads to.
fn leads_to(problem: &OpenProblem, hop: Hop) -> usize
    requires { hop.pool < length problem.now.pools }
    ensures sound { IsOpenProblem problem.now }
    ensures name { slice_index_or problem.now.tokens result [] ≡ hop_to problem.now.pools hop }
    ensures there { result < length problem.now.tokens }
{
    let places = problem.places();
    let sides = places[hop.pool as usize];
    if hop.zero_in { sides.one } else { sides.zero }
}
