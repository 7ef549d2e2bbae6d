//! The best cycle of a search, and the best input of a cycle.
//!
//! What a cycle brings more than it takes is nearly concave in what it takes: nearly, since amounts
//! are whole. So its greatest profit is at most twice that on its best power of two, and steps that
//! are halved lead from there to the best input. Each is judged by what the pools pay.
ghost use Rattle.std.specs.Prelude.{◌≡◌, ◌<◌, ◌≤◌, ◌^◌};
ghost use Rattle.amm_model.specs.Cycles.{IsCycle};
ghost use Rattle.amm_cycle.specs.Chains.{AreGiven, IsFound, IsMost, IsStanding, hops_of};

use crate::chain::Chain;
use crate::powers::Powers;
use amm_model::OpenProblem;

// Inputs are below this.
const INPUT_LIMIT: u64 = 0x10_0000_0000_0000;

// How far from the best input of the search others are tried one by one.
const REACH: u64 = 256;

/// A cycle, what goes in, and the profit on it; no profit: no cycle.
#[derive(Clone, Copy, Drop)]
pub struct Found {
    pub profit: u64,
    pub x: u64,
    pub chain: Chain,
}

impl Found {
    /// No cycle.
    pub fn none() -> Found
        ensures { result.profit ≡ 0 }
    {
        Found {
            profit: 0,
            x: 0,
            chain: Chain::empty(),
        }
    }
}

/// The better of what is kept and of a cycle, whose gifts on the powers of two are known.
pub fn judged(problem: &OpenProblem, chain: &Chain, powers: &Powers, kept: Found) -> Found
    requires short { chain.now.count ≤ 4 }
    requires cycle { IsCycle problem.now.pools problem.now.t (hops_of chain.now) }
    requires powers { AreGiven problem.now.pools (hops_of chain.now) powers.now.amounts }
    requires kept { IsFound problem.now.pools problem.now.t kept }
    ensures found { IsFound problem.now.pools problem.now.t result }
    ensures more { kept.profit ≤ result.profit }
    ensures most { IsMost problem.now.pools (hops_of chain.now) result.profit }
{
    let peak = powers.peak();
    if peak.gain == 0 || peak.gain < kept.profit / 2 {
        return kept;
    }
    let start = Found {
        profit: peak.gain,
        x: peak.x,
        chain: *chain,
    };
    let best = climbed(problem, start);
    if best.profit > kept.profit {
        best
    } else {
        kept
    }
}

// The cycle on an input with no less profit: a step up or down while it brings more, and then half
// the step.
fn climbed(problem: &OpenProblem, start: Found) -> Found
    requires start { IsStanding problem.now.pools problem.now.t start }
    ensures found { IsStanding problem.now.pools problem.now.t result }
    ensures more { start.profit ≤ result.profit }
{
    let mut best = start;
    let mut step = start.x;
    for _ in 0..52 {
        step /= 2;
        if step == 0 {
            return best;
        }
        best = stepped(problem, best, step);
    }
    best
}

/// The cycle on the best of the inputs beside this one. Halved steps end where rounding makes a
/// small peak, often a unit below the greatest profit.
pub fn polished(problem: &OpenProblem, start: Found) -> Found
    requires start { IsStanding problem.now.pools problem.now.t start }
    ensures found { IsStanding problem.now.pools problem.now.t result }
    ensures more { start.profit ≤ result.profit }
{
    let least = start.x.saturating_sub(REACH);
    let mut best = start;
    for distance in 0..=2 * REACH {
        best = tried(problem, best, least + distance);
    }
    best
}

// A step up if it brings more, else one down if that does.
fn stepped(problem: &OpenProblem, best: Found, step: u64) -> Found
    requires step { step < 2 ^ 52 }
    requires best { IsStanding problem.now.pools problem.now.t best }
    ensures found { IsStanding problem.now.pools problem.now.t result }
    ensures more { best.profit ≤ result.profit }
{
    let up = tried(problem, best, best.x + step);
    if up.profit > best.profit {
        return up;
    }
    tried(problem, best, best.x.saturating_sub(step))
}

// The cycle on this input, if it brings more there.
fn tried(problem: &OpenProblem, best: Found, x: u64) -> Found
    requires best { IsStanding problem.now.pools problem.now.t best }
    ensures found { IsStanding problem.now.pools problem.now.t result }
    ensures more { best.profit ≤ result.profit }
{
    if x >= INPUT_LIMIT {
        return best;
    }
    let profit = best.chain.gives(problem, x).saturating_sub(x);
    if profit <= best.profit {
        return best;
    }
    Found {
        profit,
        x,
        chain: best.chain,
    }
}
