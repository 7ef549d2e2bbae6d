//! What hops give on the powers of two: worked out once for all cycles that begin with them.
ghost use Rattle.std.specs.Prelude.{◌≡◌, ◌<◌, ◌≤◌, ◌-◌, ◌^◌, [], ℕ, List, length, slice_index};
ghost use Rattle.amm_model.specs.declared.problem.ProblemPool as pool_view;
ghost use Rattle.amm_model.specs.Paths.{hop_gives};
ghost use Rattle.amm_cycle.specs.Chains.{AreGiven};

use amm_graph::hop_at;
use amm_model::{Hop, OpenProblem};

/// What some hops give on 2^0 to 2^51.
#[derive(Clone, Copy, Drop)]
pub struct Powers {
    pub amounts: [u64; 52],
}

/// A power of two, and how much more than it hops bring; 0 where they bring no more.
#[derive(Clone, Copy, Drop)]
pub struct Peak {
    pub x: u64,
    pub gain: u64,
}

impl Powers {
    /// The powers themselves: what no hop gives.
    pub fn start() -> Powers
        ensures { (pools : List pool_view.ProblemPool) → AreGiven pools [] result.amounts }
    {
        let mut amounts = [0; 52];
        for e in 0..52 {
            amounts[e] = 1u64 << e;
        }
        Powers { amounts }
    }

    /// What they give with one hop more.
    pub fn with(&self, problem: &OpenProblem, hop: Hop) -> Powers
        requires there { hop.pool < length problem.now.pools }
        requires long { length self.now.amounts ≡ 52 }
        requires below { (e : ℕ) → e < 52 → slice_index self.now.amounts e < 2 ^ 52 }
        ensures long { length result.amounts ≡ 52 }
        ensures each { (e : ℕ) → e < 52 → slice_index result.amounts e ≡ hop_gives problem.now.pools hop (slice_index self.now.amounts e) }
        ensures below { (e : ℕ) → e < 52 → slice_index result.amounts e < 2 ^ 52 }
    {
        let mut amounts = [0; 52];
        for e in 0..52 {
            amounts[e] = hop_at(problem, hop, self.amounts[e]);
        }
        Powers { amounts }
    }

    /// The power on which they bring most.
    pub fn peak(&self) -> Peak
        requires long { length self.now.amounts ≡ 52 }
        requires below { (e : ℕ) → e < 52 → slice_index self.now.amounts e < 2 ^ 52 }
        ensures most { (e : ℕ) → e < 52 → slice_index self.now.amounts e - 2 ^ e ≤ result.gain }
        ensures found { 1 ≤ result.gain → (e : ℕ) × (e < 52) × (result.x ≡ 2 ^ e) × (result.gain ≡ slice_index self.now.amounts e - 2 ^ e) }
    {
        let mut best = Peak { x: 1, gain: 0 };
        for e in 0..52 {
            let x = 1u64 << e;
            let gain = self.amounts[e].saturating_sub(x);
            if gain > best.gain {
                best = Peak { x, gain };
            }
        }
        best
    }
}
