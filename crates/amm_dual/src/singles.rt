//! What all pools are worth after moves of one token, each worked out once while the prices stay.
ghost use Rattle.std.specs.Prelude.{◌≡◌, ◌+◌, ◌*◌, ◌<◌, ◌≤◌, ◌^◌, ℕ, List, IfOk, length, slice_index_or, slice_set};
ghost use Rattle.amm_model.specs.Routing.{IsOpenProblem};
ghost use Rattle.amm_dual.specs.Singles.{AreSingles, no_single, worths_at};

use crate::changes::{Change, Changes};
use crate::running::Running;
use amm_model::{Memory, OpenProblem};
use std::alloc::Global;

// Moves of one token: up and down by sixteen steps.
const SLOTS: usize = 32;

/// What all pools are worth where one token has another price. A price of 0: nothing is kept.
#[derive(Clone, Copy, Drop)]
pub struct Single {
    pub price: u64,
    pub worths: u128,
}

const NO_SINGLE: Single = Single {
    price: 0,
    worths: 0,
};

/// Nothing kept, of any token of the problem.
pub fn no_singles(alloc: Global, problem: &OpenProblem) -> Result<Vec<Single>, Memory>
    ensures { IfOk result (λ singles. (prices : List ℕ) → AreSingles problem.now prices singles.items) }
{
    let _few = problem.target();
    let mut singles = Vec::new(alloc);
    for _ in 0..SLOTS * problem.tokens().len() {
        singles.push(NO_SINGLE)?;
    }
    Ok(singles)
}

/// Keeps nothing any more, and so nothing that is wrong at other prices.
pub fn forget(running: &Running<'_>, singles: &mut [Single])
    requires many { length singles.old ≡ 32 * length running.now.problem.tokens }
    ensures { AreSingles running.now.problem running.now.prices singles.new }
{
    for j in 0..singles.len() {
        singles[j] = NO_SINGLE;
    }
}

/// What all pools are worth after one change: as kept in the slot, or worked out and kept there.
pub fn worths_after_one(
    running: &Running<'_>,
    singles: &mut [Single],
    change: Change,
    slot: usize,
) -> u128
    requires place { change.place < length running.now.problem.tokens }
    requires price { (1 ≤ change.price) × (change.price < 2 ^ 40) }
    requires slot { slot < 32 }
    requires singles { AreSingles running.now.problem running.now.prices singles.old }
    ensures singles { AreSingles running.now.problem running.now.prices singles.new }
    ensures value { result ≡ worths_at running.now.problem (slice_set running.now.prices change.place change.price) }
    ensures below { result < 2 ^ 107 + 1 }
{
    let _ranges = running.problem();
    let at = change.place * SLOTS + slot;
    let kept = singles[at];
    if kept.price == change.price {
        return kept.worths;
    }
    let worths = running.pools_after(Changes {
        first: change,
        second: change,
    });
    singles[at] = Single {
        price: change.price,
        worths,
    };
    worths
}
