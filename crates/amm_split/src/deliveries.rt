//! Legs that deliver something, and the better of two lists of legs.
ghost use Rattle.std.specs.Prelude.{◌≡◌, ◌≤◌, ℕ};
ghost use Rattle.amm_model.specs.Legs.{Delivers};

use amm_legs::open_legs_delivered;
use amm_model::{LegList, OpenProblem};
use std::alloc::Global;

/// Legs, and what they deliver.
#[derive(Drop)]
pub struct Delivery {
    pub legs: LegList,
    pub amount: u64,
}

/// No legs deliver nothing.
pub fn no_legs(alloc: Global, problem: &OpenProblem) -> Delivery
    ensures delivers { Delivers problem.now result.legs result.amount }
    ensures nothing { result.amount ≡ 0 }
{
    let _sound = problem.t();
    Delivery {
        legs: LegList::from_vec(Vec::new(alloc)),
        amount: 0,
    }
}

/// The better of legs that deliver something and of a list of legs that may be anything.
pub fn best_of(problem: &OpenProblem, kept: Delivery, next: LegList) -> Delivery
    requires kept { Delivers problem.now kept.legs kept.amount }
    ensures delivers { Delivers problem.now result.legs result.amount }
    ensures more { kept.amount ≤ result.amount }
    ensures best { (value : ℕ) → Delivers problem.now next value → value ≤ result.amount }
{
    let Some(amount) = open_legs_delivered(problem, next.as_slice()) else {
        return kept;
    };
    if amount <= kept.amount {
        return kept;
    }
    Delivery { legs: next, amount }
}
