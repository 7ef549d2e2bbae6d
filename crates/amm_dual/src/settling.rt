//! Settled prices of any problem.
//!
//! The plan's prices are the start. Where its legs deliver all but one part in 65536 of the bound
//! at them, they are settled at once: no prices bring the bound below what a route delivers. Else
//! the prices go down, one at a time and then by moves, until no move helps.
ghost use Rattle.std.specs.Prelude.{◌≡◌, ◌+◌, ◌/◌, ◌≤◌, ◌^◌, IfOk, length, true};
ghost use Rattle.amm_model.specs.Routing.{open_view};
ghost use Rattle.amm_model.specs.Bound.{price_of};
ghost use Rattle.amm_model.specs.Settled.{IsSettled};

use crate::descent::descended;
use crate::plan::{Plan, planned};
use amm_bound::open_bound;
use amm_legs::open_legs_delivered;
use amm_model::{Leg, Memory, OpenProblem, Prices, Problem};
use std::alloc::Global;

// The price of the target.
const UNIT: u64 = 0x10_0000;

/// Settled prices: one for each token of the problem, 2^20 for the target.
pub fn search(alloc: Global, problem: &Problem) -> Result<Prices, Memory>
    ensures { IfOk result (λ prices. IsSettled (open_view problem.now) prices) }
{
    open_search(alloc, problem.as_open())
}

/// Settled prices of a problem of any parts.
pub fn open_search(alloc: Global, problem: &OpenProblem) -> Result<Prices, Memory>
    ensures { IfOk result (λ prices. IsSettled problem.now prices) }
{
    let plan = planned(alloc, problem)?;
    settle(alloc, problem, &plan)
}

/// Settled prices, found from those of a plan. Its legs may be anything.
pub fn settle(alloc: Global, problem: &OpenProblem, plan: &Plan) -> Result<Prices, Memory>
    requires many { length plan.now.prices ≡ length problem.now.tokens }
    requires unit { price_of problem.now.tokens plan.now.prices problem.now.t ≡ 2 ^ 20 }
    ensures { IfOk result (λ prices. IsSettled problem.now prices) }
{
    if are_settled_by(problem, &plan.prices, plan.legs.as_slice()) {
        return plan.prices.copy(alloc);
    }
    descended(alloc, problem, &plan.prices)
}

/// Whether the legs deliver so much that no prices can have a bound lower by more than one part in
/// 65536: then the prices are settled. A no tells nothing.
pub fn are_settled_by(problem: &OpenProblem, prices: &Prices, legs: &[Leg]) -> bool
    requires { length prices.now ≡ length problem.now.tokens }
    ensures { result ≡ true → IsSettled problem.now prices.now }
{
    let list = prices.as_slice();
    if list[problem.target()] != UNIT {
        return false;
    }
    let Some(delivered) = open_legs_delivered(problem, legs) else {
        return false;
    };
    let bound = open_bound(problem, prices);
    is_near(bound, delivered)
}

// Whether what is delivered is all but one part in 65536 of the bound.
fn is_near(bound: u128, delivered: u64) -> bool
    ensures { result ≡ true → bound ≤ delivered + bound / 65536 }
{
    bound <= delivered as u128 + bound / 65536
}
