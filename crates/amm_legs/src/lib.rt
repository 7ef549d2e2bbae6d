//! What a leg-by-leg route delivers, if it is one.
//!
//! `legs_delivered` judges any list of legs over a problem in one pass and without memory: what it
//! holds of each token stands at the token's place. A router's proposal, a kept quote and a
//! certificate are all judged by it.
#![tactic(auto)]

mod progress;

ghost use Rattle.std.specs.Prelude.{◌≡◌, [], MatchOption};
ghost use Rattle.amm_model.specs.Routing.{amount_given, open_view};
ghost use Rattle.amm_model.specs.Legs.{AreLegs, Delivers};

use amm_model::{Leg, OpenProblem, Problem};
use progress::Progress;

/// How many units of the problem's target the legs deliver; None exactly where they are no
/// leg-by-leg route of the problem. Any list may be given.
pub fn legs_delivered(problem: &Problem, legs: &[Leg]) -> Option<u64>
    ensures { MatchOption result (¬ AreLegs problem.now.pools [] (amount_given (open_view problem.now)) legs.now) (λ amount. Delivers (open_view problem.now) legs.now amount) }
{
    open_legs_delivered(problem.as_open(), legs)
}

/// The same of a problem of any parts: the legs start with all of them.
pub fn open_legs_delivered(problem: &OpenProblem, legs: &[Leg]) -> Option<u64>
    ensures { MatchOption result (¬ AreLegs problem.now.pools [] (amount_given problem.now) legs.now) (λ amount. Delivers problem.now legs.now amount) }
{
    let mut progress = Progress::start(problem);
    for i in 0..legs.len() {
        if !progress.take(problem, legs, i) {
            return None;
        }
    }
    Some(progress.held_of_target(problem, legs))
}
