//! Cycles from nothing: trades performed by loans within loans.
//!
//! A cycle of trades brings its trader more of a token than he puts in, but he needs nothing to
//! begin with: each pool lends its output before it is paid. Within its loan the later trades run,
//! and what they leave pays it; the last output pays the first input. `as_step` writes this as one
//! flash step, and `run_cycle` runs it. The trader's balance of the cycle's token rises by exactly
//! the cycle's profit, whatever he owns, and no other balance of his changes; no code ever comes.
#![tactic(auto)]

ghost use Rattle.std.specs.Prelude.{◌≡◌, List, ℕ, Ok};
ghost use Rattle.amm_model.specs.CommandView.{Move};
ghost use Rattle.amm_model.specs.CycleRuns.{IsCycleGain};
ghost use Rattle.amm_model.specs.Cycles.{IsCycleTrade};
ghost use Rattle.amm_model.specs.declared.reply.Answer as replies;
ghost use Rattle.amm_model.specs.declared.route.OpenQuote as quotes;
ghost use Rattle.amm_model.specs.Ledger.{Ledger};
ghost use Rattle.amm_model.specs.Meaning.{meaning};
ghost use Rattle.amm_model.specs.Outcome.{Made};
ghost use Rattle.amm_model.specs.Routing.{IsOpenProblem};
ghost use Rattle.amm_model.specs.Sound.{IsSound};
ghost use Rattle.amm_loans.specs.Loans.{AreLoansOf, AreReady};

mod cycle;
mod step;

pub use cycle::run_cycle;
pub use step::as_step;

/// The nested loans of a cycle are accepted and bring its profit, whatever the actor owns.
pub fn cycles_need_no_funds()
    ensures { (ledger : Ledger) (actor : List ℕ) (quote : quotes.OpenQuote) (step : Move) →
        IsSound ledger → IsOpenProblem quote.problem → IsCycleTrade quote.problem.pools quote.problem.t quote.route.legs quote.delivered →
        AreReady ledger quote.problem.pools quote.route.legs → AreLoansOf quote.problem.pools quote.route.legs step →
        (made : Made replies.Answer) × (meaning ledger actor step ≡ Ok made) × IsCycleGain ledger made.ledger actor quote }
{}
