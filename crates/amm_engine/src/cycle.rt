//! A cycle: the search for one that brings a profit, and the loans that take it.
ghost use Rattle.std.specs.Prelude.{◌≡◌, [], Err, IfOk, OnOk};
ghost use Rattle.amm_model.specs.CommandView.{cycle as ask_cycle};
ghost use Rattle.amm_model.specs.CycleRuns.{HasNoCycleIn, RunsNested, may_cycle};
ghost use Rattle.amm_model.specs.Cycles.{HasNoCycle, IsCycleAnswer, IsCycleTrade};
ghost use Rattle.amm_model.specs.Market.{IsOpenProblemIn};
ghost use Rattle.amm_model.specs.Meaning.{as_answer, meaning};
ghost use Rattle.amm_model.specs.Sound.{IsAtRest, IsSound};
ghost use Rattle.amm_model.specs.declared.fault.Fault.TheVariants.{Refused};
ghost use Rattle.amm_model.specs.declared.fault.Refusal.{Refusal as Code};
ghost use Rattle.amm_model.specs.declared.fault.Refusal.TheVariants as code;
ghost use Rattle.amm_model.specs.declared.reply.Answer.TheVariants as answers;
ghost use Rattle.amm_loans.specs.Loans.{AreReady, run_loans};
ghost use Rattle.amm_state.specs.Tx.{Meets};
ghost use Rattle.amm_engine.specs.Commands.{DoesCommand};

use amm_graph::open_problem_of_book;
use amm_loans::run_cycle;
use amm_model::{Answer, Fault, OpenQuote, Refusal, TokenName, UserName};
use amm_state::{Book, Mark, Tx};
use std::alloc::Global;

/// Takes a cycle from `t` back to it, which brings the actor a profit, whatever he owns.
///
/// Refused, in this order: EXPIRED, UNKNOWN_TOKEN, NO_ROUTE.
pub(crate) fn cycle(
    alloc: Global,
    tx: &mut Tx,
    actor: &UserName,
    t: &TokenName,
    deadline: u64,
) -> Result<Answer, Fault>
    requires clean { tx.old.mark ≡ Mark.Clean }
    requires rest { IsAtRest tx.old.present }
    ensures does { DoesCommand tx.old tx.new (ask_cycle actor.now t.now deadline) result }
{
    if let Err(why) = may_cycle(tx.book(), t, deadline) {
        return Err(tx.refuse(why));
    }
    match quote_for(alloc, tx.book(), t) {
        Ok(quote) => take(alloc, tx, actor, quote),
        Err(fault) => Err(tx.fail(fault)),
    }
}

/// Whether a cycle from `t` may be tried.
///
/// Refused, in this order: EXPIRED, UNKNOWN_TOKEN.
fn may_cycle(book: &Book, t: &TokenName, deadline: u64) -> Result<(), Refusal>
    ensures { result ≡ may_cycle book.now.ledger t.now deadline }
{
    if deadline < book.time() {
        return Err(Refusal::Expired);
    }
    if !book.has_token(t) {
        return Err(Refusal::UnknownToken);
    }
    Ok(())
}

/// A quote of a cycle over the pools of the book.
///
/// Refused: NO_ROUTE, exactly where no cycle brings anything.
fn quote_for(alloc: Global, book: &Book, t: &TokenName) -> Result<OpenQuote, Fault>
    requires rest { IsAtRest book.now.ledger }
    ensures problem { IfOk result (λ quote. IsOpenProblemIn book.now.ledger [] t.now quote.problem) }
    ensures some { IfOk result (λ quote. ¬ HasNoCycle quote.problem) }
    ensures answers { IfOk result (λ quote. IsCycleAnswer quote) }
    ensures refused { (why : Code) → result ≡ Err (Refused why) → (why ≡ code.NoRoute) × HasNoCycleIn book.now.ledger t.now }
{
    let problem = open_problem_of_book(alloc, book, &[], t)?;
    match amm_cycle::cycle(alloc, problem)? {
        Some(quote) => Ok(quote),
        None => Err(Fault::Refused(Refusal::NoRoute)),
    }
}

/// Takes the cycle of a quote for the actor, and tells it.
fn take(alloc: Global, tx: &mut Tx, actor: &UserName, quote: OpenQuote) -> Result<Answer, Fault>
    requires clean { tx.old.mark ≡ Mark.Clean }
    requires sound { IsSound tx.old.present }
    requires cycle { IsCycleTrade quote.problem.pools quote.problem.t quote.route.legs quote.delivered }
    requires ready { AreReady tx.old.present quote.problem.pools quote.route.legs }
    ensures meets { Meets tx.old tx.new result (as_answer (λ _. answers.Cycle quote) (run_loans tx.old.present actor.now quote.problem.pools quote.route.legs)) }
    ensures runs { OnOk result (RunsNested meaning tx.old.present actor.now quote.problem.pools quote.route.legs tx.new.present) }
    ensures no_code { (why : Code) → result ≡ Err (Refused why) → ⊥ }
{
    match run_cycle(alloc, tx, actor, &quote) {
        Ok(()) => Ok(Answer::Cycle(quote)),
        Err(fault) => Err(fault),
    }
}
