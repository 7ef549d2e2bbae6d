//! A split: the search for a route, and the quote that is kept.
ghost use Rattle.std.specs.Prelude.{◌≡◌, ◌≤◌, Ok, Err, IfOk};
ghost use Rattle.amm_model.specs.CommandView.{split as ask_split};
ghost use Rattle.amm_model.specs.Market.{IsProblemIn};
ghost use Rattle.amm_model.specs.Meaning.{as_answer};
ghost use Rattle.amm_model.specs.Postings.{add_quote};
ghost use Rattle.amm_model.specs.Sound.{IsAtRest};
ghost use Rattle.amm_model.specs.SplitAnswers.{HasNoRoute, IsSplitAnswer};
ghost use Rattle.amm_model.specs.Splits.{IsUnroutable, may_split};
ghost use Rattle.amm_model.specs.declared.fault.Fault.TheVariants.{Refused};
ghost use Rattle.amm_model.specs.declared.fault.Refusal.{Refusal as Code};
ghost use Rattle.amm_model.specs.declared.fault.Refusal.TheVariants as code;
ghost use Rattle.amm_model.specs.declared.limits.TheConstants.{AMOUNT_LIMIT};
ghost use Rattle.amm_model.specs.declared.reply.Answer.TheVariants as answers;
ghost use Rattle.amm_state.specs.Tx.{Meets};
ghost use Rattle.amm_engine.specs.Commands.{DoesCommand};

use amm_graph::problem_of_book;
use amm_model::limits::QUOTE_LIMIT;
use amm_model::{Answer, Fault, Memory, Quote, Refusal, TokenName};
use amm_state::{Book, Mark, Tx};
use std::alloc::Global;

/// Splits `d` units of `s`, at most 2^52-1, into `t`, and keeps the quote.
///
/// Refused, in this order: IDENTICAL, UNKNOWN_TOKEN, ZERO_AMOUNT, QUOTE_LIMIT, NO_ROUTE.
pub(crate) fn split(
    alloc: Global,
    tx: &mut Tx,
    s: &TokenName,
    t: &TokenName,
    d: u64,
) -> Result<Answer, Fault>
    requires clean { tx.old.mark ≡ Mark.Clean }
    requires rest { IsAtRest tx.old.present }
    requires amount { d ≤ AMOUNT_LIMIT }
    ensures does { DoesCommand tx.old tx.new (ask_split s.now t.now d) result }
{
    if let Err(why) = may_split(tx.book(), s, t, d) {
        return Err(tx.refuse(why));
    }
    match quote_for(alloc, tx.book(), s, t, d) {
        Ok(quote) => keep(alloc, tx, quote),
        Err(fault) => Err(tx.fail(fault)),
    }
}

/// Whether a split of `d` of `s` into `t` may be tried.
///
/// Refused, in this order: IDENTICAL, UNKNOWN_TOKEN, ZERO_AMOUNT, QUOTE_LIMIT.
fn may_split(book: &Book, s: &TokenName, t: &TokenName, d: u64) -> Result<(), Refusal>
    ensures { result ≡ may_split book.now.ledger s.now t.now d }
{
    if s == t {
        return Err(Refusal::Identical);
    }
    if !book.has_token(s) || !book.has_token(t) {
        return Err(Refusal::UnknownToken);
    }
    if d == 0 {
        return Err(Refusal::ZeroAmount);
    }
    if book.quote_count() >= QUOTE_LIMIT {
        return Err(Refusal::QuoteLimit);
    }
    Ok(())
}

/// A quote that answers the split over the pools of the book.
///
/// Refused: NO_ROUTE, exactly where nothing can be routed.
fn quote_for(
    alloc: Global,
    book: &Book,
    s: &TokenName,
    t: &TokenName,
    d: u64,
) -> Result<Quote, Fault>
    requires rest { IsAtRest book.now.ledger }
    requires may { may_split book.now.ledger s.now t.now d ≡ Ok tt }
    requires amount { d ≤ AMOUNT_LIMIT }
    ensures problem { IfOk result (λ quote. IsProblemIn book.now.ledger s.now t.now d quote.problem) }
    ensures some { IfOk result (λ quote. ¬ HasNoRoute quote.problem) }
    ensures answers { IfOk result (λ quote. IsSplitAnswer quote) }
    ensures refused { (why : Code) → result ≡ Err (Refused why) → (why ≡ code.NoRoute) × IsUnroutable book.now.ledger s.now t.now d }
{
    let problem = problem_of_book(alloc, book, s, t, d)?;
    match amm_split::split(alloc, &problem)? {
        Some(quote) => Ok(quote),
        None => Err(Fault::Refused(Refusal::NoRoute)),
    }
}

/// Keeps a quote, and tells it with its number.
fn keep(alloc: Global, tx: &mut Tx, quote: Quote) -> Result<Answer, Fault>
    requires clean { tx.old.mark ≡ Mark.Clean }
    ensures { Meets tx.old tx.new result (as_answer (λ number. answers.Split number quote) (add_quote tx.old.present quote)) }
{
    let Ok(told) = quote.copy(alloc) else {
        return Err(tx.lack());
    };
    let number = tx.add_quote(alloc, quote)?;
    Ok(Answer::Split {
        number,
        quote: told,
    })
}
