//! A basket: the search for a route out of its parts, and the sale.
ghost use Rattle.std.specs.Prelude.{◌≡◌, ◌≢◌, ◌≤◌, ◌==◌, All, Err, IfOk, false, true};
ghost use Rattle.std.specs.List.{list_all, list_any};
ghost use Rattle.std.specs.Str.{bytes_eq};
ghost use Rattle.amm_model.specs.Baskets.{HasNoBasket, IsBasketAnswer};
ghost use Rattle.amm_model.specs.CommandView.{basket as ask_basket};
ghost use Rattle.amm_model.specs.Fits.{FitParts};
ghost use Rattle.amm_model.specs.Ledger.{is_listed};
ghost use Rattle.amm_model.specs.Legs.{Delivers};
ghost use Rattle.amm_model.specs.Market.{IsOpenProblemIn};
ghost use Rattle.amm_model.specs.Meaning.{as_answer};
ghost use Rattle.amm_model.specs.Sales.{IsNoSale, may_sell};
ghost use Rattle.amm_model.specs.Settlement.{all_as_kept, any_locked, perform_legs};
ghost use Rattle.amm_model.specs.Sound.{IsAtRest, IsSound};
ghost use Rattle.amm_model.specs.declared.fault.Fault.TheVariants.{Refused};
ghost use Rattle.amm_model.specs.declared.fault.Refusal.{Refusal as Code};
ghost use Rattle.amm_model.specs.declared.problem.Part as part_view;
ghost use Rattle.amm_model.specs.declared.reply.Answer.TheVariants as answers;
ghost use Rattle.amm_settle.specs.Sales.{HasParts, pools_of_quote};
ghost use Rattle.amm_state.specs.Tx.{Meets};
ghost use Rattle.amm_engine.specs.Commands.{DoesCommand};

use amm_graph::open_problem_of_book;
use amm_model::{Answer, Fault, OpenQuote, Part, PartList, Refusal, TokenName, UserName};
use amm_settle::has_parts;
use amm_state::{Book, Mark, Tx};
use std::alloc::Global;

/// Sells parts, which the actor has, for at least `min` units of `t`.
///
/// Refused, in this order: EXPIRED, IDENTICAL, UNKNOWN_TOKEN, ZERO_AMOUNT, FUNDS, NO_ROUTE,
/// INSUFFICIENT_OUTPUT_AMOUNT.
pub(crate) fn basket(
    alloc: Global,
    tx: &mut Tx,
    actor: &UserName,
    parts: &PartList,
    t: &TokenName,
    min: u64,
    deadline: u64,
) -> Result<Answer, Fault>
    requires clean { tx.old.mark ≡ Mark.Clean }
    requires rest { IsAtRest tx.old.present }
    requires fits { FitParts parts.now }
    ensures does { DoesCommand tx.old tx.new (ask_basket actor.now parts.now t.now min deadline) result }
{
    let parts = parts.as_slice();
    if let Err(why) = may_sell(tx.book(), actor, parts, t, deadline) {
        return Err(tx.refuse(why));
    }
    match quote_for(alloc, tx.book(), parts, t, min) {
        Ok(quote) => sell(alloc, tx, actor, quote),
        Err(fault) => Err(tx.fail(fault)),
    }
}

/// Whether a user may try to sell parts for `t`.
///
/// Refused, in this order: EXPIRED, IDENTICAL, UNKNOWN_TOKEN, ZERO_AMOUNT, FUNDS.
fn may_sell(
    book: &Book,
    actor: &UserName,
    parts: &[Part],
    t: &TokenName,
    deadline: u64,
) -> Result<(), Refusal>
    ensures { result ≡ may_sell book.now.ledger actor.now parts.now t.now deadline }
{
    if deadline < book.time() {
        return Err(Refusal::Expired);
    }
    if any_is(parts, t) {
        return Err(Refusal::Identical);
    }
    if !are_listed(book, parts) || !book.has_token(t) {
        return Err(Refusal::UnknownToken);
    }
    if any_is_nothing(parts) {
        return Err(Refusal::ZeroAmount);
    }
    if !has_parts(book, actor, parts) {
        return Err(Refusal::Funds);
    }
    Ok(())
}

fn any_is(parts: &[Part], t: &TokenName) -> bool
    ensures { result ≡ list_any (λ (part : part_view.Part). bytes_eq part.token t.now) parts.now }
{
    parts.iter().any(|part| part.token == *t)
}

fn are_listed(book: &Book, parts: &[Part]) -> bool
    ensures { result ≡ list_all (λ (part : part_view.Part). is_listed book.now.ledger.tokens part.token) parts.now }
{
    parts.iter().all(|part| book.has_token(&part.token))
}

fn any_is_nothing(parts: &[Part]) -> bool
    ensures { result ≡ list_any (λ (part : part_view.Part). part.amount == 0) parts.now }
{
    parts.iter().any(|part| part.amount == 0)
}

/// A quote that answers the basket of the parts over the pools of the book, and delivers at least
/// `min`.
///
/// Refused: NO_ROUTE, exactly where no part can be brought to `t`; INSUFFICIENT_OUTPUT_AMOUNT,
/// where what was found is below `min`, as is everything that has to be delivered at least.
fn quote_for(
    alloc: Global,
    book: &Book,
    parts: &[Part],
    t: &TokenName,
    min: u64,
) -> Result<OpenQuote, Fault>
    requires rest { IsAtRest book.now.ledger }
    requires fits { FitParts parts.now }
    requires apart { All (λ (part : part_view.Part). part.token ≢ t.now) parts.now }
    requires some { All (λ (part : part_view.Part). 1 ≤ part.amount) parts.now }
    ensures problem { IfOk result (λ quote. IsOpenProblemIn book.now.ledger parts.now t.now quote.problem) }
    ensures some { IfOk result (λ quote. ¬ HasNoBasket quote.problem) }
    ensures answers { IfOk result (λ quote. IsBasketAnswer quote) }
    ensures enough { IfOk result (λ quote. min ≤ quote.delivered) }
    ensures refused { (why : Code) → result ≡ Err (Refused why) → IsNoSale book.now.ledger parts.now t.now min why }
{
    let problem = open_problem_of_book(alloc, book, parts, t)?;
    let Some(quote) = amm_basket::basket(alloc, problem)? else {
        return Err(Fault::Refused(Refusal::NoRoute));
    };
    if quote.delivered < min {
        return Err(Fault::Refused(Refusal::InsufficientOutputAmount));
    }
    Ok(quote)
}

/// Performs the legs of a quote for the actor, and tells it.
fn sell(alloc: Global, tx: &mut Tx, actor: &UserName, quote: OpenQuote) -> Result<Answer, Fault>
    requires clean { tx.old.mark ≡ Mark.Clean }
    requires sound { IsSound tx.old.present }
    requires delivers { Delivers quote.problem quote.route.legs quote.delivered }
    requires free { any_locked tx.old.present (pools_of_quote quote) ≡ false }
    requires kept { all_as_kept tx.old.present (pools_of_quote quote) ≡ true }
    requires parts { HasParts tx.old.present actor.now quote.problem.parts }
    ensures { Meets tx.old tx.new result (as_answer (λ _. answers.Basket quote) (perform_legs tx.old.present actor.now quote.problem.pools quote.route.legs)) }
{
    amm_settle::perform(alloc, tx, actor, &quote)?;
    Ok(Answer::Basket(quote))
}
