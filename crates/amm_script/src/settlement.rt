//! Settlement of a quote that the ledger keeps.
ghost use Rattle.std.specs.Prelude.{◌≡◌, OnOk, ok_or};
ghost use Rattle.amm_model.specs.declared.fault.Refusal.TheVariants as refusal;
ghost use Rattle.amm_model.specs.CommandView as view;
ghost use Rattle.amm_model.specs.Later.{Later};
ghost use Rattle.amm_model.specs.Ledger.{quote_of};
ghost use Rattle.amm_model.specs.Meaning.{meaning};
ghost use Rattle.amm_model.specs.Outcome.{Gives};
ghost use Rattle.amm_model.specs.Runs.{SettlesQuotes};
ghost use Rattle.amm_model.specs.Sound.{IsSound};
ghost use Rattle.amm_state.specs.Tx.{Meets};
ghost use Rattle.amm_script.specs.Told.{OfToldAnswer};

use amm_model::{Answer, Fault, Quote, Refusal, UserName};
use amm_settle::settle;
use amm_state::{Book, Mark, Tx};
use std::alloc::Global;

/// Settles the quote with this number for the actor.
///
/// Refused, in this order: NO_QUOTE, where the ledger keeps none with the number; then as
/// `amm_settle::settle`.
#[tactic(auto, unfolding(amm_model::specs::Meaning::meaning))]
pub(crate) fn settle_quote(
    alloc: Global,
    tx: &mut Tx,
    actor: &UserName,
    number: u64,
    deadline: u64,
) -> Result<Answer, Fault>
    requires clean { tx.old.mark ≡ Mark.Clean }
    requires sound { IsSound tx.old.present }
    ensures meets { Meets tx.old tx.new result (meaning tx.old.present actor.now (view.settle number deadline)) }
    ensures sound { OnOk result (IsSound tx.new.present) }
    ensures later { OnOk result (Later tx.old.present tx.new.present) }
    ensures settled { OfToldAnswer result (λ answer. SettlesQuotes actor.now number deadline answer tx.old.present tx.new.present) }
{
    let quote = match copy_of(alloc, tx.book(), number) {
        Ok(quote) => quote,
        Err(fault) => return Err(tx.fail(fault)),
    };
    let delivered = settle(alloc, tx, actor, &quote, deadline)?;
    Ok(Answer::Settle { delivered })
}

// A copy, since the transaction that changes the ledger has the kept quote.
fn copy_of(alloc: Global, book: &Book, number: u64) -> Result<Quote, Fault>
    ensures { Gives (λ quote. quote) result (ok_or (quote_of book.now.ledger.quotes number) refusal.NoQuote) }
{
    match book.quote(number) {
        Some(quote) => Ok(quote.copy(alloc)?),
        None => Err(Fault::Refused(Refusal::NoQuote)),
    }
}
