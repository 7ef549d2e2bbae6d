//! The way back to the opening ledger.
ghost use Rattle.std.specs.Prelude.{◌≡◌, ◌∷◌, [], List};
ghost use Rattle.amm_state.specs.declared.journal.Undo.{Undo};
ghost use Rattle.amm_state.specs.Journal.{undo, undo_all, StaysWithin, HasRows};

use crate::Book;
use crate::journal::{Journal, Undo};

// Takes back one change.
fn undo_one(book: &mut Book, change: Undo)
    requires within { StaysWithin (change ∷ []) book.old.ledger }
    requires rows { HasRows (change ∷ []) book.old.rows }
    ensures ledger { book.new.ledger ≡ undo change book.old.ledger }
    ensures kept { (changes : List Undo) → HasRows changes book.old.rows → HasRows changes book.new.rows }
{
    match change {
        Undo::Balance(asset, holder, amount) => book.restore_balance(&asset, &holder, amount),
        Undo::Token => book.remove_last_token(),
        Undo::NewPair => book.remove_last_pair(),
        Undo::Pair(pool, pair) => {
            book.replace_pair(&pool, pair);
        }
        Undo::NewQuote => book.remove_last_quote(),
        Undo::NewObservation => book.remove_last_observation(),
        Undo::FeeTo(holder) => book.set_fee_to(holder),
        Undo::Setter(user) => book.set_setter(user),
        Undo::Time(time) => book.set_time(time),
    }
}

/// Takes back all changes, the newest first.
pub(super) fn undo_everything(book: &mut Book, changes: &mut Journal)
    requires within { StaysWithin changes.old.changes book.old.ledger }
    requires rows { HasRows changes.old.changes book.old.rows }
    ensures ledger { book.new.ledger ≡ undo_all changes.old.changes book.old.ledger }
    ensures emptied { changes.new.changes ≡ [] }
{
    while let Some(change) = changes.pop() {
        undo_one(book, change);
    }
}
