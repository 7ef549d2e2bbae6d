//! The ledger between transactions.
ghost use Rattle.std.specs.Prelude.{◌≡◌, IfOk};
ghost use Rattle.amm_model.specs.Ledger.{opening_ledger};
ghost use Rattle.amm_model.specs.Sound.{IsAtRest};

use crate::journal::Journal;
use crate::{Book, Seed};
use amm_names::{Memory, UserName};
use std::alloc::Global;
use std::marker::Model;

/// A book that is sound, with no pair locked.
#[derive(Drop)]
pub struct State {
    // In a box, so that a transaction takes it over by its address.
    pub(crate) book: Box<Book>,
    // Empty, with the room that earlier transactions needed.
    pub(crate) journal: Journal,
}

impl Model for State {
    ghost use Rattle.std.specs.Prelude.{◌≡◌, []};
    ghost use Rattle.amm_model.specs.Ledger.{Ledger};
    ghost use Rattle.amm_model.specs.Codes.{ledger_code};
    ghost use Rattle.amm_model.specs.Sound.{IsAtRest};
    ghost use Rattle.amm_state.specs.Journal.{IsCanonical};

    ghost Value = { Ledger };

    ghost coded = { ledger_code };

    ghost view = { λ state. state.book.value.ledger };

    ghost invariant = { λ state. IsAtRest state.book.value.ledger × IsCanonical state.book.value.ledger × (state.journal.changes ≡ []) };
}

impl State {
    /// The ledger in which nobody has anything and `admin` is the setter.
    pub fn new(alloc: Global) -> Result<State, Memory>
        ensures { IfOk result (λ state. state ≡ opening_ledger) }
    {
        State::with_seed(alloc, Seed::new(0))
    }

    /// The same, whose tables hash by this seed. It decides only where rows lie in the tables, and
    /// no clause speaks of it.
    pub fn with_seed(alloc: Global, seed: Seed) -> Result<State, Memory>
        ensures { IfOk result (λ state. state ≡ opening_ledger) }
    {
        let setter = UserName::read(alloc, b"admin".as_slice())?.unwrap();
        let book = Box::new(alloc, Book::new(alloc, setter, seed))?;
        Ok(State {
            book,
            journal: Journal::new(alloc),
        })
    }

    /// The ledger, which is at rest.
    pub fn book(&self) -> &Book
        ensures ledger { result.now.ledger ≡ self.now }
        ensures rest { IsAtRest self.now }
    {
        &self.book
    }
}
