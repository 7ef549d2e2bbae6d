//! A transaction over the ledger.
ghost use Rattle.std.specs.Prelude.{◌≡◌, IfOk, Ok, Err};
ghost use Rattle.amm_model.specs.declared.fault.Fault.TheVariants.{Refused};
ghost use Rattle.amm_model.specs.declared.fault.Refusal.{Refusal as Code};
ghost use Rattle.amm_model.specs.Sound.{IsAtRest};
ghost use Rattle.amm_state.specs.declared.mark.Mark.{Mark};
ghost use Rattle.amm_state.specs.Tx.{mark_of};

mod lists;
mod settings;
mod undo;
mod units;

use crate::journal::Journal;
use crate::{Book, Mark, State};
use amm_model::{Fault, Refusal};
use std::marker::Model;
use undo::undo_everything;

/// A transaction: it ends in `commit`, or in `rollback`, which gives the ledger that it began with.
pub struct Tx {
    book: Box<Book>,
    journal: Journal,
    mark: Mark,
}

impl Model for Tx {
    ghost use Rattle.amm_state.specs.Tx.{TxView, tx_code};
    ghost use Rattle.amm_state.specs.Journal.{undo_all, IsRevertible};

    ghost Value = { TxView };

    ghost coded = { tx_code };

    ghost view = { λ tx. record { opening = undo_all tx.journal.changes tx.book.value.ledger; present = tx.book.value.ledger; mark = tx.mark } };

    ghost invariant = { λ tx. IsRevertible tx.journal.changes tx.book.value };
}

impl Tx {
    /// Begins a transaction on the ledger, which is at rest. It takes no memory.
    #[tactic(auto, unfolding(crate::specs::Journal::IsStart))]
    pub fn begin(state: State) -> Tx
        ensures start { result ≡ record { opening = state; present = state; mark = Mark.Clean } }
        ensures rest { IsAtRest state }
    {
        let State { book, journal } = state;
        Tx {
            book,
            journal,
            mark: Mark::Clean,
        }
    }

    /// The present ledger.
    pub fn book(&self) -> &Book
        ensures { result.now.ledger ≡ self.now.present }
    {
        &self.book
    }

    /// Whether a step of the transaction failed, and how.
    pub fn mark(&self) -> Mark
        ensures { result ≡ self.now.mark }
    {
        self.mark
    }

    /// Refuses the transaction.
    pub fn refuse(&mut self, why: Refusal) -> Fault
        requires { self.old.mark ≡ Mark.Clean }
        ensures fault { result ≡ Fault.Refused why }
        ensures after { self.new ≡ record self.old { mark = Mark.Refused why } }
    {
        self.mark = Mark::Refused(why);
        Fault::Refused(why)
    }

    /// Ends the transaction for want of memory.
    pub fn lack(&mut self) -> Fault
        requires { self.old.mark ≡ Mark.Clean }
        ensures fault { result ≡ Fault.Memory }
        ensures after { self.new ≡ record self.old { mark = Mark.NoMemory } }
    {
        self.mark = Mark::NoMemory;
        Fault::Memory
    }

    /// Ends the transaction by this fault.
    pub fn fail(&mut self, fault: Fault) -> Fault
        requires { self.old.mark ≡ Mark.Clean }
        ensures fault { result ≡ fault }
        ensures after { self.new ≡ record self.old { mark = mark_of fault } }
    {
        match fault {
            Fault::Refused(why) => self.refuse(why),
            Fault::Memory => self.lack(),
        }
    }

    /// What was found; a refusal refuses the transaction.
    pub fn admit<T>(&mut self, found: Result<T, Refusal>) -> Result<T, Fault>
        requires { self.old.mark ≡ Mark.Clean }
        ensures ok { (x : T) → found ≡ Ok x → (result ≡ Ok x) × (self.new ≡ self.old) }
        ensures found { IfOk result (λ x. found ≡ Ok x) }
        ensures err { (why : Code) → found ≡ Err why → (result ≡ Err (Refused why)) × (self.new ≡ record self.old { mark = Mark.Refused why }) }
    {
        match found {
            Ok(x) => Ok(x),
            Err(why) => Err(self.refuse(why)),
        }
    }

    /// Keeps the present ledger.
    pub fn commit(self) -> State
        requires clean { self.mark ≡ Mark.Clean }
        requires rest { IsAtRest self.present }
        ensures { result ≡ self.present }
    {
        let Tx {
            book,
            mut journal,
            mark: _mark,
        } = self;
        journal.clear();
        State { book, journal }
    }

    /// Gives back the ledger that the transaction began with, whatever happened. It takes no
    /// memory.
    #[tactic(auto, unfolding(crate::specs::Journal::IsStart))]
    pub fn rollback(self) -> State
        ensures { result ≡ self.opening }
    {
        let Tx {
            mut book,
            mut journal,
            mark: _mark,
        } = self;
        undo_everything(&mut book, &mut journal);
        State { book, journal }
    }
}
