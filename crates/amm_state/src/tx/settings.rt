//! The receiver of the protocol's fee, its setter, and the time.
ghost use Rattle.std.specs.Prelude.{◌≡◌, OnOk, OnErr};
ghost use Rattle.amm_model.specs.Ledger.{with_fee_to, with_setter};
ghost use Rattle.amm_model.specs.Outcome.{ledger_only};
ghost use Rattle.amm_model.specs.Postings.{set_time};
ghost use Rattle.amm_state.specs.declared.mark.Mark.{Mark};
ghost use Rattle.amm_state.specs.Book.{with_time};
ghost use Rattle.amm_state.specs.Tx.{Meets};

use super::Tx;
use crate::journal::Undo;
use amm_model::{Fault, Refusal};
use amm_names::{Holder, Memory, UserName};
use std::alloc::Global;

impl Tx {
    /// Sets who receives the protocol's fee.
    pub fn set_fee_to(&mut self, alloc: Global, to: &Holder) -> Result<(), Fault>
        requires { self.old.mark ≡ Mark.Clean }
        ensures { Meets self.old self.new result (ledger_only (with_fee_to self.old.present to.now)) }
    {
        match self.write_fee_to(to) {
            Ok(()) => Ok(()),
            Err(_) => Err(self.lack()),
        }
    }

    // Sets who receives the protocol's fee, and notes who did.
    fn write_fee_to(&mut self, to: &Holder) -> Result<(), Memory>
        ensures ok { OnOk result (self.new ≡ record self.old { present = with_fee_to self.old.present to.now }) }
        ensures err { OnErr result (self.new ≡ self.old) }
    {
        self.journal.reserve(1)?;
        self.journal.note(Undo::FeeTo(*self.book.fee_to()));
        self.book.set_fee_to(*to);
        Ok(())
    }

    /// Sets the user who may set the receiver of the fee.
    pub fn set_setter(&mut self, alloc: Global, to: &UserName) -> Result<(), Fault>
        requires { self.old.mark ≡ Mark.Clean }
        ensures { Meets self.old self.new result (ledger_only (with_setter self.old.present to.now)) }
    {
        match self.write_setter(to) {
            Ok(()) => Ok(()),
            Err(_) => Err(self.lack()),
        }
    }

    // Sets the setter, and notes the old one.
    fn write_setter(&mut self, to: &UserName) -> Result<(), Memory>
        ensures ok { OnOk result (self.new ≡ record self.old { present = with_setter self.old.present to.now }) }
        ensures err { OnErr result (self.new ≡ self.old) }
    {
        self.journal.reserve(1)?;
        self.journal.note(Undo::Setter(*self.book.setter()));
        self.book.set_setter(*to);
        Ok(())
    }

    /// Sets the time. `TimeBack` exactly where it is below the present one.
    pub fn set_time(&mut self, alloc: Global, time: u64) -> Result<(), Fault>
        requires { self.old.mark ≡ Mark.Clean }
        ensures { Meets self.old self.new result (set_time self.old.present time) }
    {
        if time < self.book.time() {
            return Err(self.refuse(Refusal::TimeBack));
        }
        match self.write_time(time) {
            Ok(()) => Ok(()),
            Err(_) => Err(self.lack()),
        }
    }

    // Sets the time, and notes the old one.
    fn write_time(&mut self, time: u64) -> Result<(), Memory>
        ensures ok { OnOk result (self.new ≡ record self.old { present = with_time self.old.present time }) }
        ensures err { OnErr result (self.new ≡ self.old) }
    {
        self.journal.reserve(1)?;
        self.journal.note(Undo::Time(self.book.time()));
        self.book.set_time(time);
        Ok(())
    }
}
