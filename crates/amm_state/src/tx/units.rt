//! Units of an asset: issued, retired, moved.
ghost use Rattle.std.specs.Prelude.{◌≡◌, ◌+◌, ◌<◌, ◌≤◌, OnOk, OnErr, IfErr};
ghost use Rattle.amm_model.specs.declared.fault.Refusal.TheVariants as refusal;
ghost use Rattle.amm_model.specs.Ledger.{with_more, with_less, with_transfer, balance, total};
ghost use Rattle.amm_model.specs.Postings.{issue, retire, transfer};
ghost use Rattle.amm_model.specs.declared.limits.TheConstants.{AMOUNT_LIMIT};
ghost use Rattle.amm_state.specs.declared.mark.Mark.{Mark};
ghost use Rattle.amm_state.specs.Rows.{Because};
ghost use Rattle.amm_state.specs.Tx.{Meets};

use super::Tx;
use crate::journal::Undo;
use amm_model::{Fault, Refusal};
use amm_names::{Asset, Holder};
use std::alloc::Global;

impl Tx {
    /// Adds n units of the asset at a holder. `TotalLimit` exactly where the total would be above
    /// 2^52-1.
    #[tactic(auto, unfolding(amm_model::specs::Postings::issue))]
    pub fn issue(&mut self, alloc: Global, asset: &Asset, to: &Holder, n: u64) -> Result<(), Fault>
        requires { self.old.mark ≡ Mark.Clean }
        ensures { Meets self.old self.new result (issue self.old.present asset.now to.now n) }
    {
        match self.add_units(alloc, asset, to, n) {
            Ok(()) => Ok(()),
            Err(fault) => Err(self.fail(fault)),
        }
    }

    // Adds the units, and notes what the holder had.
    fn add_units(&mut self, alloc: Global, asset: &Asset, to: &Holder, n: u64) -> Result<(), Fault>
        ensures limit { OnOk result (total self.old.present asset.now + n ≤ AMOUNT_LIMIT) }
        ensures ok { OnOk result (self.new ≡ record self.old { present = with_more self.old.present asset.now to.now n }) }
        ensures fault { IfErr result (λ fault. Because fault refusal.TotalLimit (AMOUNT_LIMIT < total self.old.present asset.now + n)) }
        ensures err { OnErr result (self.new ≡ self.old) }
    {
        self.journal.reserve(1)?;
        let before = self.book.issue(alloc, asset, to, n)?;
        self.journal.note(Undo::Balance(*asset, *to, before));
        Ok(())
    }

    /// Takes n units of the asset away from a holder. `Funds` exactly where it has fewer.
    #[tactic(auto, unfolding(amm_model::specs::Postings::retire))]
    pub fn retire(
        &mut self,
        alloc: Global,
        asset: &Asset,
        from: &Holder,
        n: u64,
    ) -> Result<(), Fault>
        requires { self.old.mark ≡ Mark.Clean }
        ensures { Meets self.old self.new result (retire self.old.present asset.now from.now n) }
    {
        match self.take_units(asset, from, n) {
            Ok(()) => Ok(()),
            Err(fault) => Err(self.fail(fault)),
        }
    }

    // Takes the units, if there are any, and notes what the holder had.
    fn take_units(&mut self, asset: &Asset, from: &Holder, n: u64) -> Result<(), Fault>
        ensures funds { OnOk result (n ≤ balance self.old.present asset.now from.now) }
        ensures ok { OnOk result (self.new ≡ record self.old { present = with_less self.old.present asset.now from.now n }) }
        ensures fault { IfErr result (λ fault. Because fault refusal.Funds (balance self.old.present asset.now from.now < n)) }
        ensures err { OnErr result (self.new ≡ self.old) }
    {
        self.journal.reserve(1)?;
        if n == 0 {
            return Ok(());
        }
        let before = self.book.retire(asset, from, n)?;
        self.journal.note(Undo::Balance(*asset, *from, before));
        Ok(())
    }

    /// Moves n units of the asset from one holder to another. `Funds` exactly where the first has
    /// fewer.
    #[tactic(auto, unfolding(amm_model::specs::Postings::transfer))]
    pub fn move_units(
        &mut self,
        alloc: Global,
        asset: &Asset,
        from: &Holder,
        to: &Holder,
        n: u64,
    ) -> Result<(), Fault>
        requires { self.old.mark ≡ Mark.Clean }
        ensures { Meets self.old self.new result (transfer self.old.present asset.now from.now to.now n) }
    {
        if from == to {
            return self.need_funds(asset, from, n);
        }
        match self.pass_units(asset, from, to, n) {
            Ok(()) => Ok(()),
            Err(fault) => Err(self.fail(fault)),
        }
    }

    // Refuses where the holder has fewer than n units.
    #[tactic(auto, unfolding(amm_model::specs::Postings::transfer))]
    fn need_funds(&mut self, asset: &Asset, holder: &Holder, n: u64) -> Result<(), Fault>
        requires { self.old.mark ≡ Mark.Clean }
        ensures { Meets self.old self.new result (transfer self.old.present asset.now holder.now holder.now n) }
    {
        if n == 0 {
            return Ok(());
        }
        if self.book.balance(asset, holder) < n {
            return Err(self.refuse(Refusal::Funds));
        }
        Ok(())
    }

    // Moves the units, if there are any, and notes what the two holders had.
    fn pass_units(&mut self, asset: &Asset, from: &Holder, to: &Holder, n: u64) -> Result<(), Fault>
        ensures funds { OnOk result (n ≤ balance self.old.present asset.now from.now) }
        ensures ok { OnOk result (self.new ≡ record self.old { present = with_transfer self.old.present asset.now from.now to.now n }) }
        ensures fault { IfErr result (λ fault. Because fault refusal.Funds (balance self.old.present asset.now from.now < n)) }
        ensures err { OnErr result (self.new ≡ self.old) }
    {
        self.journal.reserve(2)?;
        if n == 0 {
            return Ok(());
        }
        let before = self.book.move_units(asset, from, to, n)?;
        self.journal
            .note(Undo::Balance(*asset, *from, before.sender));
        self.journal
            .note(Undo::Balance(*asset, *to, before.receiver));
        Ok(())
    }
}
