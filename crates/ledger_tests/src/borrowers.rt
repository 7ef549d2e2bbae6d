//! Small borrowers, honest and hostile.
ghost use Rattle.std.specs.Prelude.{◌≡◌};
ghost use Rattle.amm_names.specs.declared.holder.Holder.{Holder};
ghost use Rattle.amm_model.specs.Postings.{transfer};
ghost use Rattle.amm_flash.specs.End.{IsDone};

use amm_flash::{Borrower, flash};
use amm_model::{Asset, Fault, Holder, PoolName, Refusal, UserName};
use amm_pair::{Loan, mint, swap};
use amm_state::Tx;
use std::alloc::Global;

/// Pays units of a user's to a holder.
#[derive(Drop)]
pub struct Pays {
    pub asset: Asset,
    pub from: UserName,
    pub to: Holder,
    pub n: u64,
}

impl Borrower for Pays {
    ghost did = { λ pays old left end. IsDone (transfer old pays.asset (Holder.User pays.from) pays.to pays.n) left end };

    fn on_loan(&mut self, alloc: Global, tx: &mut Tx, _loan: &Loan) -> Result<(), Fault> {
        tx.move_units(
            alloc,
            &self.asset,
            &Holder::User(self.from),
            &self.to,
            self.n,
        )
    }
}

/// Takes a loan of a pool for another borrower, passes its fault on, and then pays.
#[derive(Drop)]
pub struct Nests<B> {
    pub pool: PoolName,
    pub out0: u64,
    pub out1: u64,
    pub inner: B,
    pub pays: Pays,
}

impl<B: Borrower> Borrower for Nests<B> {
    ghost did = { λ nests old left end. Unit {0} };

    fn on_loan(&mut self, alloc: Global, tx: &mut Tx, loan: &Loan) -> Result<(), Fault> {
        flash(
            alloc,
            tx,
            &self.pool,
            self.out0,
            self.out1,
            &self.pays.from,
            &mut self.inner,
        )?;
        self.pays.on_loan(alloc, tx, loan)
    }
}

/// Pays nothing, and says that all is well.
#[derive(Clone, Copy, Drop)]
pub enum Hostile {
    Sleeps,
    Mints,
    Swaps,
    Overdraws(UserName),
    Refuses,
    Fails,
}

impl Borrower for Hostile {
    ghost did = { λ hostile old left end. Unit {0} };

    fn on_loan(&mut self, alloc: Global, tx: &mut Tx, loan: &Loan) -> Result<(), Fault> {
        match self {
            Hostile::Sleeps => Ok(()),
            Hostile::Mints => {
                let _ = mint(alloc, tx, loan.pool(), &Holder::Zero);
                Ok(())
            }
            Hostile::Swaps => {
                let _ = swap(alloc, tx, loan.pool(), 1, 0, &Holder::Zero);
                Ok(())
            }
            Hostile::Overdraws(user) => {
                let asset = Asset::Token(*loan.pool().token1());
                let _ = tx.move_units(
                    alloc,
                    &asset,
                    &Holder::User(*user),
                    &Holder::Zero,
                    4_000_001,
                );
                Ok(())
            }
            Hostile::Refuses => {
                let _ = tx.refuse(Refusal::K);
                Ok(())
            }
            Hostile::Fails => Err(Fault::Refused(Refusal::Forbidden)),
        }
    }
}
