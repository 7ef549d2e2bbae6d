//! Flash swaps: a pool lends, a borrower runs, and the loan is paid back or everything is undone.
//!
//! `flash` is generic over the borrower. Whatever the borrower does, the product of the pool's
//! reserves does not fall. A fault is answered even where the borrower hides it, and then only
//! `rollback` is left, which undoes all.
#![tactic(auto)]

ghost use Rattle.std.specs.Prelude.{◌≡◌, Result, OnOk, IfErr};
ghost use Rattle.amm_names.specs.declared.holder.Holder.{Holder};
ghost use Rattle.amm_model.specs.Ledger.{Ledger};
ghost use Rattle.amm_model.specs.Operations.{open_loan};
ghost use Rattle.amm_model.specs.Sound.{IsSound, IsOpen, ProductKept};
ghost use Rattle.amm_model.specs.Later.{Later};
ghost use Rattle.amm_state.specs.Tx.{mark_of};
ghost use Rattle.amm_state.specs.declared.mark.Mark.{Mark};
ghost use Rattle.amm_flash.specs.End.{end_of};
ghost use Rattle.amm_flash.specs.Flash.{FlashAnswers};

use amm_model::{Fault, Holder, PoolName, SwapReceipt, UserName};
use amm_pair::{Loan, abandon_loan, close_loan, open_loan};
use amm_state::{Mark, Tx};
use std::alloc::Global;

/// What runs between a loan and its return.
///
/// It is called with a clean mark, a sound ledger, and the lending pair locked. The end of its call
/// is the fault in the mark, where the mark is set; else the fault of its `Err`; else clean. A
/// fault that it hides behind `Ok` so stays its end. Where the end is clean it promises `Later`.
pub trait Borrower {
    /// What it does: the borrower as it is called, the ledger then, the ledger that it leaves, and
    /// the end of its call.
    ghost did: { Self → Ledger → Ledger → Mark → Type 0 };

    /// Uses the loan. It may answer `Ok` with a mark that is set, and an `Err` with a mark that is
    /// not.
    fn on_loan(&mut self, alloc: Global, tx: &mut Tx, loan: &Loan) -> Result<(), Fault>
        requires clean { tx.old.mark ≡ Mark.Clean }
        requires sound { IsSound tx.old.present }
        requires open { IsOpen tx.old.present loan.now }
        ensures opening { tx.new.opening ≡ tx.old.opening }
        ensures did { did self.old tx.old.present tx.new.present (end_of tx.new.mark result) }
        ensures later { end_of tx.new.mark result ≡ Mark.Clean → Later tx.old.present tx.new.present };
}

// How the borrower's call ended.
fn end_of(mark: Mark, answer: Result<(), Fault>) -> Mark
    ensures { result ≡ end_of mark answer }
{
    match mark {
        Mark::Refused(why) => Mark::Refused(why),
        Mark::NoMemory => Mark::NoMemory,
        Mark::Clean => match answer {
            Ok(()) => Mark::Clean,
            Err(Fault::Refused(why)) => Mark::Refused(why),
            Err(Fault::Memory) => Mark::NoMemory,
        },
    }
}

/// Lends `out0` and `out1` units of the pool's two tokens to the actor, lets the borrower run, and
/// asks for the return.
///
/// Refused by what refuses the loan (NO_PAIR, LOCKED, INSUFFICIENT_OUTPUT_AMOUNT,
/// INSUFFICIENT_LIQUIDITY), then by the end of the borrower's call, then by what refuses the return
/// (INSUFFICIENT_INPUT_AMOUNT, K, OVERFLOW). After a code that is not one of the loan's, the
/// present ledger is the one that the borrower left. `Fault::Memory` where any of the three ends by
/// it.
pub fn flash<B: Borrower>(
    alloc: Global,
    tx: &mut Tx,
    pool: &PoolName,
    out0: u64,
    out1: u64,
    actor: &UserName,
    b: &mut B,
) -> Result<SwapReceipt, Fault>
    requires clean { tx.old.mark ≡ Mark.Clean }
    requires sound { IsSound tx.old.present }
    ensures answers { FlashAnswers (B.did b.old) (open_loan tx.old.present pool.now out0 out1 (Holder.User actor.now)) tx.new.present result }
    ensures opening { tx.new.opening ≡ tx.old.opening }
    ensures accepted { OnOk result (tx.new.mark ≡ Mark.Clean) }
    ensures refused { IfErr result (λ fault. tx.new.mark ≡ mark_of fault) }
    ensures sound { OnOk result (IsSound tx.new.present) }
    ensures later { OnOk result (Later tx.old.present tx.new.present) }
    ensures product { OnOk result (ProductKept tx.old.present tx.new.present pool.now) }
{
    let to = Holder::User(*actor);
    let loan = open_loan(alloc, tx, pool, out0, out1, &to)?;
    let answer = b.on_loan(alloc, tx, &loan);
    match end_of(tx.mark(), answer) {
        Mark::Clean => close_loan(alloc, tx, loan),
        Mark::Refused(why) => {
            if tx.mark() == Mark::Clean {
                let _ = tx.refuse(why);
            }
            abandon_loan(tx, loan);
            Err(Fault::Refused(why))
        }
        Mark::NoMemory => {
            if tx.mark() == Mark::Clean {
                let _ = tx.lack();
            }
            abandon_loan(tx, loan);
            Err(Fault::Memory)
        }
    }
}
