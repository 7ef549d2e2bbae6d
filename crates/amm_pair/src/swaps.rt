//! Swaps: a pool lends and is paid back at once.
ghost use Rattle.std.specs.Prelude.{◌≡◌, OnOk};
ghost use Rattle.amm_model.specs.Operations.{swap};
ghost use Rattle.amm_pair.specs.Straight.{swap_straight};
ghost use Rattle.amm_model.specs.Sound.{IsSound, ProductKept};
ghost use Rattle.amm_state.specs.Tx.{Meets};

use crate::halves::{lendable, settle};
use crate::holdings::send_both;
use amm_model::{Fault, Holder, PoolName, SwapReceipt};
use amm_state::{Mark, Tx};
use std::alloc::Global;

/// Lends, and is paid back at once by what is already there.
///
/// Refused, in this order: NO_PAIR, LOCKED, INSUFFICIENT_OUTPUT_AMOUNT, INSUFFICIENT_LIQUIDITY,
/// INVALID_TO, INSUFFICIENT_INPUT_AMOUNT, K, OVERFLOW.
pub fn swap(
    alloc: Global,
    tx: &mut Tx,
    pool: &PoolName,
    out0: u64,
    out1: u64,
    to: &Holder,
) -> Result<SwapReceipt, Fault>
    requires clean { tx.old.mark ≡ Mark.Clean }
    requires sound { IsSound tx.old.present }
    ensures meets { Meets tx.old tx.new result (swap tx.old.present pool.now out0 out1 to.now) }
    ensures sound { OnOk result (IsSound tx.new.present) }
    ensures product { OnOk result (ProductKept tx.old.present tx.new.present pool.now) }
{
    swap_straight(alloc, tx, pool, out0, out1, to)
}

// The same with no lock, since nothing runs between the two halves; apart so that the check unfolds
// this form of it.
#[tactic(auto, unfolding(crate::specs::Straight::swap_straight))]
fn swap_straight(
    alloc: Global,
    tx: &mut Tx,
    pool: &PoolName,
    out0: u64,
    out1: u64,
    to: &Holder,
) -> Result<SwapReceipt, Fault>
    requires clean { tx.old.mark ≡ Mark.Clean }
    requires sound { IsSound tx.old.present }
    ensures { Meets tx.old tx.new result (swap_straight tx.old.present pool.now out0 out1 to.now) }
{
    let pair = tx.admit(lendable(tx.book(), pool, out0, out1, to))?;
    send_both(alloc, tx, pool, out0, out1, to)?;
    settle(alloc, tx, pool, &pair, out0, out1)
}
