//! What a pool has above its reserves: sent away, or taken into the reserves.
ghost use Rattle.std.specs.Prelude.{◌≡◌, OnOk};
ghost use Rattle.amm_model.specs.Operations.{excess, skim, sync};
ghost use Rattle.amm_model.specs.Later.{Later};
ghost use Rattle.amm_model.specs.Sound.{IsSound};
ghost use Rattle.amm_state.specs.Tx.{Meets};

use crate::holdings::{held0, held1, send_both};
use crate::records::{free_pair, updated};
use amm_model::{Fault, Holder, PairRecord, PoolName, SkimReceipt};
use amm_state::{Book, Mark, Tx};
use std::alloc::Global;

/// Makes what the pool has its reserves, and answers its record then.
///
/// Refused, in this order: NO_PAIR, LOCKED, OVERFLOW.
pub fn sync(alloc: Global, tx: &mut Tx, pool: &PoolName) -> Result<PairRecord, Fault>
    requires clean { tx.old.mark ≡ Mark.Clean }
    requires sound { IsSound tx.old.present }
    ensures meets { Meets tx.old tx.new result (sync tx.old.present pool.now) }
    ensures sound { OnOk result (IsSound tx.new.present) }
{
    sync_at(alloc, tx, pool)
}

// The same; apart so that the check unfolds its definition here alone.
#[tactic(auto, unfolding(amm_model::specs::Operations::sync))]
fn sync_at(alloc: Global, tx: &mut Tx, pool: &PoolName) -> Result<PairRecord, Fault>
    requires clean { tx.old.mark ≡ Mark.Clean }
    requires sound { IsSound tx.old.present }
    ensures { Meets tx.old tx.new result (sync tx.old.present pool.now) }
{
    let pair = tx.admit(free_pair(tx.book(), pool))?;
    let b0 = held0(tx.book(), pool);
    let b1 = held1(tx.book(), pool);
    let new = tx.admit(updated(&pair, tx.book().time(), b0, b1))?;
    tx.set_pair(alloc, pool, new)?;
    Ok(new)
}

/// Sends what the pool has above its reserves, and answers how much that was.
///
/// Refused, in this order: NO_PAIR, LOCKED.
pub fn skim(alloc: Global, tx: &mut Tx, pool: &PoolName, to: &Holder) -> Result<SkimReceipt, Fault>
    requires clean { tx.old.mark ≡ Mark.Clean }
    requires sound { IsSound tx.old.present }
    ensures meets { Meets tx.old tx.new result (skim tx.old.present pool.now to.now) }
    ensures sound { OnOk result (IsSound tx.new.present) }
    ensures later { OnOk result (Later tx.old.present tx.new.present) }
{
    // Its clause says that the two tokens differ.
    let _ = pool.as_bytes();
    skim_at(alloc, tx, pool, to)
}

// The same; apart so that the check unfolds its definition here alone.
#[tactic(auto, unfolding(amm_model::specs::Operations::skim))]
fn skim_at(alloc: Global, tx: &mut Tx, pool: &PoolName, to: &Holder) -> Result<SkimReceipt, Fault>
    requires clean { tx.old.mark ≡ Mark.Clean }
    requires sound { IsSound tx.old.present }
    ensures { Meets tx.old tx.new result (skim tx.old.present pool.now to.now) }
{
    let pair = tx.admit(free_pair(tx.book(), pool))?;
    let excess = excess(tx.book(), pool, &pair);
    send_both(alloc, tx, pool, excess.sent0, excess.sent1, to)?;
    Ok(excess)
}

// What the pool has above its reserves.
fn excess(book: &Book, pool: &PoolName, pair: &PairRecord) -> SkimReceipt
    ensures { result ≡ excess book.now.ledger pool.now pair.now }
{
    SkimReceipt {
        sent0: held0(book, pool).saturating_sub(pair.r0),
        sent1: held1(book, pool).saturating_sub(pair.r1),
    }
}
