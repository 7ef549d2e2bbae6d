//! Shares of a pool: those that a mint gives, and those that the protocol gets before.
ghost use Rattle.std.specs.Prelude.{◌≡◌, ◌+◌, ◌*◌, ◌≤◌, ◌<◌, ◌==◌, if◌then◌else◌, OnOk};
ghost use Rattle.amm_names.specs.declared.holder.Asset.TheVariants as assets;
ghost use Rattle.amm_model.specs.Ledger.{with_more};
ghost use Rattle.amm_model.specs.Outcome.{ledger_only};
ghost use Rattle.amm_model.specs.declared.limits.TheConstants.{AMOUNT_LIMIT, RESERVE_LIMIT, FIRST_LOCKED};
ghost use Rattle.amm_model.specs.Pools.{supply};
ghost use Rattle.amm_model.specs.Operations.{is_nobody, fee_due, with_fee, with_shares, with_product};
ghost use Rattle.amm_model.specs.Formulas.{IsBacked};
ghost use Rattle.amm_state.specs.Tx.{Meets};

use crate::holdings::supply;
use amm_model::limits::FIRST_LOCKED;
use amm_model::{Asset, Fault, Holder, PairRecord, PoolName};
use amm_pool::fee_shares;
use amm_state::{Book, Mark, Tx};
use std::alloc::Global;

/// Whether the fee's receiver is nobody, so that no fee is taken.
pub(crate) fn is_nobody(holder: &Holder) -> bool
    ensures { result ≡ is_nobody holder.now }
{
    matches!(holder, Holder::Zero)
}

/// The shares that the protocol gets before a mint or a burn.
#[tactic(auto, unfolding(amm_model::specs::Operations::fee_due))]
pub(crate) fn fee_due(book: &Book, pool: &PoolName, pair: &PairRecord) -> u64
    requires reserves { (pair.now.r0 ≤ RESERVE_LIMIT) × (pair.now.r1 ≤ RESERVE_LIMIT) }
    requires backed { IsBacked (supply book.now.ledger pool.now) pair.now.r0 pair.now.r1 pair.now.k_last }
    ensures value { result ≡ fee_due book.now.ledger pool.now pair.now }
    ensures within { (supply book.now.ledger pool.now + result) * (supply book.now.ledger pool.now + result) ≤ pair.now.r0 * pair.now.r1 }
    ensures small { supply book.now.ledger pool.now + result ≤ RESERVE_LIMIT }
{
    if is_nobody(book.fee_to()) {
        return 0;
    }
    fee_shares(supply(book, pool), pair.r0, pair.r1, pair.k_last)
}

/// The record at the end of a mint or a burn.
pub(crate) fn with_product(nobody: bool, pair: &PairRecord) -> PairRecord
    requires { (pair.now.r0 ≤ RESERVE_LIMIT) × (pair.now.r1 ≤ RESERVE_LIMIT) }
    ensures { result ≡ with_product nobody pair.now }
{
    let k_last = if nobody {
        0
    } else {
        pair.r0 as u128 * pair.r1 as u128
    };
    PairRecord { k_last, ..*pair }
}

// Adds shares that the limit has room for.
fn add_shares(alloc: Global, tx: &mut Tx, pool: &PoolName, to: &Holder, n: u64) -> Result<(), Fault>
    requires clean { tx.old.mark ≡ Mark.Clean }
    requires room { supply tx.old.present pool.now + n ≤ AMOUNT_LIMIT }
    ensures meets { Meets tx.old tx.new result (ledger_only (with_more tx.old.present (assets.Share pool.now) to.now n)) }
    ensures whole { OnOk result (supply tx.new.present pool.now ≡ supply tx.old.present pool.now + n) }
    ensures pairs { OnOk result (tx.new.present.pairs ≡ tx.old.present.pairs) }
{
    tx.issue(alloc, &Asset::Share(*pool), to, n)
}

/// Gives the protocol its shares.
#[tactic(auto, unfolding(amm_model::specs::Operations::with_fee))]
pub(crate) fn take_fee(alloc: Global, tx: &mut Tx, pool: &PoolName, fee: u64) -> Result<(), Fault>
    requires clean { tx.old.mark ≡ Mark.Clean }
    requires room { supply tx.old.present pool.now + fee ≤ AMOUNT_LIMIT }
    ensures meets { Meets tx.old tx.new result (ledger_only (with_fee tx.old.present pool.now fee)) }
    ensures whole { OnOk result (supply tx.new.present pool.now ≡ supply tx.old.present pool.now + fee) }
    ensures pairs { OnOk result (tx.new.present.pairs ≡ tx.old.present.pairs) }
{
    if fee == 0 {
        return Ok(());
    }
    let to = *tx.book().fee_to();
    add_shares(alloc, tx, pool, &to, fee)
}

/// Gives shares, and with the first of them some to the zero holder.
#[tactic(auto, unfolding(amm_model::specs::Operations::with_shares))]
pub(crate) fn give_shares(
    alloc: Global,
    tx: &mut Tx,
    pool: &PoolName,
    to: &Holder,
    before: u64,
    n: u64,
) -> Result<(), Fault>
    requires clean { tx.old.mark ≡ Mark.Clean }
    requires room { supply tx.old.present pool.now + n + (if before == 0 then FIRST_LOCKED else 0) ≤ AMOUNT_LIMIT }
    ensures meets { Meets tx.old tx.new result (ledger_only (with_shares tx.old.present pool.now to.now before n)) }
    ensures pairs { OnOk result (tx.new.present.pairs ≡ tx.old.present.pairs) }
{
    if before > 0 {
        return add_shares(alloc, tx, pool, to, n);
    }
    add_shares(alloc, tx, pool, to, n)?;
    add_shares(alloc, tx, pool, &Holder::Zero, FIRST_LOCKED)
}
