//! Liquidity: shares for what was brought to a pool, and what they stand for when they end.
ghost use Rattle.std.specs.Prelude.{◌≡◌, ◌≢◌, ◌+◌, ◌*◌, ◌≤◌, ◌==◌, if◌then◌else◌, OnOk, IfOk};
ghost use Rattle.amm_names.specs.declared.holder.Holder.TheVariants as holders;
ghost use Rattle.amm_names.specs.declared.holder.Asset.TheVariants as assets;
ghost use Rattle.amm_model.specs.Postings.{retire};
ghost use Rattle.amm_model.specs.Pools.{supply};
ghost use Rattle.amm_model.specs.declared.limits.TheConstants.{FIRST_LOCKED, RESERVE_LIMIT, AMOUNT_LIMIT};
ghost use Rattle.amm_model.specs.Operations.{mint, burn, send_both, burn_amounts, shares_for, PerShareKept};
ghost use Rattle.amm_model.specs.Later.{Later};
ghost use Rattle.amm_model.specs.Sound.{IsSound, IsCovered};
ghost use Rattle.amm_state.specs.Tx.{Meets};

use crate::holdings::{held0, held1, own_shares, send_both, supply};
use crate::protocol::{fee_due, give_shares, is_nobody, take_fee, with_product};
use crate::records::{free_pair, updated};
use amm_model::limits::FIRST_LOCKED;
use amm_model::{Asset, BurnReceipt, Fault, Holder, MintReceipt, PairRecord, PoolName, Refusal};
use amm_pool::{burn_amount, first_root, later_shares};
use amm_state::{Book, Mark, Tx};
use std::alloc::Global;

/// Gives shares for what the pool has above its reserves, which takes it in.
///
/// Refused, in this order: NO_PAIR, LOCKED, INSUFFICIENT_LIQUIDITY_MINTED, OVERFLOW.
pub fn mint(alloc: Global, tx: &mut Tx, pool: &PoolName, to: &Holder) -> Result<MintReceipt, Fault>
    requires clean { tx.old.mark ≡ Mark.Clean }
    requires sound { IsSound tx.old.present }
    ensures meets { Meets tx.old tx.new result (mint tx.old.present pool.now to.now) }
    ensures sound { OnOk result (IsSound tx.new.present) }
    ensures per_share { IfOk result (λ receipt. PerShareKept tx.old.present tx.new.present pool.now receipt.fee_shares) }
{
    mint_at(alloc, tx, pool, to)
}

// The same; apart so that the check unfolds its definition here alone.
#[tactic(auto, unfolding(amm_model::specs::Operations::mint))]
fn mint_at(alloc: Global, tx: &mut Tx, pool: &PoolName, to: &Holder) -> Result<MintReceipt, Fault>
    requires clean { tx.old.mark ≡ Mark.Clean }
    requires sound { IsSound tx.old.present }
    ensures { Meets tx.old tx.new result (mint tx.old.present pool.now to.now) }
{
    let pair = tx.admit(free_pair(tx.book(), pool))?;
    let nobody = is_nobody(tx.book().fee_to());
    let fee = fee_due(tx.book(), pool, &pair);
    let before = supply(tx.book(), pool) + fee;
    let shares = shares_for(tx.book(), pool, &pair, before);
    if shares == 0 {
        return Err(tx.refuse(Refusal::InsufficientLiquidityMinted));
    }
    take_fee(alloc, tx, pool, fee)?;
    give_shares(alloc, tx, pool, to, before, shares)?;
    let b0 = held0(tx.book(), pool);
    let b1 = held1(tx.book(), pool);
    let new = tx.admit(updated(&pair, tx.book().time(), b0, b1))?;
    tx.set_pair(alloc, pool, with_product(nobody, &new))?;
    Ok(MintReceipt {
        shares,
        fee_shares: fee,
    })
}

// The shares for what was brought, of a supply, for which there is room.
fn shares_for(book: &Book, pool: &PoolName, pair: &PairRecord, before: u64) -> u64
    requires sound { IsSound book.now.ledger }
    requires reserves { (pair.now.r0 ≤ RESERVE_LIMIT) × (pair.now.r1 ≤ RESERVE_LIMIT) }
    requires covered { IsCovered book.now.ledger pool.now pair.now }
    requires backed { before * before ≤ pair.now.r0 * pair.now.r1 }
    ensures value { result ≡ shares_for book.now.ledger pool.now pair.now before }
    ensures room { result ≢ 0 → before + (result + (if before == 0 then FIRST_LOCKED else 0)) ≤ AMOUNT_LIMIT }
{
    shares_by_formula(book, pool, pair, before)
}

#[tactic(auto, unfolding(amm_model::specs::Operations::shares_for))]
fn shares_by_formula(book: &Book, pool: &PoolName, pair: &PairRecord, before: u64) -> u64
    requires reserves { (pair.now.r0 ≤ RESERVE_LIMIT) × (pair.now.r1 ≤ RESERVE_LIMIT) }
    requires backed { before * before ≤ pair.now.r0 * pair.now.r1 }
    ensures { result ≡ shares_for book.now.ledger pool.now pair.now before }
{
    let brought0 = held0(book, pool).saturating_sub(pair.r0);
    let brought1 = held1(book, pool).saturating_sub(pair.r1);
    if before == 0 {
        first_root(brought0, brought1).saturating_sub(FIRST_LOCKED)
    } else {
        later_shares(brought0, brought1, before, pair.r0, pair.r1)
    }
}

/// Ends the shares that the pool has of itself, and sends what they stand for.
///
/// Refused, in this order: NO_PAIR, LOCKED, INSUFFICIENT_LIQUIDITY_BURNED, OVERFLOW.
pub fn burn(alloc: Global, tx: &mut Tx, pool: &PoolName, to: &Holder) -> Result<BurnReceipt, Fault>
    requires clean { tx.old.mark ≡ Mark.Clean }
    requires sound { IsSound tx.old.present }
    ensures meets { Meets tx.old tx.new result (burn tx.old.present pool.now to.now) }
    ensures sound { OnOk result (IsSound tx.new.present) }
    ensures later { OnOk result (Later tx.old.present tx.new.present) }
    ensures per_share { IfOk result (λ receipt. PerShareKept tx.old.present tx.new.present pool.now receipt.fee_shares) }
{
    // Its clause says that the two tokens differ.
    let _ = pool.as_bytes();
    burn_at(alloc, tx, pool, to)
}

// The same; apart so that the check unfolds its definition here alone.
#[tactic(auto, unfolding(amm_model::specs::Operations::burn))]
fn burn_at(alloc: Global, tx: &mut Tx, pool: &PoolName, to: &Holder) -> Result<BurnReceipt, Fault>
    requires clean { tx.old.mark ≡ Mark.Clean }
    requires sound { IsSound tx.old.present }
    ensures { Meets tx.old tx.new result (burn tx.old.present pool.now to.now) }
{
    let pair = tx.admit(free_pair(tx.book(), pool))?;
    let nobody = is_nobody(tx.book().fee_to());
    let fee = fee_due(tx.book(), pool, &pair);
    let whole = supply(tx.book(), pool) + fee;
    if whole == 0 {
        return Err(tx.refuse(Refusal::InsufficientLiquidityBurned));
    }
    let own = own_shares(tx.book(), pool);
    let parts = parts_of(tx.book(), pool, whole, fee);
    if parts.amount0 == 0 || parts.amount1 == 0 {
        return Err(tx.refuse(Refusal::InsufficientLiquidityBurned));
    }
    take_fee(alloc, tx, pool, fee)?;
    end_shares(alloc, tx, pool, own)?;
    send_parts(alloc, tx, pool, &parts, to)?;
    let b0 = held0(tx.book(), pool);
    let b1 = held1(tx.book(), pool);
    let new = tx.admit(updated(&pair, tx.book().time(), b0, b1))?;
    tx.set_pair(alloc, pool, with_product(nobody, &new))?;
    Ok(parts)
}

// What the pool's own shares stand for, of a supply.
#[tactic(auto, unfolding(amm_model::specs::Operations::burn_amounts))]
fn parts_of(book: &Book, pool: &PoolName, before: u64, fee: u64) -> BurnReceipt
    requires supply { (supply book.now.ledger pool.now ≤ before) × (1 ≤ before) }
    requires small { before ≤ RESERVE_LIMIT }
    ensures { result ≡ burn_amounts book.now.ledger pool.now before fee }
{
    let own = own_shares(book, pool);
    BurnReceipt {
        amount0: burn_amount(own, held0(book, pool), before),
        amount1: burn_amount(own, held1(book, pool), before),
        fee_shares: fee,
    }
}

// Ends shares that the pool has of itself, which changes no pair; apart so that this is shown once.
fn end_shares(alloc: Global, tx: &mut Tx, pool: &PoolName, own: u64) -> Result<(), Fault>
    requires clean { tx.old.mark ≡ Mark.Clean }
    ensures meets { Meets tx.old tx.new result (retire tx.old.present (assets.Share pool.now) (holders.Pool pool.now) own) }
    ensures pairs { OnOk result (tx.new.present.pairs ≡ tx.old.present.pairs) }
{
    tx.retire(alloc, &Asset::Share(*pool), &Holder::Pool(*pool), own)
}

// Sends what a burn pays, which changes no pair; apart so that this is shown once.
fn send_parts(
    alloc: Global,
    tx: &mut Tx,
    pool: &PoolName,
    parts: &BurnReceipt,
    to: &Holder,
) -> Result<(), Fault>
    requires clean { tx.old.mark ≡ Mark.Clean }
    ensures meets { Meets tx.old tx.new result (send_both tx.old.present pool.now parts.now.amount0 parts.now.amount1 to.now) }
    ensures pairs { OnOk result (tx.new.present.pairs ≡ tx.old.present.pairs) }
{
    send_both(alloc, tx, pool, parts.amount0, parts.amount1, to)
}
