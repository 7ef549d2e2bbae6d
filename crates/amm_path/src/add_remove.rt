//! Liquidity added and removed, with minimums, in the order of the caller's two tokens.
ghost use Rattle.std.specs.Prelude.{◌≡◌, ◌≤◌, ◌<◌, OnOk, IfOk};
ghost use Rattle.amm_model.specs.Swap.{IsFee, quote_of};
ghost use Rattle.amm_model.specs.Fits.{FitsAdd, FitsRemove};
ghost use Rattle.amm_model.specs.Later.{Later};
ghost use Rattle.amm_model.specs.declared.limits.TheConstants.{AMOUNT_LIMIT, RESERVE_LIMIT};
ghost use Rattle.amm_model.specs.Router.{with_pool, match_a, match_b, matched_amounts, paid_in_order, add, remove};
ghost use Rattle.amm_model.specs.Sound.{IsSound};
ghost use Rattle.amm_state.specs.Tx.{Meets};

use crate::sides::side_of;
use amm_factory::create;
use amm_model::{
    AddReceipt, AddWant, Asset, BurnReceipt, Fault, Holder, Matched, PoolName, Refusal,
    RemoveReceipt, RemoveWant, Side, TokenName, UserName,
};
use amm_pair::{burn, mint, pay};
use amm_pool::quote;
use amm_state::{Mark, Tx};
use std::alloc::Global;

/// Adds at most the desired amounts, in the relation of the pool's reserves, and gives shares for
/// them. A missing pair is created.
///
/// Refused, in this order: EXPIRED; for a missing pair IDENTICAL, UNKNOWN_TOKEN, PAIR_LIMIT; where
/// there are reserves INSUFFICIENT_AMOUNT, INSUFFICIENT_LIQUIDITY, and INSUFFICIENT_B_AMOUNT or
/// INSUFFICIENT_A_AMOUNT; FUNDS; the refusals of a mint.
pub fn add(
    alloc: Global,
    tx: &mut Tx,
    actor: &UserName,
    want: &AddWant,
    to: &Holder,
    deadline: u64,
) -> Result<AddReceipt, Fault>
    requires clean { tx.old.mark ≡ Mark.Clean }
    requires sound { IsSound tx.old.present }
    requires want { FitsAdd want.now }
    ensures meets { Meets tx.old tx.new result (add tx.old.present actor.now want.now to.now deadline) }
    ensures sound { OnOk result (IsSound tx.new.present) }
    ensures later { OnOk result (Later tx.old.present tx.new.present) }
{
    // Their clauses say that both are spelled as tokens are.
    let _ = want.a.as_bytes();
    let _ = want.b.as_bytes();
    add_at(alloc, tx, actor, want, to, deadline)
}

// The same, as its definition says.
#[tactic(auto, unfolding(amm_model::specs::Router::add))]
fn add_at(
    alloc: Global,
    tx: &mut Tx,
    actor: &UserName,
    want: &AddWant,
    to: &Holder,
    deadline: u64,
) -> Result<AddReceipt, Fault>
    requires clean { tx.old.mark ≡ Mark.Clean }
    requires sound { IsSound tx.old.present }
    requires want { FitsAdd want.now }
    ensures meets { Meets tx.old tx.new result (add tx.old.present actor.now want.now to.now deadline) }
    ensures sound { OnOk result (IsSound tx.new.present) }
{
    if deadline < tx.book().time() {
        return Err(tx.refuse(Refusal::Expired));
    }
    with_pool(alloc, tx, &want.a, &want.b, want.fee)?;
    let side = match side_of(alloc, tx.book(), &want.a, &want.b, want.fee) {
        Ok(side) => side,
        Err(fault) => return Err(tx.fail(fault)),
    };
    let amounts = tx.admit(matched(want, side.rin, side.rout))?;
    pay(
        alloc,
        tx,
        &Asset::Token(want.a),
        actor,
        &side.pool,
        amounts.a,
    )?;
    pay(
        alloc,
        tx,
        &Asset::Token(want.b),
        actor,
        &side.pool,
        amounts.b,
    )?;
    let minted = mint(alloc, tx, &side.pool, to)?;
    Ok(AddReceipt {
        a: amounts.a,
        b: amounts.b,
        shares: minted.shares,
    })
}

// The pool of two tokens at a fee, whose pair is created where it is missing.
#[tactic(auto, unfolding(amm_model::specs::Router::with_pool))]
fn with_pool(
    alloc: Global,
    tx: &mut Tx,
    a: &TokenName,
    b: &TokenName,
    fee: u8,
) -> Result<PoolName, Fault>
    requires clean { tx.old.mark ≡ Mark.Clean }
    requires sound { IsSound tx.old.present }
    requires fee { IsFee fee }
    ensures meets { Meets tx.old tx.new result (with_pool tx.old.present a.now b.now fee) }
    ensures sound { OnOk result (IsSound tx.new.present) }
{
    let pool = match PoolName::of(alloc, a, b, fee) {
        Ok(Some(pool)) => pool,
        Ok(None) => return Err(tx.refuse(Refusal::Identical)),
        Err(_) => return Err(tx.lack()),
    };
    if tx.book().pair(&pool).is_some() {
        return Ok(pool);
    }
    create(alloc, tx, a, b, fee)
}

// The amounts to add at these reserves.
#[tactic(auto, unfolding(amm_model::specs::Router::matched_amounts))]
fn matched(want: &AddWant, ra: u64, rb: u64) -> Result<Matched, Refusal>
    requires desired { (want.now.a_desired ≤ AMOUNT_LIMIT) × (want.now.b_desired ≤ AMOUNT_LIMIT) }
    requires reserves { (ra ≤ RESERVE_LIMIT) × (rb ≤ RESERVE_LIMIT) }
    ensures { result ≡ matched_amounts want.now ra rb }
{
    if ra == 0 && rb == 0 {
        return Ok(Matched {
            a: want.a_desired,
            b: want.b_desired,
        });
    }
    if want.a_desired == 0 {
        return Err(Refusal::InsufficientAmount);
    }
    if ra == 0 || rb == 0 {
        return Err(Refusal::InsufficientLiquidity);
    }
    let b = quote(want.a_desired, ra, rb);
    if b <= want.b_desired as u128 {
        match_b(want, b as u64)
    } else {
        match_a(want, ra, rb)
    }
}

// All that is desired of the first token, and what matches it of the second.
fn match_b(want: &AddWant, b: u64) -> Result<Matched, Refusal>
    ensures { result ≡ match_b want.now b }
{
    if b < want.b_min {
        return Err(Refusal::InsufficientBAmount);
    }
    Ok(Matched {
        a: want.a_desired,
        b,
    })
}

// All that is desired of the second token, and what matches it of the first.
fn match_a(want: &AddWant, ra: u64, rb: u64) -> Result<Matched, Refusal>
    requires desired { (want.now.a_desired ≤ AMOUNT_LIMIT) × (want.now.b_desired ≤ AMOUNT_LIMIT) }
    requires reserves { (1 ≤ ra) × (ra ≤ RESERVE_LIMIT) × (1 ≤ rb) × (rb ≤ RESERVE_LIMIT) }
    requires less { want.now.b_desired < quote_of want.now.a_desired ra rb }
    ensures { result ≡ match_a want.now ra rb }
{
    if want.b_desired == 0 {
        return Err(Refusal::InsufficientAmount);
    }
    let a = quote(want.b_desired, rb, ra);
    if a < want.a_min as u128 {
        return Err(Refusal::InsufficientAAmount);
    }
    Ok(Matched {
        a: a as u64,
        b: want.b_desired,
    })
}

/// Sends shares to their pool and takes out what they stand for, with all other shares that lie
/// there.
///
/// Refused, in this order: EXPIRED, IDENTICAL, NO_PAIR, FUNDS, the refusals of a burn,
/// INSUFFICIENT_A_AMOUNT, INSUFFICIENT_B_AMOUNT.
pub fn remove(
    alloc: Global,
    tx: &mut Tx,
    actor: &UserName,
    want: &RemoveWant,
    to: &Holder,
    deadline: u64,
) -> Result<RemoveReceipt, Fault>
    requires clean { tx.old.mark ≡ Mark.Clean }
    requires sound { IsSound tx.old.present }
    requires want { FitsRemove want.now }
    ensures meets { Meets tx.old tx.new result (remove tx.old.present actor.now want.now to.now deadline) }
    ensures sound { OnOk result (IsSound tx.new.present) }
    ensures later { OnOk result (Later tx.old.present tx.new.present) }
{
    // Their clauses say that both are spelled as tokens are.
    let _ = want.a.as_bytes();
    let _ = want.b.as_bytes();
    remove_at(alloc, tx, actor, want, to, deadline)
}

// The same, as its definition says.
#[tactic(auto, unfolding(amm_model::specs::Router::remove))]
fn remove_at(
    alloc: Global,
    tx: &mut Tx,
    actor: &UserName,
    want: &RemoveWant,
    to: &Holder,
    deadline: u64,
) -> Result<RemoveReceipt, Fault>
    requires clean { tx.old.mark ≡ Mark.Clean }
    requires sound { IsSound tx.old.present }
    requires want { FitsRemove want.now }
    ensures meets { Meets tx.old tx.new result (remove tx.old.present actor.now want.now to.now deadline) }
    ensures sound { OnOk result (IsSound tx.new.present) }
{
    if deadline < tx.book().time() {
        return Err(tx.refuse(Refusal::Expired));
    }
    let side = match side_of(alloc, tx.book(), &want.a, &want.b, want.fee) {
        Ok(side) => side,
        Err(fault) => return Err(tx.fail(fault)),
    };
    pay(
        alloc,
        tx,
        &Asset::Share(side.pool),
        actor,
        &side.pool,
        want.shares,
    )?;
    let burnt = burn(alloc, tx, &side.pool, to)?;
    let paid = paid_in_order(&side, &burnt);
    if paid.a < want.a_min {
        return Err(tx.refuse(Refusal::InsufficientAAmount));
    }
    if paid.b < want.b_min {
        return Err(tx.refuse(Refusal::InsufficientBAmount));
    }
    Ok(paid)
}

// What a burn paid, in the order of the two tokens that the side is seen from.
fn paid_in_order(side: &Side, burnt: &BurnReceipt) -> RemoveReceipt
    ensures { result ≡ paid_in_order side.now burnt.now }
{
    if side.zero_in {
        RemoveReceipt {
            a: burnt.amount0,
            b: burnt.amount1,
        }
    } else {
        RemoveReceipt {
            a: burnt.amount1,
            b: burnt.amount0,
        }
    }
}
