//! The factory: it creates the pair of two tokens at a fee, once, and its setter says who gets the
//! protocol's fee.
//!
//! Each call leaves the ledger, answers and refuses exactly as its definition says, and an accepted
//! call leaves a sound ledger sound.
#![tactic(auto)]

ghost use Rattle.std.specs.Prelude.{◌≡◌, OnOk};
ghost use Rattle.amm_model.specs.Factory.{create, set_fee_to, set_setter};
ghost use Rattle.amm_model.specs.Later.{Later};
ghost use Rattle.amm_model.specs.Pools.{same_name};
ghost use Rattle.amm_model.specs.Sound.{IsSound};
ghost use Rattle.amm_model.specs.Swap.{IsFee};
ghost use Rattle.amm_state.specs.Tx.{Meets};

use amm_model::{Fault, Holder, PoolName, Refusal, TokenName, UserName};
use amm_state::{Book, Mark, Tx};
use std::alloc::Global;

/// Creates the pair of two tokens, in either order, at a fee of 1, 3 or 10 thousandths.
///
/// Refused, in this order: IDENTICAL, UNKNOWN_TOKEN, PAIR_EXISTS, PAIR_LIMIT.
pub fn create(
    alloc: Global,
    tx: &mut Tx,
    a: &TokenName,
    b: &TokenName,
    fee: u8,
) -> Result<PoolName, Fault>
    requires clean { tx.old.mark ≡ Mark.Clean }
    requires sound { IsSound tx.old.present }
    requires fee { IsFee fee }
    ensures meets { Meets tx.old tx.new result (create tx.old.present a.now b.now fee) }
    ensures sound { OnOk result (IsSound tx.new.present) }
    ensures later { OnOk result (Later tx.old.present tx.new.present) }
{
    // Their clauses say that both are spelled as tokens are.
    let _ = a.as_bytes();
    let _ = b.as_bytes();
    create_at(alloc, tx, a, b, fee)
}

// The same, as its definition says.
#[tactic(auto, unfolding(amm_model::specs::Factory::create))]
fn create_at(
    alloc: Global,
    tx: &mut Tx,
    a: &TokenName,
    b: &TokenName,
    fee: u8,
) -> Result<PoolName, Fault>
    requires clean { tx.old.mark ≡ Mark.Clean }
    requires fee { IsFee fee }
    ensures { Meets tx.old tx.new result (create tx.old.present a.now b.now fee) }
{
    let pool = match PoolName::of(alloc, a, b, fee) {
        Ok(Some(pool)) => pool,
        Ok(None) => return Err(tx.refuse(Refusal::Identical)),
        Err(_) => return Err(tx.lack()),
    };
    if !tx.book().has_token(a) || !tx.book().has_token(b) {
        return Err(tx.refuse(Refusal::UnknownToken));
    }
    if tx.book().pair(&pool).is_some() {
        return Err(tx.refuse(Refusal::PairExists));
    }
    tx.add_pair(alloc, &pool)?;
    Ok(pool)
}

// Whether the user may change the settings.
fn is_setter(book: &Book, user: &UserName) -> bool
    ensures { result ≡ same_name user.now book.now.ledger.setter }
{
    user == book.setter()
}

/// Sets who gets the protocol's fee. FORBIDDEN exactly where the actor is not the setter.
pub fn set_fee_to(alloc: Global, tx: &mut Tx, actor: &UserName, to: &Holder) -> Result<(), Fault>
    requires clean { tx.old.mark ≡ Mark.Clean }
    requires sound { IsSound tx.old.present }
    ensures meets { Meets tx.old tx.new result (set_fee_to tx.old.present actor.now to.now) }
    ensures sound { OnOk result (IsSound tx.new.present) }
{
    set_fee_to_at(alloc, tx, actor, to)
}

// The same, as its definition says.
#[tactic(auto, unfolding(amm_model::specs::Factory::set_fee_to))]
fn set_fee_to_at(alloc: Global, tx: &mut Tx, actor: &UserName, to: &Holder) -> Result<(), Fault>
    requires { tx.old.mark ≡ Mark.Clean }
    ensures { Meets tx.old tx.new result (set_fee_to tx.old.present actor.now to.now) }
{
    if !is_setter(tx.book(), actor) {
        return Err(tx.refuse(Refusal::Forbidden));
    }
    tx.set_fee_to(alloc, to)
}

/// Sets who may set that, and the setter. FORBIDDEN exactly where the actor is not the setter.
pub fn set_setter(alloc: Global, tx: &mut Tx, actor: &UserName, to: &UserName) -> Result<(), Fault>
    requires clean { tx.old.mark ≡ Mark.Clean }
    requires sound { IsSound tx.old.present }
    ensures meets { Meets tx.old tx.new result (set_setter tx.old.present actor.now to.now) }
    ensures sound { OnOk result (IsSound tx.new.present) }
{
    set_setter_at(alloc, tx, actor, to)
}

// The same, as its definition says.
#[tactic(auto, unfolding(amm_model::specs::Factory::set_setter))]
fn set_setter_at(alloc: Global, tx: &mut Tx, actor: &UserName, to: &UserName) -> Result<(), Fault>
    requires { tx.old.mark ≡ Mark.Clean }
    ensures { Meets tx.old tx.new result (set_setter tx.old.present actor.now to.now) }
{
    if !is_setter(tx.book(), actor) {
        return Err(tx.refuse(Refusal::Forbidden));
    }
    tx.set_setter(alloc, to)
}
