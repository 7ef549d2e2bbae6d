//! Creating pairs, and who may set what.
ghost use Rattle.std.specs.Prelude.{◌≡◌, OnOk};
ghost use Rattle.amm_model.specs.Sound.{IsSound};
ghost use Rattle.amm_model.specs.Swap.{IsFee};
ghost use Rattle.amm_state.specs.declared.mark.Mark.{Mark};

use crate::market::{token, user};
use amm_factory::{create, set_fee_to, set_setter};
use amm_model::{Fault, Holder, PoolName, Refusal, TokenName, UserName};
use amm_state::{State, Tx};
use std::alloc::Global;
use std::test::Fail;

fn list(alloc: Global, tx: &mut Tx, token: &TokenName) -> Result<(), Fault>
    requires clean { tx.old.mark ≡ Mark.Clean }
    requires sound { IsSound tx.old.present }
    ensures clean { OnOk result (tx.new.mark ≡ Mark.Clean) }
    ensures sound { OnOk result (IsSound tx.new.present) }
{
    tx.list_token(alloc, token)
}

// Creates the pool of the two tokens at the fee, and then it and another in the other order.
fn create_twice(
    alloc: Global,
    tx: &mut Tx,
    a: &TokenName,
    b: &TokenName,
    fee: u8,
    other: u8,
) -> Result<PoolName, Fault>
    requires clean { tx.old.mark ≡ Mark.Clean }
    requires sound { IsSound tx.old.present }
    requires fees { IsFee fee × IsFee other }
{
    list(alloc, tx, a)?;
    list(alloc, tx, b)?;
    create(alloc, tx, a, b, fee)?;
    create(alloc, tx, b, a, other)
}

fn answer(
    alloc: Global,
    a: &TokenName,
    b: &TokenName,
    fee: u8,
    other: u8,
) -> Result<Result<PoolName, Fault>, Fail>
    requires { IsFee fee × IsFee other }
{
    let mut tx = Tx::begin(State::new(alloc)?);
    let answer = create_twice(alloc, &mut tx, a, b, fee, other);
    let _ = tx.rollback();
    Ok(answer)
}

#[test]
fn creates_each_pool_once(rt: HostRuntime) -> Result<(), Fail> {
    let alloc = rt.alloc();
    let eth = token(alloc, b"ETH".as_slice())?;
    let usd = token(alloc, b"USD".as_slice())?;
    let first = answer(alloc, &usd, &eth, 1, 3)??;
    assert_eq!(rt; first.as_bytes(), b"ETH/USD".as_slice());
    let second = answer(alloc, &usd, &eth, 3, 10)??;
    assert_eq!(rt; second.as_bytes(), b"ETH/USD:10".as_slice());
    assert_eq!(rt;
        answer(alloc, &usd, &eth, 1, 1)?.err(),
        Some(Fault::Refused(Refusal::PairExists))
    );
    assert_eq!(rt;
        answer(alloc, &eth, &eth, 3, 3)?.err(),
        Some(Fault::Refused(Refusal::Identical))
    );
    Ok(())
}

// The setter names a receiver and then another setter, and is not the setter any more.
fn set_both(
    alloc: Global,
    tx: &mut Tx,
    admin: &UserName,
    bob: &UserName,
) -> Result<Result<(), Fault>, Fault>
    requires clean { tx.old.mark ≡ Mark.Clean }
    requires sound { IsSound tx.old.present }
{
    set_fee_to(alloc, tx, admin, &Holder::User(*bob))?;
    set_setter(alloc, tx, admin, bob)?;
    Ok(set_fee_to(alloc, tx, admin, &Holder::Zero))
}

#[test]
fn the_setter_alone_sets(rt: HostRuntime) -> Result<(), Fail> {
    let alloc = rt.alloc();
    let admin = user(alloc, b"admin".as_slice())?;
    let bob = user(alloc, b"bob".as_slice())?;
    let mut tx = Tx::begin(State::new(alloc)?);
    let answer = set_both(alloc, &mut tx, &admin, &bob);
    let receiver = *tx.book().fee_to();
    let _ = tx.rollback();
    assert!(rt; receiver == Holder::User(bob));
    assert_eq!(rt; answer?, Err(Fault::Refused(Refusal::Forbidden)));
    Ok(())
}
