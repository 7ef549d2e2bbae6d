//! The calls of a loan, one by one: it is closed, and it is abandoned. What the other calls of a
//! pair answer is asked by `sessions/pairs.txt`.
ghost use Rattle.std.specs.Prelude.{◌≡◌};
ghost use Rattle.amm_model.specs.Sound.{IsSound};
ghost use Rattle.amm_state.specs.declared.mark.Mark.{Mark};

use crate::market::{Names, bring, open_market, read_names};
use amm_model::{Fault, Holder, PoolName, Refusal, SwapReceipt};
use amm_pair::{abandon_loan, close_loan, open_loan};
use amm_state::Tx;
use std::alloc::Global;
use std::test::Fail;

// 1000 ETH are lent, and so much is brought back.
fn borrow(
    alloc: Global,
    tx: &mut Tx,
    names: &Names,
    pool: &PoolName,
    n: u64,
) -> Result<SwapReceipt, Fault>
    requires clean { tx.old.mark ≡ Mark.Clean }
    requires sound { IsSound tx.old.present }
{
    let loan = open_loan(alloc, tx, pool, 1000, 0, &Holder::User(names.alice))?;
    if let Err(why) = bring(alloc, tx, &names.eth, pool, n) {
        abandon_loan(tx, loan);
        return Err(why);
    }
    close_loan(alloc, tx, loan)
}

fn borrow_and_fail(alloc: Global, tx: &mut Tx, names: &Names, pool: &PoolName) -> Fault
    requires clean { tx.old.mark ≡ Mark.Clean }
    requires sound { IsSound tx.old.present }
{
    match open_loan(alloc, tx, pool, 0, 1, &Holder::User(names.alice)) {
        Ok(loan) => {
            let why = tx.refuse(Refusal::Stale);
            abandon_loan(tx, loan);
            why
        }
        Err(why) => why,
    }
}

// 997*1004 >= 1000*1000, so 1004 are enough for 1000.
#[test]
fn a_loan_is_closed_or_abandoned(rt: HostRuntime) -> Result<(), Fail> {
    let alloc = rt.alloc();
    let names = read_names(alloc)?;
    let (state, pools) = open_market(alloc, &names)?;
    let mut tx = Tx::begin(state);
    let closed = borrow(alloc, &mut tx, &names, &pools.eth_usd, 1004);
    let locked = tx.book().any_locked();
    let mut tx = Tx::begin(tx.rollback());
    let short = borrow(alloc, &mut tx, &names, &pools.eth_usd, 1003);
    let mut tx = Tx::begin(tx.rollback());
    let abandoned = borrow_and_fail(alloc, &mut tx, &names, &pools.eth_usd);
    let state = tx.rollback();
    let paid = SwapReceipt {
        in0: 1004,
        in1: 0,
        out0: 1000,
        out1: 0,
    };
    assert_eq!(&rt; closed, Ok(paid));
    assert_eq!(&rt; short, Err(Fault::Refused(Refusal::K)));
    assert_eq!(&rt; abandoned, Fault::Refused(Refusal::Stale));
    assert!(&rt; !locked && !state.book().any_locked());
    Ok(())
}
