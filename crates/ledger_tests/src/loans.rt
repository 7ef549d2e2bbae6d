//! Borrowers that pay, that cheat, and that borrow again.
ghost use Rattle.std.specs.Prelude.{◌≡◌};

use crate::borrowers::{Hostile, Nests, Pays};
use crate::market::{Names, Pools, open_market, read_names};
use amm_flash::{Borrower, flash};
use amm_model::{Asset, Fault, Holder, PoolName, Refusal, SwapReceipt, TokenName, UserName};
use amm_state::{State, Tx};
use std::alloc::Global;
use std::test::Fail;

// A loan of 1000 of the first token for a borrower, after which all is taken back.
fn attempt<B: Borrower>(
    alloc: Global,
    state: State,
    pool: &PoolName,
    actor: &UserName,
    b: &mut B,
) -> (State, Result<SwapReceipt, Fault>)
    ensures { result.0 ≡ state }
{
    let mut tx = Tx::begin(state);
    let answer = flash(alloc, &mut tx, pool, 1000, 0, actor, b);
    (tx.rollback(), answer)
}

fn receipt(in0: u64, in1: u64) -> Result<SwapReceipt, Fault> {
    Ok(SwapReceipt {
        in0,
        in1,
        out0: 1000,
        out1: 0,
    })
}

fn refused(why: Refusal) -> Result<SwapReceipt, Fault> {
    Err(Fault::Refused(why))
}

fn pays(names: &Names, token: &TokenName, pool: &PoolName, n: u64) -> Pays {
    Pays {
        asset: Asset::Token(*token),
        from: names.alice,
        to: Holder::Pool(*pool),
        n,
    }
}

// Whether the pool that lends is unlocked and has what it had, and alice too.
fn is_untouched(state: &State, names: &Names, pools: &Pools) -> bool {
    let book = state.book();
    let pool = Holder::Pool(pools.eth_usd);
    let alice = Holder::User(names.alice);
    let eth = Asset::Token(names.eth);
    let usd = Asset::Token(names.usd);
    book.balance(&eth, &pool) == 1_000_000
        && book.balance(&usd, &pool) == 4_000_000
        && book.balance(&eth, &alice) == 500_000
        && book.balance(&usd, &alice) == 4_000_000
        && !book.any_locked()
}

// Of 1000 ETH: 997*x >= 1000*1000 holds from x = 1004 on; in USD, (1000*999000)*(1000*4000000 +
// 997*x) >= 10^6*1000000*4000000 holds from x = 4017 on.
#[test]
fn borrowers_that_pay(rt: HostRuntime) -> Result<(), Fail> {
    let alloc = rt.alloc();
    let names = read_names(alloc)?;
    let (mut state, pools) = open_market(alloc, &names)?;
    for (token, n, wanted) in [
        (names.eth, 1003, refused(Refusal::K)),
        (names.eth, 1004, receipt(1004, 0)),
        (names.usd, 4016, refused(Refusal::K)),
        (names.usd, 4017, receipt(0, 4017)),
    ] {
        let mut b = pays(&names, &token, &pools.eth_usd, n);
        let (back, answer) = attempt(alloc, state, &pools.eth_usd, &names.alice, &mut b);
        assert_eq!(&rt; answer, wanted, "at {n}");
        assert!(&rt; is_untouched(&back, &names, &pools), "after {n}");
        state = back;
    }
    Ok(())
}

#[test]
fn borrowers_that_cheat(rt: HostRuntime) -> Result<(), Fail> {
    let alloc = rt.alloc();
    let names = read_names(alloc)?;
    let (mut state, pools) = open_market(alloc, &names)?;
    for (hostile, why) in [
        (Hostile::Sleeps, Refusal::InsufficientInputAmount),
        (Hostile::Mints, Refusal::Locked),
        (Hostile::Swaps, Refusal::Locked),
        (Hostile::Overdraws(names.alice), Refusal::Funds),
        (Hostile::Refuses, Refusal::K),
        (Hostile::Fails, Refusal::Forbidden),
    ] {
        let mut b = hostile;
        let (back, answer) = attempt(alloc, state, &pools.eth_usd, &names.alice, &mut b);
        assert_eq!(&rt; answer, refused(why));
        assert!(&rt; is_untouched(&back, &names, &pools), "after {why:?}");
        state = back;
    }
    Ok(())
}

#[test]
fn loans_inside_loans(rt: HostRuntime) -> Result<(), Fail> {
    let alloc = rt.alloc();
    let names = read_names(alloc)?;
    let (mut state, pools) = open_market(alloc, &names)?;
    // Of another pool, which asks for 2007 back of 2000.
    for (n, wanted) in [(2006, refused(Refusal::K)), (2007, receipt(1004, 0))] {
        let mut b = Nests {
            pool: pools.btc_eth,
            out0: 0,
            out1: 2000,
            inner: pays(&names, &names.eth, &pools.btc_eth, n),
            pays: pays(&names, &names.eth, &pools.eth_usd, 1004),
        };
        let (back, answer) = attempt(alloc, state, &pools.eth_usd, &names.alice, &mut b);
        assert_eq!(&rt; answer, wanted, "at {n}");
        assert!(&rt; is_untouched(&back, &names, &pools), "after {n}");
        state = back;
    }
    // Of the lending pool, at once or inside a loan of another.
    let mut again = Nests {
        pool: pools.eth_usd,
        out0: 1000,
        out1: 0,
        inner: Hostile::Sleeps,
        pays: pays(&names, &names.eth, &pools.eth_usd, 1004),
    };
    let (back, answer) = attempt(alloc, state, &pools.eth_usd, &names.alice, &mut again);
    assert_eq!(&rt; answer, refused(Refusal::Locked));
    let mut around = Nests {
        pool: pools.btc_eth,
        out0: 0,
        out1: 2000,
        inner: again,
        pays: pays(&names, &names.eth, &pools.eth_usd, 1004),
    };
    let (back, answer) = attempt(alloc, back, &pools.eth_usd, &names.alice, &mut around);
    assert_eq!(&rt; answer, refused(Refusal::Locked));
    assert!(&rt; is_untouched(&back, &names, &pools));
    Ok(())
}
