//! Observations of a pool on a ledger, and what they tell.
ghost use Rattle.std.specs.Prelude.{◌≡◌, ◌≤◌, OnOk};
ghost use Rattle.amm_model.specs.declared.limits.TheConstants.{AMOUNT_LIMIT};
ghost use Rattle.amm_model.specs.Sound.{IsSound};
ghost use Rattle.amm_state.specs.declared.mark.Mark.{Mark};

use crate::market::{bring, token, user};
use amm_model::{Averages, Fault, Holder, PoolName, Refusal, TokenName, UserName, WindowAnswer};
use amm_oracle::{average, consult, observe, window};
use amm_pair::{mint, sync};
use amm_state::{Book, State, Tx};
use std::alloc::Global;
use std::test::Fail;

// Two tokens, two pools of them, and a user.
#[derive(Clone, Copy, Drop)]
struct Market {
    eth: TokenName,
    usd: TokenName,
    pool: PoolName,
    other: PoolName,
    alice: UserName,
}

fn open_market(alloc: Global) -> Result<Market, Fail> {
    let eth = token(alloc, b"ETH".as_slice())?;
    let usd = token(alloc, b"USD".as_slice())?;
    let alice = user(alloc, b"alice".as_slice())?;
    let Some(pool) = PoolName::of(alloc, &usd, &eth, 3)? else {
        return Err("no pool")?;
    };
    let Some(other) = PoolName::of(alloc, &usd, &eth, 1)? else {
        return Err("no pool")?;
    };
    Ok(Market {
        eth,
        usd,
        pool,
        other,
        alice,
    })
}

fn create(alloc: Global, tx: &mut Tx, pool: &PoolName) -> Result<(), Fault>
    requires clean { tx.old.mark ≡ Mark.Clean }
    requires sound { IsSound tx.old.present }
    ensures clean { OnOk result (tx.new.mark ≡ Mark.Clean) }
    ensures sound { OnOk result (IsSound tx.new.present) }
{
    if !tx.book().has_token(pool.token0()) {
        return Err(tx.refuse(Refusal::UnknownToken));
    }
    if !tx.book().has_token(pool.token1()) {
        return Err(tx.refuse(Refusal::UnknownToken));
    }
    if tx.book().pair(pool).is_some() {
        return Err(tx.refuse(Refusal::PairExists));
    }
    tx.add_pair(alloc, pool)
}

fn wait(alloc: Global, tx: &mut Tx, time: u64) -> Result<(), Fault>
    requires clean { tx.old.mark ≡ Mark.Clean }
    requires sound { IsSound tx.old.present }
    requires limit { time ≤ AMOUNT_LIMIT }
    ensures clean { OnOk result (tx.new.mark ≡ Mark.Clean) }
    ensures sound { OnOk result (IsSound tx.new.present) }
{
    tx.set_time(alloc, time)
}

// A pool of so many ETH and USD.
fn found(
    alloc: Global,
    tx: &mut Tx,
    m: &Market,
    pool: &PoolName,
    reserves: (u64, u64),
) -> Result<(), Fault>
    requires clean { tx.old.mark ≡ Mark.Clean }
    requires sound { IsSound tx.old.present }
    ensures clean { OnOk result (tx.new.mark ≡ Mark.Clean) }
    ensures sound { OnOk result (IsSound tx.new.present) }
{
    bring(alloc, tx, &m.eth, pool, reserves.0)?;
    bring(alloc, tx, &m.usd, pool, reserves.1)?;
    create(alloc, tx, pool)?;
    mint(alloc, tx, pool, &Holder::User(m.alice))?;
    Ok(())
}

// One pool at 4 USD an ETH for 10 seconds and at 2 for 20, with an observation at each end, and
// one of another pool between.
fn two_prices(alloc: Global, tx: &mut Tx, m: &Market) -> Result<(), Fault>
    requires clean { tx.old.mark ≡ Mark.Clean }
    requires sound { IsSound tx.old.present }
    ensures sound { OnOk result (IsSound tx.new.present) }
{
    found(alloc, tx, m, &m.pool, (1_000_000, 4_000_000))?;
    observe(alloc, tx, &m.pool)?;
    wait(alloc, tx, 10)?;
    found(alloc, tx, m, &m.other, (1_000_000, 1_000_000))?;
    observe(alloc, tx, &m.other)?;
    bring(alloc, tx, &m.eth, &m.pool, 1_000_000)?;
    sync(alloc, tx, &m.pool)?;
    wait(alloc, tx, 30)?;
    observe(alloc, tx, &m.pool)?;
    Ok(())
}

// (4*10 + 2*20) / 30 = 8/3 and (10/4 + 20/2) / 30 = 5/12, times 2^48 and rounded down.
const TWO_PRICES: Averages = Averages {
    price0: 750599937895082,
    price1: 117281240296106,
};

// 3000 * 8/3, of a price a little lower, is 7999. Of the pools' observations the numbers 1 and 3
// are of one pool; it has none 31 seconds before its last, and the other pool no second one.
fn shows_two_prices(book: &Book, m: &Market) -> bool
    requires { IsSound book.now.ledger }
{
    average(book, 1, 3) == Ok(TWO_PRICES)
        && average(book, 3, 1) == Err(Refusal::BadWindow)
        && average(book, 1, 2) == Err(Refusal::BadWindow)
        && average(book, 2, 4) == Err(Refusal::NoObservation)
        && average(book, 0, 1) == Err(Refusal::NoObservation)
        && consult(book, 1, 3, &m.eth, 3000) == Ok(7999)
        && consult(book, 4, 3, &m.eth, 3000) == Err(Refusal::NoObservation)
}

fn shows_windows(book: &Book, m: &Market) -> bool
    requires { IsSound book.now.ledger }
{
    let whole = WindowAnswer {
        first: 1,
        second: 3,
        averages: TWO_PRICES,
    };
    window(book, &m.pool, 30) == Ok(whole)
        && window(book, &m.pool, 1) == Ok(whole)
        && window(book, &m.pool, 31) == Err(Refusal::NoObservation)
        && window(book, &m.pool, 0) == Err(Refusal::ZeroAmount)
        && window(book, &m.other, 1) == Err(Refusal::NoObservation)
}

#[test]
fn tells_two_prices(rt: HostRuntime) -> Result<(), Fail> {
    let alloc = rt.alloc();
    let m = open_market(alloc)?;
    let mut tx = Tx::begin(State::new(alloc)?);
    let shown = match two_prices(alloc, &mut tx, &m) {
        Ok(()) => shows_two_prices(tx.book(), &m) && shows_windows(tx.book(), &m),
        Err(_) => false,
    };
    let _ = tx.rollback();
    assert!(&rt; shown);
    Ok(())
}

// A pool of equal reserves over a turn of its clock, from 2^32-5 to 2^32+5: 10 seconds at 1. The
// price that it has within the second of the last observation counts for nothing.
fn over_a_turn(alloc: Global, tx: &mut Tx, m: &Market) -> Result<(), Fault>
    requires clean { tx.old.mark ≡ Mark.Clean }
    requires sound { IsSound tx.old.present }
    ensures sound { OnOk result (IsSound tx.new.present) }
{
    wait(alloc, tx, 4294967291)?;
    found(alloc, tx, m, &m.pool, (1_000_000, 1_000_000))?;
    observe(alloc, tx, &m.pool)?;
    wait(alloc, tx, 4294967301)?;
    observe(alloc, tx, &m.pool)?;
    bring(alloc, tx, &m.usd, &m.pool, 5_000_000)?;
    sync(alloc, tx, &m.pool)?;
    observe(alloc, tx, &m.pool)?;
    Ok(())
}

// The last two are of one second; the window reaches from the last of them.
fn shows_turn(book: &Book, m: &Market) -> bool
    requires { IsSound book.now.ledger }
{
    let one = Averages {
        price0: 281474976710656,
        price1: 281474976710656,
    };
    let whole = WindowAnswer {
        first: 1,
        second: 3,
        averages: one,
    };
    average(book, 1, 2) == Ok(one)
        && average(book, 1, 3) == Ok(one)
        && average(book, 2, 3) == Err(Refusal::BadWindow)
        && window(book, &m.pool, 10) == Ok(whole)
        && window(book, &m.pool, 11) == Err(Refusal::NoObservation)
}

#[test]
fn tells_a_turn(rt: HostRuntime) -> Result<(), Fail> {
    let alloc = rt.alloc();
    let m = open_market(alloc)?;
    let mut tx = Tx::begin(State::new(alloc)?);
    let shown = match over_a_turn(alloc, &mut tx, &m) {
        Ok(()) => shows_turn(tx.book(), &m),
        Err(_) => false,
    };
    let _ = tx.rollback();
    assert!(&rt; shown);
    Ok(())
}
