//! Transactions that are kept and undone.
ghost use Rattle.std.specs.Prelude.{◌≡◌, OnOk};
ghost use Rattle.amm_state.specs.declared.mark.Mark.{Mark};

use amm_model::{
    Asset, Fault, Holder, Leg, LegList, PoolName, Prices, Problem, Quote, Refusal, Route,
    TokenName, UserName,
};
use amm_state::{Book, Mark, Seed, State, Tx};
use std::alloc::Global;
use std::test::Fail;

fn user(alloc: Global, i: u32) -> Result<Holder, Fail> {
    let text = format!(in alloc; "u{i}")?;
    match UserName::read(alloc, text.as_bytes()) {
        Ok(Some(name)) => Ok(Holder::User(name)),
        _ => Err("no user")?,
    }
}

fn token(alloc: Global) -> Result<TokenName, Fail> {
    match TokenName::read(alloc, b"T".as_slice()) {
        Ok(Some(name)) => Ok(name),
        _ => Err("no token")?,
    }
}

fn new_state(alloc: Global) -> Result<State, Fail> {
    match State::new(alloc) {
        Ok(state) => Ok(state),
        Err(_) => Err("no memory")?,
    }
}

fn fill(alloc: Global, tx: &mut Tx, asset: &Asset) -> Result<(), Fail>
    requires { tx.old.mark ≡ Mark.Clean }
{
    'deposits: for i in 0..40000u32 {
        let to = user(alloc, i)?;
        if tx.issue(alloc, asset, &to, 1).is_err() {
            return Err("not issued")?;
        }
    }
    'moves: for i in 0..40000u32 {
        let from = user(alloc, i)?;
        let to = user(alloc, (i + 1) % 40000)?;
        if tx.move_units(alloc, asset, &from, &to, 1).is_err() {
            return Err("not moved")?;
        }
    }
    if tx.book().balance(asset, &user(alloc, 0)?) != 1 {
        return Err("not one")?;
    }
    Ok(())
}

#[test]
fn rolls_back_many_moves(rt: HostRuntime) -> Result<(), Fail> {
    let alloc = rt.alloc();
    let asset = Asset::Token(token(alloc)?);
    let mut tx = Tx::begin(new_state(alloc)?);
    let filled = fill(alloc, &mut tx, &asset);
    let total = tx.book().total(&asset);
    let state = tx.rollback();
    assert!(&rt; total == 40000 && state.book().total(&asset) == 0);
    filled
}

// Whether a book is as `State::new` makes it.
fn is_opening(book: &Book, asset: &Asset) -> bool {
    book.total(asset) == 0
        && book.token_count() == 0
        && book.pair_count() == 0
        && book.quote_count() == 0
        && book.observation_count() == 0
        && *book.fee_to() == Holder::Zero
        && book.setter().as_bytes() == b"admin".as_slice()
        && book.time() == 0
}

fn moves(alloc: Global, tx: &mut Tx, token: &TokenName, from: &Holder) -> Result<(), Fault>
    requires { tx.old.mark ≡ Mark.Clean }
{
    let asset = Asset::Token(*token);
    tx.list_token(alloc, token)?;
    tx.issue(alloc, &asset, from, 10)?;
    tx.move_units(alloc, &asset, from, &Holder::Zero, 4)?;
    tx.retire(alloc, &asset, from, 1)
}

fn shows_moves(book: &Book, token: &TokenName, from: &Holder) -> bool {
    let asset = Asset::Token(*token);
    book.has_token(token)
        && book.token_count() == 1
        && book.total(&asset) == 9
        && book.balance(&asset, from) == 5
}

#[test]
fn takes_moves_back(rt: HostRuntime) -> Result<(), Fail> {
    let alloc = rt.alloc();
    let token = token(alloc)?;
    let from = user(alloc, 1)?;
    let mut tx = Tx::begin(new_state(alloc)?);
    let done = moves(alloc, &mut tx, &token, &from).is_ok();
    let shown = shows_moves(tx.book(), &token, &from);
    let state = tx.rollback();
    assert!(&rt; done && shown && is_opening(state.book(), &Asset::Token(token)));
    Ok(())
}

// Four calls that change nothing after one that does, and one that is refused.
fn idles(alloc: Global, tx: &mut Tx, asset: &Asset, from: &Holder) -> Result<(), Fault>
    requires { tx.old.mark ≡ Mark.Clean }
{
    tx.issue(alloc, asset, from, 5)?;
    tx.move_units(alloc, asset, from, &Holder::Zero, 0)?;
    tx.move_units(alloc, asset, from, from, 0)?;
    tx.move_units(alloc, asset, from, from, 5)?;
    tx.retire(alloc, asset, &Holder::Zero, 0)?;
    tx.move_units(alloc, asset, from, from, 6)
}

#[test]
fn moves_nothing(rt: HostRuntime) -> Result<(), Fail> {
    let alloc = rt.alloc();
    let asset = Asset::Token(token(alloc)?);
    let from = user(alloc, 1)?;
    let state = match State::with_seed(alloc, Seed::new(7)) {
        Ok(state) => state,
        Err(_) => return Err("no memory")?,
    };
    let mut tx = Tx::begin(state);
    let refused = matches!(
        idles(alloc, &mut tx, &asset, &from),
        Err(Fault::Refused(Refusal::Funds))
    );
    let amount = tx.book().balance(&asset, &from);
    let state = tx.rollback();
    assert!(&rt; refused && amount == 5 && is_opening(state.book(), &asset));
    Ok(())
}

fn sets(alloc: Global, tx: &mut Tx, to: &UserName) -> Result<(), Fault>
    requires { tx.old.mark ≡ Mark.Clean }
{
    tx.set_fee_to(alloc, &Holder::User(*to))?;
    tx.set_setter(alloc, to)?;
    tx.set_time(alloc, 7)
}

fn shows_settings(book: &Book, to: &UserName) -> bool {
    *book.fee_to() == Holder::User(*to) && book.setter() == to && book.time() == 7
}

#[test]
fn takes_settings_back(rt: HostRuntime) -> Result<(), Fail> {
    let alloc = rt.alloc();
    let asset = Asset::Token(token(alloc)?);
    let bob = match UserName::read(alloc, b"bob".as_slice()) {
        Ok(Some(name)) => name,
        _ => return Err("no user")?,
    };
    let mut tx = Tx::begin(new_state(alloc)?);
    let done = sets(alloc, &mut tx, &bob).is_ok();
    let shown = shows_settings(tx.book(), &bob);
    let state = tx.rollback();
    assert!(&rt; done && shown && is_opening(state.book(), &asset));
    Ok(())
}

fn adds_pair(alloc: Global, tx: &mut Tx, pool: &PoolName) -> Result<(), Fault>
    requires { tx.old.mark ≡ Mark.Clean }
    ensures { OnOk result (tx.new.mark ≡ Mark.Clean) }
{
    match tx.book().pair(pool) {
        Some(_) => Ok(()),
        None => tx.add_pair(alloc, pool),
    }
}

fn locks_pair(alloc: Global, tx: &mut Tx, pool: &PoolName) -> Result<(), Fault>
    requires { tx.old.mark ≡ Mark.Clean }
{
    match tx.book().pair(pool) {
        Some(pair) => {
            let mut locked = *pair;
            locked.locked = true;
            tx.set_pair(alloc, pool, locked)
        }
        None => Ok(()),
    }
}

fn writes_pair(alloc: Global, tx: &mut Tx, pool: &PoolName) -> Result<(), Fault>
    requires { tx.old.mark ≡ Mark.Clean }
{
    adds_pair(alloc, tx, pool)?;
    locks_pair(alloc, tx, pool)
}

fn shows_pair(book: &Book) -> bool {
    book.pair_count() == 1 && book.pair_at(0).is_some() && book.any_locked()
}

#[test]
fn takes_pairs_back(rt: HostRuntime) -> Result<(), Fail> {
    let alloc = rt.alloc();
    let asset = Asset::Token(token(alloc)?);
    let pool = match PoolName::read(alloc, b"A/B".as_slice()) {
        Ok(Some(name)) => name,
        _ => return Err("no pool")?,
    };
    let mut tx = Tx::begin(new_state(alloc)?);
    let done = writes_pair(alloc, &mut tx, &pool).is_ok();
    let shown = shows_pair(tx.book());
    let state = tx.rollback();
    assert!(&rt; done && shown && is_opening(state.book(), &asset));
    Ok(())
}

// A quote of 7 units of T, over no pools.
fn empty_quote(alloc: Global) -> Result<Quote, Fail> {
    let t = token(alloc)?;
    let Some(u) = TokenName::read(alloc, b"U".as_slice())? else {
        return Err("no token")?;
    };
    let Some(problem) = Problem::from_parts(alloc, t, u, 7, Vec::new(alloc))? else {
        return Err("no problem")?;
    };
    let Some(prices) = Prices::from_parts(Vec::new(alloc)) else {
        return Err("no prices")?;
    };
    let legs: Vec<Leg> = Vec::new(alloc);
    Ok(Quote {
        problem,
        prices,
        route: Route {
            legs: LegList::from_vec(legs),
        },
        delivered: 0,
        bound: 7,
    })
}

// Keeps the quote n times, and then once more.
fn keeps(alloc: Global, tx: &mut Tx, quote: &Quote, n: u32) -> Result<u64, Fault>
    requires { tx.old.mark ≡ Mark.Clean }
{
    'quotes: for _ in 0..n {
        keeps_one(alloc, tx, quote)?;
    }
    keeps_one(alloc, tx, quote)
}

fn keeps_one(alloc: Global, tx: &mut Tx, quote: &Quote) -> Result<u64, Fault>
    requires { tx.old.mark ≡ Mark.Clean }
    ensures { OnOk result (tx.new.mark ≡ Mark.Clean) }
{
    match quote.copy(alloc) {
        Ok(copy) => tx.add_quote(alloc, copy),
        Err(_) => Err(tx.lack()),
    }
}

// Whether the quotes numbered 1 to `last`, and no others, are kept.
fn shows_quotes(book: &Book, last: u32) -> bool {
    let last = last as u64;
    book.quote_count() as u64 == last
        && book.quote(0).is_none()
        && book.quote(1).is_some()
        && book.quote(last).is_some()
        && book.quote(last + 1).is_none()
        && book.quote(u64::MAX).is_none()
}

#[test]
fn takes_quotes_back(rt: HostRuntime) -> Result<(), Fail> {
    let alloc = rt.alloc();
    let asset = Asset::Token(token(alloc)?);
    let quote = empty_quote(alloc)?;
    let mut tx = Tx::begin(new_state(alloc)?);
    let number = keeps(alloc, &mut tx, &quote, 1);
    let shown = shows_quotes(tx.book(), 2);
    let mut tx = Tx::begin(tx.rollback());
    let none = is_opening(tx.book(), &asset);
    let past = keeps(alloc, &mut tx, &quote, 256);
    let full = shows_quotes(tx.book(), 256);
    let state = tx.rollback();
    assert_eq!(&rt; number, Ok(2));
    assert_eq!(&rt; past, Err(Fault::Refused(Refusal::QuoteLimit)));
    assert!(&rt; shown && none && full && is_opening(state.book(), &asset));
    Ok(())
}

// Observes the pool n times, and then once more.
fn observes(alloc: Global, tx: &mut Tx, pool: &PoolName, n: u32) -> Result<u64, Fault>
    requires { tx.old.mark ≡ Mark.Clean }
{
    'observations: for _ in 0..n {
        observes_one(alloc, tx, pool)?;
    }
    observes_one(alloc, tx, pool)
}

fn observes_one(alloc: Global, tx: &mut Tx, pool: &PoolName) -> Result<u64, Fault>
    requires { tx.old.mark ≡ Mark.Clean }
    ensures { OnOk result (tx.new.mark ≡ Mark.Clean) }
{
    match tx.book().pair(pool) {
        Some(_) => tx.add_observation(alloc, pool),
        None => Err(tx.refuse(Refusal::NoPair)),
    }
}

// Adds the pair, and observes it n times and once more.
fn observes_new(alloc: Global, tx: &mut Tx, pool: &PoolName, n: u32) -> Result<u64, Fault>
    requires { tx.old.mark ≡ Mark.Clean }
{
    adds_pair(alloc, tx, pool)?;
    observes(alloc, tx, pool, n)
}

// Whether the observations numbered 1 to `last`, and no others, are kept.
fn shows_observations(book: &Book, last: u32) -> bool {
    let last = last as u64;
    book.observation_count() == last
        && book.observation(0).is_none()
        && book.observation(1).is_some()
        && book.observation(last).is_some()
        && book.observation(last + 1).is_none()
        && book.observation(u64::MAX).is_none()
}

#[test]
fn takes_observations_back(rt: HostRuntime) -> Result<(), Fail> {
    let alloc = rt.alloc();
    let asset = Asset::Token(token(alloc)?);
    let pool = match PoolName::read(alloc, b"A/B".as_slice()) {
        Ok(Some(name)) => name,
        _ => return Err("no pool")?,
    };
    let mut tx = Tx::begin(new_state(alloc)?);
    let number = observes_new(alloc, &mut tx, &pool, 1);
    let shown = shows_observations(tx.book(), 2);
    let mut tx = Tx::begin(tx.rollback());
    let none = is_opening(tx.book(), &asset);
    let past = observes_new(alloc, &mut tx, &pool, 4096);
    let full = shows_observations(tx.book(), 4096);
    let state = tx.rollback();
    assert_eq!(&rt; number, Ok(2));
    assert_eq!(&rt; past, Err(Fault::Refused(Refusal::ObservationLimit)));
    assert!(&rt; shown && none && full && is_opening(state.book(), &asset));
    Ok(())
}

#[test]
fn marks_a_fault(rt: HostRuntime) -> Result<(), Fail> {
    let alloc = rt.alloc();
    let mut tx = Tx::begin(Tx::begin(new_state(alloc)?).commit());
    tx.refuse(Refusal::Funds);
    let refused = tx.mark();
    let mut tx = Tx::begin(tx.rollback());
    tx.lack();
    let lacking = tx.mark();
    let _state = tx.rollback();
    assert!(&rt; refused == Mark::Refused(Refusal::Funds) && lacking == Mark::NoMemory);
    Ok(())
}
