//! Sales of two parts, BTC and ETH for USD, over a pool of 1000000 of each and as many USD, by
//! quotes that no search makes. Quotes of one part are settled in `sessions/settlements.txt`.
ghost use Rattle.std.specs.Prelude.{◌≡◌, IfSome, IsTrue, OnOk, false, map, true};
ghost use Rattle.amm_names.specs.declared.holder.Asset.TheVariants as assets;
ghost use Rattle.amm_names.specs.declared.holder.Holder.TheVariants as holders;
ghost use Rattle.amm_model.specs.Ledger.{balance, pair_of};
ghost use Rattle.amm_model.specs.Legs.{Delivers, leg_pool};
ghost use Rattle.amm_model.specs.Settlement.{all_as_kept, any_locked, is_as_kept, is_locked};
ghost use Rattle.amm_model.specs.Sound.{IsAtRest};
ghost use Rattle.amm_state.specs.declared.mark.Mark.{Mark};
ghost use Rattle.amm_settle.specs.Places.{AreThere};
ghost use Rattle.amm_settle.specs.Sales.{HasParts, pools_of_quote};

use crate::market::{Names, give, open_pool, read_names};
use amm_legs::open_legs_delivered;
use amm_model::{
    Asset, Fault, Holder, Leg, LegList, OpenProblem, OpenQuote, Part, PoolName, Prices,
    ProblemPool, Route, TokenName, UserName,
};
use amm_settle::{has_parts, perform};
use amm_state::{Book, State, Tx};
use std::alloc::Global;
use std::test::Fail;

#[derive(Clone, Copy, Drop)]
struct Pools {
    btc_usd: PoolName,
    eth_usd: PoolName,
}

// A pool of a million of a token and of USD, and so much of the token for alice.
fn open_even_pool(
    alloc: Global,
    tx: &mut Tx,
    names: &Names,
    token: &TokenName,
    left: u64,
) -> Result<PoolName, Fault>
    requires clean { tx.old.mark ≡ Mark.Clean }
    requires rest { IsAtRest tx.old.present }
    ensures clean { OnOk result (tx.new.mark ≡ Mark.Clean) }
    ensures rest { OnOk result (IsAtRest tx.new.present) }
{
    let alice = Holder::User(names.alice);
    give(alloc, tx, token, &alice, 1_000_000)?;
    give(alloc, tx, &names.usd, &alice, 1_000_000)?;
    let million = 1_000_000;
    let pool = open_pool(
        alloc,
        tx,
        &names.alice,
        (token, million),
        (&names.usd, million),
    )?;
    give(alloc, tx, token, &alice, left)?;
    Ok(pool)
}

// Both pools, and so much BTC and 100000 ETH for alice.
fn open_even_market(alloc: Global, tx: &mut Tx, names: &Names, btc: u64) -> Result<Pools, Fault>
    requires clean { tx.old.mark ≡ Mark.Clean }
    requires rest { IsAtRest tx.old.present }
    ensures clean { OnOk result (tx.new.mark ≡ Mark.Clean) }
    ensures rest { OnOk result (IsAtRest tx.new.present) }
{
    let btc_usd = open_even_pool(alloc, tx, names, &names.btc, btc)?;
    let eth_usd = open_even_pool(alloc, tx, names, &names.eth, 100_000)?;
    Ok(Pools { btc_usd, eth_usd })
}

fn even_pool(name: PoolName) -> ProblemPool {
    ProblemPool {
        name,
        r0: 1_000_000,
        r1: 1_000_000,
        b0: 1_000_000,
        b1: 1_000_000,
    }
}

// To bring 100000 BTC and 100000 ETH to USD.
fn two_parts(alloc: Global, names: &Names, pools: &Pools) -> Result<OpenProblem, Fail> {
    let mut parts = Vec::new(alloc);
    parts.push(Part {
        token: names.btc,
        amount: 100_000,
    })?;
    parts.push(Part {
        token: names.eth,
        amount: 100_000,
    })?;
    let mut over = Vec::new(alloc);
    over.push(even_pool(pools.btc_usd))?;
    over.push(even_pool(pools.eth_usd))?;
    match OpenProblem::from_parts(alloc, parts, names.usd, over)? {
        Some(problem) => Ok(problem),
        None => Err("no problem")?,
    }
}

// The pool at this place takes its first token and gives USD.
fn sale(pool: u32, input: u64, output: u64) -> Leg {
    Leg {
        pool,
        zero_in: true,
        input,
        output,
    }
}

// The legs as a quote, whose prices and bound say nothing. None where they are no route.
fn quoted(alloc: Global, problem: OpenProblem, legs: &[Leg]) -> Option<OpenQuote>
    ensures { IfSome result (λ quote. Delivers quote.problem quote.route.legs quote.delivered) }
{
    let delivered = open_legs_delivered(&problem, legs)?;
    let prices = Prices::from_parts(Vec::new(alloc))?;
    let list = Vec::from_slice(alloc, legs).ok()?;
    Some(OpenQuote {
        problem,
        prices,
        route: Route {
            legs: LegList::from_vec(list),
        },
        delivered,
        bound: 0,
    })
}

// ---- whether its pools are free, and as it was quoted

// Whether the pair of some leg's pool is locked.
fn any_locked(book: &Book, pools: &[ProblemPool], legs: &[Leg]) -> bool
    requires there { AreThere pools.now legs.now }
    ensures { result ≡ any_locked book.now.ledger (map (leg_pool pools.now) legs.now) }
{
    let Some((leg, later)) = legs.split_first() else {
        return false;
    };
    if is_locked(book, &pools[leg.pool as usize]) {
        return true;
    }
    any_locked(book, pools, later)
}

fn is_locked(book: &Book, pool: &ProblemPool) -> bool
    ensures { result ≡ is_locked (pair_of book.now.ledger.pairs pool.now.name) }
{
    match book.pair(&pool.name) {
        Some(pair) => pair.locked,
        None => false,
    }
}

// Whether the pool of each leg has the reserves and balances that were quoted.
fn all_as_kept(book: &Book, pools: &[ProblemPool], legs: &[Leg]) -> bool
    requires there { AreThere pools.now legs.now }
    ensures { result ≡ all_as_kept book.now.ledger (map (leg_pool pools.now) legs.now) }
{
    let Some((leg, later)) = legs.split_first() else {
        return true;
    };
    if !is_as_kept(book, &pools[leg.pool as usize]) {
        return false;
    }
    all_as_kept(book, pools, later)
}

fn is_as_kept(book: &Book, pool: &ProblemPool) -> bool
    ensures { result ≡ is_as_kept book.now.ledger pool.now (pair_of book.now.ledger.pairs pool.now.name) }
{
    match book.pair(&pool.name) {
        Some(pair) => {
            pair.r0 == pool.r0
                && pair.r1 == pool.r1
                && held(book, pool.name.token0(), &pool.name) == pool.b0
                && held(book, pool.name.token1(), &pool.name) == pool.b1
        }
        None => false,
    }
}

fn held(book: &Book, token: &TokenName, pool: &PoolName) -> u64
    ensures { result ≡ balance book.now.ledger (assets.Token token.now) (holders.Pool pool.now) }
{
    book.balance(&Asset::Token(*token), &Holder::Pool(*pool))
}

// ---- the sale

fn is_ready(book: &Book, actor: &UserName, quote: &OpenQuote) -> bool
    requires there { AreThere quote.now.problem.pools quote.now.route.legs }
    ensures free { IsTrue result → any_locked book.now.ledger (pools_of_quote quote.now) ≡ false }
    ensures kept { IsTrue result → all_as_kept book.now.ledger (pools_of_quote quote.now) ≡ true }
    ensures parts { IsTrue result → HasParts book.now.ledger actor.now quote.now.problem.parts }
{
    let pools = quote.problem.pools();
    let legs = quote.route.legs.as_slice();
    !any_locked(book, pools, legs)
        && all_as_kept(book, pools, legs)
        && has_parts(book, actor, quote.problem.parts())
}

// None where the legs cannot be performed.
fn performed(
    alloc: Global,
    tx: &mut Tx,
    actor: &UserName,
    quote: &OpenQuote,
) -> Result<Option<u64>, Fault>
    requires clean { tx.old.mark ≡ Mark.Clean }
    requires rest { IsAtRest tx.old.present }
    requires delivers { Delivers quote.now.problem quote.now.route.legs quote.now.delivered }
{
    if !is_ready(tx.book(), actor, quote) {
        return Ok(None);
    }
    perform(alloc, tx, actor, quote)?;
    Ok(Some(quote.delivered))
}

// The answer, and how much BTC, ETH and USD alice has then.
type Ending = (Result<Option<u64>, Fault>, u64, u64, u64);

fn ending(alloc: Global, btc: u64, legs: &[Leg]) -> Result<Ending, Fail> {
    let names = read_names(alloc)?;
    let mut tx = Tx::begin(State::new(alloc)?);
    let opened = open_even_market(alloc, &mut tx, &names, btc);
    let Ok(pools) = opened else {
        let _ = tx.rollback();
        return Err("no pools")?;
    };
    let problem = match two_parts(alloc, &names, &pools) {
        Ok(problem) => problem,
        Err(fail) => {
            let _ = tx.rollback();
            return Err(fail);
        }
    };
    let Some(quote) = quoted(alloc, problem, legs) else {
        let _ = tx.rollback();
        return Err("no quote")?;
    };
    let answer = performed(alloc, &mut tx, &names.alice, &quote);
    let alice = Holder::User(names.alice);
    let btc = tx.book().balance(&Asset::Token(names.btc), &alice);
    let eth = tx.book().balance(&Asset::Token(names.eth), &alice);
    let usd = tx.book().balance(&Asset::Token(names.usd), &alice);
    let _ = tx.rollback();
    Ok((answer, btc, eth, usd))
}

// A pool gives floor(997*100000*1000000 / (1000*1000000 + 997*100000)) = 90661 for 100000, and
// floor(997*50000*1000000 / (1000*1000000 + 997*50000)) = 47482 for 50000.
#[test]
fn parts_are_sold_for_one_token(rt: HostRuntime) -> Result<(), Fail> {
    let alloc = rt.alloc();
    let all = [sale(0, 100_000, 90_661), sale(1, 100_000, 90_661)];
    let sold = (Ok(Some(181_322)), 0, 0, 181_322);
    assert_eq!(rt; ending(alloc, 100_000, &all)?, sold);
    let half = [sale(0, 100_000, 90_661), sale(1, 50_000, 47_482)];
    let left = (Ok(Some(138_143)), 0, 50_000, 138_143);
    assert_eq!(rt; ending(alloc, 100_000, &half)?, left);
    // A unit of the first part is wanting, though no leg asks for it.
    let second = [sale(1, 50_000, 47_482)];
    let short = (Ok(None), 99_999, 100_000, 0);
    assert_eq!(rt; ending(alloc, 99_999, &second)?, short);
    Ok(())
}
