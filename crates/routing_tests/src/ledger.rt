//! A small ledger for the tests: five pools, of which two have a reserve of 0.
ghost use Rattle.std.specs.Prelude.{◌≡◌, ◌<◌, ◌≤◌, ◌^◌, IsSome, None, OnOk, true};
ghost use Rattle.amm_names.specs.Pools.{pool_token0, pool_token1};
ghost use Rattle.amm_model.specs.Ledger.{is_listed, pair_of};
ghost use Rattle.amm_model.specs.Pools.{held0, held1, supply};
ghost use Rattle.amm_model.specs.Sound.{IsAtRest};
ghost use Rattle.amm_state.specs.declared.mark.Mark.{Mark};

use amm_model::limits::RESERVE_LIMIT;
use amm_model::{Asset, Fault, Holder, PairRecord, PoolName, ProblemPool, Refusal, TokenName};
use amm_state::{State, Tx};
use std::alloc::Global;
use std::test::Fail;

/// The pools in the order in which they are made.
#[derive(Clone, Copy, Drop)]
pub struct Pools {
    pub mt_cheap: ProblemPool,
    pub mt: ProblemPool,
    pub bm: ProblemPool,
    pub at: ProblemPool,
    pub am: ProblemPool,
}

// A pool with reserves, and with surplus of its first token.
fn pool(alloc: Global, name: &[u8], r0: u64, r1: u64, surplus: u64) -> Result<ProblemPool, Fail> {
    let Some(name) = PoolName::read(alloc, name)? else {
        return Err("no pool")?;
    };
    Ok(ProblemPool {
        name,
        r0,
        r1,
        b0: r0.saturating_add(surplus),
        b1: r1,
    })
}

/// M/T has nothing of T, and B/M has nothing at all.
pub fn make_pools(alloc: Global) -> Result<Pools, Fail> {
    Ok(Pools {
        mt_cheap: pool(alloc, b"M/T:1".as_slice(), 500, 600, 70)?,
        mt: pool(alloc, b"M/T".as_slice(), 900, 0, 0)?,
        bm: pool(alloc, b"B/M".as_slice(), 0, 0, 0)?,
        at: pool(alloc, b"A/T".as_slice(), 300, 400, 0)?,
        am: pool(alloc, b"A/M".as_slice(), 100, 200, 5)?,
    })
}

// Lists the token, and gives the pool units of it.
fn give(alloc: Global, tx: &mut Tx, token: &TokenName, to: &PoolName, n: u64) -> Result<(), Fault>
    requires clean { tx.old.mark ≡ Mark.Clean }
    requires rest { IsAtRest tx.old.present }
    ensures clean { OnOk result (tx.new.mark ≡ Mark.Clean) }
    ensures rest { OnOk result (IsAtRest tx.new.present) }
{
    tx.list_token(alloc, token)?;
    tx.issue(alloc, &Asset::Token(*token), &Holder::Pool(*to), n)
}

// Makes the pool's pair, with nothing in it.
fn add_empty(alloc: Global, tx: &mut Tx, pool: &PoolName) -> Result<(), Fault>
    requires clean { tx.old.mark ≡ Mark.Clean }
    requires rest { IsAtRest tx.old.present }
    requires absent { pair_of tx.old.present.pairs pool.now ≡ None }
    requires first { is_listed tx.old.present.tokens (pool_token0 pool.now) ≡ true }
    requires second { is_listed tx.old.present.tokens (pool_token1 pool.now) ≡ true }
    ensures clean { OnOk result (tx.new.mark ≡ Mark.Clean) }
    ensures rest { OnOk result (IsAtRest tx.new.present) }
{
    tx.add_pair(alloc, pool)
}

// The same, where it can be.
fn create(alloc: Global, tx: &mut Tx, pool: &PoolName) -> Result<(), Fault>
    requires clean { tx.old.mark ≡ Mark.Clean }
    requires rest { IsAtRest tx.old.present }
    ensures clean { OnOk result (tx.new.mark ≡ Mark.Clean) }
    ensures rest { OnOk result (IsAtRest tx.new.present) }
{
    if !tx.book().has_token(pool.token0()) || !tx.book().has_token(pool.token1()) {
        return Err(tx.refuse(Refusal::UnknownToken));
    }
    match tx.book().pair(pool) {
        Some(_) => Err(tx.refuse(Refusal::PairExists)),
        None => add_empty(alloc, tx, pool),
    }
}

// Writes the reserves of a pair without shares.
fn write(alloc: Global, tx: &mut Tx, pool: &PoolName, r0: u64, r1: u64) -> Result<(), Fault>
    requires clean { tx.old.mark ≡ Mark.Clean }
    requires rest { IsAtRest tx.old.present }
    requires there { IsSome (pair_of tx.old.present.pairs pool.now) }
    requires shares { supply tx.old.present pool.now ≡ 0 }
    requires first { (r0 ≤ held0 tx.old.present pool.now) × (r0 < 2 ^ 48) }
    requires second { (r1 ≤ held1 tx.old.present pool.now) × (r1 < 2 ^ 48) }
    ensures clean { OnOk result (tx.new.mark ≡ Mark.Clean) }
    ensures rest { OnOk result (IsAtRest tx.new.present) }
{
    let filled = PairRecord {
        r0,
        r1,
        last: 0,
        acc0: 0,
        acc1: 0,
        k_last: 0,
        locked: false,
    };
    tx.set_pair(alloc, pool, filled)
}

// Writes the reserves of a pair without shares, where the pool has them.
fn fill(alloc: Global, tx: &mut Tx, pool: &ProblemPool) -> Result<(), Fault>
    requires clean { tx.old.mark ≡ Mark.Clean }
    requires rest { IsAtRest tx.old.present }
    ensures clean { OnOk result (tx.new.mark ≡ Mark.Clean) }
    ensures rest { OnOk result (IsAtRest tx.new.present) }
{
    let name = pool.name;
    let holder = Holder::Pool(name);
    let has0 = tx.book().balance(&Asset::Token(*name.token0()), &holder);
    let has1 = tx.book().balance(&Asset::Token(*name.token1()), &holder);
    let shares = tx.book().total(&Asset::Share(name));
    if shares != 0
        || has0 < pool.r0
        || has1 < pool.r1
        || pool.r0 > RESERVE_LIMIT
        || pool.r1 > RESERVE_LIMIT
    {
        return Err(tx.refuse(Refusal::Funds));
    }
    match tx.book().pair(&name) {
        Some(_) => write(alloc, tx, &name, pool.r0, pool.r1),
        None => Err(tx.refuse(Refusal::NoPair)),
    }
}

fn add(alloc: Global, tx: &mut Tx, pool: &ProblemPool) -> Result<(), Fault>
    requires clean { tx.old.mark ≡ Mark.Clean }
    requires rest { IsAtRest tx.old.present }
    ensures clean { OnOk result (tx.new.mark ≡ Mark.Clean) }
    ensures rest { OnOk result (IsAtRest tx.new.present) }
{
    give(alloc, tx, pool.name.token0(), &pool.name, pool.b0)?;
    give(alloc, tx, pool.name.token1(), &pool.name, pool.b1)?;
    create(alloc, tx, &pool.name)?;
    fill(alloc, tx, pool)
}

fn add_all(alloc: Global, tx: &mut Tx, pools: &Pools) -> Result<(), Fault>
    requires clean { tx.old.mark ≡ Mark.Clean }
    requires rest { IsAtRest tx.old.present }
    ensures clean { OnOk result (tx.new.mark ≡ Mark.Clean) }
    ensures rest { OnOk result (IsAtRest tx.new.present) }
{
    add(alloc, tx, &pools.mt_cheap)?;
    add(alloc, tx, &pools.mt)?;
    add(alloc, tx, &pools.bm)?;
    add(alloc, tx, &pools.at)?;
    add(alloc, tx, &pools.am)
}

/// The ledger with the pools.
pub fn ledger_of(alloc: Global, pools: &Pools) -> Result<State, Fail> {
    let mut tx = Tx::begin(State::new(alloc)?);
    match add_all(alloc, &mut tx, pools) {
        Ok(()) => Ok(tx.commit()),
        Err(_) => {
            let _ = tx.rollback();
            Err("no ledger")?
        }
    }
}
