//! A market for the tests: a pool of ETH and USD, one of BTC and ETH, and alice, who made both and
//! has some of each token left.
ghost use Rattle.std.specs.Prelude.{◌≡◌, ◌≢◌, OnErr, OnOk};
ghost use Rattle.amm_model.specs.Sound.{IsAtRest, IsSound};
ghost use Rattle.amm_state.specs.declared.mark.Mark.{Mark};

use amm_factory::create;
use amm_model::{Asset, Fault, Holder, PoolName, TokenName, UserName};
use amm_pair::mint;
use amm_state::{State, Tx};
use std::alloc::Global;
use std::test::Fail;

#[derive(Clone, Copy, Drop)]
pub struct Names {
    pub eth: TokenName,
    pub usd: TokenName,
    pub btc: TokenName,
    pub alice: UserName,
}

#[derive(Clone, Copy, Drop)]
pub struct Pools {
    pub eth_usd: PoolName,
    pub btc_eth: PoolName,
}

pub fn token(alloc: Global, text: &[u8]) -> Result<TokenName, Fail> {
    match TokenName::read(alloc, text)? {
        Some(name) => Ok(name),
        None => Err("no token")?,
    }
}

pub fn user(alloc: Global, text: &[u8]) -> Result<UserName, Fail> {
    match UserName::read(alloc, text)? {
        Some(name) => Ok(name),
        None => Err("no user")?,
    }
}

pub fn read_names(alloc: Global) -> Result<Names, Fail> {
    Ok(Names {
        eth: token(alloc, b"ETH".as_slice())?,
        usd: token(alloc, b"USD".as_slice())?,
        btc: token(alloc, b"BTC".as_slice())?,
        alice: user(alloc, b"alice".as_slice())?,
    })
}

/// Units of a token for a holder.
pub fn give(alloc: Global, tx: &mut Tx, token: &TokenName, to: &Holder, n: u64) -> Result<(), Fault>
    requires clean { tx.old.mark ≡ Mark.Clean }
    requires rest { IsAtRest tx.old.present }
    ensures clean { OnOk result (tx.new.mark ≡ Mark.Clean) }
    ensures rest { OnOk result (IsAtRest tx.new.present) }
{
    tx.list_token(alloc, token)?;
    tx.issue(alloc, &Asset::Token(*token), to, n)
}

/// The same for a pool, also where one has lent.
pub fn bring(
    alloc: Global,
    tx: &mut Tx,
    token: &TokenName,
    pool: &PoolName,
    n: u64,
) -> Result<(), Fault>
    requires clean { tx.old.mark ≡ Mark.Clean }
    requires sound { IsSound tx.old.present }
    ensures clean { OnOk result (tx.new.mark ≡ Mark.Clean) }
    ensures failed { OnErr result (tx.new.mark ≢ Mark.Clean) }
    ensures sound { OnOk result (IsSound tx.new.present) }
    ensures pairs { OnOk result (tx.new.present.pairs ≡ tx.old.present.pairs) }
{
    tx.list_token(alloc, token)?;
    tx.issue(alloc, &Asset::Token(*token), &Holder::Pool(*pool), n)
}

fn create_pool(alloc: Global, tx: &mut Tx, a: &TokenName, b: &TokenName) -> Result<PoolName, Fault>
    requires clean { tx.old.mark ≡ Mark.Clean }
    requires rest { IsAtRest tx.old.present }
    ensures clean { OnOk result (tx.new.mark ≡ Mark.Clean) }
    ensures rest { OnOk result (IsAtRest tx.new.present) }
{
    let _ = a.as_bytes();
    let _ = b.as_bytes();
    create(alloc, tx, a, b, 3)
}

fn send(
    alloc: Global,
    tx: &mut Tx,
    token: &TokenName,
    from: &UserName,
    pool: &PoolName,
    n: u64,
) -> Result<(), Fault>
    requires clean { tx.old.mark ≡ Mark.Clean }
    requires rest { IsAtRest tx.old.present }
    ensures clean { OnOk result (tx.new.mark ≡ Mark.Clean) }
    ensures rest { OnOk result (IsAtRest tx.new.present) }
{
    tx.move_units(
        alloc,
        &Asset::Token(*token),
        &Holder::User(*from),
        &Holder::Pool(*pool),
        n,
    )
}

fn mint_shares(alloc: Global, tx: &mut Tx, pool: &PoolName, to: &UserName) -> Result<(), Fault>
    requires clean { tx.old.mark ≡ Mark.Clean }
    requires rest { IsAtRest tx.old.present }
    ensures clean { OnOk result (tx.new.mark ≡ Mark.Clean) }
    ensures rest { OnOk result (IsAtRest tx.new.present) }
{
    mint(alloc, tx, pool, &Holder::User(*to))?;
    Ok(())
}

/// A pool of two tokens with what the user brings.
pub fn open_pool(
    alloc: Global,
    tx: &mut Tx,
    user: &UserName,
    a: (&TokenName, u64),
    b: (&TokenName, u64),
) -> Result<PoolName, Fault>
    requires clean { tx.old.mark ≡ Mark.Clean }
    requires rest { IsAtRest tx.old.present }
    ensures clean { OnOk result (tx.new.mark ≡ Mark.Clean) }
    ensures rest { OnOk result (IsAtRest tx.new.present) }
{
    let pool = create_pool(alloc, tx, a.0, b.0)?;
    send(alloc, tx, a.0, user, &pool, a.1)?;
    send(alloc, tx, b.0, user, &pool, b.1)?;
    mint_shares(alloc, tx, &pool, user)?;
    Ok(pool)
}

fn open_pools(alloc: Global, tx: &mut Tx, names: &Names) -> Result<Pools, Fault>
    requires clean { tx.old.mark ≡ Mark.Clean }
    requires rest { IsAtRest tx.old.present }
    ensures clean { OnOk result (tx.new.mark ≡ Mark.Clean) }
    ensures rest { OnOk result (IsAtRest tx.new.present) }
{
    let alice = Holder::User(names.alice);
    give(alloc, tx, &names.eth, &alice, 2_000_000)?;
    give(alloc, tx, &names.usd, &alice, 8_000_000)?;
    give(alloc, tx, &names.btc, &alice, 1_000_000)?;
    let eth_usd = open_pool(
        alloc,
        tx,
        &names.alice,
        (&names.eth, 1_000_000),
        (&names.usd, 4_000_000),
    )?;
    let btc_eth = open_pool(
        alloc,
        tx,
        &names.alice,
        (&names.btc, 500_000),
        (&names.eth, 500_000),
    )?;
    Ok(Pools { eth_usd, btc_eth })
}

/// The ledger with both pools.
pub fn open_market(alloc: Global, names: &Names) -> Result<(State, Pools), Fail> {
    let mut tx = Tx::begin(State::new(alloc)?);
    match open_pools(alloc, &mut tx, names) {
        Ok(pools) => Ok((tx.commit(), pools)),
        Err(_) => {
            let _ = tx.rollback();
            Err("no market")?
        }
    }
}
