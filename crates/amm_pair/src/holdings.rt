//! What a pool has in the ledger, and how it sends it.
ghost use Rattle.std.specs.Prelude.{◌≡◌, ◌≢◌, ◌≤◌};
ghost use Rattle.amm_names.specs.declared.holder.Holder.TheVariants as holders;
ghost use Rattle.amm_names.specs.Pools.{pool_token0, pool_token1};
ghost use Rattle.amm_model.specs.Ledger.{total};
ghost use Rattle.amm_model.specs.Postings.{transfer};
ghost use Rattle.amm_model.specs.declared.limits.TheConstants.{AMOUNT_LIMIT};
ghost use Rattle.amm_model.specs.Pools.{asset0, asset1, held0, held1, supply};
ghost use Rattle.amm_model.specs.Operations.{send_both, own_shares};
ghost use Rattle.amm_state.specs.Tx.{Meets};

use amm_model::{Asset, Fault, Holder, PoolName};
use amm_state::{Book, Mark, Tx};
use std::alloc::Global;

/// What the pool has of its first token, at most 2^52-1.
pub(crate) fn held0(book: &Book, pool: &PoolName) -> u64
    ensures amount { result ≡ held0 book.now.ledger pool.now }
    ensures limit { result ≤ AMOUNT_LIMIT }
{
    book.balance(&Asset::Token(*pool.token0()), &Holder::Pool(*pool))
}

/// What the pool has of its second token, at most 2^52-1.
pub(crate) fn held1(book: &Book, pool: &PoolName) -> u64
    ensures amount { result ≡ held1 book.now.ledger pool.now }
    ensures limit { result ≤ AMOUNT_LIMIT }
{
    book.balance(&Asset::Token(*pool.token1()), &Holder::Pool(*pool))
}

/// How many shares of the pool there are.
pub(crate) fn supply(book: &Book, pool: &PoolName) -> u64
    ensures sum { result ≡ supply book.now.ledger pool.now }
    ensures limit { result ≤ AMOUNT_LIMIT }
{
    book.total(&Asset::Share(*pool))
}

/// How many shares the pool has of itself.
pub(crate) fn own_shares(book: &Book, pool: &PoolName) -> u64
    ensures amount { result ≡ own_shares book.now.ledger pool.now }
    ensures within { result ≤ supply book.now.ledger pool.now }
{
    book.balance(&Asset::Share(*pool), &Holder::Pool(*pool))
}

// Sends units of the first token from the pool.
fn send0(alloc: Global, tx: &mut Tx, pool: &PoolName, to: &Holder, n: u64) -> Result<(), Fault>
    requires { tx.old.mark ≡ Mark.Clean }
    ensures { Meets tx.old tx.new result (transfer tx.old.present (asset0 pool.now) (holders.Pool pool.now) to.now n) }
{
    let asset = Asset::Token(*pool.token0());
    tx.move_units(alloc, &asset, &Holder::Pool(*pool), to, n)
}

// Sends units of the second token from the pool.
fn send1(alloc: Global, tx: &mut Tx, pool: &PoolName, to: &Holder, n: u64) -> Result<(), Fault>
    requires { tx.old.mark ≡ Mark.Clean }
    ensures { Meets tx.old tx.new result (transfer tx.old.present (asset1 pool.now) (holders.Pool pool.now) to.now n) }
{
    let asset = Asset::Token(*pool.token1());
    tx.move_units(alloc, &asset, &Holder::Pool(*pool), to, n)
}

/// Sends units of both tokens from the pool.
#[tactic(auto, unfolding(amm_model::specs::Operations::send_both))]
pub(crate) fn send_both(
    alloc: Global,
    tx: &mut Tx,
    pool: &PoolName,
    n0: u64,
    n1: u64,
    to: &Holder,
) -> Result<(), Fault>
    requires { tx.old.mark ≡ Mark.Clean }
    ensures { Meets tx.old tx.new result (send_both tx.old.present pool.now n0 n1 to.now) }
{
    send0(alloc, tx, pool, to, n0)?;
    send1(alloc, tx, pool, to, n1)
}
