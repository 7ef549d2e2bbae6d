//! Whether the pools of a quote's legs are free, and as they were quoted.
ghost use Rattle.std.specs.Prelude.{◌≡◌, map};
ghost use Rattle.amm_names.specs.declared.holder.Asset.TheVariants as assets;
ghost use Rattle.amm_names.specs.declared.holder.Holder.TheVariants as holders;
ghost use Rattle.amm_model.specs.Ledger.{balance, pair_of};
ghost use Rattle.amm_model.specs.Legs.{leg_pool};
ghost use Rattle.amm_model.specs.Settlement.{all_as_kept, any_locked, is_as_kept, is_locked};
ghost use Rattle.amm_settle.specs.Places.{AreThere};

use amm_model::{Asset, Holder, Leg, PoolName, ProblemPool, TokenName};
use amm_state::Book;

/// Whether the pair of some leg's pool is locked.
pub(crate) fn any_locked(book: &Book, pools: &[ProblemPool], legs: &[Leg]) -> bool
    requires there { AreThere pools.now legs.now }
    ensures { result ≡ any_locked book.now.ledger (map (leg_pool pools.now) legs.now) }
{
    let Some((leg, later)) = legs.split_first() else {
        return false;
    };
    if is_locked(book, &pools[leg.pool as usize]) {
        return true;
    }
    any_locked(book, pools, later)
}

fn is_locked(book: &Book, pool: &ProblemPool) -> bool
    ensures { result ≡ is_locked (pair_of book.now.ledger.pairs pool.now.name) }
{
    match book.pair(&pool.name) {
        Some(pair) => pair.locked,
        None => false,
    }
}

/// Whether the pool of each leg has the reserves and balances that were quoted.
pub(crate) fn all_as_kept(book: &Book, pools: &[ProblemPool], legs: &[Leg]) -> bool
    requires there { AreThere pools.now legs.now }
    ensures { result ≡ all_as_kept book.now.ledger (map (leg_pool pools.now) legs.now) }
{
    let Some((leg, later)) = legs.split_first() else {
        return true;
    };
    if !is_as_kept(book, &pools[leg.pool as usize]) {
        return false;
    }
    all_as_kept(book, pools, later)
}

fn is_as_kept(book: &Book, pool: &ProblemPool) -> bool
    ensures { result ≡ is_as_kept book.now.ledger pool.now (pair_of book.now.ledger.pairs pool.now.name) }
{
    match book.pair(&pool.name) {
        Some(pair) => {
            pair.r0 == pool.r0
                && pair.r1 == pool.r1
                && held(book, pool.name.token0(), &pool.name) == pool.b0
                && held(book, pool.name.token1(), &pool.name) == pool.b1
        }
        None => false,
    }
}

fn held(book: &Book, token: &TokenName, pool: &PoolName) -> u64
    ensures { result ≡ balance book.now.ledger (assets.Token token.now) (holders.Pool pool.now) }
{
    book.balance(&Asset::Token(*token), &Holder::Pool(*pool))
}
