//! Trades with a pool, as the router plans them.
use amm_names::PoolName;

/// A pool and its reserves, seen from the token that goes in: `zero_in` where that is its first.
#[derive(Clone, Copy, Drop)]
pub struct Side {
    pub pool: PoolName,
    pub zero_in: bool,
    pub rin: u64,
    pub rout: u64,
}

/// What a pool pays to the next one of a path, or to the receiver at its end.
#[derive(Clone, Copy, Drop)]
pub struct Trade {
    pub pool: PoolName,
    pub zero_in: bool,
    pub output: u64,
}

/// Amounts of two tokens that match at a pool's reserves, in the caller's order.
#[derive(Clone, Copy, PartialEq, Eq, Debug, Drop)]
pub struct Matched {
    pub a: u64,
    pub b: u64,
}
