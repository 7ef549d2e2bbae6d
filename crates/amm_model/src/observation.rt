//! Kept readings of price accumulators, and the average prices between two.
use amm_names::PoolName;

/// The accumulators of a pool at a time.
#[derive(Clone, Copy, Drop)]
pub struct Observation {
    pub pool: PoolName,
    pub time: u64,
    pub acc0: u128,
    pub acc1: u128,
}

/// The average price of a pool's token 0 in units of its token 1, and of its token 1 in units of
/// its token 0, each with 48 binary places.
#[derive(Clone, Copy, PartialEq, Eq, Debug, Drop)]
pub struct Averages {
    pub price0: u128,
    pub price1: u128,
}

/// The numbers of the two observations of a window, and the average prices between them.
#[derive(Clone, Copy, PartialEq, Eq, Debug, Drop)]
pub struct WindowAnswer {
    pub first: u64,
    pub second: u64,
    pub averages: Averages,
}
