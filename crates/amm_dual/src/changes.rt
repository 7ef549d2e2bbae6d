//! Other prices of one token or two, and what a pool is worth at them.
ghost use Rattle.std.specs.Prelude.{◌≡◌, ◌*◌, ◌<◌, ◌≤◌, ◌^◌, length, slice_index};
ghost use Rattle.amm_model.specs.Routing.{ArePrices, HasReserves, fee_of};
ghost use Rattle.amm_model.specs.Bound.{worth_of};
ghost use Rattle.amm_dual.specs.Running.{after};

use amm_bound::worth;
use amm_model::{ProblemPool, TokenPlaces};

/// Another price of the token at a place.
#[derive(Clone, Copy, Drop)]
pub struct Change {
    pub place: usize,
    pub price: u64,
}

/// Two changes, made one after the other; a single one stands here twice.
#[derive(Clone, Copy, Drop)]
pub struct Changes {
    pub first: Change,
    pub second: Change,
}

/// The price at a place after the changes.
pub fn price_after(prices: &[u64], changes: Changes, place: usize) -> u64
    requires place { place < length prices.now }
    requires ranges { ArePrices (after prices.now changes) }
    ensures value { result ≡ slice_index (after prices.now changes) place }
    ensures range { (1 ≤ result) × (result < 2 ^ 40) }
{
    price_among(prices, changes, place)
}

// The same, of any changes.
fn price_among(prices: &[u64], changes: Changes, place: usize) -> u64
    requires { place < length prices.now }
    ensures { result ≡ slice_index (after prices.now changes) place }
{
    if place == changes.second.place {
        return changes.second.price;
    }
    if place == changes.first.place {
        return changes.first.price;
    }
    prices[place]
}

/// The worth of a pool after the changes, where it was `old` before them.
pub fn worth_after(
    old: u128,
    pool: &ProblemPool,
    places: TokenPlaces,
    prices: &[u64],
    changes: Changes,
) -> u128
    requires reserves { HasReserves pool.now }
    requires places { (places.zero < length prices.now) × (places.one < length prices.now) }
    requires ranges { ArePrices (after prices.now changes) }
    requires below { old < 2 ^ 99 }
    requires kept { old ≡ worth_of (fee_of pool.now) pool.now.r0 pool.now.r1 (slice_index prices.now places.zero) (slice_index prices.now places.one) }
    ensures value { result ≡ worth_of (fee_of pool.now) pool.now.r0 pool.now.r1 (slice_index (after prices.now changes) places.zero) (slice_index (after prices.now changes) places.one) }
    ensures below { result < 2 ^ 99 }
{
    let first = changes.first.place;
    let second = changes.second.place;
    if places.zero != first
        && places.one != first
        && places.zero != second
        && places.one != second
    {
        return old;
    }
    worth(
        pool.name.fee(),
        pool.r0,
        pool.r1,
        price_after(prices, changes, places.zero),
        price_after(prices, changes, places.one),
    )
}
