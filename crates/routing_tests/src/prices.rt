//! The bound while prices change, and prices that are settled.
use crate::market::one_pool;
use amm_dual::{Running, descended, open_settled};
use amm_model::Prices;
use std::alloc::Global;

fn prices_of(alloc: Global, price_a: u64, price_t: u64) -> Option<Prices> {
    let mut list = Vec::new(alloc);
    list.push(price_a).ok()?;
    list.push(price_t).ok()?;
    Prices::from_parts(list)
}

// The bounds at the prices 1 and 2, after token 1 was set to 1, and after it was set to 2 again.
fn three_bounds(alloc: Global) -> Option<(u128, u128, u128)> {
    let problem = one_pool(alloc)?;
    let prices = prices_of(alloc, 1, 2)?;
    let general = problem.as_open();
    if prices.as_slice().len() != general.tokens().len() || prices.as_slice().len() < 2 {
        return None;
    }
    let mut running = Running::new(alloc, general, &prices).ok()?;
    let first = running.bound();
    running.set(1, 1);
    let second = running.bound();
    running.set(1, 2);
    Some((first, second, running.bound()))
}

// At 1 and 2 the pool is worth 170329, and (100000 + 170329) / 2 = 135164; at 1 and 1 it is worth
// nothing.
#[test]
fn bounds(rt: HostRuntime) {
    assert_eq!(rt; three_bounds(rt.alloc()), Some((135164, 100000, 135164)));
}

// Whether the spot prices are settled, whether those that the descent finds are, and their bound.
fn descent(alloc: Global) -> Option<(bool, bool, u128)> {
    let problem = one_pool(alloc)?;
    let start = prices_of(alloc, 1048576, 1048576)?;
    let general = problem.as_open();
    if start.as_slice().len() != general.tokens().len() {
        return None;
    }
    let before = open_settled(alloc, general, &start).ok()?;
    if start.as_slice()[general.target()] != 1048576 {
        return None;
    }
    let prices = descended(alloc, general, &start).ok()?;
    if prices.as_slice().len() != general.tokens().len() {
        return None;
    }
    let after = open_settled(alloc, general, &prices).ok()?;
    let running = Running::new(alloc, general, &prices).ok()?;
    Some((before, after, running.bound()))
}

// The pool gives floor(997*100000*10^6 / (10^9 + 997*100000)) = 90661, which no bound is below.
#[test]
fn descends(rt: HostRuntime) {
    assert_eq!(rt; descent(rt.alloc()), Some((false, true, 90661)));
}
