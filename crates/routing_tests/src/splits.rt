//! Splits of problems that were worked out by hand.
use amm_legs::legs_delivered;
use amm_model::{PoolName, Prices, Problem, ProblemPool, TokenName};
use amm_split::{best_two_way, round, split};
use std::alloc::Global;

// A pool of two tokens with these reserves, and balances like them.
fn pool(alloc: Global, a: &[u8], b: &[u8], r0: u64, r1: u64) -> Option<ProblemPool> {
    let token0 = TokenName::read(alloc, a).ok()??;
    let token1 = TokenName::read(alloc, b).ok()??;
    let name = PoolName::of(alloc, &token0, &token1, 3).ok()??;
    Some(ProblemPool {
        name,
        r0,
        r1,
        b0: r0,
        b1: r1,
    })
}

// Adds a pool of a million each side.
fn add(alloc: Global, pools: &mut Vec<ProblemPool>, a: &[u8], b: &[u8]) -> Option<()> {
    let million = 1000000;
    pools.push(pool(alloc, a, b, million, million)?).ok()
}

// So much of A to T.
fn problem_of(alloc: Global, pools: Vec<ProblemPool>, d: u64) -> Option<Problem> {
    let s = TokenName::read(alloc, b"A").ok()??;
    let t = TokenName::read(alloc, b"T").ok()??;
    Problem::from_parts(alloc, s, t, d, pools).ok()?
}

// Four ways of two pools that share none.
fn four_ways(alloc: Global, d: u64) -> Option<Problem> {
    let mut pools = Vec::new(alloc);
    add(alloc, &mut pools, b"A", b"M1")?;
    add(alloc, &mut pools, b"A", b"M2")?;
    add(alloc, &mut pools, b"A", b"M3")?;
    add(alloc, &mut pools, b"A", b"M4")?;
    add(alloc, &mut pools, b"M1", b"T")?;
    add(alloc, &mut pools, b"M2", b"T")?;
    add(alloc, &mut pools, b"M3", b"T")?;
    add(alloc, &mut pools, b"M4", b"T")?;
    problem_of(alloc, pools, d)
}

// A direct pool, and two ways of two pools.
fn direct_and_two(alloc: Global) -> Option<Problem> {
    let mut pools = Vec::new(alloc);
    add(alloc, &mut pools, b"A", b"M")?;
    add(alloc, &mut pools, b"A", b"N")?;
    add(alloc, &mut pools, b"A", b"T")?;
    add(alloc, &mut pools, b"M", b"T")?;
    add(alloc, &mut pools, b"N", b"T")?;
    problem_of(alloc, pools, 160000)
}

fn two_ways(alloc: Global, problem: &Problem) -> Option<u64> {
    let route = best_two_way(alloc, problem).ok()??;
    legs_delivered(problem, route.legs.as_slice())
}

fn four_by_two(alloc: Global) -> Option<u64> {
    two_ways(alloc, &four_ways(alloc, 400000)?)
}

fn direct_and_one(alloc: Global) -> Option<u64> {
    two_ways(alloc, &direct_and_two(alloc)?)
}

// Whether what a split delivers is at least so much, and no more than its bound.
fn is_split(alloc: Global, problem: &Problem, least: u64) -> Option<bool> {
    let quote = split(alloc, problem).ok()??;
    Some(least <= quote.delivered && quote.delivered as u128 <= quote.bound)
}

fn four_at_once(alloc: Global) -> Option<bool> {
    is_split(alloc, &four_ways(alloc, 400000)?, 331584)
}

fn three_at_once(alloc: Global) -> Option<bool> {
    is_split(alloc, &direct_and_two(alloc)?, 144030)
}

#[test]
fn two_way_values(rt: HostRuntime) {
    // 200000 over a pool of a million give floor(997*2*10^11 / (10^9 + 997*2*10^5)) = 166249, and
    // these over the next 142183; twice that is 284366.
    assert_eq!(rt; four_by_two(rt.alloc()), Some(284366));
    // 11 sixteenths, 110000, direct give 98831; the other 50000 give 45199 over two pools.
    assert_eq!(rt; direct_and_one(rt.alloc()), Some(144030));
}

#[test]
fn splits(rt: HostRuntime) {
    // Four shares of 100000 give 90661 in the first pool and 82896 in the second: 331584 together.
    assert_eq!(rt; four_at_once(rt.alloc()), Some(true));
    assert_eq!(rt; three_at_once(rt.alloc()), Some(true));
}

// What a rounding at the prices of A, M, N and T delivers.
fn rounded_at(alloc: Global, list: &[u64]) -> Option<u64> {
    let problem = direct_and_two(alloc)?;
    let prices = Prices::from_parts(Vec::from_slice(alloc, list).ok()?)?;
    if prices.as_slice().len() != problem.tokens().len() {
        return None;
    }
    let route = round(alloc, &problem, &prices).ok()?;
    legs_delivered(&problem, route.legs.as_slice())
}

fn is_rounded(alloc: Global) -> Option<bool> {
    let amount = rounded_at(alloc, &[855, 900, 900, 1000])?;
    Some(147520 <= amount)
}

#[test]
fn roundings(rt: HostRuntime) {
    // 80000 direct give 73868, and 40000 through M and 40000 through N give 36826 each.
    assert_eq!(rt; is_rounded(rt.alloc()), Some(true));
}

// What a split of so much of ETH to USD over their one pool delivers; 0 for no route.
fn one_pool(alloc: Global, d: u64) -> Option<u64> {
    let s = TokenName::read(alloc, b"ETH").ok()??;
    let t = TokenName::read(alloc, b"USD").ok()??;
    let mut pools = Vec::new(alloc);
    pools
        .push(pool(alloc, b"ETH", b"USD", 1000000, 4000000)?)
        .ok()?;
    let problem = Problem::from_parts(alloc, s, t, d, pools).ok()??;
    match split(alloc, &problem).ok()? {
        Some(quote) => Some(quote.delivered),
        None => Some(0),
    }
}

fn none_of_one(alloc: Global) -> Option<bool> {
    let problem = four_ways(alloc, 1)?;
    Some(split(alloc, &problem).ok()?.is_none())
}

#[test]
fn one_route_and_none(rt: HostRuntime) {
    // floor(997*10000*4000000 / (10^9 + 997*10000)) = 39486
    assert_eq!(rt; one_pool(rt.alloc(), 10000), Some(39486));
    // floor(997*4000000 / (10^9 + 997)) = 3
    assert_eq!(rt; one_pool(rt.alloc(), 1), Some(3));
    // 1 of A gives floor(997*10^6 / (10^9 + 997)) = 0 in each first pool
    assert_eq!(rt; none_of_one(rt.alloc()), Some(true));
}
