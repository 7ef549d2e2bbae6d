//! Cycles of problems that were worked out by hand.
ghost use Rattle.std.specs.Prelude.{IsTrue};
ghost use Rattle.amm_names.specs.Pools.{is_fee};

use amm_cycle::cycle;
use amm_model::{OpenProblem, PoolName, ProblemPool, TokenName};
use std::alloc::Global;

// A pool of two tokens with this fee and these reserves, and balances like them.
fn pool(alloc: Global, tokens: (&[u8], &[u8]), fee: u8, reserves: (u64, u64)) -> Option<ProblemPool>
    requires { IsTrue (is_fee fee) }
{
    let token0 = TokenName::read(alloc, tokens.0).ok()??;
    let token1 = TokenName::read(alloc, tokens.1).ok()??;
    let name = PoolName::of(alloc, &token0, &token1, fee).ok()??;
    Some(ProblemPool {
        name,
        r0: reserves.0,
        r1: reserves.1,
        b0: reserves.0,
        b1: reserves.1,
    })
}

// The profit of the best cycle from USD over the pools; 0 for no cycle.
fn profit(alloc: Global, pools: Vec<ProblemPool>) -> Option<u64> {
    let t = TokenName::read(alloc, b"USD").ok()??;
    let problem = OpenProblem::from_parts(alloc, Vec::new(alloc), t, pools).ok()??;
    match cycle(alloc, problem).ok()? {
        Some(quote) => Some(quote.delivered),
        None => Some(0),
    }
}

// Over two pools of ETH and USD, of fees 3 and 1.
fn over_two(alloc: Global, three: (u64, u64), one: (u64, u64)) -> Option<u64> {
    let mut pools = Vec::new(alloc);
    pools.push(pool(alloc, (b"ETH", b"USD"), 3, three)?).ok()?;
    pools.push(pool(alloc, (b"ETH", b"USD"), 1, one)?).ok()?;
    profit(alloc, pools)
}

fn over_one(alloc: Global) -> Option<u64> {
    let mut pools = Vec::new(alloc);
    let reserves = (1000000, 4000000);
    pools
        .push(pool(alloc, (b"ETH", b"USD"), 3, reserves)?)
        .ok()?;
    profit(alloc, pools)
}

// Over a pool of BTC and ETH, one of BTC and USD, and one of ETH and USD, all of fee 3.
fn over_three(
    alloc: Global,
    btc_eth: (u64, u64),
    btc_usd: (u64, u64),
    eth_usd: (u64, u64),
) -> Option<u64> {
    let mut pools = Vec::new(alloc);
    pools.push(pool(alloc, (b"BTC", b"ETH"), 3, btc_eth)?).ok()?;
    pools.push(pool(alloc, (b"BTC", b"USD"), 3, btc_usd)?).ok()?;
    pools.push(pool(alloc, (b"ETH", b"USD"), 3, eth_usd)?).ok()?;
    profit(alloc, pools)
}

fn is_from(least: u64, found: Option<u64>) -> Option<bool> {
    Some(least <= found?)
}

#[test]
fn cycles_of_two(rt: HostRuntime) {
    // 262144 USD give floor(997*262144*10^6 / (4*10^9 + 997*262144)) = 61331 ETH, and these
    // floor(999*61331*5*10^6 / (10^9 + 999*61331)) = 288662 USD: 26518 more.
    let apart = over_two(rt.alloc(), (1000000, 4000000), (1000000, 5000000));
    assert_eq!(rt; is_from(26518, apart), Some(true));
    // At equal prices each trade loses its fee.
    let equal = over_two(rt.alloc(), (1000000, 4000000), (1000000, 4000000));
    assert_eq!(rt; equal, Some(0));
    assert_eq!(rt; over_one(rt.alloc()), Some(0));
}

#[test]
fn one_input(rt: HostRuntime) {
    // 2 USD give floor(999*2*2 / (1000 + 999*2)) = 1 ETH, and that floor(997*7 / (1000 + 997)) = 3
    // USD. 1 USD gives no ETH, and no more USD give 2 of the 2 ETH. The other way round the second
    // pool keeps its only USD.
    assert_eq!(rt; over_two(rt.alloc(), (1, 7), (2, 1)), Some(1));
}

#[test]
fn cycle_of_three(rt: HostRuntime) {
    // 131072 USD give floor(997*131072*10^6 / (10^9 + 997*131072)) = 115575 ETH, these
    // floor(997*115575*10^6 / (10^9 + 997*115575)) = 103322 BTC, and these
    // floor(997*103322*2*10^6 / (10^9 + 997*103322)) = 186783 USD: 55711 more.
    let even = (1000000, 1000000);
    let found = over_three(rt.alloc(), even, (1000000, 2000000), even);
    assert_eq!(rt; is_from(55711, found), Some(true));
}

// A script in Python worked these out apart from the search: in whole numbers, for each list of two
// or three different pools that leads from USD over other tokens back to it, and for each input
// below the greatest reserve of USD (a pool pays less than its reserve, so no other input gains),
// it took hop by hop (1000 - fee)*x*out // (1000*in + (1000 - fee)*x), and kept the greatest
// difference of the last output and the input. The halved steps alone end one or two units lower.
#[test]
fn greatest_of_all_inputs(rt: HostRuntime) {
    // 506 USD give 976 ETH, and these 1559 USD.
    let two = over_two(rt.alloc(), (3731, 1424), (783, 2811));
    assert_eq!(rt; two, Some(1053));
    // 46 USD give 10 ETH, and these 56 USD.
    let small = over_two(rt.alloc(), (211, 918), (126, 768));
    assert_eq!(rt; small, Some(10));
    // 311 USD give 325 ETH, these 590 BTC, and these 403 USD.
    let three = over_three(rt.alloc(), (7118, 3585), (7361, 5448), (6284, 5685));
    assert_eq!(rt; three, Some(92));
}
