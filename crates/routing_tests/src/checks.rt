//! Quotes that are right, and quotes with one thing that is not.
use amm_check::{Verdict, check};
use amm_model::{Leg, LegList, PoolName, Prices, Problem, ProblemPool, Quote, Route, TokenName};
use std::alloc::Global;

/// A leg that puts ETH into the only pool.
fn leg(input: u64, output: u64) -> Leg {
    Leg {
        pool: 0,
        zero_in: true,
        input,
        output,
    }
}

/// 10,000 ETH for USD over a pool of 1,000,000 ETH and 4,000,000 USD at a fee of 1 thousandth.
fn quote(alloc: Global, legs: &[Leg], delivered: u64, bound: u128) -> Option<Quote> {
    let s = TokenName::read(alloc, b"ETH").ok()??;
    let t = TokenName::read(alloc, b"USD").ok()??;
    let name = PoolName::of(alloc, &s, &t, 1).ok()??;
    let mut pools = Vec::new(alloc);
    pools
        .push(ProblemPool {
            name,
            r0: 1000000,
            r1: 4000000,
            b0: 1000000,
            b1: 4000000,
        })
        .ok()?;
    let problem = Problem::from_parts(alloc, s, t, 10000, pools).ok()??;
    let prices = Prices::from_parts([4194304, 1048576].to_vec(alloc).ok()?)?;
    Some(Quote {
        problem,
        prices,
        route: Route {
            legs: LegList::from_vec(legs.to_vec(alloc).ok()?),
        },
        delivered,
        bound,
    })
}

fn verdict(alloc: Global, legs: &[Leg], delivered: u64, bound: u128) -> Option<Verdict> {
    let quote = quote(alloc, legs, delivered, bound)?;
    if quote.prices.as_slice().len() != quote.problem.tokens().len() {
        return None;
    }
    Some(check(&quote))
}

/// The pool gives floor(999*10000*4000000/(1000*1000000 + 999*10000)) = 39564. At these prices it
/// is worth nothing, so that the bound is floor(4194304*10000/1048576) = 40000.
#[test]
fn the_first_thing_that_is_wrong_is_told(rt: HostRuntime) {
    let right = [leg(10000, 39564)];
    let one_less = [leg(10000, 39563)];
    // The pool gives floor(999*5000*4000000/(1000*1000000 + 999*5000)) = 19880 on half of it.
    let twice = [leg(5000, 19880), leg(5000, 19880)];
    for (legs, delivered, bound, expected) in [
        (right.as_slice(), 39564, 40000, Verdict::Yes),
        (one_less.as_slice(), 39563, 40000, Verdict::BadRoute),
        (twice.as_slice(), 39760, 40000, Verdict::BadRoute),
        (right.as_slice(), 39563, 39999, Verdict::BadDelivered),
        (right.as_slice(), 39564, 39999, Verdict::BadBound),
        (right.as_slice(), 39564, 40001, Verdict::BadBound),
    ] {
        assert_eq!(rt; verdict(rt.alloc(), legs, delivered, bound), Some(expected));
    }
}
