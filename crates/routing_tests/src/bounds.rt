//! Worths and bounds worked out by hand.
use crate::market::{one_pool, two_parts};
use amm_bound::{open_bound, worth};
use amm_model::{OpenProblem, Prices};
use std::alloc::Global;

#[test]
fn worths(rt: HostRuntime) {
    assert_eq!(rt; worth(3, 1000000, 1000000, 1, 1), 0);
    // A = 10^9 and B = 2*997*10^6: twice the root of A*B is 2824181294, and so
    // floor(169818706/997).
    assert_eq!(rt; worth(3, 1000000, 1000000, 1, 2), 170329);
    assert_eq!(rt; worth(3, 1000000, 4000000, 4194304, 1048576), 0);
    assert_eq!(rt; worth(1, 1000000, 1000000, 1, 2), 171158);
    assert_eq!(rt; worth(10, 1000000, 1000000, 1, 2), 167424);
}

// The bound at prices, one for each token.
fn bound_at(alloc: Global, problem: &OpenProblem, list: &[u64]) -> Option<u128> {
    let prices = Prices::from_parts(Vec::from_slice(alloc, list).ok()?)?;
    if prices.as_slice().len() != problem.tokens().len() {
        return None;
    }
    Some(open_bound(problem, &prices))
}

fn bound_of_one_pool(alloc: Global, list: &[u64]) -> Option<u128> {
    bound_at(alloc, one_pool(alloc)?.as_open(), list)
}

fn bound_of_two_parts(alloc: Global, list: &[u64]) -> Option<u128> {
    bound_at(alloc, &two_parts(alloc)?, list)
}

#[test]
fn bounds(rt: HostRuntime) {
    // (100000 + 170329) / 2
    assert_eq!(rt; bound_of_one_pool(rt.alloc(), &[1, 2]), Some(135164));
    assert_eq!(rt; bound_of_one_pool(rt.alloc(), &[0, 2]), None);
    // Both parts at the price 1, and no pool is worth anything.
    assert_eq!(rt; bound_of_two_parts(rt.alloc(), &[1, 1, 1]), Some(200000));
    // (100000 + 100000 + 2*170329) / 2
    assert_eq!(rt; bound_of_two_parts(rt.alloc(), &[1, 1, 2]), Some(270329));
    // (2*100000 + 100000 + 170329) / 2, since A and T are worth the same
    assert_eq!(rt; bound_of_two_parts(rt.alloc(), &[2, 1, 2]), Some(235164));
}
