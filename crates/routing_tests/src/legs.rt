//! What routes deliver, worked out by hand, and legs that are no route.
use crate::market::{triangle, two_parts};
use amm_legs::{legs_delivered, open_legs_delivered};
use amm_model::Leg;
use std::alloc::Global;

fn leg(pool: u32, zero_in: bool, input: u64, output: u64) -> Leg {
    Leg {
        pool,
        zero_in,
        input,
        output,
    }
}

// Of 100000 A over A/M, A/T and M/T.
fn delivered(alloc: Global, legs: &[Leg]) -> Option<u64> {
    legs_delivered(&triangle(alloc)?, legs)
}

#[test]
fn routes(rt: HostRuntime) {
    let direct = leg(1, true, 68750, 64146);
    let first = leg(0, true, 31250, 30214);
    let second = leg(2, true, 30214, 29242);
    assert_eq!(rt;
        delivered(rt.alloc(), &[direct, first, second]),
        Some(93388)
    );
    assert_eq!(rt; delivered(rt.alloc(), &[first, direct]), Some(64146));
    assert_eq!(rt; delivered(rt.alloc(), &[]), Some(0));
}

#[test]
fn no_routes(rt: HostRuntime) {
    let half = leg(1, true, 50000, 47482);
    let first = leg(0, true, 31250, 30214);
    let second = leg(2, true, 30214, 29242);
    assert_eq!(rt; delivered(rt.alloc(), &[half]), Some(47482));
    assert_eq!(rt; delivered(rt.alloc(), &[half, half]), None);
    assert_eq!(rt; delivered(rt.alloc(), &[second, first]), None);
    assert_eq!(rt; delivered(rt.alloc(), &[leg(1, true, 50000, 47481)]), None);
    assert_eq!(rt; delivered(rt.alloc(), &[leg(1, true, 100001, 90661)]), None);
    assert_eq!(rt; delivered(rt.alloc(), &[leg(3, true, 50000, 47482)]), None);
    assert_eq!(rt; delivered(rt.alloc(), &[leg(1, true, 0, 0)]), None);
}

// Of 100000 A and 100000 B over A/T and B/T.
fn delivered_of_parts(alloc: Global, legs: &[Leg]) -> Option<u64> {
    open_legs_delivered(&two_parts(alloc)?, legs)
}

#[test]
fn routes_of_two_parts(rt: HostRuntime) {
    // floor(997*100000*10^6 / (10^9 + 997*100000)) = 90661 from each
    let first = leg(0, true, 100000, 90661);
    let second = leg(1, true, 100000, 90661);
    assert_eq!(rt;
        delivered_of_parts(rt.alloc(), &[first, second]),
        Some(181322)
    );
    assert_eq!(rt; delivered_of_parts(rt.alloc(), &[second]), Some(90661));
    assert_eq!(rt;
        delivered_of_parts(rt.alloc(), &[leg(0, true, 100001, 90661)]),
        None
    );
}
