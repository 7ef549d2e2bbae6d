//! Baskets that were worked out by hand.
ghost use Rattle.amm_model.specs.Swap.{IsFee};

use crate::market::token;
use amm_basket::basket;
use amm_model::{OpenProblem, Part, PoolName, ProblemPool};
use std::alloc::Global;

// Adds a pool of a million of a token and of T.
fn add_pool(alloc: Global, pools: &mut Vec<ProblemPool>, text: &[u8], fee: u8) -> Option<()>
    requires { IsFee fee }
{
    let name = PoolName::of(alloc, &token(alloc, text)?, &token(alloc, b"T")?, fee).ok()??;
    let r = 1000000;
    pools
        .push(ProblemPool {
            name,
            r0: r,
            r1: r,
            b0: r,
            b1: r,
        })
        .ok()
}

// Adds so much of a token.
fn add_part(alloc: Global, parts: &mut Vec<Part>, text: &[u8], amount: u64) -> Option<()> {
    let token = token(alloc, text)?;
    parts.push(Part { token, amount }).ok()
}

// What the basket of the parts to T delivers; 0 where there is none.
fn delivered(alloc: Global, parts: Vec<Part>, pools: Vec<ProblemPool>) -> Option<u64> {
    let problem = OpenProblem::from_parts(alloc, parts, token(alloc, b"T")?, pools).ok()??;
    match basket(alloc, problem).ok()? {
        Some(quote) => Some(quote.delivered),
        None => Some(0),
    }
}

// So much of A and of B over A/T and B/T.
fn two_parts(alloc: Global, of_a: u64, of_b: u64) -> Option<u64> {
    let mut pools = Vec::new(alloc);
    add_pool(alloc, &mut pools, b"A", 3)?;
    add_pool(alloc, &mut pools, b"B", 3)?;
    let mut parts = Vec::new(alloc);
    add_part(alloc, &mut parts, b"A", of_a)?;
    add_part(alloc, &mut parts, b"B", of_b)?;
    delivered(alloc, parts, pools)
}

// A pool pays floor(997*x*10^6/(10^9+997*x)): 90661 for 100000, and twice that is 181322. Each
// part has its one pool, so no more can be had. 1 gives nothing.
#[test]
fn two_pools(rt: HostRuntime) {
    let alloc = rt.alloc();
    assert_eq!(rt; two_parts(alloc, 100000, 100000), Some(181322));
    assert_eq!(rt; two_parts(alloc, 1, 100000), Some(90661));
    assert_eq!(rt; two_parts(alloc, 1, 1), Some(0));
}

// A and Z over A/T alone: there is no pool of Z.
fn one_without_a_pool(alloc: Global) -> Option<u64> {
    let mut pools = Vec::new(alloc);
    add_pool(alloc, &mut pools, b"A", 3)?;
    let mut parts = Vec::new(alloc);
    add_part(alloc, &mut parts, b"A", 100000)?;
    add_part(alloc, &mut parts, b"Z", 7)?;
    delivered(alloc, parts, pools)
}

// Z alone.
fn none_with_a_pool(alloc: Global) -> Option<u64> {
    let mut pools = Vec::new(alloc);
    add_pool(alloc, &mut pools, b"A", 3)?;
    let mut parts = Vec::new(alloc);
    add_part(alloc, &mut parts, b"Z", 7)?;
    delivered(alloc, parts, pools)
}

#[test]
fn parts_without_pools(rt: HostRuntime) {
    assert_eq!(rt; one_without_a_pool(rt.alloc()), Some(90661));
    assert_eq!(rt; none_with_a_pool(rt.alloc()), Some(0));
}

// Whether 200000 of A over A/T and A/T:1 deliver so much.
fn one_part(alloc: Global, least: u64) -> Option<bool> {
    let mut pools = Vec::new(alloc);
    add_pool(alloc, &mut pools, b"A", 3)?;
    add_pool(alloc, &mut pools, b"A", 1)?;
    let mut parts = Vec::new(alloc);
    add_part(alloc, &mut parts, b"A", 200000)?;
    Some(least <= delivered(alloc, parts, pools)?)
}

// A split has to deliver at least what two halves give: 90661 at a fee of 3 thousandths, and
// floor(999*10^5*10^6/(10^9+999*10^5)) = 90826 at a fee of 1.
#[test]
fn one_part_is_split(rt: HostRuntime) {
    assert_eq!(rt; one_part(rt.alloc(), 181487), Some(true));
}

// 100000 of each of eight tokens, over a pool of each.
fn eight_parts(alloc: Global) -> Option<u64> {
    let mut pools = Vec::new(alloc);
    let mut parts = Vec::new(alloc);
    for text in [b"A", b"B", b"C", b"D", b"E", b"F", b"G", b"H"] {
        add_pool(alloc, &mut pools, text, 3)?;
        add_part(alloc, &mut parts, text, 100000)?;
    }
    delivered(alloc, parts, pools)
}

#[test]
fn as_many_as_can_be(rt: HostRuntime) {
    // eight times 90661
    assert_eq!(rt; eight_parts(rt.alloc()), Some(725288));
}
