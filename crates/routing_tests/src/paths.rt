//! Paths of small problems and what they give, and the problem of a small ledger.
ghost use Rattle.std.specs.Prelude.{◌<◌, ◌≤◌, ◌^◌, map};
ghost use Rattle.amm_model.specs.Paths.{AreAllPaths};
ghost use Rattle.amm_graph.specs.Hops.{hops_of};

use crate::ledger::{Pools, ledger_of, make_pools};
use crate::market::{million, token, triangle};
use amm_graph::{Path, along, open_problem, paths, problem};
use amm_model::{Problem, ProblemPool};
use std::alloc::Global;
use std::test::Fail;

// A to T over A/B, A/T, B/C, B/T, C/T and D/T, of which C/T has no room for an update.
fn web(alloc: Global, is_full: bool) -> Option<Problem> {
    let a = token(alloc, b"A")?;
    let b = token(alloc, b"B")?;
    let c = token(alloc, b"C")?;
    let d = token(alloc, b"D")?;
    let t = token(alloc, b"T")?;
    let mut pools = Vec::new(alloc);
    pools.push(million(alloc, &a, &b)?).ok()?;
    pools.push(million(alloc, &a, &t)?).ok()?;
    pools.push(million(alloc, &b, &c)?).ok()?;
    pools.push(million(alloc, &b, &t)?).ok()?;
    let mut last = million(alloc, &c, &t)?;
    if is_full {
        last.b1 = 1 << 48;
    }
    pools.push(last).ok()?;
    pools.push(million(alloc, &d, &t)?).ok()?;
    Problem::from_parts(alloc, a, t, 100000, pools).ok()?
}

// The places of the pools of each path, counted from 1, as the digits of a number.
fn digits(alloc: Global, problem: &Problem) -> Option<Vec<u32>> {
    let mut found = Vec::new(alloc);
    for path in &paths(alloc, problem).ok()? {
        let mut number = path.hop0.pool.wrapping_add(1);
        if path.count >= 2 {
            number = number
                .wrapping_mul(10)
                .wrapping_add(path.hop1.pool)
                .wrapping_add(1);
        }
        if path.count == 3 {
            number = number
                .wrapping_mul(10)
                .wrapping_add(path.hop2.pool)
                .wrapping_add(1);
        }
        found.push(number).ok()?;
    }
    Some(found)
}

// Whether the paths are these, in this order.
fn are_paths(alloc: Global, is_full: bool, wanted: &[u32]) -> Option<bool> {
    let problem = web(alloc, is_full)?;
    let found = digits(alloc, &problem)?;
    Some(found.as_slice() == wanted)
}

// A to B to C to T comes first, then A to B to T, then A to T: by the places of their pools.
// Nothing leads on from D, and none leads back to A. Without room in C/T the way by C is gone.
#[test]
fn all_paths(rt: HostRuntime) {
    let alloc = rt.alloc();
    assert_eq!(&rt; are_paths(alloc, false, &[135, 14, 2]), Some(true));
    assert_eq!(&rt; are_paths(alloc, true, &[14, 2]), Some(true));
}

// What the path at a place gives.
fn given(alloc: Global, place: usize, x: u64) -> Option<u64>
    requires { (1 ≤ x) × (x < 2 ^ 52) }
{
    let problem = triangle(alloc)?;
    match paths(alloc, &problem) {
        Ok(all) => along_at(&problem, &all, place, x),
        Err(_) => None,
    }
}

fn along_at(problem: &Problem, all: &[Path], place: usize, x: u64) -> Option<u64>
    requires paths { AreAllPaths problem.now.pools problem.now.s problem.now.t (map hops_of all.now) }
    requires input { (1 ≤ x) × (x < 2 ^ 52) }
{
    if place >= all.len() {
        return None;
    }
    along(problem, &all[place], x)
}

// The path by M is the first. A pool pays floor(997*x*10^6/(10^9+997*x)): 30214 for 31250 and
// then 29242 for these; directly 64146 for 68750 and 90661 for 100000; nothing for 1.
#[test]
fn amounts(rt: HostRuntime) {
    let alloc = rt.alloc();
    assert_eq!(&rt; given(alloc, 0, 31250), Some(29242));
    assert_eq!(&rt; given(alloc, 1, 68750), Some(64146));
    assert_eq!(&rt; given(alloc, 1, 100000), Some(90661));
    assert_eq!(&rt; given(alloc, 0, 1), None);
    // 281474976710655 is 2^48-1: with a million in the pool there is no room for it.
    assert_eq!(&rt; given(alloc, 1, 281474976710655), None);
}

fn is_same(a: &ProblemPool, b: &ProblemPool) -> bool {
    a.name == b.name && a.r0 == b.r0 && a.r1 == b.r1 && a.b0 == b.b0 && a.b1 == b.b1
}

// Whether these are A/M, A/T and M/T:1, as they were made.
fn are_filled(found: &[ProblemPool], made: &Pools) -> bool {
    found.len() == 3
        && is_same(&found[0], &made.am)
        && is_same(&found[1], &made.at)
        && is_same(&found[2], &made.mt_cheap)
}

// Whether the problem from a token to another has the filled pools and so many tokens.
fn is_market(alloc: Global, s: &[u8], t: &[u8], tokens: usize) -> Result<bool, Fail> {
    let made = make_pools(alloc)?;
    let state = ledger_of(alloc, &made)?;
    let (Some(s), Some(t)) = (token(alloc, s), token(alloc, t)) else {
        return Err("no tokens")?;
    };
    if s == t {
        return Err("one token")?;
    }
    let found = problem(alloc, &state, &s, &t, 7)?;
    Ok(are_filled(found.pools(), &made) && found.tokens().len() == tokens)
}

// A, M and T are the tokens of the filled pools. B is listed and in none of them, Z is not listed.
#[test]
fn problems_of_a_ledger(rt: HostRuntime) -> Result<(), Fail> {
    let alloc = rt.alloc();
    let own = is_market(alloc, b"A".as_slice(), b"T".as_slice(), 3)?;
    let other = is_market(alloc, b"A".as_slice(), b"B".as_slice(), 4)?;
    let unlisted = is_market(alloc, b"Z".as_slice(), b"T".as_slice(), 4)?;
    assert!(&rt; own && other && unlisted);
    Ok(())
}

// Nothing to bring to T, over the same pools.
#[test]
fn problem_without_parts(rt: HostRuntime) -> Result<(), Fail> {
    let alloc = rt.alloc();
    let made = make_pools(alloc)?;
    let state = ledger_of(alloc, &made)?;
    let Some(t) = token(alloc, b"T".as_slice()) else {
        return Err("no token")?;
    };
    let found = open_problem(alloc, &state, &[], &t)?;
    assert!(&rt; are_filled(found.pools(), &made) && found.parts().is_empty());
    Ok(())
}
