//! Pools of a million of each of two tokens, at a fee of 3 thousandths, and problems over them.
use amm_model::{OpenProblem, Part, PoolName, Problem, ProblemPool, TokenName};
use std::alloc::Global;

pub fn token(alloc: Global, text: &[u8]) -> Option<TokenName> {
    TokenName::read(alloc, text).ok()?
}

pub fn million(alloc: Global, token0: &TokenName, token1: &TokenName) -> Option<ProblemPool> {
    let name = PoolName::of(alloc, token0, token1, 3).ok()??;
    let r = 1_000_000;
    Some(ProblemPool {
        name,
        r0: r,
        r1: r,
        b0: r,
        b1: r,
    })
}

/// 100000 of A to T over one pool.
pub fn one_pool(alloc: Global) -> Option<Problem> {
    let a = token(alloc, b"A")?;
    let t = token(alloc, b"T")?;
    let mut pools = Vec::new(alloc);
    pools.push(million(alloc, &a, &t)?).ok()?;
    Problem::from_parts(alloc, a, t, 100000, pools).ok()?
}

/// 100000 of A to T over A/M, A/T and M/T.
pub fn triangle(alloc: Global) -> Option<Problem> {
    let a = token(alloc, b"A")?;
    let m = token(alloc, b"M")?;
    let t = token(alloc, b"T")?;
    let mut pools = Vec::new(alloc);
    pools.push(million(alloc, &a, &m)?).ok()?;
    pools.push(million(alloc, &a, &t)?).ok()?;
    pools.push(million(alloc, &m, &t)?).ok()?;
    Problem::from_parts(alloc, a, t, 100000, pools).ok()?
}

/// 100000 of A and 100000 of B to T, each over a pool of its own.
pub fn two_parts(alloc: Global) -> Option<OpenProblem> {
    let a = token(alloc, b"A")?;
    let b = token(alloc, b"B")?;
    let t = token(alloc, b"T")?;
    let mut pools = Vec::new(alloc);
    pools.push(million(alloc, &a, &t)?).ok()?;
    pools.push(million(alloc, &b, &t)?).ok()?;
    let mut parts = Vec::new(alloc);
    let amount = 100000;
    parts.push(Part { token: a, amount }).ok()?;
    parts.push(Part { token: b, amount }).ok()?;
    OpenProblem::from_parts(alloc, parts, t, pools).ok()?
}
