//! How long `search` and `split` take, and the bound that `search` ends with.
use crate::markets::{Graph, Kind, Shape, problem_of};
use amm_bound::bound;
use amm_dual::{planned, search};
use amm_legs::legs_delivered;
use amm_model::Problem;
use amm_split::split;
use std::io;
use std::time::Instant;

// Problems of each shape.
const SEEDS: u64 = 20;

// The greatest amount.
const MOST_AMOUNT: u64 = (1 << 52) - 1;

// Pairs, reserves and amounts of problems, with their names.
fn shapes() -> [(&'static str, Shape); 20] {
    let ordinary = Kind::Noisy(2);
    let arbitrage = Kind::Noisy(50);
    [
        ("ordinary 5/8", drawn(5, 8, ordinary)),
        ("ordinary 8/24", drawn(8, 24, ordinary)),
        ("ordinary 16/60", drawn(16, 60, ordinary)),
        ("ordinary 40/160", drawn(40, 160, ordinary)),
        ("ordinary 64/256", drawn(64, 256, ordinary)),
        ("hub 64/246", linked(64, Graph::Hub, ordinary)),
        ("full 13/234", linked(13, Graph::Full, ordinary)),
        ("arbitrage 16/60", drawn(16, 60, arbitrage)),
        ("arbitrage 64/256", drawn(64, 256, arbitrage)),
        ("arbitrage 13/234", linked(13, Graph::Full, arbitrage)),
        ("random 16/60", drawn(16, 60, Kind::Random)),
        ("random 64/256", drawn(64, 256, Kind::Random)),
        ("wide 64/256", drawn(64, 256, Kind::Wide)),
        ("wide 13/234", linked(13, Graph::Full, Kind::Wide)),
        ("one pair 2/3", linked(2, Graph::Full, ordinary)),
        ("chain 64/63", linked(64, Graph::Chain, ordinary)),
        (
            "equal 13/234",
            linked(13, Graph::Full, Kind::Equal(1 << 30)),
        ),
        ("reserves of 1", linked(13, Graph::Full, Kind::Equal(1))),
        ("amount of 1", with_amount(drawn(64, 256, ordinary), 1)),
        (
            "amount of 2^52-1",
            with_amount(drawn(64, 256, ordinary), MOST_AMOUNT),
        ),
    ]
}

// So many pools between pairs that are drawn.
fn drawn(tokens: usize, pools: usize, kind: Kind) -> Shape {
    Shape {
        tokens,
        pools,
        graph: Graph::Random,
        kind,
        amount: None,
    }
}

// All pools of a graph.
fn linked(tokens: usize, graph: Graph, kind: Kind) -> Shape {
    Shape {
        tokens,
        pools: 0,
        graph,
        kind,
        amount: None,
    }
}

fn with_amount(shape: Shape, amount: u64) -> Shape {
    Shape {
        tokens: shape.tokens,
        pools: shape.pools,
        graph: shape.graph,
        kind: shape.kind,
        amount: Some(amount),
    }
}

/// A line for each problem of the shapes whose name begins with the word: its shape, its seed,
/// microseconds of the search, the bound, what the plan's legs deliver, and microseconds of the
/// split.
pub fn measure(rt: &HostRuntime, word: &str) -> io::Result<()> {
    for (name, shape) in shapes() {
        if name.starts_with(word) {
            measure_shape(rt, name, shape)?;
        }
    }
    Ok(())
}

fn measure_shape(rt: &HostRuntime, name: &str, shape: Shape) -> io::Result<()> {
    for seed in 1..=SEEDS {
        let Some(problem) = problem_of(rt.alloc(), shape, seed) else {
            return println!(rt; "no problem");
        };
        one(rt, name, seed, &problem)?;
    }
    Ok(())
}

fn one(rt: &HostRuntime, name: &str, seed: u64, problem: &Problem) -> io::Result<()> {
    let start = Instant::now(rt)?;
    let found = search(rt.alloc(), problem);
    let searched = start.elapsed(rt)?.as_nanos() / 1000;
    let Ok(prices) = found else {
        return println!(rt; "no memory for prices");
    };
    let start = Instant::now(rt)?;
    let answer = split(rt.alloc(), problem);
    let took = start.elapsed(rt)?.as_nanos() / 1000;
    if answer.is_err() {
        return println!(rt; "no memory for a split");
    }
    let bound = bound(problem, &prices);
    let delivered = delivered(rt, problem).unwrap_or(0);
    println!(rt; "{name}; {seed}; {searched}; {bound}; {delivered}; {took}")
}

// What the plan's legs deliver, if they are a route.
fn delivered(rt: &HostRuntime, problem: &Problem) -> Option<u64> {
    let plan = planned(rt.alloc(), problem.as_open()).ok()?;
    legs_delivered(problem, plan.legs.as_slice())
}
