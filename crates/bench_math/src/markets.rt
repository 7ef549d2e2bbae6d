//! Routing problems that a seed makes.
ghost use Rattle.std.specs.Prelude.{◌<◌, ◌≤◌, IsTrue};
ghost use Rattle.amm_names.specs.Pools.{is_fee};

use amm_model::{PoolName, Problem, ProblemPool, TokenName};
use std::alloc::Global;

// The most tokens of a problem here.
const MOST_TOKENS: usize = 64;

// Reserves are at most this.
const MOST_RESERVE: u64 = 0xffff_ffff_ffff;

/// How the reserves of a problem are drawn.
#[derive(Clone, Copy, Debug, PartialEq, Eq, Drop)]
pub enum Kind {
    /// Prices of the pools differ by so many thousandths from those of a whole market, whose pools
    /// are 2^20 to 2^36 units of value deep.
    Noisy(u64),
    /// Any number below 2^48 for each reserve.
    Random,
    /// Any number of binary digits up to 48 for each reserve.
    Wide,
    /// This number for each reserve.
    Equal(u64),
}

/// Which pairs of tokens have a pool.
#[derive(Clone, Copy, Debug, PartialEq, Eq, Drop)]
pub enum Graph {
    /// As many as there are to be, drawn alike.
    Random,
    /// Those of one of the first four tokens.
    Hub,
    /// Each token and the next.
    Chain,
    /// All, with a pool of each fee.
    Full,
}

/// How many tokens and pools, which pairs they join, how the reserves are drawn, and the amount of
/// the first token; None: 2^30 units of value.
#[derive(Clone, Copy, Drop)]
pub struct Shape {
    pub tokens: usize,
    pub pools: usize,
    pub graph: Graph,
    pub kind: Kind,
    pub amount: Option<u64>,
}

// The fees of the pools of a pair, in the order of their names.
fn fee_at(place: usize) -> u8
    ensures { IsTrue (is_fee result) }
{
    match place {
        0 => 3,
        1 => 1,
        _ => 10,
    }
}

/// The problem of a seed: pools between pairs of tokens that are drawn, from the first token to the
/// last.
pub fn problem_of(alloc: Global, shape: Shape, seed: u64) -> Option<Problem> {
    let mut draw = Draw::new(seed);
    let mut values = [1u64; MOST_TOKENS];
    for value in &mut values {
        *value = draw.below(1024) + 1;
    }
    let count = shape.tokens.clamp(2, MOST_TOKENS);
    let mut pairs = (count * (count - 1) / 2) as u64;
    let mut pools = Vec::new(alloc);
    for i in 0..count {
        for j in i + 1..count {
            let missing = shape.pools.saturating_sub(pools.len()) as u64;
            let drawn = draw.below(pairs.max(1)) < missing;
            for place in 0..3 {
                let fee = fee_at(place);
                if has_pool(shape.graph, i, j, fee, drawn) {
                    let reserves = reserves(&mut draw, shape.kind, values[i], values[j]);
                    pools.push(pool(alloc, i, j, fee, reserves)?).ok()?;
                }
            }
            pairs = pairs.saturating_sub(1);
        }
    }
    let usual = ((1 << 30) / values[0].max(1)).max(1);
    let d = shape.amount.unwrap_or(usual);
    Problem::from_parts(alloc, token(alloc, 0)?, token(alloc, count - 1)?, d, pools).ok()?
}

// Whether two tokens have a pool with the fee; `drawn`: their pair was drawn.
fn has_pool(graph: Graph, i: usize, j: usize, fee: u8, drawn: bool) -> bool {
    match graph {
        Graph::Random => fee == 3 && drawn,
        Graph::Hub => fee == 3 && i < 4,
        Graph::Chain => fee == 3 && j.saturating_sub(i) == 1,
        Graph::Full => true,
    }
}

// The reserves of a pool of two tokens of these values.
fn reserves(draw: &mut Draw, kind: Kind, value0: u64, value1: u64) -> (u64, u64) {
    let (r0, r1) = match kind {
        Kind::Noisy(most) => {
            let depth = (draw.below(1 << 20) + (1 << 20)) << draw.below(16);
            let noise = draw.below(most.saturating_mul(2).saturating_add(1));
            let weight = 1000u64.saturating_sub(most).saturating_add(noise);
            (
                depth / value0.max(1),
                (depth / value1.max(1)).saturating_mul(weight) / 1000,
            )
        }
        Kind::Random => (draw.next() >> 16, draw.next() >> 16),
        Kind::Wide => {
            let r0 = draw.next() >> (16 + draw.below(48));
            (r0, draw.next() >> (16 + draw.below(48)))
        }
        Kind::Equal(reserve) => (reserve, reserve),
    };
    (r0.clamp(1, MOST_RESERVE), r1.clamp(1, MOST_RESERVE))
}

fn pool(alloc: Global, i: usize, j: usize, fee: u8, reserves: (u64, u64)) -> Option<ProblemPool>
    requires { IsTrue (is_fee fee) }
{
    let name = PoolName::of(alloc, &token(alloc, i)?, &token(alloc, j)?, fee).ok()??;
    Some(ProblemPool {
        name,
        r0: reserves.0,
        r1: reserves.1,
        b0: reserves.0,
        b1: reserves.1,
    })
}

// A token of two capital letters, in the order of their places.
fn token(alloc: Global, place: usize) -> Option<TokenName> {
    let high = (place / 16 % 16) as u8;
    let low = (place % 16) as u8;
    TokenName::read(alloc, &[b'A' + high, b'A' + low]).ok()?
}

/// Draws numbers by a xorshift generator.
#[derive(Clone, Copy, Drop)]
pub struct Draw {
    seed: u64,
}

impl Draw {
    /// Seeds that follow one another draw different numbers.
    pub fn new(seed: u64) -> Draw {
        Draw {
            seed: seed.wrapping_mul(0x9e37_79b9_7f4a_7c15) | 1,
        }
    }

    /// The next number.
    pub fn next(&mut self) -> u64 {
        let a = self.seed ^ (self.seed << 13);
        let b = a ^ (a >> 7);
        self.seed = b ^ (b << 17);
        self.seed
    }

    /// A number below `n`.
    pub fn below(&mut self, n: u64) -> u64
        requires { 1 ≤ n }
        ensures { result < n }
    {
        self.next() % n
    }
}
