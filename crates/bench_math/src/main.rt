//! Nanoseconds of the formulas: roots, worths and bounds, over numbers that a fixed seed makes.
//! With the word `search`: microseconds of the search for prices and of whole splits, over problems
//! that seeds make; with a second word, of the shapes whose name begins with it.
//!
//! It measures only when it is given a word; with none it does nothing.
#![tactic(auto)]

mod markets;
mod search;

ghost use Rattle.std.specs.Prelude.{◌<◌, ◌≤◌, ◌^◌};

use amm_bound::{bound, worth};
use amm_model::{PoolName, Prices, Problem, ProblemPool, TokenName};
use amm_num::{root, root_by_bits};
use std::alloc::Global;
use std::time::Instant;
use std::{env, io};

const ROOTS: u32 = 1_000_000;

const BOUNDS: u32 = 2_000;

// The next number of a xorshift generator.
fn next(seed: u64) -> u64 {
    let a = seed ^ (seed << 13);
    let b = a ^ (a >> 7);
    b ^ (b << 17)
}

// The sum of a million roots of numbers of so many bits.
fn roots(is_plain: bool, bits: u32) -> u64
    requires { (1 ≤ bits) × (bits ≤ 128) }
{
    let mut seed: u64 = 88172645463325252;
    let mut sum: u64 = 0;
    for _ in 0..ROOTS {
        let high = next(seed);
        seed = next(high);
        let n = (((high as u128) << 64) | seed as u128) >> (128 - bits);
        let r = if is_plain { root_by_bits(n) } else { root(n) };
        sum = sum.wrapping_add(r);
    }
    sum
}

// A reserve, and a price, of a random number.
fn reserve(seed: u64) -> u64
    ensures { (1 ≤ result) × (result < 2 ^ 48) }
{
    seed % 0xffff_ffff_ffff + 1
}

fn price(seed: u64) -> u64
    ensures { (1 ≤ result) × (result < 2 ^ 40) }
{
    seed % 0xff_ffff_ffff + 1
}

// The sum of the low bits of a million worths.
fn worths() -> u64 {
    let mut seed: u64 = 88172645463325252;
    let mut sum: u64 = 0;
    for _ in 0..ROOTS {
        let a = next(seed);
        let b = next(a);
        let c = next(b);
        seed = next(c);
        let w = worth(3, reserve(a), reserve(b), price(c), price(seed));
        sum = sum.wrapping_add((w & 0xffff_ffff) as u64);
    }
    sum
}

// A token of one capital letter.
fn letter(alloc: Global, place: u8) -> Option<TokenName>
    requires { place < 26 }
{
    TokenName::read(alloc, &[b'A' + place]).ok()?
}

// A problem of 256 pools over 24 tokens.
fn crowded(alloc: Global) -> Option<Problem> {
    let mut pools = Vec::new(alloc);
    let mut seed: u64 = 88172645463325252;
    for i in 0..23u8 {
        for j in i + 1..24u8 {
            seed = next(seed);
            let r = reserve(seed);
            let name = PoolName::of(alloc, &letter(alloc, i)?, &letter(alloc, j)?, 3).ok()??;
            let pool = ProblemPool {
                name,
                r0: r,
                r1: r / 3 + 1,
                b0: r,
                b1: r,
            };
            if pools.len() < 256 {
                pools.push(pool).ok()?;
            }
        }
    }
    let s = letter(alloc, 0)?;
    let t = letter(alloc, 23)?;
    Problem::from_parts(alloc, s, t, 1_000_000, pools).ok()?
}

fn some_prices(alloc: Global, count: usize) -> Option<Prices> {
    let mut list = Vec::new(alloc);
    let mut seed: u64 = 88172645463325252;
    for _ in 0..count {
        seed = next(seed);
        list.push(price(seed)).ok()?;
    }
    Prices::from_parts(list)
}

// The sum of the low bits of two thousand bounds, if there was memory for the problem.
fn bounds(problem: &Problem, prices: &Prices) -> u64 {
    let mut sum: u64 = 0;
    if prices.as_slice().len() != problem.tokens().len() {
        return sum;
    }
    for _ in 0..BOUNDS {
        sum = sum.wrapping_add((bound(problem, prices) & 0xffff_ffff) as u64);
    }
    sum
}

fn measure_roots(rt: &HostRuntime, bits: u32) -> io::Result<()>
    requires { (1 ≤ bits) × (bits ≤ 128) }
{
    let start = Instant::now(rt)?;
    let sum = roots(false, bits);
    let fast = start.elapsed(rt)?.as_nanos() / ROOTS as u128;
    let start = Instant::now(rt)?;
    let plain_sum = roots(true, bits);
    let plain = start.elapsed(rt)?.as_nanos() / ROOTS as u128;
    let is_same = sum == plain_sum;
    println!(rt; "root, {bits} bits: {fast} ns; bit by bit: {plain} ns; same sums: {is_same}")
}

fn measure_bounds(rt: &HostRuntime) -> io::Result<()> {
    let Some(problem) = crowded(rt.alloc()) else {
        return println!(rt; "no memory for a problem");
    };
    let Some(prices) = some_prices(rt.alloc(), problem.tokens().len()) else {
        return println!(rt; "no memory for prices");
    };
    let start = Instant::now(rt)?;
    let sum = bounds(&problem, &prices);
    let each = start.elapsed(rt)?.as_nanos() / BOUNDS as u128;
    let pools = problem.pools().len();
    println!(rt; "bound over {pools} pools: {each} ns (sum {sum})")
}

fn measure_formulas(rt: &HostRuntime) -> io::Result<()> {
    measure_roots(rt, 40)?;
    measure_roots(rt, 96)?;
    measure_roots(rt, 126)?;
    let start = Instant::now(rt)?;
    let sum = worths();
    let each = start.elapsed(rt)?.as_nanos() / ROOTS as u128;
    println!(rt; "worth: {each} ns (sum {sum})")?;
    measure_bounds(rt)
}

fn main(rt: HostRuntime) -> io::Result<()> {
    let mut words = env::args(&rt)?;
    match words.nth(1) {
        None => Ok(()),
        Some(word) if word.as_str() == "search" => match words.next() {
            None => search::measure(&rt, ""),
            Some(shape) => search::measure(&rt, shape.as_str()),
        },
        Some(_) => measure_formulas(&rt),
    }
}
