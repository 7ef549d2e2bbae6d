//! The best two paths without a common pool, from tables of what each path gives.
ghost use Rattle.std.specs.Prelude.{◌≡◌, ◌≢◌, ◌↔◌, ◌⊎◌, ◌+◌, ◌<◌, ◌≤◌, ◌^◌, ℕ, All, IfOk, IsTrue, length, map, slice_index, slice_index_or};
ghost use Rattle.amm_model.specs.Paths.{AreApart, IsHop, gives as gives_of, hop_places};
ghost use Rattle.amm_graph.specs.Hops.{hops_of};
ghost use Rattle.amm_split.specs.Pairs.{AreApartAt, IsPair, PairsBelow, PartnersBelow, no_path};

use amm_graph::{Path, gives};
use amm_model::{Memory, OpenProblem};
use std::alloc::Global;

/// An amount that two paths give, and which.
#[derive(Clone, Copy, Drop)]
pub struct Pick {
    pub amount: u64,
    pub first: usize,
    pub second: usize,
}

/// What each path gives on an amount; 0 where it gives nothing.
pub fn gives_at(
    alloc: Global,
    problem: &OpenProblem,
    paths: &[Path],
    x: u64,
) -> Result<Vec<u64>, Memory>
    requires short { All (λ path. (1 ≤ length (hops_of path)) × (length (hops_of path) ≤ 3)) paths.now }
    requires over { All (λ path. All (IsHop problem.now.pools) (hops_of path)) paths.now }
    requires input { x < 2 ^ 52 }
    ensures gives { IfOk result (λ table. table.items ≡ map (λ path. gives_of problem.now.pools (hops_of path) x) paths.now) }
    ensures below { IfOk result (λ table. All (λ (amount : ℕ). amount < 2 ^ 48) table.items) }
{
    let mut table = Vec::new(alloc);
    for path in paths {
        table.push(gives(problem, path, x))?;
    }
    Ok(table)
}

/// The best pair of paths without a common pool, where it gives more than what is kept: the first
/// gives its amount of the one table, the second of the other.
pub fn best_pair(paths: &[Path], firsts: &[u64], seconds: &[u64], kept: Pick) -> Pick
    requires firsts { length firsts.now ≡ length paths.now }
    requires seconds { length seconds.now ≡ length paths.now }
    requires below { All (λ (amount : ℕ). amount < 2 ^ 48) firsts.now × All (λ (amount : ℕ). amount < 2 ^ 48) seconds.now }
    ensures more { kept.amount ≤ result.amount }
    ensures pair { (result ≡ kept) ⊎ IsPair paths.now firsts.now seconds.now result }
    ensures best { PairsBelow paths.now firsts.now seconds.now result.amount (length paths.now) }
{
    let most = greatest(seconds);
    let mut best = kept;
    for i in 0..paths.len() {
        best = best_with(paths, firsts, seconds, most, i, best);
    }
    best
}

// The best of the kept pair and those of this first path. Where no partner can be enough, none is
// tried.
fn best_with(
    paths: &[Path],
    firsts: &[u64],
    seconds: &[u64],
    most: u64,
    i: usize,
    kept: Pick,
) -> Pick
    requires within { i < length paths.now }
    requires firsts { length firsts.now ≡ length paths.now }
    requires seconds { length seconds.now ≡ length paths.now }
    requires below { All (λ (amount : ℕ). amount < 2 ^ 48) firsts.now × All (λ (amount : ℕ). amount < 2 ^ 48) seconds.now }
    requires most { (most < 2 ^ 48) × All (λ (amount : ℕ). amount ≤ most) seconds.now }
    ensures more { kept.amount ≤ result.amount }
    ensures pair { (result ≡ kept) ⊎ IsPair paths.now firsts.now seconds.now result }
    ensures best { PartnersBelow paths.now firsts.now seconds.now result.amount i (length paths.now) }
{
    if firsts[i] == 0 || firsts[i] + most <= kept.amount {
        return kept;
    }
    let mut best = kept;
    for j in 0..paths.len() {
        best = better(paths, firsts, seconds, i, j, best);
    }
    best
}

// The better of the kept pair and this one.
fn better(paths: &[Path], firsts: &[u64], seconds: &[u64], i: usize, j: usize, kept: Pick) -> Pick
    requires first { i < length paths.now }
    requires second { j < length paths.now }
    requires firsts { length firsts.now ≡ length paths.now }
    requires seconds { length seconds.now ≡ length paths.now }
    requires below { All (λ (amount : ℕ). amount < 2 ^ 48) firsts.now × All (λ (amount : ℕ). amount < 2 ^ 48) seconds.now }
    requires positive { 1 ≤ slice_index firsts.now i }
    ensures more { kept.amount ≤ result.amount }
    ensures pair { (result ≡ kept) ⊎ IsPair paths.now firsts.now seconds.now result }
    ensures best { AreApartAt paths.now i j → 1 ≤ slice_index seconds.now j → slice_index firsts.now i + slice_index seconds.now j ≤ result.amount }
{
    let amount = firsts[i] + seconds[j];
    if amount <= kept.amount {
        return kept;
    }
    if seconds[j] == 0 {
        return kept;
    }
    if !are_apart(&paths[i], &paths[j]) {
        return kept;
    }
    Pick {
        amount,
        first: i,
        second: j,
    }
}

// The greatest of the amounts, 0 where there is none.
fn greatest(amounts: &[u64]) -> u64
    requires { All (λ (amount : ℕ). amount < 2 ^ 48) amounts.now }
    ensures most { All (λ (amount : ℕ). amount ≤ result) amounts.now }
    ensures below { result < 2 ^ 48 }
{
    let mut most = 0;
    for amount in amounts {
        most = most.max(*amount);
    }
    most
}

// Whether the paths have no pool in common.
fn are_apart(a: &Path, b: &Path) -> bool
    ensures { IsTrue result ↔ AreApart (hop_places (hops_of a.now)) (hop_places (hops_of b.now)) }
{
    if !is_off_from(a.count, 0, b, a.hop0.pool) {
        return false;
    }
    if !is_off_from(a.count, 1, b, a.hop1.pool) {
        return false;
    }
    is_off_from(a.count, 2, b, a.hop2.pool)
}

// Whether the path does not go over the pool, which counts from a number on.
fn is_off_from(count: u8, least: u8, path: &Path, place: u32) -> bool
    ensures { IsTrue result ↔ (least < count → All (λ (q : ℕ). place ≢ q) (hop_places (hops_of path.now))) }
{
    if count <= least {
        return true;
    }
    is_off(path, place)
}

// Whether the path does not go over the pool.
fn is_off(path: &Path, place: u32) -> bool
    ensures { IsTrue result ↔ All (λ (q : ℕ). place ≢ q) (hop_places (hops_of path.now)) }
{
    if !differs_from(path.count, 0, path.hop0.pool, place) {
        return false;
    }
    if !differs_from(path.count, 1, path.hop1.pool, place) {
        return false;
    }
    differs_from(path.count, 2, path.hop2.pool, place)
}

// Whether two places differ, which counts from a number on.
fn differs_from(count: u8, least: u8, pool: u32, place: u32) -> bool
    ensures { IsTrue result ↔ (least < count → place ≢ pool) }
{
    if count <= least {
        return true;
    }
    pool != place
}
