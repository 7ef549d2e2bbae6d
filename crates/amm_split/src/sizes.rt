//! The greatest one-way or two-way value: over all sixteen sizes, from tables of what each path
//! gives.
ghost use Rattle.std.specs.Prelude.{◌≡◌, ◌⊎◌, ◌<◌, ◌≤◌, ◌^◌, ℕ, All, IfOk, length};
ghost use Rattle.amm_model.specs.Paths.{IsHop};
ghost use Rattle.amm_graph.specs.Hops.{hops_of};
ghost use Rattle.amm_split.specs.Sizes.{IsOne, IsWayOf, OnesBelow, SizeBelow, SizesBelow};

use crate::pairs::{Pick, best_pair, gives_at};
use amm_graph::Path;
use amm_model::{Memory, OpenProblem};
use std::alloc::Global;

/// An amount, the sixteenths of the first path, and the one or two paths that give it. No amount:
/// no path.
#[derive(Clone, Copy, Drop)]
pub struct BestWay {
    pub amount: u64,
    pub k: u32,
    pub first: usize,
    pub second: Option<usize>,
}

/// The greatest amount that one path gives on some sixteenths of `d`, or two without a common pool
/// on some sixteenths and the rest; nothing where none gives anything.
pub fn best_way(
    alloc: Global,
    problem: &OpenProblem,
    paths: &[Path],
    d: u64,
) -> Result<BestWay, Memory>
    requires short { All (λ path. (1 ≤ length (hops_of path)) × (length (hops_of path) ≤ 3)) paths.now }
    requires over { All (λ path. All (IsHop problem.now.pools) (hops_of path)) paths.now }
    requires input { d < 2 ^ 52 }
    ensures value { IfOk result (λ best. (best.amount ≡ 0) ⊎ IsWayOf problem.now.pools paths.now d best) }
    ensures best { IfOk result (λ best. SizesBelow problem.now.pools paths.now d best.amount 17) }
{
    let mut best = BestWay {
        amount: 0,
        k: 0,
        first: 0,
        second: None,
    };
    for k in 1..17 {
        best = best_at(alloc, problem, paths, d, k, best)?;
    }
    Ok(best)
}

// The best of what is kept and of the ways of one size.
fn best_at(
    alloc: Global,
    problem: &OpenProblem,
    paths: &[Path],
    d: u64,
    k: u32,
    kept: BestWay,
) -> Result<BestWay, Memory>
    requires short { All (λ path. (1 ≤ length (hops_of path)) × (length (hops_of path) ≤ 3)) paths.now }
    requires over { All (λ path. All (IsHop problem.now.pools) (hops_of path)) paths.now }
    requires input { d < 2 ^ 52 }
    requires size { (1 ≤ k) × (k ≤ 16) }
    ensures more { IfOk result (λ best. kept.amount ≤ best.amount) }
    ensures value { IfOk result (λ best. (best ≡ kept) ⊎ IsWayOf problem.now.pools paths.now d best) }
    ensures best { IfOk result (λ best. SizeBelow problem.now.pools paths.now d best.amount k) }
{
    let x = d * k as u64 / 16;
    let firsts = gives_at(alloc, problem, paths, x)?;
    let single = best_one(&firsts, k, kept);
    if k == 16 {
        return Ok(single);
    }
    let seconds = gives_at(alloc, problem, paths, d - x)?;
    let pair = best_pair(
        paths,
        &firsts,
        &seconds,
        Pick {
            amount: single.amount,
            first: 0,
            second: 0,
        },
    );
    if pair.amount == single.amount {
        return Ok(single);
    }
    Ok(BestWay {
        amount: pair.amount,
        k,
        first: pair.first,
        second: Some(pair.second),
    })
}

// The best of what is kept and of the amounts of single paths.
fn best_one(amounts: &[u64], k: u32, kept: BestWay) -> BestWay
    ensures more { kept.amount ≤ result.amount }
    ensures value { (result ≡ kept) ⊎ IsOne amounts.now k result }
    ensures best { OnesBelow amounts.now result.amount (length amounts.now) }
{
    let mut best = kept;
    for i in 0..amounts.len() {
        if amounts[i] > best.amount {
            best = BestWay {
                amount: amounts[i],
                k,
                first: i,
                second: None,
            };
        }
    }
    best
}
