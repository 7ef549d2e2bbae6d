//! What each path gives on each number of sixteenths of an amount: worked out once, read often.
ghost use Rattle.std.specs.Prelude.{◌≡◌, ◌<◌, ◌≤◌, ◌^◌, All, IfOk, length};
ghost use Rattle.amm_model.specs.Paths.{IsHop};
ghost use Rattle.amm_graph.specs.Hops.{hops_of};
ghost use Rattle.amm_split.specs.Shares.{AreRows, IsRow};

use amm_graph::{Path, gives};
use amm_model::{Memory, OpenProblem};
use std::alloc::Global;

/// What a path gives on 0 to 16 sixteenths.
#[derive(Clone, Copy, Drop)]
pub struct Row {
    pub amounts: [u64; 17],
}

/// The rows of the paths, path by path.
pub fn rows_of(
    alloc: Global,
    problem: &OpenProblem,
    paths: &[Path],
    d: u64,
) -> Result<Vec<Row>, Memory>
    requires short { All (λ path. (1 ≤ length (hops_of path)) × (length (hops_of path) ≤ 3)) paths.now }
    requires over { All (λ path. All (IsHop problem.now.pools) (hops_of path)) paths.now }
    requires input { d < 2 ^ 52 }
    ensures { IfOk result (λ rows. AreRows problem.now.pools paths.now d rows.items) }
{
    let mut rows = Vec::new(alloc);
    for path in paths {
        rows.push(row_of(problem, path, d))?;
    }
    Ok(rows)
}

// What the path gives, size by size.
fn row_of(problem: &OpenProblem, path: &Path, d: u64) -> Row
    requires short { (1 ≤ length (hops_of path.now)) × (length (hops_of path.now) ≤ 3) }
    requires over { All (IsHop problem.now.pools) (hops_of path.now) }
    requires input { d < 2 ^ 52 }
    ensures { IsRow problem.now.pools (hops_of path.now) d result.amounts }
{
    let mut amounts = [0; 17];
    for k in 0..17 {
        amounts[k] = gives(problem, path, d * k as u64 / 16);
    }
    Row { amounts }
}
