//! Parts sold over pools that no part before took: whole, and in eighths.
ghost use Rattle.std.specs.Prelude.{Contains, IfOk, map};
ghost use Rattle.amm_model.specs.Paths.{AreAllPaths};
ghost use Rattle.amm_graph.specs.Hops.{hops_of};
ghost use Rattle.amm_split.specs.Shares.{AreRows};
ghost use Rattle.amm_basket.specs.Candidates.{GoesWhole};

use amm_graph::Path;
use amm_model::{Leg, Memory, OpenProblem, Part};
use amm_split::{
    Row, best_share, equal_terms, part_amount, push_legs, push_places, rows_of, sixteenths,
};
use std::alloc::Global;

/// What each path gives on each number of sixteenths of a part.
pub fn rows_of_part(
    alloc: Global,
    problem: &OpenProblem,
    part: &Part,
    paths: &[Path],
) -> Result<Vec<Row>, Memory>
    requires part { Contains problem.now.parts part.now }
    requires paths { AreAllPaths problem.now.pools part.now.token problem.now.t (map hops_of paths.now) }
    ensures { IfOk result (λ rows. AreRows problem.now.pools paths.now part.now.amount rows.items) }
{
    let rows = rows_of(alloc, problem, paths, part_amount(problem, part))?;
    Ok(rows)
}

/// Adds the legs of a part whole on the path that gives most of those over pools not used, and the
/// places of its pools. A part without such a path adds none. It is the share of an amount that
/// gains most, where all sixteenths are one share.
pub fn sell(
    problem: &OpenProblem,
    part: &Part,
    paths: &[Path],
    rows: &[Row],
    legs: &mut Vec<Leg>,
    used: &mut Vec<u32>,
) -> Result<(), Memory>
    requires part { Contains problem.now.parts part.now }
    requires paths { AreAllPaths problem.now.pools part.now.token problem.now.t (map hops_of paths.now) }
    requires rows { AreRows problem.now.pools paths.now part.now.amount rows.now }
    ensures { IfOk result (λ _. GoesWhole problem.now part.now used.old.items used.new.items legs.old.items legs.new.items) }
{
    let d = part_amount(problem, part);
    let best = best_share(&equal_terms(d, 16), paths, rows, 16, used);
    if best.gain == 0 {
        return Ok(());
    }
    let path = paths[best.path];
    push_legs(problem, &path, d, legs)?;
    push_places(&path, used)?;
    Ok(())
}

/// Adds the legs of a part in eighths, each on the path that then gives most over pools not used:
/// a candidate, which is judged by the evaluator of legs.
pub fn sell_in_eighths(
    problem: &OpenProblem,
    part: &Part,
    paths: &[Path],
    rows: &[Row],
    legs: &mut Vec<Leg>,
    used: &mut Vec<u32>,
) -> Result<(), Memory>
    requires part { Contains problem.now.parts part.now }
    requires paths { AreAllPaths problem.now.pools part.now.token problem.now.t (map hops_of paths.now) }
    requires rows { AreRows problem.now.pools paths.now part.now.amount rows.now }
{
    let d = part_amount(problem, part);
    let terms = equal_terms(d, 2);
    for sold in 0..8 {
        let best = best_share(&terms, paths, rows, 16 - 2 * sold, used);
        if best.gain == 0 {
            return Ok(());
        }
        let path = paths[best.path];
        push_legs(problem, &path, sixteenths(d, 2), legs)?;
        push_places(&path, used)?;
    }
    Ok(())
}
