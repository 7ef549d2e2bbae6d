//! An amount spread over paths, share after share.
ghost use Rattle.std.specs.Prelude.{◌≡◌, ◌≤◌, ◌^◌, ◌<◌, ℕ, IfOk, map};
ghost use Rattle.amm_model.specs.Paths.{AreAllPaths};
ghost use Rattle.amm_model.specs.Spreads.{IsSpreadValue, Spread};
ghost use Rattle.amm_graph.specs.Hops.{hops_of};
ghost use Rattle.amm_split.specs.Shares.{AreRows, AreTerms, IsSpreadRoute, spread_on};

use crate::legs::{push_legs, push_places};
use crate::rows::Row;
use crate::shares::{Terms, best_share, sixteenths};
use amm_graph::Path;
use amm_model::{LegList, Memory, Problem};
use std::alloc::Global;

/// The legs of the shares that are taken one after the other.
pub fn spread(
    alloc: Global,
    problem: &Problem,
    paths: &[Path],
    rows: &[Row],
    terms: &Terms,
) -> Result<LegList, Memory>
    requires paths { AreAllPaths problem.now.pools problem.now.s problem.now.t (map hops_of paths.now) }
    requires rows { AreRows problem.now.pools paths.now problem.now.d rows.now }
    requires terms { AreTerms terms.now }
    requires amount { terms.now.d ≡ problem.now.d }
    ensures { IfOk result (λ legs. IsSpreadRoute problem.now (spread_on problem.now.pools problem.now.s problem.now.t terms.now) legs) }
{
    let _sound = problem.d();
    let mut legs = Vec::new(alloc);
    let mut used = Vec::new(alloc);
    let mut left = 16;
    loop {
        let best = best_share(terms, paths, rows, left, &used);
        if best.gain == 0 {
            return Ok(LegList::from_vec(legs));
        }
        let path = paths[best.path];
        push_legs(
            problem.as_open(),
            &path,
            sixteenths(terms.d, best.size),
            &mut legs,
        )?;
        push_places(&path, &mut used)?;
        left -= best.size;
    }
}

/// A spread has at most one value.
pub fn one_spread_value()
    ensures { (spread : Spread) (v w : ℕ) → IsSpreadValue spread v → IsSpreadValue spread w → v ≡ w }
{}
