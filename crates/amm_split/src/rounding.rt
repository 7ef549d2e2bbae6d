//! Routes that deliver at least each spread value.
ghost use Rattle.std.specs.Prelude.{◌≡◌, ◌≤◌, ◌<◌, ◌^◌, ℕ, IfOk, length, map};
ghost use Rattle.amm_model.specs.Routing.{open_view};
ghost use Rattle.amm_model.specs.Legs.{Delivers};
ghost use Rattle.amm_model.specs.Paths.{AreAllPaths};
ghost use Rattle.amm_model.specs.Spreads.{AtLeastSpread, AtLeastSpreads};
ghost use Rattle.amm_graph.specs.Hops.{hops_of};
ghost use Rattle.amm_split.specs.Shares.{AreRows, AreTerms, equal_terms as equal_terms_of, spread_on, terms_at as terms_at_of};

use crate::deliveries::{Delivery, best_of, no_legs};
use crate::rows::{Row, rows_of};
use crate::shares::Terms;
use crate::source::source_amount;
use crate::spreads::spread;
use amm_dual::planned;
use amm_graph::{Path, paths};
use amm_model::{Memory, Prices, Problem, Route};
use std::alloc::Global;

/// A route that delivers at least each spread value, that at these prices among them. There is one
/// price for each token of the problem.
pub fn round(alloc: Global, problem: &Problem, prices: &Prices) -> Result<Route, Memory>
    requires { length prices.now ≡ length problem.now.tokens }
    ensures { IfOk result (λ route. (amount : ℕ) × Delivers (open_view problem.now) route.legs amount × AtLeastSpreads problem.now prices.now amount) }
{
    let all = paths(alloc, problem)?;
    let plan = planned(alloc, problem.as_open())?;
    let kept = best_of(
        problem.as_open(),
        no_legs(alloc, problem.as_open()),
        plan.legs,
    );
    let best = rounded(alloc, problem, &all, prices, kept)?;
    Ok(Route { legs: best.legs })
}

/// The best of what is kept and of the four spreads.
pub fn rounded(
    alloc: Global,
    problem: &Problem,
    paths: &[Path],
    prices: &Prices,
    kept: Delivery,
) -> Result<Delivery, Memory>
    requires paths { AreAllPaths problem.now.pools problem.now.s problem.now.t (map hops_of paths.now) }
    requires prices { length prices.now ≡ length problem.now.tokens }
    requires kept { Delivers (open_view problem.now) kept.legs kept.amount }
    ensures delivers { IfOk result (λ best. Delivers (open_view problem.now) best.legs best.amount) }
    ensures more { IfOk result (λ best. kept.amount ≤ best.amount) }
    ensures spreads { IfOk result (λ best. AtLeastSpreads problem.now prices.now best.amount) }
{
    let d = source_amount(problem);
    let rows = rows_of(alloc, problem.as_open(), paths, d)?;
    let halves = with_spread(alloc, problem, paths, &rows, &equal_terms(d, 8), kept)?;
    let quarters = with_spread(alloc, problem, paths, &rows, &equal_terms(d, 4), halves)?;
    let eighths = with_spread(alloc, problem, paths, &rows, &equal_terms(d, 2), quarters)?;
    let terms = terms_at(problem, prices);
    let priced = with_spread(alloc, problem, paths, &rows, &terms, eighths)?;
    Ok(priced)
}

// The better of what is kept and of one spread.
fn with_spread(
    alloc: Global,
    problem: &Problem,
    paths: &[Path],
    rows: &[Row],
    terms: &Terms,
    kept: Delivery,
) -> Result<Delivery, Memory>
    requires paths { AreAllPaths problem.now.pools problem.now.s problem.now.t (map hops_of paths.now) }
    requires rows { AreRows problem.now.pools paths.now problem.now.d rows.now }
    requires terms { AreTerms terms.now }
    requires amount { terms.now.d ≡ problem.now.d }
    requires kept { Delivers (open_view problem.now) kept.legs kept.amount }
    ensures delivers { IfOk result (λ best. Delivers (open_view problem.now) best.legs best.amount) }
    ensures more { IfOk result (λ best. kept.amount ≤ best.amount) }
    ensures spread { IfOk result (λ best. AtLeastSpread (spread_on problem.now.pools problem.now.s problem.now.t terms.now) best.amount) }
{
    let legs = spread(alloc, problem, paths, rows, terms)?;
    Ok(best_of(problem.as_open(), kept, legs))
}

/// Shares of so many sixteenths, each where it gives most.
pub fn equal_terms(d: u64, size: usize) -> Terms
    requires amount { d < 2 ^ 52 }
    requires size { (1 ≤ size) × (size ≤ 16) }
    ensures value { result ≡ equal_terms_of d size }
    ensures ranges { AreTerms result }
{
    Terms {
        d,
        least: size,
        most: size,
        price_in: 0,
        price_out: 1,
    }
}

// Shares of any size, each where it gains most at the prices.
fn terms_at(problem: &Problem, prices: &Prices) -> Terms
    requires { length prices.now ≡ length problem.now.tokens }
    ensures value { result ≡ terms_at_of problem.now prices.now }
    ensures ranges { AreTerms result }
{
    let general = problem.as_open();
    let sources = general.part_places();
    let list = prices.as_slice();
    Terms {
        d: source_amount(problem),
        least: 1,
        most: 16,
        price_in: list[sources[0]],
        price_out: list[general.target()],
    }
}
