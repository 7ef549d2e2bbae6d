//! The answer to the search for a cycle.
ghost use Rattle.std.specs.Prelude.{◌≡◌, ◌≤◌, ℕ, [], IfOk, IfSome, MatchOption};
ghost use Rattle.amm_model.specs.Cycles.{HasNoCycle, IsCycleAnswer, IsCycleValue};
ghost use Rattle.amm_cycle.specs.Chains.{IsStanding};

use crate::found::{Found, polished};
use crate::legs::legs_of;
use crate::walk::best_cycle;
use amm_bound::open_bound;
use amm_dual::open_search;
use amm_model::{Memory, OpenProblem, OpenQuote, Route};
use std::alloc::Global;

/// A quote of a cycle from the problem's target back to it: its route is the cycle, and what it
/// delivers the profit, which is at least that of every cycle on every power of two up to 2^51, and
/// at most its bound. None exactly where no cycle has a profit on any of these. The problem has no
/// parts.
pub fn cycle(alloc: Global, problem: OpenProblem) -> Result<Option<OpenQuote>, Memory>
    requires { problem.parts ≡ [] }
    ensures answer { IfOk result (λ found. MatchOption found (HasNoCycle problem) (λ quote. (quote.problem ≡ problem) × (¬ HasNoCycle problem) × IsCycleAnswer quote)) }
    ensures within { IfOk result (λ found. IfSome found (λ quote. quote.delivered ≤ quote.bound)) }
{
    let found = best_cycle(&problem);
    if found.profit == 0 {
        return Ok(None);
    }
    let best = polished(&problem, found);
    let quote = quoted(alloc, problem, &best)?;
    Ok(Some(quote))
}

// The quote of settled prices and of the best cycle.
fn quoted(alloc: Global, problem: OpenProblem, best: &Found) -> Result<OpenQuote, Memory>
    requires best { IsStanding problem.pools problem.t best.now }
    requires most { (value : ℕ) → IsCycleValue problem.pools problem.t value → value ≤ best.now.profit }
    ensures problem { IfOk result (λ quote. quote.problem ≡ problem) }
    ensures answer { IfOk result (λ quote. IsCycleAnswer quote) }
    ensures within { IfOk result (λ quote. quote.delivered ≤ quote.bound) }
{
    let _sound = problem.target();
    let legs = legs_of(alloc, &problem, &best.chain, best.x)?;
    let prices = open_search(alloc, &problem)?;
    let bound = open_bound(&problem, &prices);
    Ok(OpenQuote {
        problem,
        prices,
        route: Route { legs },
        delivered: best.profit,
        bound,
    })
}
