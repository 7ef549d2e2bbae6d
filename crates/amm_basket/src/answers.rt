//! The answer to a basket.
ghost use Rattle.std.specs.Prelude.{◌≡◌, IfOk, MatchOption};
ghost use Rattle.amm_model.specs.Baskets.{HasNoBasket, IsBasketAnswer};
ghost use Rattle.amm_basket.specs.Candidates.{AreCandidates};

use crate::candidates::{Candidates, candidates_of};
use amm_bound::open_bound;
use amm_dual::{planned, settle};
use amm_model::{Memory, OpenProblem, OpenQuote, Route};
use amm_split::best_of;
use std::alloc::Global;

/// A quote that answers the basket of the problem; None exactly where no part gives anything on one
/// path or on two, as where there is no part. A part without a way stays unsold.
pub fn basket(alloc: Global, problem: OpenProblem) -> Result<Option<OpenQuote>, Memory>
    ensures { IfOk result (λ found. MatchOption found (HasNoBasket problem) (λ quote. (quote.problem ≡ problem) × (¬ HasNoBasket problem) × IsBasketAnswer quote)) }
{
    let candidates = candidates_of(alloc, &problem)?;
    if candidates.alone.amount == 0 {
        return Ok(None);
    }
    let quote = quoted(alloc, problem, candidates)?;
    Ok(Some(quote))
}

// The quote of settled prices and of the best of all routes that are known.
fn quoted(alloc: Global, problem: OpenProblem, candidates: Candidates) -> Result<OpenQuote, Memory>
    requires { AreCandidates problem candidates }
    ensures problem { IfOk result (λ quote. quote.problem ≡ problem) }
    ensures answer { IfOk result (λ quote. IsBasketAnswer quote) }
{
    let _sound = problem.target();
    let plan = planned(alloc, &problem)?;
    let prices = settle(alloc, &problem, &plan)?;
    let first = best_of(&problem, candidates.alone, candidates.in_turn);
    let kept = best_of(&problem, first, candidates.in_eighths);
    let best = best_of(&problem, kept, plan.legs);
    let bound = open_bound(&problem, &prices);
    Ok(OpenQuote {
        problem,
        prices,
        route: Route { legs: best.legs },
        delivered: best.amount,
        bound,
    })
}
