//! What is found of a quote, and how.
ghost use Rattle.std.specs.Prelude.{◌≡◌, ◌≤◌, List, length};
ghost use Rattle.amm_model.specs.Routing.{IsRoute, PoolTrade, delivered_by, open_view};
ghost use Rattle.amm_check.specs.Verdicts.{IsVerdict};
ghost use Rattle.amm_check.specs.declared.verdict.Verdict.TheVariants as verdicts;

use amm_bound::bound;
use amm_legs::legs_delivered;
use amm_model::Quote;

/// What a check finds: that all is right, or the first thing that is not.
#[derive(Clone, Copy, Debug, PartialEq, Eq)]
pub enum Verdict {
    /// The route is one and delivers what it says, and the bound is that of the prices.
    Yes,
    /// The route is no leg-by-leg route of the problem.
    BadRoute,
    /// The route delivers another amount.
    BadDelivered,
    /// The bound is not that of the prices.
    BadBound,
}

/// Checks a quote with a price for each token of its problem. The route is judged first, then the
/// delivered amount, then the bound. It takes no memory.
pub fn check(quote: &Quote) -> Verdict
    requires { length quote.now.prices ≡ length quote.now.problem.tokens }
    ensures verdict { IsVerdict quote.now result }
    ensures beats { result ≡ verdicts.Yes → (route : List PoolTrade) → IsRoute (open_view quote.now.problem) route → delivered_by (open_view quote.now.problem) route ≤ quote.now.bound }
{
    match legs_delivered(&quote.problem, quote.route.legs.as_slice()) {
        None => Verdict::BadRoute,
        Some(amount) => {
            if amount != quote.delivered {
                Verdict::BadDelivered
            } else if bound(&quote.problem, &quote.prices) != quote.bound {
                Verdict::BadBound
            } else {
                Verdict::Yes
            }
        }
    }
}
