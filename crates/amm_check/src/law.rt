//! What holds of all verdicts, whoever gave them.
ghost use Rattle.std.specs.Prelude.{◌≡◌, ◌≤◌, List, length};
ghost use Rattle.amm_model.specs.declared.route.Quote as quotes;
ghost use Rattle.amm_model.specs.Routing.{ArePrices, IsProblem, IsRoute, PoolTrade, delivered_by, open_view};
ghost use Rattle.amm_model.specs.SplitAnswers.{IsSplitAnswer};
ghost use Rattle.amm_check.specs.Verdicts.{IsVerdict};
ghost use Rattle.amm_check.specs.declared.verdict.Verdict as findings;
ghost use Rattle.amm_check.specs.declared.verdict.Verdict.TheVariants as verdicts;

/// A quote has one verdict.
pub fn quote_has_one_verdict()
    ensures { (quote : quotes.Quote) (v w : findings.Verdict) → IsVerdict quote v → IsVerdict quote w → v ≡ w }
{}

/// That of a quote that answers a split is Yes.
pub fn answer_has_a_yes()
    ensures { (quote : quotes.Quote) → IsSplitAnswer quote → IsVerdict quote verdicts.Yes }
{}

/// No route over the pools of a quote whose verdict is Yes delivers more than its bound.
pub fn yes_is_unbeaten()
    ensures { (quote : quotes.Quote) → IsProblem quote.problem → ArePrices quote.prices → length quote.prices ≡ length quote.problem.tokens →
        IsVerdict quote verdicts.Yes → (route : List PoolTrade) → IsRoute (open_view quote.problem) route → delivered_by (open_view quote.problem) route ≤ quote.bound }
{}
