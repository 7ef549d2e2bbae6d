//! What holds of all certificates that a run prints, and of the lines that `work` writes. The
//! functions do nothing.
ghost use Rattle.std.specs.Prelude.{◌≡◌, ◌≤◌, ◌<◌, ℕ, List, Option, Some, length, Contains};
ghost use Rattle.amm_model.specs.declared.limits.TheConstants.{CHECK_LIMIT};
ghost use Rattle.amm_model.specs.declared.route.Quote as quotes;
ghost use Rattle.amm_model.specs.Certificate.{certificate_text};
ghost use Rattle.amm_model.specs.Ledger.{Ledger};
ghost use Rattle.amm_model.specs.Sound.{IsSound};
ghost use Rattle.exchange.specs.declared.finding.Finding.TheVariants.{Yes};
ghost use Rattle.exchange.specs.declared.words.Request.TheVariants.{Work};
ghost use Rattle.exchange.specs.Findings.{IsFindingOf};
ghost use Rattle.exchange.specs.Words.{TextsAsk};
ghost use Rattle.exchange.specs.Work.{CountsRun, TellsCounts};

use amm_work::lines_take_no_route;

/// The text of a quote that a sound ledger keeps, as it is at each line of a run, is found right:
/// what `check` has to say of a certificate that `run` prints is a yes with the quote's own two
/// numbers. It has fewer bytes than `check` takes, so it is read whole, also with a newline behind
/// it.
pub fn kept_quotes_are_found_right()
    ensures found { (ledger : Ledger) (quote : quotes.Quote) → IsSound ledger → Contains ledger.quotes quote →
        IsFindingOf (certificate_text quote) (Yes quote.delivered quote.bound) }
    ensures short { (ledger : Ledger) (quote : quotes.Quote) → IsSound ledger → Contains ledger.quotes quote →
        length (certificate_text quote) < CHECK_LIMIT }
{}

/// The two counts of `work` are a function of its words: two runs from the opening ledger over the
/// lines of a seed accept as many of them, and refuse as many, whatever routes their splits print.
/// So the same words have the same line written.
pub fn work_is_a_function_of_its_words()
    ensures counts { (seed count accepted refused taken declined : ℕ) → count ≤ 100000 →
        CountsRun seed count accepted refused → CountsRun seed count taken declined → (accepted ≡ taken) × (refused ≡ declined) }
    ensures line { (texts : List (List ℕ)) (seed count number size : ℕ) (before : List ℕ) (after other : Option (List ℕ)) →
        TextsAsk texts (Work seed count) → TextsAsk texts (Work number size) →
        TellsCounts seed count (Some before) after → TellsCounts number size (Some before) other → after ≡ other }
{
    lines_take_no_route();
}
