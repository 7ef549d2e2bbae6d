//! What two runs over the same lines have in common.
ghost use Rattle.std.specs.Prelude.{◌≡◌, ℕ, List};
ghost use Rattle.std.specs.List.{AllByRecursion};
ghost use Rattle.amm_model.specs.declared.line.Line as lines;
ghost use Rattle.amm_model.specs.declared.reply.Reply as replies;
ghost use Rattle.amm_model.specs.Ledger.{Ledger};
ghost use Rattle.amm_model.specs.Runs.{Run};
ghost use Rattle.amm_verdicts.specs.NoRoute.{LineTakesNoRoute};
ghost use Rattle.amm_verdicts.specs.Verdicts.{accepted_in, refused_in, verdicts_of};

/// A law, which does nothing when it is called: two runs over the same lines, none of which settles
/// a quote, sells a basket or takes a cycle, refuse the same lines by the same codes; so they
/// accept as many lines, and refuse as many.
pub fn verdicts_are_fixed()
    ensures verdicts { (old : Ledger) (number : ℕ) (all : List lines.Line) (told other : List replies.Reply) (new end : Ledger) →
        AllByRecursion LineTakesNoRoute all → Run old number all told new → Run old number all other end →
        verdicts_of told ≡ verdicts_of other }
    ensures counts { (told other : List replies.Reply) → verdicts_of told ≡ verdicts_of other →
        (accepted_in told ≡ accepted_in other) × (refused_in told ≡ refused_in other) }
{}
