//! What holds of all runs of the ledger, whoever made them. The function does nothing.
ghost use Rattle.std.specs.Prelude.{◌≡◌, ℕ, List};
ghost use Rattle.amm_model.specs.declared.line.Line.{Line};
ghost use Rattle.amm_model.specs.declared.reply.Reply.{Reply};
ghost use Rattle.amm_model.specs.Ledger.{Ledger};
ghost use Rattle.amm_model.specs.Runs.{Run};

/// Two runs over the same lines with the same replies leave the same ledger, so that what is
/// printed fixes all that is kept: also which quote a split has chosen.
pub fn replies_fix_the_ledger()
    ensures { (old : Ledger) (number : ℕ) (lines : List Line) (replies : List Reply) (new end : Ledger) →
        Run old number lines replies new → Run old number lines replies end → new ≡ end }
{}
