//! What holds of the price oracle in every run.
ghost use Rattle.std.specs.Prelude.{ℕ, List};
ghost use Rattle.amm_model.specs.declared.line.Line as lines;
ghost use Rattle.amm_model.specs.declared.reply.Reply as replies;
ghost use Rattle.amm_model.specs.Ledger.{Ledger};
ghost use Rattle.amm_model.specs.Runs.{FairRun};
ghost use Rattle.amm_history.specs.History.{TellsAverages};

/// A law, which does nothing when it is called: in every run, accepted averages tell the
/// time-weighted averages of the prices, from the reserves alone.
pub fn averages_are_time_weighted()
    ensures { (old : Ledger) (number : ℕ) (all : List lines.Line) (told : List replies.Reply) (new : Ledger) →
        FairRun old number all told new → TellsAverages old number all told }
{}
