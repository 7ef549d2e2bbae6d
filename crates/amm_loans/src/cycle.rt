//! A cycle, run for a user.
ghost use Rattle.std.specs.Prelude.{◌≡◌, Err, OnOk};
ghost use Rattle.amm_model.specs.declared.fault.Fault.TheVariants.{Refused};
ghost use Rattle.amm_model.specs.declared.fault.Refusal.{Refusal as Code};
ghost use Rattle.amm_model.specs.CycleRuns.{IsCycleGain, RunsNested};
ghost use Rattle.amm_model.specs.Cycles.{IsCycleTrade};
ghost use Rattle.amm_model.specs.Later.{Later};
ghost use Rattle.amm_model.specs.Meaning.{meaning};
ghost use Rattle.amm_model.specs.Sound.{IsSound};
ghost use Rattle.amm_state.specs.Tx.{Meets};
ghost use Rattle.amm_loans.specs.Loans.{AreReady, run_loans};

use crate::step::as_step;
use amm_model::{Fault, OpenQuote, UserName};
use amm_script::run_step;
use amm_state::{Mark, Tx};
use std::alloc::Global;

/// Takes the cycle of a quote for a user, who may own nothing: its legs run as nested loans. The
/// cycle's pools are not locked, and as the quote's problem has them.
///
/// The user has exactly the profit more of the cycle's token, and of all else what he had. No code
/// ever comes: a call that fails wanted memory.
pub fn run_cycle(
    alloc: Global,
    tx: &mut Tx,
    actor: &UserName,
    quote: &OpenQuote,
) -> Result<(), Fault>
    requires clean { tx.old.mark ≡ Mark.Clean }
    requires sound { IsSound tx.old.present }
    requires cycle { IsCycleTrade quote.now.problem.pools quote.now.problem.t quote.now.route.legs quote.now.delivered }
    requires ready { AreReady tx.old.present quote.now.problem.pools quote.now.route.legs }
    ensures meets { Meets tx.old tx.new result (run_loans tx.old.present actor.now quote.now.problem.pools quote.now.route.legs) }
    ensures sound { OnOk result (IsSound tx.new.present) }
    ensures later { OnOk result (Later tx.old.present tx.new.present) }
    ensures runs { OnOk result (RunsNested meaning tx.old.present actor.now quote.now.problem.pools quote.now.route.legs tx.new.present) }
    ensures gains { OnOk result (IsCycleGain tx.old.present tx.new.present actor.now quote.now) }
    ensures no_code { (why : Code) → result ≡ Err (Refused why) → ⊥ }
{
    let pools = quote.problem.pools();
    let legs = quote.route.legs.as_slice();
    let step = match as_step(alloc, pools, legs) {
        Ok(step) => step,
        Err(_) => return Err(tx.lack()),
    };
    match run_step(alloc, tx, actor, &step) {
        Ok(_) => Ok(()),
        Err(fault) => Err(fault),
    }
}
