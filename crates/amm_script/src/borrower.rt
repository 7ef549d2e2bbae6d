//! A script as a borrower.
ghost use Rattle.std.specs.Prelude.{◌≡◌, OnOk};
ghost use Rattle.amm_model.specs.CommandView as view;
ghost use Rattle.amm_model.specs.CommandView.{moves_of_steps};
ghost use Rattle.amm_model.specs.Fits.{FitMoves};
ghost use Rattle.amm_model.specs.Meaning.{meaning, meaning_of_all};
ghost use Rattle.amm_model.specs.Sound.{IsSound};
ghost use Rattle.amm_state.specs.Tx.{Meets};
ghost use Rattle.amm_flash.specs.End.{IsDone};
ghost use Rattle.amm_model.proofs.OneProof.{moves_prop};

use crate::run::run_steps;
use amm_flash::{Borrower, flash};
use amm_model::{Answer, Fault, PoolName, Step, UserName};
use amm_pair::Loan;
use amm_state::{Mark, Tx};
use std::alloc::Global;

/// A borrower that runs its steps for its actor, one after another.
#[derive(Drop)]
pub struct ScriptBorrower {
    pub actor: UserName,
    pub steps: Vec<Step>,
    pub ghost fits: { FitMoves (moves_of_steps steps.items) } by { moves_prop (moves_of_steps steps.items) },
}

impl Borrower for ScriptBorrower {
    ghost did = { λ script old left end. IsDone (meaning_of_all old script.actor (moves_of_steps script.steps.items)) left end };

    fn on_loan(&mut self, alloc: Global, tx: &mut Tx, _loan: &Loan) -> Result<(), Fault> {
        run_steps(alloc, tx, &self.actor, &self.steps)
    }
}

/// A flash swap for the script's actor. It does and answers what the flash step of the same pool,
/// outputs and steps does.
pub fn flash_script(
    alloc: Global,
    tx: &mut Tx,
    pool: &PoolName,
    out0: u64,
    out1: u64,
    script: &mut ScriptBorrower,
) -> Result<Answer, Fault>
    requires clean { tx.old.mark ≡ Mark.Clean }
    requires sound { IsSound tx.old.present }
    ensures meets { Meets tx.old tx.new result (meaning tx.old.present script.old.actor (view.flash pool.now out0 out1 (moves_of_steps script.old.steps.items))) }
    ensures sound { OnOk result (IsSound tx.new.present) }
{
    let actor = script.actor;
    let receipt = flash(alloc, tx, pool, out0, out1, &actor, script)?;
    Ok(Answer::Flash(receipt))
}
