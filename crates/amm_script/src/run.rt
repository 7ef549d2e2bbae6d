//! Running steps, with loans inside loans.
ghost use Rattle.std.specs.Prelude.{◌≡◌, OnOk};
ghost use Rattle.amm_model.specs.CommandView as view;
ghost use Rattle.amm_model.specs.CommandView.{move_of_step, moves_of_steps};
ghost use Rattle.amm_model.specs.Fits.{FitsMove, FitMoves};
ghost use Rattle.amm_model.specs.Later.{Later};
ghost use Rattle.amm_model.specs.Meaning.{meaning, meaning_of_all};
ghost use Rattle.amm_model.specs.Runs.{SettledBy};
ghost use Rattle.amm_model.specs.Sound.{IsSound};
ghost use Rattle.amm_state.specs.Tx.{Meets};
ghost use Rattle.amm_script.specs.Told.{OfToldAnswer};

use crate::asset::send;
use crate::settlement::settle_quote;
use amm_factory::create;
use amm_model::{Answer, Fault, Holder, PoolName, Step, UserName};
use amm_pair::{abandon_loan, burn, close_loan, mint, open_loan, skim, swap, sync};
use amm_path::{add, remove, swap_exact_in, swap_exact_out};
use amm_state::{Mark, Tx};
use std::alloc::Global;

/// Does one step of the actor, whose numbers, fees and lengths are within their limits. A
/// settlement that is due is not refused, and an accepted one pays its quote.
#[cycle(script)]
#[tactic(auto, unfolding(amm_model::specs::Meaning::meaning), using(crate::proofs::Steps::inner_fit, crate::proofs::Laws::transfer_later, crate::proofs::Laws::sync_later, crate::proofs::Laws::mint_later, crate::proofs::Laws::swap_later, crate::proofs::Laws::swap_in_later, crate::proofs::Laws::swap_out_later))]
pub fn run_step(alloc: Global, tx: &mut Tx, actor: &UserName, step: &Step) -> Result<Answer, Fault>
    requires clean { tx.old.mark ≡ Mark.Clean }
    requires sound { IsSound tx.old.present }
    requires fits { FitsMove (move_of_step step.now) }
    ensures meets { Meets tx.old tx.new result (meaning tx.old.present actor.now (move_of_step step.now)) }
    ensures sound { OnOk result (IsSound tx.new.present) }
    ensures later { OnOk result (Later tx.old.present tx.new.present) }
    ensures settled { OfToldAnswer result (λ answer. SettledBy (view.act actor.now (move_of_step step.now)) answer tx.old.present tx.new.present) }
{
    match step {
        Step::Transfer { asset, to, n } => send(alloc, tx, actor, asset, to, *n),
        Step::Create { a, b, fee } => Ok(Answer::Create {
            pool: create(alloc, tx, a, b, *fee)?,
        }),
        Step::Mint { pool, to } => Ok(Answer::Mint(mint(alloc, tx, pool, to)?)),
        Step::Burn { pool, to } => Ok(Answer::Burn(burn(alloc, tx, pool, to)?)),
        Step::Swap {
            pool,
            out0,
            out1,
            to,
        } => Ok(Answer::Swap(swap(alloc, tx, pool, *out0, *out1, to)?)),
        Step::Skim { pool, to } => Ok(Answer::Skim(skim(alloc, tx, pool, to)?)),
        Step::Sync { pool } => {
            let pair = sync(alloc, tx, pool)?;
            Ok(Answer::Sync {
                r0: pair.r0,
                r1: pair.r1,
            })
        }
        Step::Flash {
            pool,
            out0,
            out1,
            steps,
        } => flash(alloc, tx, actor, pool, *out0, *out1, steps),
        Step::Add { want, to, deadline } => {
            Ok(Answer::Add(add(alloc, tx, actor, want, to, *deadline)?))
        }
        Step::Remove { want, to, deadline } => {
            Ok(Answer::Remove(remove(alloc, tx, actor, want, to, *deadline)?))
        }
        Step::SwapIn {
            path,
            x,
            min,
            to,
            deadline,
        } => Ok(Answer::SwapIn {
            amounts: swap_exact_in(alloc, tx, actor, path, *x, *min, to, *deadline)?,
        }),
        Step::SwapOut {
            path,
            y,
            max,
            to,
            deadline,
        } => Ok(Answer::SwapOut {
            amounts: swap_exact_out(alloc, tx, actor, path, *y, *max, to, *deadline)?,
        }),
        Step::Settle { quote, deadline } => settle_quote(alloc, tx, actor, *quote, *deadline),
    }
}

// A loan to the actor, its steps, and its return. It is not `amm_flash::flash`: any borrower's deed
// is what that promises; here the steps are known and lent, and what they mean is promised itself.
// `flash_script` shows that a script as such a borrower does the same.
#[cycle(script)]
fn flash(
    alloc: Global,
    tx: &mut Tx,
    actor: &UserName,
    pool: &PoolName,
    out0: u64,
    out1: u64,
    steps: &[Step],
) -> Result<Answer, Fault>
    requires clean { tx.old.mark ≡ Mark.Clean }
    requires sound { IsSound tx.old.present }
    requires fits { FitMoves (moves_of_steps steps.now) }
    ensures meets { Meets tx.old tx.new result (meaning tx.old.present actor.now (view.flash pool.now out0 out1 (moves_of_steps steps.now))) }
    ensures sound { OnOk result (IsSound tx.new.present) }
    ensures later { OnOk result (Later tx.old.present tx.new.present) }
{
    let loan = open_loan(alloc, tx, pool, out0, out1, &Holder::User(*actor))?;
    match run_steps(alloc, tx, actor, steps) {
        Ok(()) => Ok(Answer::Flash(close_loan(alloc, tx, loan)?)),
        Err(fault) => {
            abandon_loan(tx, loan);
            Err(fault)
        }
    }
}

/// Does steps of the actor, one after another. The first fault ends them.
#[cycle(script)]
pub fn run_steps(alloc: Global, tx: &mut Tx, actor: &UserName, steps: &[Step]) -> Result<(), Fault>
    requires clean { tx.old.mark ≡ Mark.Clean }
    requires sound { IsSound tx.old.present }
    requires fits { FitMoves (moves_of_steps steps.now) }
    ensures meets { Meets tx.old tx.new result (meaning_of_all tx.old.present actor.now (moves_of_steps steps.now)) }
    ensures sound { OnOk result (IsSound tx.new.present) }
    ensures later { OnOk result (Later tx.old.present tx.new.present) }
{
    for step in steps {
        run_step(alloc, tx, actor, step)?;
    }
    Ok(())
}
