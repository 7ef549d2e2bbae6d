//! An exact output, swapped along a path.
ghost use Rattle.std.specs.Prelude.{◌≡◌, ◌≤◌, OnOk};
ghost use Rattle.amm_model.specs.Fits.{IsPath};
ghost use Rattle.amm_model.specs.declared.limits.TheConstants.{AMOUNT_LIMIT};
ghost use Rattle.amm_model.specs.Router.{exact_out};
ghost use Rattle.amm_path.specs.Plan.{exact_out_planned};
ghost use Rattle.amm_model.specs.Sound.{IsSound};
ghost use Rattle.amm_state.specs.Tx.{Meets};

use crate::plan::{amounts_of, in_along};
use crate::swaps::trade_along;
use amm_model::{AmountList, Fault, Holder, Refusal, RoutePath, UserName};
use amm_state::{Mark, Tx};
use std::alloc::Global;

/// Swaps an input of at most `max` along a path for an output of `y`, and gives the amounts.
/// `y` is at most 2^52-1.
///
/// Refused, in this order: EXPIRED; the refusals of `amounts_in`; EXCESSIVE_INPUT_AMOUNT; FUNDS;
/// those of the swap with each pool.
pub fn swap_exact_out(
    alloc: Global,
    tx: &mut Tx,
    actor: &UserName,
    path: &RoutePath,
    y: u64,
    max: u64,
    to: &Holder,
    deadline: u64,
) -> Result<AmountList, Fault>
    requires clean { tx.old.mark ≡ Mark.Clean }
    requires sound { IsSound tx.old.present }
    requires path { IsPath path.now }
    requires amount { y ≤ AMOUNT_LIMIT }
    ensures meets { Meets tx.old tx.new result (exact_out tx.old.present actor.now path.now y max to.now deadline) }
    ensures sound { OnOk result (IsSound tx.new.present) }
{
    swap_exact_out_planned(alloc, tx, actor, path, y, max, to, deadline)
}

// The same by a plan; apart so that the check sees the plan here alone.
#[tactic(auto, unfolding(crate::specs::Plan::exact_out_planned))]
fn swap_exact_out_planned(
    alloc: Global,
    tx: &mut Tx,
    actor: &UserName,
    path: &RoutePath,
    y: u64,
    max: u64,
    to: &Holder,
    deadline: u64,
) -> Result<AmountList, Fault>
    requires clean { tx.old.mark ≡ Mark.Clean }
    requires sound { IsSound tx.old.present }
    requires path { IsPath path.now }
    requires amount { y ≤ AMOUNT_LIMIT }
    ensures meets { Meets tx.old tx.new result (exact_out_planned tx.old.present actor.now path.now y max to.now deadline) }
    ensures sound { OnOk result (IsSound tx.new.present) }
{
    if deadline < tx.book().time() {
        return Err(tx.refuse(Refusal::Expired));
    }
    let plan = match in_along(alloc, tx.book(), path, y) {
        Ok(plan) => plan,
        Err(fault) => return Err(tx.fail(fault)),
    };
    if plan.input > max {
        return Err(tx.refuse(Refusal::ExcessiveInputAmount));
    }
    let amounts = match amounts_of(alloc, &plan) {
        Ok(amounts) => amounts,
        Err(_) => return Err(tx.lack()),
    };
    trade_along(alloc, tx, actor, path, &plan, amounts, to)
}
