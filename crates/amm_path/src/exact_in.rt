//! An exact input, swapped along a path.
ghost use Rattle.std.specs.Prelude.{◌≡◌, ◌≤◌, OnOk};
ghost use Rattle.amm_model.specs.Fits.{IsPath};
ghost use Rattle.amm_model.specs.declared.limits.TheConstants.{AMOUNT_LIMIT};
ghost use Rattle.amm_model.specs.Router.{last_of, exact_in};
ghost use Rattle.amm_path.specs.Plan.{exact_in_planned};
ghost use Rattle.amm_model.specs.Sound.{IsSound};
ghost use Rattle.amm_state.specs.Tx.{Meets};

use crate::plan::{amounts_of, out_along};
use crate::swaps::trade_along;
use amm_model::{AmountList, Fault, Holder, Refusal, RoutePath, UserName};
use amm_state::{Mark, Tx};
use std::alloc::Global;

/// Swaps an input of `x` along a path for an output of at least `min`, and gives the amounts.
/// `x` is at most 2^52-1.
///
/// Refused, in this order: EXPIRED; the refusals of `amounts_out`; INSUFFICIENT_OUTPUT_AMOUNT;
/// FUNDS; those of the swap with each pool.
pub fn swap_exact_in(
    alloc: Global,
    tx: &mut Tx,
    actor: &UserName,
    path: &RoutePath,
    x: u64,
    min: u64,
    to: &Holder,
    deadline: u64,
) -> Result<AmountList, Fault>
    requires clean { tx.old.mark ≡ Mark.Clean }
    requires sound { IsSound tx.old.present }
    requires path { IsPath path.now }
    requires amount { x ≤ AMOUNT_LIMIT }
    ensures meets { Meets tx.old tx.new result (exact_in tx.old.present actor.now path.now x min to.now deadline) }
    ensures sound { OnOk result (IsSound tx.new.present) }
{
    swap_exact_in_planned(alloc, tx, actor, path, x, min, to, deadline)
}

// The same by a plan; apart so that the check sees the plan here alone.
#[tactic(auto, unfolding(crate::specs::Plan::exact_in_planned))]
fn swap_exact_in_planned(
    alloc: Global,
    tx: &mut Tx,
    actor: &UserName,
    path: &RoutePath,
    x: u64,
    min: u64,
    to: &Holder,
    deadline: u64,
) -> Result<AmountList, Fault>
    requires clean { tx.old.mark ≡ Mark.Clean }
    requires sound { IsSound tx.old.present }
    requires path { IsPath path.now }
    requires amount { x ≤ AMOUNT_LIMIT }
    ensures meets { Meets tx.old tx.new result (exact_in_planned tx.old.present actor.now path.now x min to.now deadline) }
    ensures sound { OnOk result (IsSound tx.new.present) }
{
    if deadline < tx.book().time() {
        return Err(tx.refuse(Refusal::Expired));
    }
    let plan = match out_along(alloc, tx.book(), path, x) {
        Ok(plan) => plan,
        Err(fault) => return Err(tx.fail(fault)),
    };
    let amounts = match amounts_of(alloc, &plan) {
        Ok(amounts) => amounts,
        Err(_) => return Err(tx.lack()),
    };
    if last_of(&amounts) < min {
        return Err(tx.refuse(Refusal::InsufficientOutputAmount));
    }
    trade_along(alloc, tx, actor, path, &plan, amounts, to)
}

// The last of the amounts, 0 where there is none.
fn last_of(amounts: &AmountList) -> u64
    ensures { result ≡ last_of amounts.now }
{
    amounts.as_slice().last().copied().unwrap_or(0)
}
