//! The payment of a plan's input, and its swaps.
ghost use Rattle.std.specs.Prelude.{◌≡◌, OnOk};
ghost use Rattle.amm_path.specs.Plan.{amounts_of, receiver_of, swap_trades, pay_plan, trade_along};
ghost use Rattle.amm_model.specs.Sound.{IsSound};
ghost use Rattle.amm_state.specs.Tx.{Meets};

use crate::plan::Plan;
use amm_model::{AmountList, Asset, Fault, Holder, RoutePath, TokenName, Trade, UserName};
use amm_pair::{pay, swap};
use amm_state::{Mark, Tx};
use std::alloc::Global;

/// Pays the input of a plan to its first pool, swaps with each, and gives the amounts.
#[tactic(auto, unfolding(crate::specs::Plan::trade_along))]
pub(crate) fn trade_along(
    alloc: Global,
    tx: &mut Tx,
    actor: &UserName,
    path: &RoutePath,
    plan: &Plan,
    amounts: AmountList,
    to: &Holder,
) -> Result<AmountList, Fault>
    requires clean { tx.old.mark ≡ Mark.Clean }
    requires sound { IsSound tx.old.present }
    requires amounts { amounts ≡ amounts_of (record { input = plan.now.input; trades = plan.now.trades.items }) }
    ensures meets { Meets tx.old tx.new result (trade_along tx.old.present actor.now path.now (record { input = plan.now.input; trades = plan.now.trades.items }) to.now) }
    ensures sound { OnOk result (IsSound tx.new.present) }
{
    pay_first(
        alloc,
        tx,
        actor,
        path.tokens.as_slice(),
        plan.input,
        &plan.trades,
    )?;
    swap_along(alloc, tx, &plan.trades, to)?;
    Ok(amounts)
}

// Pays the input from the actor to the first pool.
#[tactic(auto, unfolding(crate::specs::Plan::pay_plan))]
fn pay_first(
    alloc: Global,
    tx: &mut Tx,
    actor: &UserName,
    tokens: &[TokenName],
    input: u64,
    trades: &[Trade],
) -> Result<(), Fault>
    requires clean { tx.old.mark ≡ Mark.Clean }
    requires sound { IsSound tx.old.present }
    ensures meets { Meets tx.old tx.new result (pay_plan tx.old.present actor.now tokens.now input trades.now) }
    ensures sound { OnOk result (IsSound tx.new.present) }
{
    let Some((from, _)) = tokens.split_first() else {
        return Ok(());
    };
    let Some((first, _)) = trades.split_first() else {
        return Ok(());
    };
    pay(alloc, tx, &Asset::Token(*from), actor, &first.pool, input)
}

// Swaps with each pool, which pays to the next one, and at the end to the receiver.
#[tactic(auto, unfolding(crate::specs::Plan::swap_trades))]
fn swap_along(alloc: Global, tx: &mut Tx, trades: &[Trade], to: &Holder) -> Result<(), Fault>
    requires clean { tx.old.mark ≡ Mark.Clean }
    requires sound { IsSound tx.old.present }
    ensures meets { Meets tx.old tx.new result (swap_trades tx.old.present trades.now to.now) }
    ensures sound { OnOk result (IsSound tx.new.present) }
{
    let Some((trade, later)) = trades.split_first() else {
        return Ok(());
    };
    let out0 = if trade.zero_in { 0 } else { trade.output };
    let out1 = if trade.zero_in { trade.output } else { 0 };
    swap(alloc, tx, &trade.pool, out0, out1, &receiver_of(later, to))?;
    swap_along(alloc, tx, later, to)
}

// Who gets what a pool pays: the pool of the next trade, and at the end the receiver.
fn receiver_of(later: &[Trade], to: &Holder) -> Holder
    ensures { result ≡ receiver_of later.now to.now }
{
    match later.split_first() {
        Some((next, _)) => Holder::Pool(next.pool),
        None => *to,
    }
}
