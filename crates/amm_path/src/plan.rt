//! The trades along a path: what an input leads to, and what an output asks for.
ghost use Rattle.std.specs.Prelude.{◌≡◌, ◌≤◌, IfOk, reverse, []};
ghost use Rattle.std.specs.List.{All, AllByRecursion};
ghost use Rattle.amm_model.specs.Swap.{IsFee};
ghost use Rattle.amm_model.specs.Outcome.{Gives};
ghost use Rattle.amm_model.specs.Fits.{IsPath};
ghost use Rattle.amm_model.specs.declared.limits.TheConstants.{AMOUNT_LIMIT, RESERVE_LIMIT};
ghost use Rattle.amm_path.specs.Plan.{trade_out, trades_out, trade_in, plan_in, out_from_first, out_along, in_from_first, in_along, amounts_of};
ghost use Rattle.amm_model.specs.Sound.{IsSound};

use crate::sides::side_of;
use amm_model::limits::AMOUNT_LIMIT;
use amm_model::{AmountList, Fault, Memory, Refusal, RoutePath, TokenName, Trade};
use amm_pool::{amount_in, amount_out};
use amm_state::Book;
use std::alloc::Global;

/// What goes into the first pool of a path, and the trades that follow from it, in order.
#[derive(Drop)]
pub(crate) struct Plan {
    pub(crate) input: u64,
    pub(crate) trades: Vec<Trade>,
}

/// The plan that an input of `x` leads to.
#[tactic(auto, unfolding(crate::specs::Plan::out_along))]
pub(crate) fn out_along(alloc: Global, book: &Book, path: &RoutePath, x: u64) -> Result<Plan, Fault>
    requires sound { IsSound book.now.ledger }
    requires path { IsPath path.now }
    requires input { x ≤ AMOUNT_LIMIT }
    ensures { Gives (λ plan. record { input = plan.input; trades = plan.trades.items }) result (out_along book.now.ledger path.now x) }
{
    let mut trades = out_from_first(alloc, book, path.tokens.as_slice(), path.fees.as_slice(), x)?;
    trades.reverse();
    Ok(Plan { input: x, trades })
}

fn out_from_first(
    alloc: Global,
    book: &Book,
    tokens: &[TokenName],
    fees: &[u8],
    x: u64,
) -> Result<Vec<Trade>, Fault>
    requires sound { IsSound book.now.ledger }
    requires fees { All IsFee fees.now }
    requires input { x ≤ AMOUNT_LIMIT }
    ensures { Gives (λ trades. reverse trades.items) result (out_from_first book.now.ledger tokens.now fees.now x) }
{
    match tokens.split_first() {
        Some((from, tokens)) => trades_out(alloc, book, from, tokens, fees, x),
        None => Ok(Vec::new(alloc)),
    }
}

/// The plan that an output of `y` asks for. AMOUNT_LIMIT where its input is above 2^52-1.
#[tactic(auto, unfolding(crate::specs::Plan::in_along))]
pub(crate) fn in_along(alloc: Global, book: &Book, path: &RoutePath, y: u64) -> Result<Plan, Fault>
    requires sound { IsSound book.now.ledger }
    requires path { IsPath path.now }
    ensures gives { Gives (λ plan. record { input = plan.input; trades = plan.trades.items }) result (in_along book.now.ledger path.now y) }
{
    let asked = in_from_first(alloc, book, path.tokens.as_slice(), path.fees.as_slice(), y)?;
    if asked.input > AMOUNT_LIMIT as u128 {
        return Err(Fault::Refused(Refusal::AmountLimit));
    }
    let mut trades = asked.last_first;
    trades.reverse();
    Ok(Plan {
        input: asked.input as u64,
        trades,
    })
}

fn in_from_first(
    alloc: Global,
    book: &Book,
    tokens: &[TokenName],
    fees: &[u8],
    y: u64,
) -> Result<Asked, Fault>
    requires sound { IsSound book.now.ledger }
    requires fees { All IsFee fees.now }
    ensures { Gives (λ asked. record { input = asked.input; trades = reverse asked.last_first.items }) result (in_from_first book.now.ledger tokens.now fees.now y) }
{
    match tokens.split_first() {
        Some((from, tokens)) => asked_in(alloc, book, from, tokens, fees, y),
        None => Ok(asks_itself(alloc, y)),
    }
}

/// The first amount of a plan, and what each pool pays.
pub(crate) fn amounts_of(alloc: Global, plan: &Plan) -> Result<AmountList, Memory>
    ensures { IfOk result (λ amounts. amounts ≡ amounts_of (record { input = plan.now.input; trades = plan.now.trades.items })) }
{
    let mut amounts = Vec::with_capacity(alloc, plan.trades.len() + 1)?;
    amounts.push(plan.input)?;
    for trade in &plan.trades {
        amounts.push(trade.output)?;
    }
    Ok(AmountList::from_vec(amounts))
}

// The trade that an input makes with the pool of two tokens.
#[tactic(auto, unfolding(crate::specs::Plan::trade_out, amm_model::specs::Router::output_for))]
fn trade_out(
    alloc: Global,
    book: &Book,
    from: &TokenName,
    to: &TokenName,
    fee: u8,
    x: u64,
) -> Result<Trade, Fault>
    requires sound { IsSound book.now.ledger }
    requires fee { IsFee fee }
    requires input { x ≤ AMOUNT_LIMIT }
    ensures gives { Gives (λ trade. trade) result (trade_out book.now.ledger from.now to.now fee x) }
    ensures small { IfOk result (λ trade. trade.output ≤ RESERVE_LIMIT) }
{
    let side = side_of(alloc, book, from, to, fee)?;
    if x == 0 {
        return Err(Fault::Refused(Refusal::InsufficientInputAmount));
    }
    if side.rin == 0 || side.rout == 0 {
        return Err(Fault::Refused(Refusal::InsufficientLiquidity));
    }
    Ok(Trade {
        pool: side.pool,
        zero_in: side.zero_in,
        output: amount_out(fee, x, side.rin, side.rout),
    })
}

// The trades that an input leads to, the last one first.
#[tactic(auto, unfolding(crate::specs::Plan::trades_out))]
fn trades_out(
    alloc: Global,
    book: &Book,
    from: &TokenName,
    tokens: &[TokenName],
    fees: &[u8],
    x: u64,
) -> Result<Vec<Trade>, Fault>
    requires sound { IsSound book.now.ledger }
    requires fees { AllByRecursion IsFee fees.now }
    requires input { x ≤ AMOUNT_LIMIT }
    ensures { Gives (λ trades. reverse trades.items) result (trades_out book.now.ledger from.now tokens.now fees.now x) }
{
    let Some((to, tokens)) = tokens.split_first() else {
        return Ok(Vec::new(alloc));
    };
    let Some((fee, fees)) = fees.split_first() else {
        return Ok(Vec::new(alloc));
    };
    let trade = trade_out(alloc, book, from, to, *fee, x)?;
    let mut trades = trades_out(alloc, book, to, tokens, fees, trade.output)?;
    trades.push(trade)?;
    Ok(trades)
}

// What an output asks for, and the trades, the last one first.
#[derive(Drop)]
struct Asked {
    input: u128,
    last_first: Vec<Trade>,
}

// What the pool of two tokens asks for an output, and the trade.
#[tactic(auto, unfolding(crate::specs::Plan::trade_in, amm_model::specs::Router::input_for))]
fn trade_in(
    alloc: Global,
    book: &Book,
    from: &TokenName,
    to: &TokenName,
    fee: u8,
    y: u128,
) -> Result<(u128, Trade), Fault>
    requires sound { IsSound book.now.ledger }
    requires fee { IsFee fee }
    ensures { Gives (λ asked. asked) result (trade_in book.now.ledger from.now to.now fee y) }
{
    let side = side_of(alloc, book, from, to, fee)?;
    if y == 0 {
        return Err(Fault::Refused(Refusal::InsufficientOutputAmount));
    }
    if side.rin == 0 || side.rout == 0 {
        return Err(Fault::Refused(Refusal::InsufficientLiquidity));
    }
    if y >= side.rout as u128 {
        return Err(Fault::Refused(Refusal::InsufficientLiquidity));
    }
    let output = y as u64;
    let input = amount_in(fee, output, side.rin, side.rout);
    let trade = Trade {
        pool: side.pool,
        zero_in: side.zero_in,
        output,
    };
    Ok((input, trade))
}

// What an output asks for, pool by pool from the last.
#[tactic(auto, unfolding(crate::specs::Plan::plan_in))]
fn asked_in(
    alloc: Global,
    book: &Book,
    from: &TokenName,
    tokens: &[TokenName],
    fees: &[u8],
    y: u64,
) -> Result<Asked, Fault>
    requires sound { IsSound book.now.ledger }
    requires fees { AllByRecursion IsFee fees.now }
    ensures { Gives (λ asked. record { input = asked.input; trades = reverse asked.last_first.items }) result (plan_in book.now.ledger from.now tokens.now fees.now y) }
{
    let Some((to, tokens)) = tokens.split_first() else {
        return Ok(asks_itself(alloc, y));
    };
    let Some((fee, fees)) = fees.split_first() else {
        return Ok(asks_itself(alloc, y));
    };
    let later = asked_in(alloc, book, to, tokens, fees, y)?;
    let (input, trade) = trade_in(alloc, book, from, to, *fee, later.input)?;
    let mut last_first = later.last_first;
    last_first.push(trade)?;
    Ok(Asked { input, last_first })
}

// An output that no pool pays asks for itself.
fn asks_itself(alloc: Global, y: u64) -> Asked
    ensures { (result.input ≡ y) × (result.last_first.items ≡ []) }
{
    Asked {
        input: y as u128,
        last_first: Vec::new(alloc),
    }
}
