//! The amounts along a path.
ghost use Rattle.std.specs.Prelude.{◌≡◌, ◌≤◌};
ghost use Rattle.amm_model.specs.Outcome.{Gives};
ghost use Rattle.amm_model.specs.Fits.{IsPath};
ghost use Rattle.amm_model.specs.declared.limits.TheConstants.{AMOUNT_LIMIT};
ghost use Rattle.amm_model.specs.Router.{amounts_out, amounts_in};
ghost use Rattle.amm_path.specs.Plan.{amounts_out_planned, amounts_in_planned};
ghost use Rattle.amm_model.specs.Sound.{IsSound};

use crate::plan::{amounts_of, in_along, out_along};
use amm_model::{AmountList, Fault, RoutePath};
use amm_state::Book;
use std::alloc::Global;

/// What an input of `x` leads to along a path: the input, and what each pool pays. `x` is at most
/// 2^52-1.
///
/// Refused pool by pool from the first, in this order: IDENTICAL, NO_PAIR,
/// INSUFFICIENT_INPUT_AMOUNT, INSUFFICIENT_LIQUIDITY.
pub fn amounts_out(
    alloc: Global,
    book: &Book,
    path: &RoutePath,
    x: u64,
) -> Result<AmountList, Fault>
    requires sound { IsSound book.now.ledger }
    requires path { IsPath path.now }
    requires amount { x ≤ AMOUNT_LIMIT }
    ensures { Gives (λ amounts. amounts) result (amounts_out book.now.ledger path.now x) }
{
    amounts_out_planned(alloc, book, path, x)
}

// The same by a plan; apart so that the check sees the plan here alone.
#[tactic(auto, unfolding(crate::specs::Plan::amounts_out_planned))]
fn amounts_out_planned(
    alloc: Global,
    book: &Book,
    path: &RoutePath,
    x: u64,
) -> Result<AmountList, Fault>
    requires sound { IsSound book.now.ledger }
    requires path { IsPath path.now }
    requires amount { x ≤ AMOUNT_LIMIT }
    ensures { Gives (λ amounts. amounts) result (amounts_out_planned book.now.ledger path.now x) }
{
    let plan = out_along(alloc, book, path, x)?;
    Ok(amounts_of(alloc, &plan)?)
}

/// What an output of `y` asks for along a path: the input, and what each pool pays. `y` is at most
/// 2^52-1.
///
/// Refused pool by pool from the last, in this order: IDENTICAL, NO_PAIR,
/// INSUFFICIENT_OUTPUT_AMOUNT, INSUFFICIENT_LIQUIDITY; then AMOUNT_LIMIT where the input is above
/// 2^52-1.
pub fn amounts_in(alloc: Global, book: &Book, path: &RoutePath, y: u64) -> Result<AmountList, Fault>
    requires sound { IsSound book.now.ledger }
    requires path { IsPath path.now }
    requires amount { y ≤ AMOUNT_LIMIT }
    ensures { Gives (λ amounts. amounts) result (amounts_in book.now.ledger path.now y) }
{
    amounts_in_planned(alloc, book, path, y)
}

// The same by a plan; apart so that the check sees the plan here alone.
#[tactic(auto, unfolding(crate::specs::Plan::amounts_in_planned))]
fn amounts_in_planned(
    alloc: Global,
    book: &Book,
    path: &RoutePath,
    y: u64,
) -> Result<AmountList, Fault>
    requires sound { IsSound book.now.ledger }
    requires path { IsPath path.now }
    ensures { Gives (λ amounts. amounts) result (amounts_in_planned book.now.ledger path.now y) }
{
    let plan = in_along(alloc, book, path, y)?;
    Ok(amounts_of(alloc, &plan)?)
}
