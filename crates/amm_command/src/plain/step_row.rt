//! The rows that a step can be too, but for loans, from the first value behind the actor to the
//! bracket.
ghost use Rattle.std.specs.Prelude.{◌≡◌, codes, IfSome};
ghost use Rattle.amm_model.specs.CommandView.{move_of_step};
ghost use Rattle.amm_model.specs.Reading.{transfer_row, create_row, mint_row, burn_row, swap_row, skim_row, sync_row, add_row, remove_row, swap_in_row, swap_out_row, settle_row};
ghost use Rattle.amm_command.specs.Front.{ahead};
ghost use Rattle.amm_command.specs.Taken.{MoveTaken};

use super::cursor::Cursor;
use super::part;
use super::path::path;
use amm_model::{AddWant, RemoveWant, Step, UserName};
use std::alloc::Global;

#[inline(never)]
pub fn transfer(alloc: Global, line: &mut Cursor<'_>, actor: &UserName) -> Option<Step>
    ensures { IfSome result (λ s. MoveTaken 1 actor.now (codes "transfer") transfer_row
        (ahead line.old) (ahead line.new) (move_of_step s)) }
{
    let asset = part::asset(alloc, line)?;
    let to = part::holder(alloc, line)?;
    let n = part::amount(line)?;
    if line.close() {
        Some(Step::Transfer { asset, to, n })
    } else {
        None
    }
}

#[inline(never)]
pub fn create(alloc: Global, line: &mut Cursor<'_>, actor: &UserName) -> Option<Step>
    ensures { IfSome result (λ s. MoveTaken 1 actor.now (codes "create") create_row
        (ahead line.old) (ahead line.new) (move_of_step s)) }
{
    let a = part::token(alloc, line)?;
    let b = part::token(alloc, line)?;
    let fee = part::fee_end(line)?;
    Some(Step::Create { a, b, fee })
}

#[inline(never)]
pub fn mint(alloc: Global, line: &mut Cursor<'_>, actor: &UserName) -> Option<Step>
    ensures { IfSome result (λ s. MoveTaken 1 actor.now (codes "mint") mint_row
        (ahead line.old) (ahead line.new) (move_of_step s)) }
{
    let pool = part::pool(alloc, line)?;
    let to = part::holder(alloc, line)?;
    if line.close() {
        Some(Step::Mint { pool, to })
    } else {
        None
    }
}

#[inline(never)]
pub fn burn(alloc: Global, line: &mut Cursor<'_>, actor: &UserName) -> Option<Step>
    ensures { IfSome result (λ s. MoveTaken 1 actor.now (codes "burn") burn_row
        (ahead line.old) (ahead line.new) (move_of_step s)) }
{
    let pool = part::pool(alloc, line)?;
    let to = part::holder(alloc, line)?;
    if line.close() {
        Some(Step::Burn { pool, to })
    } else {
        None
    }
}

#[inline(never)]
pub fn swap(alloc: Global, line: &mut Cursor<'_>, actor: &UserName) -> Option<Step>
    ensures { IfSome result (λ s. MoveTaken 1 actor.now (codes "swap") swap_row
        (ahead line.old) (ahead line.new) (move_of_step s)) }
{
    let pool = part::pool(alloc, line)?;
    let out0 = part::amount(line)?;
    let out1 = part::amount(line)?;
    let to = part::holder(alloc, line)?;
    if line.close() {
        Some(Step::Swap {
            pool,
            out0,
            out1,
            to,
        })
    } else {
        None
    }
}

#[inline(never)]
pub fn skim(alloc: Global, line: &mut Cursor<'_>, actor: &UserName) -> Option<Step>
    ensures { IfSome result (λ s. MoveTaken 1 actor.now (codes "skim") skim_row
        (ahead line.old) (ahead line.new) (move_of_step s)) }
{
    let pool = part::pool(alloc, line)?;
    let to = part::holder(alloc, line)?;
    if line.close() {
        Some(Step::Skim { pool, to })
    } else {
        None
    }
}

#[inline(never)]
pub fn sync(alloc: Global, line: &mut Cursor<'_>, actor: &UserName) -> Option<Step>
    ensures { IfSome result (λ s. MoveTaken 1 actor.now (codes "sync") sync_row
        (ahead line.old) (ahead line.new) (move_of_step s)) }
{
    let pool = part::pool(alloc, line)?;
    if line.close() {
        Some(Step::Sync { pool })
    } else {
        None
    }
}

#[inline(never)]
pub fn add(alloc: Global, line: &mut Cursor<'_>, actor: &UserName) -> Option<Step>
    ensures { IfSome result (λ s. MoveTaken 1 actor.now (codes "add") add_row
        (ahead line.old) (ahead line.new) (move_of_step s)) }
{
    let a = part::token(alloc, line)?;
    let b = part::token(alloc, line)?;
    let a_desired = part::amount(line)?;
    let b_desired = part::amount(line)?;
    let a_min = part::amount(line)?;
    let b_min = part::amount(line)?;
    let to = part::holder(alloc, line)?;
    let deadline = part::amount(line)?;
    let fee = part::fee_end(line)?;
    Some(Step::Add {
        want: AddWant {
            a,
            b,
            a_desired,
            b_desired,
            a_min,
            b_min,
            fee,
        },
        to,
        deadline,
    })
}

#[inline(never)]
pub fn remove(alloc: Global, line: &mut Cursor<'_>, actor: &UserName) -> Option<Step>
    ensures { IfSome result (λ s. MoveTaken 1 actor.now (codes "remove") remove_row
        (ahead line.old) (ahead line.new) (move_of_step s)) }
{
    let a = part::token(alloc, line)?;
    let b = part::token(alloc, line)?;
    let shares = part::amount(line)?;
    let a_min = part::amount(line)?;
    let b_min = part::amount(line)?;
    let to = part::holder(alloc, line)?;
    let deadline = part::amount(line)?;
    let fee = part::fee_end(line)?;
    Some(Step::Remove {
        want: RemoveWant {
            a,
            b,
            shares,
            a_min,
            b_min,
            fee,
        },
        to,
        deadline,
    })
}

#[inline(never)]
pub fn swap_in(alloc: Global, line: &mut Cursor<'_>, actor: &UserName) -> Option<Step>
    ensures { IfSome result (λ s. MoveTaken 1 actor.now (codes "swapin") swap_in_row
        (ahead line.old) (ahead line.new) (move_of_step s)) }
{
    let path = path(alloc, line)?;
    let x = part::amount(line)?;
    let min = part::amount(line)?;
    let to = part::holder(alloc, line)?;
    let deadline = part::amount(line)?;
    if line.close() {
        Some(Step::SwapIn {
            path,
            x,
            min,
            to,
            deadline,
        })
    } else {
        None
    }
}

#[inline(never)]
pub fn swap_out(alloc: Global, line: &mut Cursor<'_>, actor: &UserName) -> Option<Step>
    ensures { IfSome result (λ s. MoveTaken 1 actor.now (codes "swapout") swap_out_row
        (ahead line.old) (ahead line.new) (move_of_step s)) }
{
    let path = path(alloc, line)?;
    let y = part::amount(line)?;
    let max = part::amount(line)?;
    let to = part::holder(alloc, line)?;
    let deadline = part::amount(line)?;
    if line.close() {
        Some(Step::SwapOut {
            path,
            y,
            max,
            to,
            deadline,
        })
    } else {
        None
    }
}

#[inline(never)]
pub fn settle(line: &mut Cursor<'_>, actor: &UserName) -> Option<Step>
    ensures { IfSome result (λ s. MoveTaken 1 actor.now (codes "settle") settle_row
        (ahead line.old) (ahead line.new) (move_of_step s)) }
{
    let quote = part::amount(line)?;
    let deadline = part::amount(line)?;
    if line.close() {
        Some(Step::Settle { quote, deadline })
    } else {
        None
    }
}
