//! The rows that only a line can be, from the first value behind the word to the bracket.
ghost use Rattle.std.specs.Prelude.{◌≡◌, codes, IfSome};
ghost use Rattle.amm_model.specs.CommandView.{view_of};
ghost use Rattle.amm_model.specs.Reading.{deposit_row, withdraw_row, time_row, fee_to_row, setter_row, quote_out_row, quote_in_row, split_row, certificate_row, pool_row, balance_row, total_row, observe_row, average_row, consult_row, window_row, basket_row, cycle_row};
ghost use Rattle.amm_command.specs.Front.{ahead};
ghost use Rattle.amm_command.specs.Taken.{CommandTaken};

use super::cursor::Cursor;
use super::part;
use super::parts::parts;
use super::path::path;
use amm_model::Command;
use std::alloc::Global;

#[inline(never)]
pub fn deposit(alloc: Global, line: &mut Cursor<'_>) -> Option<Command>
    ensures { IfSome result (λ c. CommandTaken (codes "deposit") deposit_row
        (ahead line.old) (ahead line.new) (view_of c)) }
{
    let user = part::user(alloc, line)?;
    let token = part::token(alloc, line)?;
    let n = part::amount(line)?;
    if line.close() {
        Some(Command::Deposit { user, token, n })
    } else {
        None
    }
}

#[inline(never)]
pub fn withdraw(alloc: Global, line: &mut Cursor<'_>) -> Option<Command>
    ensures { IfSome result (λ c. CommandTaken (codes "withdraw") withdraw_row
        (ahead line.old) (ahead line.new) (view_of c)) }
{
    let user = part::user(alloc, line)?;
    let token = part::token(alloc, line)?;
    let n = part::amount(line)?;
    if line.close() {
        Some(Command::Withdraw { user, token, n })
    } else {
        None
    }
}

#[inline(never)]
pub fn time(line: &mut Cursor<'_>) -> Option<Command>
    ensures { IfSome result (λ c. CommandTaken (codes "time") time_row
        (ahead line.old) (ahead line.new) (view_of c)) }
{
    let n = part::amount(line)?;
    if line.close() {
        Some(Command::Time { n })
    } else {
        None
    }
}

#[inline(never)]
pub fn fee_to(alloc: Global, line: &mut Cursor<'_>) -> Option<Command>
    ensures { IfSome result (λ c. CommandTaken (codes "feeto") fee_to_row
        (ahead line.old) (ahead line.new) (view_of c)) }
{
    let actor = part::user(alloc, line)?;
    let to = part::holder(alloc, line)?;
    if line.close() {
        Some(Command::FeeTo { actor, to })
    } else {
        None
    }
}

#[inline(never)]
pub fn setter(alloc: Global, line: &mut Cursor<'_>) -> Option<Command>
    ensures { IfSome result (λ c. CommandTaken (codes "setter") setter_row
        (ahead line.old) (ahead line.new) (view_of c)) }
{
    let actor = part::user(alloc, line)?;
    let to = part::user(alloc, line)?;
    if line.close() {
        Some(Command::Setter { actor, to })
    } else {
        None
    }
}

#[inline(never)]
pub fn quote_out(alloc: Global, line: &mut Cursor<'_>) -> Option<Command>
    ensures { IfSome result (λ c. CommandTaken (codes "quoteout") quote_out_row
        (ahead line.old) (ahead line.new) (view_of c)) }
{
    let path = path(alloc, line)?;
    let n = part::amount(line)?;
    if line.close() {
        Some(Command::QuoteOut { path, n })
    } else {
        None
    }
}

#[inline(never)]
pub fn quote_in(alloc: Global, line: &mut Cursor<'_>) -> Option<Command>
    ensures { IfSome result (λ c. CommandTaken (codes "quotein") quote_in_row
        (ahead line.old) (ahead line.new) (view_of c)) }
{
    let path = path(alloc, line)?;
    let n = part::amount(line)?;
    if line.close() {
        Some(Command::QuoteIn { path, n })
    } else {
        None
    }
}

#[inline(never)]
pub fn split(alloc: Global, line: &mut Cursor<'_>) -> Option<Command>
    ensures { IfSome result (λ c. CommandTaken (codes "split") split_row
        (ahead line.old) (ahead line.new) (view_of c)) }
{
    let s = part::token(alloc, line)?;
    let t = part::token(alloc, line)?;
    let d = part::amount(line)?;
    if line.close() {
        Some(Command::Split { s, t, d })
    } else {
        None
    }
}

#[inline(never)]
pub fn certificate(line: &mut Cursor<'_>) -> Option<Command>
    ensures { IfSome result (λ c. CommandTaken (codes "certificate") certificate_row
        (ahead line.old) (ahead line.new) (view_of c)) }
{
    let quote = part::amount(line)?;
    if line.close() {
        Some(Command::Certificate { quote })
    } else {
        None
    }
}

#[inline(never)]
pub fn pool_row(alloc: Global, line: &mut Cursor<'_>) -> Option<Command>
    ensures { IfSome result (λ c. CommandTaken (codes "pool") pool_row
        (ahead line.old) (ahead line.new) (view_of c)) }
{
    let pool = part::pool(alloc, line)?;
    if line.close() {
        Some(Command::Pool { pool })
    } else {
        None
    }
}

#[inline(never)]
pub fn balance(alloc: Global, line: &mut Cursor<'_>) -> Option<Command>
    ensures { IfSome result (λ c. CommandTaken (codes "balance") balance_row
        (ahead line.old) (ahead line.new) (view_of c)) }
{
    let asset = part::asset(alloc, line)?;
    let holder = part::holder(alloc, line)?;
    if line.close() {
        Some(Command::Balance { asset, holder })
    } else {
        None
    }
}

#[inline(never)]
pub fn total(alloc: Global, line: &mut Cursor<'_>) -> Option<Command>
    ensures { IfSome result (λ c. CommandTaken (codes "total") total_row
        (ahead line.old) (ahead line.new) (view_of c)) }
{
    let asset = part::asset(alloc, line)?;
    if line.close() {
        Some(Command::Total { asset })
    } else {
        None
    }
}

#[inline(never)]
pub fn observe(alloc: Global, line: &mut Cursor<'_>) -> Option<Command>
    ensures { IfSome result (λ c. CommandTaken (codes "observe") observe_row
        (ahead line.old) (ahead line.new) (view_of c)) }
{
    let actor = part::user(alloc, line)?;
    let pool = part::pool(alloc, line)?;
    if line.close() {
        Some(Command::Observe { actor, pool })
    } else {
        None
    }
}

#[inline(never)]
pub fn average(line: &mut Cursor<'_>) -> Option<Command>
    ensures { IfSome result (λ c. CommandTaken (codes "average") average_row
        (ahead line.old) (ahead line.new) (view_of c)) }
{
    let first = part::amount(line)?;
    let second = part::amount(line)?;
    if line.close() {
        Some(Command::Average { first, second })
    } else {
        None
    }
}

#[inline(never)]
pub fn consult(alloc: Global, line: &mut Cursor<'_>) -> Option<Command>
    ensures { IfSome result (λ c. CommandTaken (codes "consult") consult_row
        (ahead line.old) (ahead line.new) (view_of c)) }
{
    let first = part::amount(line)?;
    let second = part::amount(line)?;
    let token = part::token(alloc, line)?;
    let n = part::amount(line)?;
    if line.close() {
        Some(Command::Consult {
            first,
            second,
            token,
            n,
        })
    } else {
        None
    }
}

#[inline(never)]
pub fn window(alloc: Global, line: &mut Cursor<'_>) -> Option<Command>
    ensures { IfSome result (λ c. CommandTaken (codes "window") window_row
        (ahead line.old) (ahead line.new) (view_of c)) }
{
    let pool = part::pool(alloc, line)?;
    let seconds = part::amount(line)?;
    if line.close() {
        Some(Command::Window { pool, seconds })
    } else {
        None
    }
}

#[inline(never)]
pub fn basket(alloc: Global, line: &mut Cursor<'_>) -> Option<Command>
    ensures { IfSome result (λ c. CommandTaken (codes "basket") basket_row
        (ahead line.old) (ahead line.new) (view_of c)) }
{
    let actor = part::user(alloc, line)?;
    let parts = parts(alloc, line)?;
    let t = part::token(alloc, line)?;
    let min = part::amount(line)?;
    let deadline = part::amount(line)?;
    if line.close() {
        Some(Command::Basket {
            actor,
            parts,
            t,
            min,
            deadline,
        })
    } else {
        None
    }
}

#[inline(never)]
pub fn cycle(alloc: Global, line: &mut Cursor<'_>) -> Option<Command>
    ensures { IfSome result (λ c. CommandTaken (codes "cycle") cycle_row
        (ahead line.old) (ahead line.new) (view_of c)) }
{
    let actor = part::user(alloc, line)?;
    let t = part::token(alloc, line)?;
    let deadline = part::amount(line)?;
    if line.close() {
        Some(Command::Cycle { actor, t, deadline })
    } else {
        None
    }
}
