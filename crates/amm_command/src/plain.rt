//! The short way: a line that is plainly written is taken from its front, in one pass and with no
//! JSON value between. Plainly written is what programs write: the row in its order, strings with
//! no escape, whole numbers with no sign and no leading zero, nothing or one space behind a comma,
//! and behind the end spaces, tabs or a carriage return. A line that is taken is the command that
//! the general reader finds in it; of other lines nothing is said.
ghost use Rattle.std.specs.Prelude.{◌≡◌, IfSome, Ok};
ghost use Rattle.amm_model.specs.CommandView.{view_of};
ghost use Rattle.amm_model.specs.Reading as reading;
ghost use Rattle.amm_model.specs.Reading.{act_row, command_of_line};
ghost use Rattle.amm_command.specs.Front.{ahead};
ghost use Rattle.amm_command.specs.Kinds.{kind_word, market_word, step_word};
ghost use Rattle.amm_command.specs.Taken.{CommandTaken};

mod cursor;
mod kind;
mod loan;
mod part;
mod parts;
mod path;
mod row;
mod step_row;

use crate::step::fits;
use amm_model::Command;
use cursor::Cursor;
use kind::{Kind, MarketKind, StepKind};
use std::alloc::Global;

/// The command that the bytes of a line are, where they are plainly written.
pub fn command(alloc: Global, bytes: &[u8]) -> Option<Command>
    ensures { IfSome result (λ c. command_of_line bytes.now ≡ Ok (view_of c)) }
{
    let mut line = Cursor::new(bytes);
    if !line.open() {
        return None;
    }
    let word = line.text()?;
    let kind = Kind::of(word)?;
    // It is handed on as it is, since a command is large.
    let found = row_of(alloc, &mut line, kind);
    if line.is_at_end() && bytes.is_ascii() {
        found
    } else {
        None
    }
}

/// The row of a kind.
#[tactic(auto, using(crate::proofs::Words::row_of_step, crate::proofs::Words::row_of_market), unfolding(amm_model::specs::Reading::row_of))]
fn row_of(alloc: Global, line: &mut Cursor<'_>, kind: Kind) -> Option<Command>
    ensures { IfSome result (λ c. CommandTaken (kind_word kind) (reading.row_of (kind_word kind))
        (ahead line.old) (ahead line.new) (view_of c)) }
{
    match kind {
        Kind::Deposit => row::deposit(alloc, line),
        Kind::Withdraw => row::withdraw(alloc, line),
        Kind::Time => row::time(line),
        Kind::FeeTo => row::fee_to(alloc, line),
        Kind::Setter => row::setter(alloc, line),
        Kind::QuoteOut => row::quote_out(alloc, line),
        Kind::QuoteIn => row::quote_in(alloc, line),
        Kind::Pool => row::pool_row(alloc, line),
        Kind::Balance => row::balance(alloc, line),
        Kind::Total => row::total(alloc, line),
        Kind::Market(kind) => market_row(alloc, line, kind),
        Kind::Step(kind) => act(alloc, line, kind),
    }
}

/// The row of a kind of routes or of the price oracle.
#[tactic(auto, unfolding(amm_model::specs::Reading::market_row))]
fn market_row(alloc: Global, line: &mut Cursor<'_>, kind: MarketKind) -> Option<Command>
    ensures { IfSome result (λ c. CommandTaken (market_word kind)
        (reading.market_row (market_word kind)) (ahead line.old) (ahead line.new) (view_of c)) }
{
    match kind {
        MarketKind::Split => row::split(alloc, line),
        MarketKind::Certificate => row::certificate(line),
        MarketKind::Basket => row::basket(alloc, line),
        MarketKind::Cycle => row::cycle(alloc, line),
        MarketKind::Observe => row::observe(alloc, line),
        MarketKind::Average => row::average(line),
        MarketKind::Consult => row::consult(alloc, line),
        MarketKind::Window => row::window(alloc, line),
    }
}

/// A command that a step can be too: its actor, and what the row of the kind wants.
#[inline(never)]
fn act(alloc: Global, line: &mut Cursor<'_>, kind: StepKind) -> Option<Command>
    ensures { IfSome result (λ c. CommandTaken (step_word kind) (act_row (step_word kind))
        (ahead line.old) (ahead line.new) (view_of c)) }
{
    let actor = part::user(alloc, line)?;
    let step = loan::move_row(alloc, line, 8, &actor, kind)?;
    if fits(&step) {
        Some(Command::Act { actor, step })
    } else {
        None
    }
}
