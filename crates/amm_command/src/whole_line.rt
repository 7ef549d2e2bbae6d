//! A whole line.
ghost use Rattle.std.specs.Prelude.{◌≡◌, map, ok_or};
ghost use Rattle.amm_model.specs.declared.fault.Refusal.TheVariants.{BadJson};
ghost use Rattle.amm_model.specs.Json.{json_value};
ghost use Rattle.amm_model.specs.Outcome.{Gives};
ghost use Rattle.amm_model.specs.CommandView.{view_of};
ghost use Rattle.amm_model.specs.Reading.{act_row, market_row, row_of, command_of_list, command_of, command_of_line};
ghost use Rattle.serde_json.specs.View.{view};

use crate::form::{MISFIT, list, text, user};
use crate::step::{fits, move_row};
use crate::{plain, row};
use amm_model::{Command, Fault, Refusal};
use serde_json::Value;
use std::alloc::Global;

/// The command that the bytes of a line are. `BadJson` exactly where they are no JSON, and
/// `BadCommand` exactly where they are JSON that fits no row of the table of commands.
pub fn read_line(alloc: Global, bytes: &[u8]) -> Result<Command, Fault>
    ensures { Gives view_of result (command_of_line bytes.now) }
{
    match plain::command(alloc, bytes) {
        Some(command) => Ok(command),
        None => read_any(alloc, bytes),
    }
}

/// The same, however the line is written.
#[tactic(auto, unfolding(amm_model::specs::Reading::command_of_line))]
fn read_any(alloc: Global, bytes: &[u8]) -> Result<Command, Fault>
    ensures { Gives view_of result (command_of_line bytes.now) }
{
    let value = json(alloc, bytes)?;
    command(alloc, &value)
}

/// The value that the bytes are as JSON, read by `serde_json`.
#[tactic(auto, unfolding(amm_model::specs::Json::json_value))]
fn json(alloc: Global, bytes: &[u8]) -> Result<Value, Fault>
    ensures { Gives view result (ok_or (json_value bytes.now) BadJson) }
{
    match Value::from_slice(alloc, bytes) {
        Ok(value) => Ok(value),
        Err(e) => {
            if e.is_memory() {
                Err(Fault::Memory)
            } else {
                Err(Fault::Refused(Refusal::BadJson))
            }
        }
    }
}

#[tactic(auto, unfolding(amm_model::specs::Reading::command_of))]
fn command(alloc: Global, value: &Value) -> Result<Command, Fault>
    ensures { Gives view_of result (command_of (view value.now)) }
{
    let values = list(value)?;
    command_of_list(alloc, values)
}

fn command_of_list(alloc: Global, values: &[Value]) -> Result<Command, Fault>
    ensures { Gives view_of result (command_of_list (map view values.now)) }
{
    match values {
        [kind, arguments @ ..] => {
            let kind = text(kind)?;
            row_of(alloc, kind, arguments)
        }
        [] => Err(MISFIT),
    }
}

#[tactic(auto, unfolding(amm_model::specs::Reading::row_of))]
fn row_of(alloc: Global, kind: &str, arguments: &[Value]) -> Result<Command, Fault>
    ensures { Gives view_of result (row_of kind.now (map view arguments.now)) }
{
    match kind {
        "deposit" => row::deposit(alloc, arguments),
        "withdraw" => row::withdraw(alloc, arguments),
        "time" => row::time(arguments),
        "feeto" => row::fee_to(alloc, arguments),
        "setter" => row::setter(alloc, arguments),
        "quoteout" => row::quote_out(alloc, arguments),
        "quotein" => row::quote_in(alloc, arguments),
        "pool" => row::pool_row(alloc, arguments),
        "balance" => row::balance(alloc, arguments),
        "total" => row::total(alloc, arguments),
        _ => market_row(alloc, kind, arguments),
    }
}

/// The row of a kind of routes or of the price oracle, or of one that a step can be too.
#[tactic(auto, unfolding(amm_model::specs::Reading::market_row))]
fn market_row(alloc: Global, kind: &str, arguments: &[Value]) -> Result<Command, Fault>
    ensures { Gives view_of result (market_row kind.now (map view arguments.now)) }
{
    match kind {
        "split" => row::split(alloc, arguments),
        "certificate" => row::certificate(arguments),
        "basket" => row::basket(alloc, arguments),
        "cycle" => row::cycle(alloc, arguments),
        "observe" => row::observe(alloc, arguments),
        "average" => row::average(arguments),
        "consult" => row::consult(alloc, arguments),
        "window" => row::window(alloc, arguments),
        _ => act(alloc, kind, arguments),
    }
}

fn act(alloc: Global, kind: &str, arguments: &[Value]) -> Result<Command, Fault>
    ensures { Gives view_of result (act_row kind.now (map view arguments.now)) }
{
    match arguments {
        [actor, arguments @ ..] => {
            let actor = user(alloc, actor)?;
            let step = move_row(alloc, 8, &actor, kind, arguments)?;
            if fits(&step) {
                Ok(Command::Act { actor, step })
            } else {
                Err(MISFIT)
            }
        }
        [] => Err(MISFIT),
    }
}
