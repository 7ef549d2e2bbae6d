//! Steps, and the steps of loans in loans.
ghost use Rattle.std.specs.Prelude.{◌≡◌, [], ◌∷◌, map, nat_le};
ghost use Rattle.amm_model.specs.Outcome.{Gives};
ghost use Rattle.amm_model.specs.Json.{each};
ghost use Rattle.amm_model.specs.CommandView.{move_of_step, moves_of_steps};
ghost use Rattle.amm_model.specs.Reading.{move_row, flash_row, as_steps, as_step, step_row, step_count, steps_inside};
ghost use Rattle.amm_model.specs.declared.limits.TheConstants.{STEP_LIMIT};
ghost use Rattle.amm_command.specs.Ahead.{room_after};
ghost use Rattle.serde_json.specs.View.{view};

use crate::form::{MISFIT, amount, list, pool, text};
use crate::step_row;
use amm_model::{Fault, Step, UserName};
use serde_json::Value;
use std::alloc::Global;

/// The row of a kind that can be a step, where so many loans may be open.
#[cycle(steps)]
#[tactic(auto, unfolding(amm_model::specs::Reading::move_row))]
pub fn move_row(
    alloc: Global,
    loans: u32,
    actor: &UserName,
    kind: &str,
    arguments: &[Value],
) -> Result<Step, Fault>
    ensures { Gives move_of_step result
        (move_row (as_steps loans actor.now) kind.now (map view arguments.now)) }
{
    match kind {
        "transfer" => step_row::transfer(alloc, arguments),
        "create" => step_row::create(alloc, arguments),
        "mint" => step_row::mint(alloc, arguments),
        "burn" => step_row::burn(alloc, arguments),
        "swap" => step_row::swap(alloc, arguments),
        "skim" => step_row::skim(alloc, arguments),
        "sync" => step_row::sync(alloc, arguments),
        "flash" => flash(alloc, loans, actor, arguments),
        "add" => step_row::add(alloc, arguments),
        "remove" => step_row::remove(alloc, arguments),
        "swapin" => step_row::swap_in(alloc, arguments),
        "swapout" => step_row::swap_out(alloc, arguments),
        "settle" => step_row::settle(arguments),
        _ => Err(MISFIT),
    }
}

#[cycle(steps)]
fn flash(alloc: Global, loans: u32, actor: &UserName, arguments: &[Value]) -> Result<Step, Fault>
    ensures { Gives move_of_step result
        (flash_row (as_steps loans actor.now) (map view arguments.now)) }
{
    match arguments {
        [pool, out0, out1, steps] => flash_of(alloc, loans, actor, pool, out0, out1, steps),
        _ => Err(MISFIT),
    }
}

#[cycle(steps)]
fn flash_of(
    alloc: Global,
    loans: u32,
    actor: &UserName,
    pool_value: &Value,
    out0: &Value,
    out1: &Value,
    steps_value: &Value,
) -> Result<Step, Fault>
    ensures { Gives move_of_step result (flash_row (as_steps loans actor.now)
        (view pool_value.now ∷ view out0.now ∷ view out1.now ∷ view steps_value.now ∷ [])) }
{
    Ok(Step::Flash {
        pool: pool(alloc, pool_value)?,
        out0: amount(out0)?,
        out1: amount(out1)?,
        steps: steps(alloc, loans, actor, steps_value)?,
    })
}

/// The steps of a loan, where so many loans may be open, it among them.
#[cycle(steps)]
fn steps(alloc: Global, loans: u32, actor: &UserName, value: &Value) -> Result<Vec<Step>, Fault>
    ensures { Gives (λ v. moves_of_steps v.items) result
        (as_steps loans actor.now (view value.now)) }
{
    if loans == 0 {
        return Err(MISFIT);
    }
    let values = list(value)?;
    each_step(alloc, loans - 1, actor, values)
}

#[cycle(steps)]
fn each_step(
    alloc: Global,
    loans: u32,
    actor: &UserName,
    values: &[Value],
) -> Result<Vec<Step>, Fault>
    ensures { Gives (λ v. map move_of_step v.items) result
        (each (as_step (as_steps loans actor.now) actor.now) (map view values.now)) }
{
    let mut found = Vec::new(alloc);
    for value in values {
        found.push(step(alloc, loans, actor, value)?)?;
    }
    Ok(found)
}

#[cycle(steps)]
#[tactic(auto, unfolding(amm_model::specs::Reading::as_step))]
fn step(alloc: Global, loans: u32, actor: &UserName, value: &Value) -> Result<Step, Fault>
    ensures { Gives move_of_step result
        (as_step (as_steps loans actor.now) actor.now (view value.now)) }
{
    let values = list(value)?;
    step_of(alloc, loans, actor, values)
}

#[cycle(steps)]
fn step_of(alloc: Global, loans: u32, actor: &UserName, values: &[Value]) -> Result<Step, Fault>
    ensures { Gives move_of_step result
        (step_row (as_steps loans actor.now) actor.now (map view values.now)) }
{
    match values {
        [kind, who, arguments @ ..] => {
            let kind = text(kind)?;
            let who = text(who)?;
            if who.as_bytes() == actor.as_bytes() {
                move_row(alloc, loans, actor, kind, arguments)
            } else {
                Err(MISFIT)
            }
        }
        _ => Err(MISFIT),
    }
}

/// Whether a step has at most 256 steps inside, at all levels.
pub fn fits(step: &Step) -> bool
    ensures { result ≡ nat_le (steps_inside (move_of_step step.now)) STEP_LIMIT }
{
    match step {
        Step::Flash { steps, .. } => room_left(steps, 256).is_some(),
        _ => true,
    }
}

/// How much room is left after the steps and those inside their loans.
fn room_left(steps: &[Step], room: u32) -> Option<u32>
    ensures { result ≡ room_after room (step_count (moves_of_steps steps.now)) }
{
    let mut left = room;
    for step in steps {
        left = left.checked_sub(1)?;
        if let Step::Flash { steps, .. } = step {
            left = room_left(steps, left)?;
        }
    }
    Some(left)
}
