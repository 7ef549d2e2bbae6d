//! Steps as they are plainly written, and the steps of loans in loans.
ghost use Rattle.std.specs.Prelude.{◌≡◌, ◌≤◌, ◌+◌, ◌*◌, ◌++◌, ◌∷◌, map, codes, IfSome, IfOk, Ok};
ghost use Rattle.json.specs.Lex.{comma};
ghost use Rattle.serde_json.specs.Data.{depth};
ghost use Rattle.amm_model.specs.Json.{list};
ghost use Rattle.amm_model.specs.CommandView.{move_of_step, moves_of_steps};
ghost use Rattle.amm_model.specs.Reading as reading;
ghost use Rattle.amm_model.specs.Reading.{as_steps, flash_row};
ghost use Rattle.amm_command.specs.Front.{ahead};
ghost use Rattle.amm_command.specs.Spelled.{spelled, IsPlain};
ghost use Rattle.amm_command.specs.Rows.{steps_values};
ghost use Rattle.amm_command.specs.Kinds.{step_word};
ghost use Rattle.amm_command.specs.Taken.{MoveTaken};
ghost use Rattle.amm_command.specs.Loans.{StepRead, StepsRead};

use super::cursor::Cursor;
use super::kind::StepKind;
use super::{part, step_row};
use amm_model::{Memory, Step, UserName};
use std::alloc::Global;

#[cycle(loans)]
#[inline(never)]
fn flash(alloc: Global, line: &mut Cursor<'_>, loans: u32, actor: &UserName) -> Option<Step>
    ensures { IfSome result (λ s. MoveTaken (2 * loans + 1) actor.now (codes "flash")
        (flash_row (as_steps loans actor.now)) (ahead line.old) (ahead line.new) (move_of_step s)) }
{
    let pool = part::pool(alloc, line)?;
    let out0 = part::amount(line)?;
    let out1 = part::amount(line)?;
    let steps = steps(alloc, line, loans, actor)?;
    if line.close() {
        Some(Step::Flash {
            pool,
            out0,
            out1,
            steps,
        })
    } else {
        None
    }
}

/// The row of a kind, where so many loans may be open.
#[cycle(loans)]
#[tactic(auto, unfolding(amm_model::specs::Reading::move_row))]
pub fn move_row(
    alloc: Global,
    line: &mut Cursor<'_>,
    loans: u32,
    actor: &UserName,
    kind: StepKind,
) -> Option<Step>
    ensures { IfSome result (λ s. MoveTaken (2 * loans + 1) actor.now (step_word kind)
        (reading.move_row (as_steps loans actor.now) (step_word kind))
        (ahead line.old) (ahead line.new) (move_of_step s)) }
{
    match kind {
        StepKind::Transfer => step_row::transfer(alloc, line, actor),
        StepKind::Create => step_row::create(alloc, line, actor),
        StepKind::Mint => step_row::mint(alloc, line, actor),
        StepKind::Burn => step_row::burn(alloc, line, actor),
        StepKind::Swap => step_row::swap(alloc, line, actor),
        StepKind::Skim => step_row::skim(alloc, line, actor),
        StepKind::Sync => step_row::sync(alloc, line, actor),
        StepKind::Flash => flash(alloc, line, loans, actor),
        StepKind::Add => step_row::add(alloc, line, actor),
        StepKind::Remove => step_row::remove(alloc, line, actor),
        StepKind::SwapIn => step_row::swap_in(alloc, line, actor),
        StepKind::SwapOut => step_row::swap_out(alloc, line, actor),
        StepKind::Settle => step_row::settle(line, actor),
    }
}

/// A step: a kind, the actor of the command around it, and what the row of the kind wants.
#[cycle(loans)]
fn step(alloc: Global, line: &mut Cursor<'_>, loans: u32, actor: &UserName) -> Option<Step>
    ensures { IfSome result (λ s.
        StepRead loans actor.now (ahead line.old) (ahead line.new) (move_of_step s)) }
{
    if !line.open() {
        return None;
    }
    let word = line.text()?;
    let kind = StepKind::of(word)?;
    let who = part::text(line)?;
    if who == actor.as_bytes() {
        let step = move_row(alloc, line, loans, actor, kind)?;
        Some(step)
    } else {
        None
    }
}

/// The steps of a loan, where so many loans may be open, it among them.
#[cycle(loans)]
#[inline(never)]
fn steps(alloc: Global, line: &mut Cursor<'_>, loans: u32, actor: &UserName) -> Option<Vec<Step>>
    ensures text { IfSome result (λ v. ahead line.old ≡ comma
        ∷ (spelled (list (steps_values actor.now (moves_of_steps v.items))) ++ ahead line.new)) }
    ensures fits { IfSome result (λ v.
        as_steps loans actor.now (list (steps_values actor.now (moves_of_steps v.items)))
        ≡ Ok (moves_of_steps v.items)) }
    ensures plain { IfSome result (λ v.
        IsPlain (list (steps_values actor.now (moves_of_steps v.items)))) }
    ensures shallow { IfSome result (λ v.
        depth (list (steps_values actor.now (moves_of_steps v.items))) ≤ 2 * loans + 1) }
{
    if loans == 0 || !line.comma() || !line.open() {
        return None;
    }
    if line.close() {
        return Some(Vec::new(alloc));
    }
    let found = each_step(alloc, line, loans - 1, actor)?;
    Some(found)
}

#[cycle(loans)]
fn each_step(
    alloc: Global,
    line: &mut Cursor<'_>,
    loans: u32,
    actor: &UserName,
) -> Option<Vec<Step>>
    ensures { IfSome result (λ v. StepsRead loans actor.now (ahead line.old) (ahead line.new)
        (map move_of_step v.items)) }
{
    match some_steps(alloc, line, loans, actor) {
        Ok(found) => found,
        Err(_) => None,
    }
}

/// One step or more, to their bracket.
#[cycle(loans)]
fn some_steps(
    alloc: Global,
    line: &mut Cursor<'_>,
    loans: u32,
    actor: &UserName,
) -> Result<Option<Vec<Step>>, Memory>
    ensures { IfOk result (λ found. IfSome found (λ v. StepsRead loans actor.now (ahead line.old)
        (ahead line.new) (map move_of_step v.items))) }
{
    let mut found = Vec::new(alloc);
    'steps: for _ in 0..256 {
        let Some(step) = step(alloc, line, loans, actor) else {
            return Ok(None);
        };
        found.push(step)?;
        if line.close() {
            return Ok(Some(found));
        }
        if !line.comma() {
            return Ok(None);
        }
    }
    Ok(None)
}
