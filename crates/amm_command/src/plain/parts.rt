//! The parts of a basket as they are plainly written: each a token and an amount of it.
ghost use Rattle.std.specs.Prelude.{◌≡◌, ◌≤◌, ◌∷◌, ◌++◌, IfOk, IfSome, Ok};
ghost use Rattle.json.specs.Lex.{comma};
ghost use Rattle.serde_json.specs.Data.{depth};
ghost use Rattle.amm_model.specs.Forms.{as_part, as_parts};
ghost use Rattle.amm_command.specs.Front.{ahead};
ghost use Rattle.amm_command.specs.Spelled.{spelled, IsPlain};
ghost use Rattle.amm_command.specs.Rows.{part_value, parts_value};
ghost use Rattle.amm_command.specs.Baskets.{PartsRead};

use super::cursor::Cursor;
use super::part::{amount, first_token};
use crate::parts::are_parts;
use amm_model::{Memory, Part, PartList};
use std::alloc::Global;

/// 1 to 8 parts, in the strict order of their tokens.
pub fn parts(alloc: Global, line: &mut Cursor<'_>) -> Option<PartList>
    ensures text { IfSome result (λ parts. ahead line.old
        ≡ comma ∷ (spelled (parts_value parts) ++ ahead line.new)) }
    ensures fits { IfSome result (λ parts. as_parts (parts_value parts) ≡ Ok parts) }
    ensures plain { IfSome result (λ parts. IsPlain (parts_value parts)) }
    ensures flat { IfSome result (λ parts. depth (parts_value parts) ≤ 2) }
{
    if !line.comma() || !line.open() {
        return None;
    }
    let found = each_part(alloc, line)?;
    if are_parts(&found) {
        Some(PartList::from_vec(found))
    } else {
        None
    }
}

fn each_part(alloc: Global, line: &mut Cursor<'_>) -> Option<Vec<Part>>
    ensures { IfSome result (λ v. PartsRead (ahead line.old) (ahead line.new) v.items) }
{
    match some_parts(alloc, line) {
        Ok(found) => found,
        Err(_) => None,
    }
}

/// One part or more, to their bracket: no more than eight.
fn some_parts(alloc: Global, line: &mut Cursor<'_>) -> Result<Option<Vec<Part>>, Memory>
    ensures { IfOk result (λ found. IfSome found (λ v.
        PartsRead (ahead line.old) (ahead line.new) v.items)) }
{
    let mut found = Vec::with_capacity(alloc, 8)?;
    'parts: for _ in 0..8 {
        let Some(part) = part(alloc, line) else {
            return Ok(None);
        };
        found.push(part)?;
        if line.close() {
            return Ok(Some(found));
        }
        if !line.comma() {
            return Ok(None);
        }
    }
    Ok(None)
}

/// A token, and an amount of it.
#[tactic(auto, unfolding(amm_model::specs::Forms::as_part))]
fn part(alloc: Global, line: &mut Cursor<'_>) -> Option<Part>
    ensures text { IfSome result (λ part. ahead line.old
        ≡ spelled (part_value part) ++ ahead line.new) }
    ensures fits { IfSome result (λ part. as_part (part_value part) ≡ Ok part) }
    ensures plain { IfSome result (λ part. IsPlain (part_value part)) }
{
    if !line.open() {
        return None;
    }
    let token = first_token(alloc, line)?;
    let amount = amount(line)?;
    if line.close() {
        Some(Part { token, amount })
    } else {
        None
    }
}
