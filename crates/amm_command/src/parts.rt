//! The parts of a basket: tokens, each with an amount of it.
ghost use Rattle.std.specs.Prelude.{◌≡◌, map};
ghost use Rattle.std.specs.List.{list_all};
ghost use Rattle.amm_names.specs.Pools.{is_before};
ghost use Rattle.amm_model.specs.declared.problem.Part as part_view;
ghost use Rattle.amm_model.specs.Outcome.{Gives};
ghost use Rattle.amm_model.specs.Json.{each};
ghost use Rattle.amm_model.specs.Forms.{as_part, as_parts, part_of_list, are_rising};
ghost use Rattle.amm_command.specs.Baskets.{are_parts};
ghost use Rattle.serde_json.specs.View.{view};

use crate::form::{MISFIT, amount, list, token};
use amm_model::{Fault, Part, PartList, TokenName};
use serde_json::Value;
use std::alloc::Global;

/// 1 to 8 parts, in the strict order of their tokens.
#[tactic(auto, unfolding(amm_model::specs::Forms::as_parts))]
pub fn parts(alloc: Global, value: &Value) -> Result<PartList, Fault>
    ensures { Gives (λ parts. parts) result (as_parts (view value.now)) }
{
    let values = list(value)?;
    let found = each_part(alloc, values)?;
    if are_parts(&found) {
        Ok(PartList::from_vec(found))
    } else {
        Err(MISFIT)
    }
}

fn each_part(alloc: Global, values: &[Value]) -> Result<Vec<Part>, Fault>
    ensures { Gives (λ v. v.items) result (each as_part (map view values.now)) }
{
    let mut found = Vec::new(alloc);
    for value in values {
        found.push(part(alloc, value)?)?;
    }
    Ok(found)
}

/// A token, and an amount of it.
#[tactic(auto, unfolding(amm_model::specs::Forms::as_part))]
fn part(alloc: Global, value: &Value) -> Result<Part, Fault>
    ensures { Gives (λ part. part) result (as_part (view value.now)) }
{
    let values = list(value)?;
    part_of(alloc, values)
}

fn part_of(alloc: Global, values: &[Value]) -> Result<Part, Fault>
    ensures { Gives (λ part. part) result (part_of_list (map view values.now)) }
{
    match values {
        [token_value, n_value] => Ok(Part {
            token: token(alloc, token_value)?,
            amount: amount(n_value)?,
        }),
        _ => Err(MISFIT),
    }
}

/// Whether a basket can be made of these parts: 1 to 8, in the strict order of their tokens.
pub fn are_parts(parts: &[Part]) -> bool
    ensures { result ≡ are_parts parts.now }
{
    1 <= parts.len() && parts.len() <= 8 && are_rising(parts)
}

/// Whether each part's token comes before those of all later parts.
fn are_rising(parts: &[Part]) -> bool
    ensures { result ≡ are_rising parts.now }
{
    match parts {
        [first, later @ ..] => is_before_all(&first.token, later) && are_rising(later),
        [] => true,
    }
}

fn is_before_all(token: &TokenName, later: &[Part]) -> bool
    ensures { result
        ≡ list_all (λ (part : part_view.Part). is_before token.now part.token) later.now }
{
    later.iter().all(|part| *token < part.token)
}
