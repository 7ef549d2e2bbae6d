//! Paths as they are plainly written: tokens, and the fees that are not 3 between them.
ghost use Rattle.std.specs.Prelude.{◌≡◌, ◌≤◌, ◌∷◌, ◌++◌, IfOk, IfSome, Ok};
ghost use Rattle.json.specs.Lex.{token, comma};
ghost use Rattle.json.specs.Token as tokens;
ghost use Rattle.serde_json.specs.Data.{string, depth};
ghost use Rattle.serde_json.specs.View.{items_of};
ghost use Rattle.amm_model.specs.Json.{whole, elements};
ghost use Rattle.amm_model.specs.Forms.{as_token, as_fee, path_along, as_path};
ghost use Rattle.amm_command.specs.Front.{ahead};
ghost use Rattle.amm_command.specs.Spelled.{spelled, behind, IsPlain};
ghost use Rattle.amm_command.specs.Rows.{fee_values, tokens_behind, path_value};

use super::cursor::Cursor;
use super::part::{fee, first_token, token};
use amm_model::{FeeList, Memory, RoutePath, TokenList, TokenName};
use std::alloc::Global;

/// The fee before a token of a path: 3 where none is written.
#[tactic(auto, unfolding(amm_model::specs::Forms::as_fee))]
fn fee_before(line: &mut Cursor<'_>) -> Option<u8>
    ensures text { IfSome result (λ fee. ahead line.old ≡ behind (fee_values fee) ++ ahead line.new) }
    ensures fits { IfSome result (λ fee. as_fee (whole fee) ≡ Ok fee) }
{
    if line.is_number_next() {
        fee(line)
    } else {
        Some(3)
    }
}

/// A path of 2 to 8 tokens.
#[tactic(auto, unfolding(amm_model::specs::Forms::as_path))]
pub fn path(alloc: Global, line: &mut Cursor<'_>) -> Option<RoutePath>
    ensures text { IfSome result (λ path. ahead line.old
        ≡ comma ∷ (spelled (path_value path) ++ ahead line.new)) }
    ensures fits { IfSome result (λ path. as_path (path_value path) ≡ Ok path) }
    ensures plain { IfSome result (λ path. IsPlain (path_value path)) }
    ensures flat { IfSome result (λ path. depth (path_value path) ≤ 1) }
{
    if !line.comma() || !line.open() {
        return None;
    }
    let first = first_token(alloc, line)?;
    let path = some_path(alloc, line, first)?;
    let count = path.tokens.as_slice().len();
    if 2 <= count && count <= 8 {
        Some(path)
    } else {
        None
    }
}

fn some_path(alloc: Global, line: &mut Cursor<'_>, first: TokenName) -> Option<RoutePath>
    requires { as_token (string first) ≡ Ok first }
    ensures text { IfSome result (λ path.
        token tokens.begin_array ∷ token (tokens.string first) ∷ ahead line.old
        ≡ spelled (path_value path) ++ ahead line.new) }
    ensures along { IfSome result (λ path.
        path_along (elements (items_of (tokens_behind path.tokens path.fees))) ≡ Ok path) }
    ensures plain { IfSome result (λ path. IsPlain (path_value path)) }
    ensures flat { IfSome result (λ path. depth (path_value path) ≤ 1) }
{
    match path_from(alloc, line, first) {
        Ok(path) => path,
        Err(_) => None,
    }
}

/// A path from its first token on, to its bracket.
fn path_from(
    alloc: Global,
    line: &mut Cursor<'_>,
    first: TokenName,
) -> Result<Option<RoutePath>, Memory>
    requires { as_token (string first) ≡ Ok first }
    ensures text { IfOk result (λ found. IfSome found (λ path.
        token tokens.begin_array ∷ token (tokens.string first) ∷ ahead line.old
        ≡ spelled (path_value path) ++ ahead line.new)) }
    ensures along { IfOk result (λ found. IfSome found (λ path.
        path_along (elements (items_of (tokens_behind path.tokens path.fees))) ≡ Ok path)) }
    ensures plain { IfOk result (λ found. IfSome found (λ path. IsPlain (path_value path))) }
    ensures flat { IfOk result (λ found. IfSome found (λ path. depth (path_value path) ≤ 1)) }
{
    let mut tokens = Vec::with_capacity(alloc, 8)?;
    let mut fees = Vec::with_capacity(alloc, 8)?;
    tokens.push(first)?;
    'hops: for _ in 0..8 {
        if line.close() {
            return Ok(Some(RoutePath {
                tokens: TokenList::from_vec(tokens),
                fees: FeeList::from_vec(fees),
            }));
        }
        let Some(fee) = fee_before(line) else {
            return Ok(None);
        };
        let Some(token) = token(alloc, line) else {
            return Ok(None);
        };
        fees.push(fee)?;
        tokens.push(token)?;
    }
    Ok(None)
}
