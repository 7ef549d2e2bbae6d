//! The values of a row as they are plainly written, each behind a comma: names, amounts and fees.
//! A value that is taken is the one that the general reader makes of the same text.
ghost use Rattle.std.specs.Prelude.{◌≡◌, ◌<◌, ◌≤◌, ◌^◌, ◌∷◌, ◌++◌, ◌==◌, false, decimal, IfSome, Ok};
ghost use Rattle.json.specs.Print.{escape};
ghost use Rattle.json.specs.Lex.{token, comma};
ghost use Rattle.json.specs.Token as tokens;
ghost use Rattle.serde_json.specs.Data.{string};
ghost use Rattle.serde_json.specs.View.{items_of};
ghost use Rattle.amm_model.specs.Json.{whole};
ghost use Rattle.amm_model.specs.Forms.{fee_behind, as_user, as_token, as_pool, as_asset, as_holder, as_amount, as_fee};
ghost use Rattle.amm_command.specs.Front.{ahead};
ghost use Rattle.amm_command.specs.Spelled.{next_spelled, ArePlain, inner_depth};
ghost use Rattle.amm_command.specs.Rows.{holder_text, asset_text, fee_values};

use super::cursor::Cursor;
use amm_model::{Asset, Holder, PoolName, TokenName, UserName};
use std::alloc::Global;

/// A string, which is its text where its bytes need no escape.
pub fn text<'t>(line: &mut Cursor<'t>) -> Option<&'t [u8]>
    ensures { IfSome result (λ s. escape s.now ≡ s.now
        → ahead line.old ≡ comma ∷ token (tokens.string s.now) ∷ ahead line.new) }
{
    if line.comma() { line.text() } else { None }
}

/// The name of a user.
#[tactic(auto, unfolding(amm_model::specs::Forms::as_user))]
pub fn user(alloc: Global, line: &mut Cursor<'_>) -> Option<UserName>
    ensures text { IfSome result (λ name. ahead line.old
        ≡ comma ∷ token (tokens.string name) ∷ ahead line.new) }
    ensures fits { IfSome result (λ name. as_user (string name) ≡ Ok name) }
{
    let name = text(line)?;
    match UserName::read(alloc, name) {
        Ok(name) => name,
        Err(_) => None,
    }
}

/// The name of a token with no comma before it.
#[tactic(auto, unfolding(amm_model::specs::Forms::as_token))]
pub fn first_token(alloc: Global, line: &mut Cursor<'_>) -> Option<TokenName>
    ensures text { IfSome result (λ name. ahead line.old
        ≡ token (tokens.string name) ∷ ahead line.new) }
    ensures fits { IfSome result (λ name. as_token (string name) ≡ Ok name) }
{
    let name = line.text()?;
    match TokenName::read(alloc, name) {
        Ok(name) => name,
        Err(_) => None,
    }
}

/// The name of a token.
#[tactic(auto, unfolding(amm_model::specs::Forms::as_token))]
pub fn token(alloc: Global, line: &mut Cursor<'_>) -> Option<TokenName>
    ensures text { IfSome result (λ name. ahead line.old
        ≡ comma ∷ token (tokens.string name) ∷ ahead line.new) }
    ensures fits { IfSome result (λ name. as_token (string name) ≡ Ok name) }
{
    let name = text(line)?;
    match TokenName::read(alloc, name) {
        Ok(name) => name,
        Err(_) => None,
    }
}

/// The name of a pool.
#[tactic(auto, unfolding(amm_model::specs::Forms::as_pool))]
pub fn pool(alloc: Global, line: &mut Cursor<'_>) -> Option<PoolName>
    ensures text { IfSome result (λ name. ahead line.old
        ≡ comma ∷ token (tokens.string name) ∷ ahead line.new) }
    ensures fits { IfSome result (λ name. as_pool (string name) ≡ Ok name) }
{
    let name = text(line)?;
    match PoolName::read(alloc, name) {
        Ok(name) => name,
        Err(_) => None,
    }
}

/// A token, or the shares of a pool.
#[tactic(auto, using(crate::proofs::Names::asset_fits))]
pub fn asset(alloc: Global, line: &mut Cursor<'_>) -> Option<Asset>
    ensures text { IfSome result (λ asset. ahead line.old
        ≡ comma ∷ token (tokens.string (asset_text asset)) ∷ ahead line.new) }
    ensures fits { IfSome result (λ asset. as_asset (string (asset_text asset)) ≡ Ok asset) }
{
    let name = text(line)?;
    match Asset::read(alloc, name) {
        Ok(asset) => asset,
        Err(_) => None,
    }
}

/// A user, a pool, a token, or `0`.
#[tactic(auto, using(crate::proofs::Names::holder_fits))]
pub fn holder(alloc: Global, line: &mut Cursor<'_>) -> Option<Holder>
    ensures text { IfSome result (λ holder. ahead line.old
        ≡ comma ∷ token (tokens.string (holder_text holder)) ∷ ahead line.new) }
    ensures fits { IfSome result (λ holder. as_holder (string (holder_text holder)) ≡ Ok holder) }
{
    let name = text(line)?;
    match Holder::read(alloc, name) {
        Ok(holder) => holder,
        Err(_) => None,
    }
}

/// An amount, time, deadline or number.
#[tactic(auto, unfolding(amm_model::specs::Forms::as_amount))]
pub fn amount(line: &mut Cursor<'_>) -> Option<u64>
    ensures text { IfSome result (λ n. ahead line.old
        ≡ comma ∷ token (tokens.number (decimal n)) ∷ ahead line.new) }
    ensures fits { IfSome result (λ n. as_amount (whole n) ≡ Ok n) }
    ensures plain { IfSome result (λ n. n < 2 ^ 64) }
{
    if line.comma() { line.number() } else { None }
}

/// A fee that is not 3.
#[tactic(auto, unfolding(amm_model::specs::Forms::as_fee))]
pub fn fee(line: &mut Cursor<'_>) -> Option<u8>
    ensures text { IfSome result (λ fee. ahead line.old
        ≡ comma ∷ token (tokens.number (decimal fee)) ∷ ahead line.new) }
    ensures fits { IfSome result (λ fee. as_fee (whole fee) ≡ Ok fee) }
    ensures other { IfSome result (λ fee. (fee == 3) ≡ false) }
    ensures small { IfSome result (λ fee. fee < 2 ^ 64) }
{
    if !line.comma() {
        return None;
    }
    match line.number() {
        Some(1) => Some(1),
        Some(10) => Some(10),
        _ => None,
    }
}

/// The fee that may stand behind the values of a pair, and the bracket.
#[tactic(auto, unfolding(amm_model::specs::Forms::as_fee))]
pub fn fee_end(line: &mut Cursor<'_>) -> Option<u8>
    ensures text { IfSome result (λ fee. ahead line.old
        ≡ next_spelled (items_of (fee_values fee)) ++ ahead line.new) }
    ensures fits { IfSome result (λ fee. fee_behind (fee_values fee) ≡ Ok fee) }
    ensures plain { IfSome result (λ fee. ArePlain (fee_values fee)) }
    ensures flat { IfSome result (λ fee. inner_depth (fee_values fee) ≤ 0) }
{
    if line.close() {
        return Some(3);
    }
    let fee = fee(line)?;
    if line.close() { Some(fee) } else { None }
}
