//! The values of which a certificate is made, each read from JSON or refused.
ghost use Rattle.std.specs.Prelude.{◌≡◌, map, IfOk, ◌<◌, ◌^◌};
ghost use Rattle.serde_json.specs.View.{view};
ghost use Rattle.amm_model.specs.Outcome.{Gives};
ghost use Rattle.amm_model.specs.Forms.{as_text, as_list, as_token, as_pool, as_amount};
ghost use Rattle.amm_cert.specs.Rows.{as_unsigned, as_wide, wide_of};

use amm_model::{Fault, PoolName, Refusal, TokenName};
use itoa::Buffer;
use serde_json::Value;
use std::alloc::Global;

/// What is said of a value that is no part of a certificate.
pub const MISFIT: Fault = Fault::Refused(Refusal::BadCommand);

/// The bytes of a string.
pub fn text(value: &Value) -> Result<&str, Fault>
    ensures { Gives (λ text. text.now) result (as_text (view value.now)) }
{
    match value.as_str() {
        Some(text) => Ok(text),
        None => Err(MISFIT),
    }
}

/// The values of an array.
#[tactic(auto, using(crate::proofs::Values::list_viewed))]
pub fn list(value: &Value) -> Result<&[Value], Fault>
    ensures { Gives (λ values. map view values.now) result (as_list (view value.now)) }
{
    match value {
        Value::Array(list) => Ok(list.as_slice()),
        _ => Err(MISFIT),
    }
}

/// The name of a token.
#[tactic(auto, unfolding(amm_model::specs::Forms::as_token))]
pub fn token(alloc: Global, value: &Value) -> Result<TokenName, Fault>
    ensures { Gives (λ name. name) result (as_token (view value.now)) }
{
    let name = text(value)?;
    TokenName::read(alloc, name.as_bytes())?.ok_or(MISFIT)
}

/// The name of a pool, at any fee.
#[tactic(auto, unfolding(amm_model::specs::Forms::as_pool))]
pub fn pool(alloc: Global, value: &Value) -> Result<PoolName, Fault>
    ensures { Gives (λ name. name) result (as_pool (view value.now)) }
{
    let name = text(value)?;
    PoolName::read(alloc, name.as_bytes())?.ok_or(MISFIT)
}

/// A number that is written with no sign, fraction or exponent and is below 2^64.
#[tactic(auto, unfolding(crate::specs::Rows::as_unsigned))]
pub fn whole(value: &Value) -> Result<u64, Fault>
    ensures value { Gives (λ n. n) result (as_unsigned (view value.now)) }
    ensures fits { IfOk result (λ n. n < 2 ^ 64) }
{
    match value.as_u64() {
        Some(n) => Ok(n),
        None => Err(MISFIT),
    }
}

/// An amount: 0 to 2^52-1.
#[tactic(auto, unfolding(amm_model::specs::Forms::as_amount, crate::specs::Rows::as_unsigned))]
pub fn amount(value: &Value) -> Result<u64, Fault>
    ensures { Gives (λ n. n) result (as_amount (view value.now)) }
{
    let n = whole(value)?;
    if n <= 4503599627370495 {
        Ok(n)
    } else {
        Err(MISFIT)
    }
}

/// A number below 2^128, as a string of its decimal digits.
#[tactic(auto, unfolding(crate::specs::Rows::as_wide))]
pub fn wide(value: &Value) -> Result<u128, Fault>
    ensures value { Gives (λ n. n) result (as_wide (view value.now)) }
    ensures fits { IfOk result (λ n. n < 2 ^ 128) }
{
    match wide_number(text(value)?) {
        Some(n) => Ok(n),
        None => Err(MISFIT),
    }
}

/// The number below 2^128 whose decimal digits, without a zero in front, are the text.
fn wide_number(text: &str) -> Option<u128>
    ensures { result ≡ wide_of text.now }
{
    match text.parse::<u128>() {
        Ok(n) => if Buffer::new().format(n) == text {
            Some(n)
        } else {
            None
        },
        Err(_) => None,
    }
}
