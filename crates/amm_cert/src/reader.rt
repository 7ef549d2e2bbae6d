//! Reads a certificate: ten values, the quote over the problem that they spell, or nothing.
ghost use Rattle.std.specs.Prelude.{◌≡◌, ◌↔◌, ◌∷◌, ◌<◌, ◌^◌, [], map, IfOk, IsTrue, Some, ok_or};
ghost use Rattle.serde_json.specs.View.{view};
ghost use Rattle.amm_model.specs.declared.fault.Refusal.TheVariants.{BadJson};
ghost use Rattle.amm_model.specs.declared.route.Quote as quote_view;
ghost use Rattle.amm_model.specs.Outcome.{Gives};
ghost use Rattle.amm_model.specs.Json.{json_value, list};
ghost use Rattle.amm_model.specs.Certificate.{IsCertificateOf, IsValueOf, IsVersionFor};
ghost use Rattle.amm_cert.specs.Finds.{Finds};
ghost use Rattle.amm_cert.specs.Rows.{as_title, heading_of, quote_over};

use crate::form::{MISFIT, list, text, token, whole, wide};
use crate::row::{legs, prices, problem_pools};
use amm_model::{Fault, LegList, Memory, Problem, ProblemPool, Quote, Refusal, Route, TokenName};
use serde_json::Value;
use std::alloc::Global;

/// What stands before the pools.
#[derive(Drop)]
pub struct Head {
    version: u64,
    s: TokenName,
    t: TokenName,
    d: u64,
}

#[tactic(auto, unfolding(crate::specs::Rows::as_title))]
fn titled(title: &Value) -> Result<&str, Fault>
    ensures { Gives (λ text. text.now) result (as_title (view title.now)) }
{
    let text = text(title)?;
    if text == "amm-split-certificate" {
        Ok(text)
    } else {
        Err(MISFIT)
    }
}

fn heading(
    alloc: Global,
    title: &Value,
    version: &Value,
    s: &Value,
    t: &Value,
    d: &Value,
) -> Result<Head, Fault>
    ensures { Gives (λ heading. heading) result (heading_of (view title.now) (view version.now) (view s.now) (view t.now) (view d.now)) }
{
    let _title = titled(title)?;
    Ok(Head {
        version: whole(version)?,
        s: token(alloc, s)?,
        t: token(alloc, t)?,
        d: whole(d)?,
    })
}

/// Whether pools may be written in a version: 1 where each has the fee of 3, 2 always.
fn is_version_for(version: u64, pools: &[ProblemPool]) -> bool
    ensures { IsTrue result ↔ IsVersionFor version pools.now }
{
    version == 2 || (version == 1 && pools.iter().all(|pool| pool.name.fee() == 3))
}

/// The quote over a problem that is read already.
fn quote_over(
    alloc: Global,
    problem: Problem,
    price_list: &Value,
    leg_list: &Value,
    delivered: &Value,
    bound: &Value,
) -> Result<Quote, Fault>
    ensures value { Gives (λ quote. quote) result (quote_over problem (view price_list.now) (view leg_list.now) (view delivered.now) (view bound.now)) }
    ensures delivered { IfOk result (λ quote. quote.delivered < 2 ^ 64) }
    ensures bound { IfOk result (λ quote. quote.bound < 2 ^ 128) }
{
    let prices = prices(alloc, problem.tokens(), price_list)?;
    let legs = legs(alloc, problem.pools(), leg_list)?;
    let delivered = whole(delivered)?;
    let bound = wide(bound)?;
    Ok(Quote {
        problem,
        prices,
        route: Route {
            legs: LegList::from_vec(legs),
        },
        delivered,
        bound,
    })
}

/// The quote whose certificate these ten values are.
fn quote(
    alloc: Global,
    title: &Value,
    version: &Value,
    s: &Value,
    t: &Value,
    d: &Value,
    pool_list: &Value,
    price_list: &Value,
    leg_list: &Value,
    delivered: &Value,
    bound: &Value,
) -> Result<Quote, Fault>
    ensures { Finds (λ quote. IsValueOf (list (view title.now ∷ view version.now ∷ view s.now ∷ view t.now ∷ view d.now
        ∷ view pool_list.now ∷ view price_list.now ∷ view leg_list.now ∷ view delivered.now ∷ view bound.now ∷ [])) quote) result }
{
    let head = heading(alloc, title, version, s, t, d)?;
    let pools = problem_pools(alloc, pool_list)?;
    if !is_version_for(head.version, &pools) {
        return Err(MISFIT);
    }
    match Problem::from_parts(alloc, head.s, head.t, head.d, pools)? {
        Some(problem) => quote_over(alloc, problem, price_list, leg_list, delivered, bound),
        None => Err(MISFIT),
    }
}

fn quote_of_list(alloc: Global, values: &[Value]) -> Result<Quote, Fault>
    ensures { Finds (λ quote. IsValueOf (list (map view values.now)) quote) result }
{
    match values {
        [
            title,
            version,
            s,
            t,
            d,
            pools,
            prices,
            legs,
            delivered,
            bound,
        ] => {
            quote(
                alloc, title, version, s, t, d, pools, prices, legs, delivered, bound,
            )
        }
        _ => Err(MISFIT),
    }
}

fn quote_of_value(alloc: Global, value: &Value) -> Result<Quote, Fault>
    ensures { Finds (λ quote. IsValueOf (view value.now) quote) result }
{
    let values = list(value)?;
    quote_of_list(alloc, values)
}

fn json(alloc: Global, bytes: &[u8]) -> Result<Value, Fault>
    ensures { Gives view result (ok_or (json_value bytes.now) BadJson) }
{
    match Value::from_slice(alloc, bytes) {
        Ok(value) => Ok(value),
        Err(e) => {
            if e.is_memory() {
                Err(Fault::Memory)
            } else {
                Err(Fault::Refused(Refusal::BadJson))
            }
        }
    }
}

fn quote_of(alloc: Global, bytes: &[u8]) -> Result<Quote, Fault>
    ensures { Finds (λ quote. IsCertificateOf bytes.now quote) result }
{
    let value = json(alloc, bytes)?;
    quote_of_value(alloc, &value)
}

/// The quote of which the bytes are a certificate; None exactly where they are a certificate of
/// none. Memory is the only error.
pub fn read(alloc: Global, bytes: &[u8]) -> Result<Option<Quote>, Memory>
    ensures { IfOk result (λ found. (quote : quote_view.Quote) → (found ≡ Some quote) ↔ IsCertificateOf bytes.now quote) }
{
    match quote_of(alloc, bytes) {
        Ok(quote) => Ok(Some(quote)),
        Err(Fault::Refused(_)) => Ok(None),
        Err(Fault::Memory) => Err(Memory),
    }
}
