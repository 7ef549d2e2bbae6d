//! What the kept observations tell. No query takes memory.
ghost use Rattle.std.specs.Prelude.{◌≡◌, ok_or};
ghost use Rattle.amm_model.specs.declared.fault.Refusal.TheVariants as refusal;
ghost use Rattle.amm_model.specs.Ledger.{observation_at};
ghost use Rattle.amm_model.specs.Oracle.{average, consult, last_before, window};
ghost use Rattle.amm_model.specs.Sound.{IsSound};

use crate::averages::averages_between;
use crate::worth::consult_between;
use amm_model::{Averages, Observation, PoolName, Refusal, TokenName, WindowAnswer};
use amm_state::Book;

// The observation with this number.
fn numbered(book: &Book, number: u64) -> Result<Observation, Refusal>
    ensures { result ≡ ok_or (observation_at book.now.ledger.observations number) refusal.NoObservation }
{
    match book.observation(number) {
        Some(observation) => Ok(*observation),
        None => Err(Refusal::NoObservation),
    }
}

// The number of the pool's last observation that was made at least so many seconds before a time,
// with the observation.
fn last_before(
    book: &Book,
    pool: &PoolName,
    seconds: u64,
    time: u64,
) -> Result<(u64, Observation), Refusal>
    requires { IsSound book.now.ledger }
    ensures { result ≡ ok_or (last_before book.now.ledger pool.now seconds time) refusal.NoObservation }
{
    let Some(latest) = time.checked_sub(seconds) else {
        return Err(Refusal::NoObservation);
    };
    let Some(number) = book.last_observation(pool, latest) else {
        return Err(Refusal::NoObservation);
    };
    let observation = numbered(book, number)?;
    Ok((number, observation))
}

/// Both average prices, with 48 binary places, between the observations with two numbers.
///
/// Refused, in this order: NO_OBSERVATION, BAD_WINDOW.
#[tactic(auto, unfolding(amm_model::specs::Oracle::average))]
pub fn average(book: &Book, i: u64, j: u64) -> Result<Averages, Refusal>
    ensures { result ≡ average book.now.ledger i j }
{
    let first = numbered(book, i)?;
    let second = numbered(book, j)?;
    averages_between(&first, &second)
}

/// What an amount of a token comes to in the other token of a pool, at the average price between
/// the observations with two numbers, rounded down once: at most 2^52-1. (Uniswap v2 periphery,
/// ExampleOracleSimple.consult)
///
/// Refused, in this order: NO_OBSERVATION, BAD_WINDOW, UNKNOWN_TOKEN, AMOUNT_LIMIT.
#[tactic(auto, unfolding(amm_model::specs::Oracle::consult))]
pub fn consult(book: &Book, i: u64, j: u64, token: &TokenName, amount: u64) -> Result<u64, Refusal>
    ensures { result ≡ consult book.now.ledger i j token.now amount }
{
    let first = numbered(book, i)?;
    let second = numbered(book, j)?;
    consult_between(&first, &second, token, amount)
}

/// Both average prices of a pool over a window that ends with its last observation and begins with
/// its last one at least so many seconds before.
///
/// Refused, in this order: NO_PAIR, ZERO_AMOUNT, NO_OBSERVATION, BAD_WINDOW.
#[tactic(auto, unfolding(amm_model::specs::Oracle::window))]
pub fn window(book: &Book, pool: &PoolName, seconds: u64) -> Result<WindowAnswer, Refusal>
    requires { IsSound book.now.ledger }
    ensures { result ≡ window book.now.ledger pool.now seconds }
{
    if book.pair(pool).is_none() {
        return Err(Refusal::NoPair);
    }
    if seconds == 0 {
        return Err(Refusal::ZeroAmount);
    }
    let (second, end) = last_before(book, pool, 0, book.time())?;
    let (first, start) = last_before(book, pool, seconds, end.time)?;
    let averages = averages_between(&start, &end)?;
    Ok(WindowAnswer {
        first,
        second,
        averages,
    })
}
