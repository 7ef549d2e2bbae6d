//! The price oracle: observations are kept, and what they tell is asked for.
ghost use Rattle.std.specs.Prelude.{◌≡◌};
ghost use Rattle.amm_model.specs.Meaning.{observe_answer, query};
ghost use Rattle.amm_model.specs.Oracle.{average, consult, observe, window};
ghost use Rattle.amm_model.specs.Sound.{IsSound};
ghost use Rattle.amm_model.specs.declared.reply.Answer.TheVariants as answers;
ghost use Rattle.amm_state.specs.Tx.{Meets};

use amm_model::{Answer, Fault, PoolName, Refusal, TokenName};
use amm_state::{Mark, Tx};
use std::alloc::Global;

/// Observes a pool, and tells what is kept of it under which number.
pub(crate) fn observe(alloc: Global, tx: &mut Tx, pool: &PoolName) -> Result<Answer, Fault>
    requires clean { tx.old.mark ≡ Mark.Clean }
    requires sound { IsSound tx.old.present }
    ensures meets { Meets tx.old tx.new result (observe_answer (observe tx.old.present pool.now)) }
{
    let number = amm_oracle::observe(alloc, tx, pool)?;
    // It is there: it was kept just now.
    let Some(observation) = tx.book().observation(number) else {
        return Err(tx.refuse(Refusal::NoObservation));
    };
    Ok(Answer::Observe {
        number,
        observation: *observation,
    })
}

/// The average prices between two observations.
pub(crate) fn average(tx: &mut Tx, first: u64, second: u64) -> Result<Answer, Fault>
    requires clean { tx.old.mark ≡ Mark.Clean }
    ensures meets { Meets tx.old tx.new result (query tx.old.present answers.Average (average tx.old.present first second)) }
{
    let averages = tx.admit(amm_oracle::average(tx.book(), first, second))?;
    Ok(Answer::Average(averages))
}

/// What an amount of a token comes to at the average price between two observations.
pub(crate) fn consult(
    tx: &mut Tx,
    first: u64,
    second: u64,
    token: &TokenName,
    n: u64,
) -> Result<Answer, Fault>
    requires clean { tx.old.mark ≡ Mark.Clean }
    ensures meets { Meets tx.old tx.new result (query tx.old.present answers.Consult (consult tx.old.present first second token.now n)) }
{
    let n = tx.admit(amm_oracle::consult(tx.book(), first, second, token, n))?;
    Ok(Answer::Consult { n })
}

/// The average prices of a pool over at least so many seconds.
pub(crate) fn window(tx: &mut Tx, pool: &PoolName, seconds: u64) -> Result<Answer, Fault>
    requires clean { tx.old.mark ≡ Mark.Clean }
    requires sound { IsSound tx.old.present }
    ensures meets { Meets tx.old tx.new result (query tx.old.present answers.Window (window tx.old.present pool.now seconds)) }
{
    let found = tx.admit(amm_oracle::window(tx.book(), pool, seconds))?;
    Ok(Answer::Window(found))
}
