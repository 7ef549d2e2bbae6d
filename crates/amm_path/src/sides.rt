//! The pool of two tokens at a fee, seen from the one that goes in.
ghost use Rattle.std.specs.Prelude.{◌≡◌, ◌≤◌, IfOk};
ghost use Rattle.amm_model.specs.Swap.{IsFee};
ghost use Rattle.amm_model.specs.Outcome.{Gives};
ghost use Rattle.amm_model.specs.declared.limits.TheConstants.{RESERVE_LIMIT};
ghost use Rattle.amm_model.specs.Router.{side_of, seen_from};
ghost use Rattle.amm_model.specs.Sound.{IsSound};

use amm_model::{Fault, PairRecord, PoolName, Refusal, Side, TokenName};
use amm_state::Book;
use std::alloc::Global;

/// The pool, and its reserves in the order of the tokens. IDENTICAL where the tokens are equal,
/// NO_PAIR where the pair is not there.
#[tactic(auto, unfolding(amm_model::specs::Router::side_of))]
pub(crate) fn side_of(
    alloc: Global,
    book: &Book,
    from: &TokenName,
    to: &TokenName,
    fee: u8,
) -> Result<Side, Fault>
    requires sound { IsSound book.now.ledger }
    requires fee { IsFee fee }
    ensures gives { Gives (λ side. side) result (side_of book.now.ledger from.now to.now fee) }
    ensures small { IfOk result (λ side. (side.rin ≤ RESERVE_LIMIT) × (side.rout ≤ RESERVE_LIMIT)) }
{
    let Some(pool) = PoolName::of(alloc, from, to, fee)? else {
        return Err(Fault::Refused(Refusal::Identical));
    };
    let Some(pair) = book.pair(&pool) else {
        return Err(Fault::Refused(Refusal::NoPair));
    };
    Ok(seen_from(pool, from < to, pair))
}

// The pair, seen from the token that goes in.
fn seen_from(pool: PoolName, zero_in: bool, pair: &PairRecord) -> Side
    requires { (pair.now.r0 ≤ RESERVE_LIMIT) × (pair.now.r1 ≤ RESERVE_LIMIT) }
    ensures value { result ≡ seen_from pool zero_in pair.now }
    ensures small { (result.rin ≤ RESERVE_LIMIT) × (result.rout ≤ RESERVE_LIMIT) }
{
    let (rin, rout) = if zero_in {
        (pair.r0, pair.r1)
    } else {
        (pair.r1, pair.r0)
    };
    Side {
        pool,
        zero_in,
        rin,
        rout,
    }
}
