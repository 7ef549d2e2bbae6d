//! The record of a pair, as it is and as an update leaves it.
ghost use Rattle.std.specs.Prelude.{◌≡◌, ◌≤◌, Some, IfOk};
ghost use Rattle.amm_model.specs.Ledger.{pair_of};
ghost use Rattle.amm_model.specs.Operations.{free_pair, updated_record_to};
ghost use Rattle.amm_model.specs.Pools.{supply};
ghost use Rattle.amm_model.specs.declared.limits.TheConstants.{RESERVE_LIMIT};
ghost use Rattle.amm_model.specs.Sound.{IsSound, IsSmall, IsCovered};
ghost use Rattle.amm_model.specs.Formulas.{IsBacked};

use amm_model::limits::RESERVE_LIMIT;
use amm_model::{PairRecord, PoolName, Refusal};
use amm_pool::accumulate;
use amm_state::Book;

/// The pair of the pool, if it is there and not locked.
pub(crate) fn free_pair(book: &Book, pool: &PoolName) -> Result<PairRecord, Refusal>
    requires { IsSound book.now.ledger }
    ensures value { result ≡ free_pair book.now.ledger pool.now }
    ensures there { IfOk result (λ pair. pair_of book.now.ledger.pairs pool.now ≡ Some pair) }
    ensures small { IfOk result (λ pair. IsSmall pair) }
    ensures covered { IfOk result (λ pair. IsCovered book.now.ledger pool.now pair) }
    ensures backed { IfOk result (λ pair. IsBacked (supply book.now.ledger pool.now) pair.r0 pair.r1 pair.k_last) }
{
    match book.pair(pool) {
        None => Err(Refusal::NoPair),
        Some(pair) => {
            if pair.locked {
                return Err(Refusal::Locked);
            }
            Ok(*pair)
        }
    }
}

/// The record with these balances as its reserves, if they are at most 2^48-1.
#[tactic(auto, unfolding(amm_model::specs::Operations::updated_record_to))]
pub(crate) fn updated(pair: &PairRecord, time: u64, b0: u64, b1: u64) -> Result<PairRecord, Refusal>
    ensures value { result ≡ updated_record_to pair.now time b0 b1 }
    ensures reserves { IfOk result (λ new. (new.r0 ≤ RESERVE_LIMIT) × (new.r1 ≤ RESERVE_LIMIT)) }
{
    if b0 > RESERVE_LIMIT || b1 > RESERVE_LIMIT {
        return Err(Refusal::Overflow);
    }
    Ok(PairRecord {
        r0: b0,
        r1: b1,
        ..accumulate(pair, time)
    })
}
