//! The two halves of a swap and of a loan: what a pool may lend, and the test of what comes back.
ghost use Rattle.std.specs.Prelude.{◌≡◌, ◌≤◌, Some, IsSome, IfOk, OnErr};
ghost use Rattle.amm_model.specs.Ledger.{pair_of};
ghost use Rattle.amm_model.specs.Operations.{came_to, is_token_of, lending_pair, settle_swap};
ghost use Rattle.amm_model.specs.Sound.{IsSmall, IsSound};
ghost use Rattle.amm_state.specs.Tx.{Meets};

use crate::holdings::{held0, held1};
use crate::records::{free_pair, updated};
use amm_model::{Fault, Holder, PairRecord, PoolName, Refusal, SwapReceipt};
use amm_pool::admits;
use amm_state::{Book, Mark, Tx};
use std::alloc::Global;

/// The pair, if it may lend these outputs to the receiver.
#[tactic(auto, unfolding(amm_model::specs::Operations::lending_pair))]
pub(crate) fn lendable(
    book: &Book,
    pool: &PoolName,
    out0: u64,
    out1: u64,
    to: &Holder,
) -> Result<PairRecord, Refusal>
    requires { IsSound book.now.ledger }
    ensures value { result ≡ lending_pair book.now.ledger pool.now out0 out1 to.now }
    ensures there { IfOk result (λ pair. pair_of book.now.ledger.pairs pool.now ≡ Some pair) }
    ensures small { IfOk result (λ pair. IsSmall pair) }
{
    let pair = free_pair(book, pool)?;
    if out0 == 0 && out1 == 0 {
        return Err(Refusal::InsufficientOutputAmount);
    }
    if pair.r0 <= out0 || pair.r1 <= out1 {
        return Err(Refusal::InsufficientLiquidity);
    }
    if is_token_of(pool, to) {
        return Err(Refusal::InvalidTo);
    }
    Ok(pair)
}

// Whether the holder is one of the pool's tokens.
fn is_token_of(pool: &PoolName, to: &Holder) -> bool
    ensures { result ≡ is_token_of pool.now to.now }
{
    match to {
        Holder::Token(name) => name == pool.token0() || name == pool.token1(),
        _ => false,
    }
}

/// Tests what has come in since this record, locked or not, lent, and frees the pair.
#[tactic(auto, unfolding(amm_model::specs::Operations::settle_swap))]
pub(crate) fn settle(
    alloc: Global,
    tx: &mut Tx,
    pool: &PoolName,
    pair: &PairRecord,
    out0: u64,
    out1: u64,
) -> Result<SwapReceipt, Fault>
    requires clean { tx.old.mark ≡ Mark.Clean }
    requires small { IsSmall pair.now }
    requires there { IsSome (pair_of tx.old.present.pairs pool.now) }
    ensures meets { Meets tx.old tx.new result (settle_swap tx.old.present pool.now pair.now out0 out1) }
    ensures kept { OnErr result (tx.new.present ≡ tx.old.present) }
{
    let b0 = held0(tx.book(), pool);
    let b1 = held1(tx.book(), pool);
    let paid = came_in(pair, b0, b1, out0, out1);
    if paid.in0 == 0 && paid.in1 == 0 {
        return Err(tx.refuse(Refusal::InsufficientInputAmount));
    }
    if !admits(pool.fee(), pair.r0, pair.r1, b0, b1, paid.in0, paid.in1) {
        return Err(tx.refuse(Refusal::K));
    }
    let new = tx.admit(updated(pair, tx.book().time(), b0, b1))?;
    let free = PairRecord {
        locked: false,
        ..new
    };
    tx.set_pair(alloc, pool, free)?;
    Ok(paid)
}

// What has come in since the outputs went out.
fn came_in(pair: &PairRecord, b0: u64, b1: u64, out0: u64, out1: u64) -> SwapReceipt
    ensures value { result ≡ came_to pair.now b0 b1 out0 out1 }
    ensures within { (result.in0 ≤ b0) × (result.in1 ≤ b1) }
{
    SwapReceipt {
        in0: b0.saturating_sub(pair.r0.saturating_sub(out0)),
        in1: b1.saturating_sub(pair.r1.saturating_sub(out1)),
        out0,
        out1,
    }
}
