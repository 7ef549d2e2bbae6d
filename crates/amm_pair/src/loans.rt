//! Loans: a pool lends under its lock, and is paid back.
ghost use Rattle.std.specs.Prelude.{◌≡◌, ◌≢◌, Some, IfOk, OnOk, OnErr};
ghost use Rattle.amm_model.specs.Ledger.{pair_of};
ghost use Rattle.amm_model.specs.Operations.{lend, open_loan, give_back};
ghost use Rattle.amm_model.specs.Sound.{IsSound, IsOpen, ProductKept};
ghost use Rattle.amm_state.specs.Tx.{Meets};

use crate::halves::{lendable, settle};
use crate::holdings::send_both;
use amm_model::{Fault, Holder, PairRecord, PoolName, SwapReceipt};
use amm_state::{Mark, Tx};
use std::alloc::Global;
use std::marker::Model;

/// A loan that is open: its pool, what went out, and the pair's record, which is locked.
///
/// It must be spent, by `close_loan` or, in a transaction that failed, by `abandon_loan`.
pub struct Loan {
    pool: PoolName,
    out0: u64,
    out1: u64,
    pair: PairRecord,
}

impl Model for Loan {
    ghost use Rattle.amm_model.specs.Pools.{Terms};

    ghost Value = { Terms };

    ghost view = { λ l. record { pool = l.pool; out0 = l.out0; out1 = l.out1; pair = l.pair } };
}

impl Loan {
    /// The pool that lends.
    pub fn pool(&self) -> &PoolName
        ensures { result.now ≡ self.now.pool }
    {
        &self.pool
    }

    /// How much of the first token went out.
    pub fn out0(&self) -> u64
        ensures { result ≡ self.now.out0 }
    {
        self.out0
    }

    /// How much of the second token went out.
    pub fn out1(&self) -> u64
        ensures { result ≡ self.now.out1 }
    {
        self.out1
    }

    /// The pair's record as the loan left it.
    pub fn pair(&self) -> PairRecord
        ensures { result ≡ self.now.pair }
    {
        self.pair
    }
}

/// Locks the pair and sends what it lends.
///
/// Refused, in this order: NO_PAIR, LOCKED, INSUFFICIENT_OUTPUT_AMOUNT, INSUFFICIENT_LIQUIDITY,
/// INVALID_TO.
pub fn open_loan(
    alloc: Global,
    tx: &mut Tx,
    pool: &PoolName,
    out0: u64,
    out1: u64,
    to: &Holder,
) -> Result<Loan, Fault>
    requires clean { tx.old.mark ≡ Mark.Clean }
    requires sound { IsSound tx.old.present }
    ensures meets { Meets tx.old tx.new result (open_loan tx.old.present pool.now out0 out1 to.now) }
    ensures sound { OnOk result (IsSound tx.new.present) }
    ensures open { IfOk result (λ loan. IsOpen tx.new.present loan) }
{
    open_at(alloc, tx, pool, out0, out1, to)
}

// The same; apart so that what follows from its definition is shown once, above.
fn open_at(
    alloc: Global,
    tx: &mut Tx,
    pool: &PoolName,
    out0: u64,
    out1: u64,
    to: &Holder,
) -> Result<Loan, Fault>
    requires clean { tx.old.mark ≡ Mark.Clean }
    requires sound { IsSound tx.old.present }
    ensures { Meets tx.old tx.new result (open_loan tx.old.present pool.now out0 out1 to.now) }
{
    let pair = lend(alloc, tx, pool, out0, out1, to)?;
    Ok(Loan {
        pool: *pool,
        out0,
        out1,
        pair,
    })
}

// Locks the pair and sends what it lends; apart so that the check unfolds its definition.
#[tactic(auto, unfolding(amm_model::specs::Operations::lend))]
fn lend(
    alloc: Global,
    tx: &mut Tx,
    pool: &PoolName,
    out0: u64,
    out1: u64,
    to: &Holder,
) -> Result<PairRecord, Fault>
    requires clean { tx.old.mark ≡ Mark.Clean }
    requires sound { IsSound tx.old.present }
    ensures { Meets tx.old tx.new result (lend tx.old.present pool.now out0 out1 to.now) }
{
    let pair = tx.admit(lendable(tx.book(), pool, out0, out1, to))?;
    let pair = PairRecord {
        locked: true,
        ..pair
    };
    tx.set_pair(alloc, pool, pair)?;
    send_both(alloc, tx, pool, out0, out1, to)?;
    Ok(pair)
}

/// Tests what has come in since the loan was made, and frees the pair.
///
/// Refused, in this order: INSUFFICIENT_INPUT_AMOUNT, K, OVERFLOW. The ledger stays where it is
/// refused.
pub fn close_loan(alloc: Global, tx: &mut Tx, loan: Loan) -> Result<SwapReceipt, Fault>
    requires clean { tx.old.mark ≡ Mark.Clean }
    requires sound { IsSound tx.old.present }
    requires open { IsOpen tx.old.present loan }
    ensures meets { Meets tx.old tx.new result (give_back tx.old.present loan.pool loan.out0 loan.out1) }
    ensures kept { OnErr result (tx.new.present ≡ tx.old.present) }
    ensures sound { OnOk result (IsSound tx.new.present) }
    ensures product { OnOk result (ProductKept tx.old.present tx.new.present loan.pool) }
{
    let Loan {
        pool,
        out0,
        out1,
        pair,
    } = loan;
    close_at(alloc, tx, &pool, &pair, out0, out1)
}

// The same, of the loan's parts; apart so that what follows is shown of them.
fn close_at(
    alloc: Global,
    tx: &mut Tx,
    pool: &PoolName,
    pair: &PairRecord,
    out0: u64,
    out1: u64,
) -> Result<SwapReceipt, Fault>
    requires clean { tx.old.mark ≡ Mark.Clean }
    requires sound { IsSound tx.old.present }
    requires there { pair_of tx.old.present.pairs pool.now ≡ Some pair.now }
    ensures meets { Meets tx.old tx.new result (give_back tx.old.present pool.now out0 out1) }
    ensures kept { OnErr result (tx.new.present ≡ tx.old.present) }
    ensures sound { OnOk result (IsSound tx.new.present) }
    ensures product { OnOk result (ProductKept tx.old.present tx.new.present pool.now) }
{
    settle(alloc, tx, pool, pair, out0, out1)
}

/// Lets a loan go in a transaction that can only be rolled back.
pub fn abandon_loan(tx: &Tx, loan: Loan)
    requires { tx.now.mark ≢ Mark.Clean }
{
    let _ = tx;
    let Loan {
        pool: _,
        out0: _,
        out1: _,
        pair: _,
    } = loan;
}
