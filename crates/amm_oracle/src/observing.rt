//! An observation is made.
ghost use Rattle.std.specs.Prelude.{◌≡◌, OnOk};
ghost use Rattle.amm_model.specs.Oracle.{observe};
ghost use Rattle.amm_model.specs.Sound.{IsSound};
ghost use Rattle.amm_state.specs.declared.mark.Mark.{Mark};
ghost use Rattle.amm_state.specs.Tx.{Meets};

use amm_model::{Fault, PoolName};
use amm_pair::sync;
use amm_state::{Mark, Tx};
use std::alloc::Global;

/// Brings a pool up to the time, as by a sync, keeps an observation of it, and answers its number,
/// counted from 1.
///
/// Refused, in this order: NO_PAIR, LOCKED, OVERFLOW, OBSERVATION_LIMIT.
pub fn observe(alloc: Global, tx: &mut Tx, pool: &PoolName) -> Result<u64, Fault>
    requires clean { tx.old.mark ≡ Mark.Clean }
    requires sound { IsSound tx.old.present }
    ensures meets { Meets tx.old tx.new result (observe tx.old.present pool.now) }
    ensures sound { OnOk result (IsSound tx.new.present) }
{
    sync(alloc, tx, pool)?;
    tx.add_observation(alloc, pool)
}
