//! What a user pays a pool before an operation on it.
ghost use Rattle.std.specs.Prelude.{◌≡◌, OnOk};
ghost use Rattle.amm_names.specs.declared.holder.Holder.TheVariants as holders;
ghost use Rattle.amm_model.specs.Postings.{transfer};
ghost use Rattle.amm_model.specs.Sound.{IsSound};
ghost use Rattle.amm_state.specs.Tx.{Meets};

use amm_model::{Asset, Fault, Holder, PoolName, UserName};
use amm_state::{Mark, Tx};
use std::alloc::Global;

/// Sends n units of an asset from a user to a pool. FUNDS exactly where he has fewer.
pub fn pay(
    alloc: Global,
    tx: &mut Tx,
    asset: &Asset,
    actor: &UserName,
    pool: &PoolName,
    n: u64,
) -> Result<(), Fault>
    requires clean { tx.old.mark ≡ Mark.Clean }
    requires sound { IsSound tx.old.present }
    ensures meets { Meets tx.old tx.new result (transfer tx.old.present asset.now (holders.User actor.now) (holders.Pool pool.now) n) }
    ensures sound { OnOk result (IsSound tx.new.present) }
{
    tx.move_units(alloc, asset, &Holder::User(*actor), &Holder::Pool(*pool), n)
}
