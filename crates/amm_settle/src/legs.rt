//! The legs of a quote, performed one after the other.
ghost use Rattle.std.specs.Prelude.{◌≡◌, ◌<◌, OnOk, length};
ghost use Rattle.amm_names.specs.declared.holder.Asset.TheVariants as assets;
ghost use Rattle.amm_model.specs.Legs.{token_in};
ghost use Rattle.amm_model.specs.Settlement.{perform_leg, perform_legs};
ghost use Rattle.amm_model.specs.Sound.{IsSound};
ghost use Rattle.amm_state.specs.Tx.{Meets};
ghost use Rattle.amm_settle.specs.Places.{AreThere};

use amm_model::{Asset, Fault, Holder, Leg, ProblemPool, UserName};
use amm_pair::{pay, swap};
use amm_state::{Mark, Tx};
use std::alloc::Global;

/// Performs the legs, which are over these pools.
#[tactic(auto, unfolding(amm_model::specs::Settlement::perform_legs))]
pub(crate) fn perform_legs(
    alloc: Global,
    tx: &mut Tx,
    actor: &UserName,
    pools: &[ProblemPool],
    legs: &[Leg],
) -> Result<(), Fault>
    requires clean { tx.old.mark ≡ Mark.Clean }
    requires sound { IsSound tx.old.present }
    requires there { AreThere pools.now legs.now }
    ensures meets { Meets tx.old tx.new result (perform_legs tx.old.present actor.now pools.now legs.now) }
    ensures sound { OnOk result (IsSound tx.new.present) }
{
    let Some((leg, later)) = legs.split_first() else {
        return Ok(());
    };
    perform_leg(alloc, tx, actor, pools, leg)?;
    perform_legs(alloc, tx, actor, pools, later)
}

// The input goes from the user to the pool, and the pool swaps the output to him.
#[tactic(auto, unfolding(amm_model::specs::Settlement::perform_leg))]
fn perform_leg(
    alloc: Global,
    tx: &mut Tx,
    actor: &UserName,
    pools: &[ProblemPool],
    leg: &Leg,
) -> Result<(), Fault>
    requires clean { tx.old.mark ≡ Mark.Clean }
    requires sound { IsSound tx.old.present }
    requires there { leg.now.pool < length pools.now }
    ensures meets { Meets tx.old tx.new result (perform_leg tx.old.present actor.now pools.now leg.now) }
    ensures sound { OnOk result (IsSound tx.new.present) }
{
    let pool = &pools[leg.pool as usize].name;
    let asset = asset_in(pools, leg);
    pay(alloc, tx, &asset, actor, pool, leg.input)?;
    let out0 = if leg.zero_in { 0 } else { leg.output };
    let out1 = if leg.zero_in { leg.output } else { 0 };
    swap(alloc, tx, pool, out0, out1, &Holder::User(*actor))?;
    Ok(())
}

// The token that a leg puts in.
fn asset_in(pools: &[ProblemPool], leg: &Leg) -> Asset
    requires { leg.now.pool < length pools.now }
    ensures { result ≡ assets.Token (token_in pools.now leg.now) }
{
    let pool = &pools[leg.pool as usize].name;
    if leg.zero_in {
        Asset::Token(*pool.token0())
    } else {
        Asset::Token(*pool.token1())
    }
}
