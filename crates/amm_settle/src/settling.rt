//! A quote, settled.
ghost use Rattle.std.specs.Prelude.{◌≡◌, Err, IfOk, OnOk};
ghost use Rattle.amm_model.specs.declared.fault.Fault.TheVariants.{Refused};
ghost use Rattle.amm_model.specs.declared.fault.Refusal.{Refusal as Code};
ghost use Rattle.amm_model.specs.Legs.{Delivers};
ghost use Rattle.amm_model.specs.Routing.{open_view};
ghost use Rattle.amm_model.specs.Settlement.{IsCodeOfSettling, IsDue, IsPaidAsQuoted, settle};
ghost use Rattle.amm_model.specs.Sound.{IsSound};
ghost use Rattle.amm_state.specs.Tx.{Meets};
ghost use Rattle.amm_settle.specs.Places.{AreThere};

use crate::as_quoted::{all_as_kept, any_locked};
use crate::legs::perform_legs;
use amm_model::{Asset, Fault, Holder, ProblemPool, Quote, Refusal, UserName};
use amm_state::{Mark, Tx};
use std::alloc::Global;

/// Settles a quote for a user, and gives what it delivers, in units of the quote's target.
///
/// Refused, in this order: EXPIRED, where the time is past the deadline; LOCKED, where a pool of
/// its legs is lent; STALE, where one has not the reserves and balances that were quoted; FUNDS,
/// where the user has less than the quote was asked for. No code of a leg ever comes, and none at
/// all where the settlement is due.
pub fn settle(
    alloc: Global,
    tx: &mut Tx,
    actor: &UserName,
    quote: &Quote,
    deadline: u64,
) -> Result<u64, Fault>
    requires clean { tx.old.mark ≡ Mark.Clean }
    requires sound { IsSound tx.old.present }
    requires delivers { Delivers (open_view quote.now.problem) quote.now.route.legs quote.now.delivered }
    ensures meets { Meets tx.old tx.new result (settle tx.old.present actor.now quote.now deadline) }
    ensures sound { OnOk result (IsSound tx.new.present) }
    ensures told { IfOk result (λ delivered. delivered ≡ quote.now.delivered) }
    ensures paid { OnOk result (IsPaidAsQuoted tx.old.present tx.new.present actor.now quote.now) }
    ensures due { (why : Code) → result ≡ Err (Refused why) → ¬ IsDue tx.old.present actor.now quote.now deadline }
    ensures codes { (why : Code) → result ≡ Err (Refused why) → IsCodeOfSettling why }
{
    let pools = quote.problem.pools();
    settle_over(alloc, tx, actor, quote, pools, deadline)
}

// The same, where only the places of the legs' pools are known.
#[tactic(auto, unfolding(amm_model::specs::Settlement::settle))]
fn settle_over(
    alloc: Global,
    tx: &mut Tx,
    actor: &UserName,
    quote: &Quote,
    pools: &[ProblemPool],
    deadline: u64,
) -> Result<u64, Fault>
    requires clean { tx.old.mark ≡ Mark.Clean }
    requires sound { IsSound tx.old.present }
    requires pools { pools.now ≡ quote.now.problem.pools }
    requires there { AreThere pools.now quote.now.route.legs }
    ensures meets { Meets tx.old tx.new result (settle tx.old.present actor.now quote.now deadline) }
    ensures sound { OnOk result (IsSound tx.new.present) }
{
    let legs = quote.route.legs.as_slice();
    if deadline < tx.book().time() {
        return Err(tx.refuse(Refusal::Expired));
    }
    if any_locked(tx.book(), pools, legs) {
        return Err(tx.refuse(Refusal::Locked));
    }
    if !all_as_kept(tx.book(), pools, legs) {
        return Err(tx.refuse(Refusal::Stale));
    }
    let asset = Asset::Token(*quote.problem.s());
    if tx.book().balance(&asset, &Holder::User(*actor)) < quote.problem.d() {
        return Err(tx.refuse(Refusal::Funds));
    }
    perform_legs(alloc, tx, actor, pools, legs)?;
    Ok(quote.delivered)
}
