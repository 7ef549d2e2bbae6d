//! A quote of a problem of any parts, performed.
ghost use Rattle.std.specs.Prelude.{◌≡◌, ◌↔◌, Err, IsTrue, OnOk, false, true};
ghost use Rattle.amm_model.specs.declared.fault.Fault.TheVariants.{Refused};
ghost use Rattle.amm_model.specs.declared.fault.Refusal.{Refusal as Code};
ghost use Rattle.amm_model.specs.Legs.{Delivers};
ghost use Rattle.amm_model.specs.Sales.{IsSold};
ghost use Rattle.amm_model.specs.Settlement.{all_as_kept, any_locked, perform_legs};
ghost use Rattle.amm_model.specs.Sound.{IsSound};
ghost use Rattle.amm_state.specs.Tx.{Meets};
ghost use Rattle.amm_settle.specs.Sales.{HasParts, pools_of_quote};

use crate::legs::perform_legs;
use amm_model::{Asset, Fault, Holder, OpenQuote, Part, UserName};
use amm_state::{Book, Mark, Tx};
use std::alloc::Global;

/// Whether a user has the amount of each part.
pub fn has_parts(book: &Book, actor: &UserName, parts: &[Part]) -> bool
    ensures { IsTrue result ↔ HasParts book.now.ledger actor.now parts.now }
{
    let user = Holder::User(*actor);
    for part in parts {
        if book.balance(&Asset::Token(part.token), &user) < part.amount {
            return false;
        }
    }
    true
}

/// Performs the legs of a quote for a user who has the parts of its problem. Then he has exactly
/// what it delivers more.
///
/// To be called where no pool of the legs is lent and each has the reserves and balances that the
/// problem says. Then no code of a leg ever comes, and memory alone can be wanting.
pub fn perform(alloc: Global, tx: &mut Tx, actor: &UserName, quote: &OpenQuote) -> Result<(), Fault>
    requires clean { tx.old.mark ≡ Mark.Clean }
    requires sound { IsSound tx.old.present }
    requires delivers { Delivers quote.now.problem quote.now.route.legs quote.now.delivered }
    requires free { any_locked tx.old.present (pools_of_quote quote.now) ≡ false }
    requires kept { all_as_kept tx.old.present (pools_of_quote quote.now) ≡ true }
    requires parts { HasParts tx.old.present actor.now quote.now.problem.parts }
    ensures meets { Meets tx.old tx.new result (perform_legs tx.old.present actor.now quote.now.problem.pools quote.now.route.legs) }
    ensures sound { OnOk result (IsSound tx.new.present) }
    ensures sold { OnOk result (IsSold tx.old.present tx.new.present actor.now quote.now) }
    ensures codes { (why : Code) → result ≡ Err (Refused why) → ⊥ }
{
    let pools = quote.problem.pools();
    let legs = quote.route.legs.as_slice();
    perform_legs(alloc, tx, actor, pools, legs)
}
