//! Assets that can be spoken of, and units that go from the actor.
ghost use Rattle.std.specs.Prelude.{◌≡◌, OnOk};
ghost use Rattle.amm_model.specs.Meaning.{known_asset, send};
ghost use Rattle.amm_model.specs.Sound.{IsSound};
ghost use Rattle.amm_state.specs.Tx.{Meets};

use amm_model::{Answer, Asset, Fault, Holder, Refusal, UserName};
use amm_state::{Book, Mark, Tx};
use std::alloc::Global;

/// Whether the asset can be spoken of: a listed token, or the shares of a pool that has a pair.
///
/// Refused: UNKNOWN_TOKEN or NO_PAIR.
#[tactic(auto, unfolding(amm_model::specs::Meaning::known_asset))]
pub fn known(book: &Book, asset: &Asset) -> Result<(), Refusal>
    ensures { result ≡ known_asset book.now.ledger asset.now }
{
    match asset {
        Asset::Token(token) if !book.has_token(token) => Err(Refusal::UnknownToken),
        Asset::Share(pool) if book.pair(pool).is_none() => Err(Refusal::NoPair),
        _ => Ok(()),
    }
}

/// Units of the asset from the actor to the holder.
///
/// Refused, in this order: UNKNOWN_TOKEN or NO_PAIR, FUNDS.
pub(crate) fn send(
    alloc: Global,
    tx: &mut Tx,
    actor: &UserName,
    asset: &Asset,
    to: &Holder,
    n: u64,
) -> Result<Answer, Fault>
    requires clean { tx.old.mark ≡ Mark.Clean }
    requires sound { IsSound tx.old.present }
    ensures meets { Meets tx.old tx.new result (send tx.old.present actor.now asset.now to.now n) }
    ensures sound { OnOk result (IsSound tx.new.present) }
{
    send_at(alloc, tx, actor, asset, to, n)
}

// The same, as its definition says.
#[tactic(auto, unfolding(amm_model::specs::Meaning::send))]
fn send_at(
    alloc: Global,
    tx: &mut Tx,
    actor: &UserName,
    asset: &Asset,
    to: &Holder,
    n: u64,
) -> Result<Answer, Fault>
    requires { tx.old.mark ≡ Mark.Clean }
    ensures { Meets tx.old tx.new result (send tx.old.present actor.now asset.now to.now n) }
{
    tx.admit(known(tx.book(), asset))?;
    tx.move_units(alloc, asset, &Holder::User(*actor), to, n)?;
    Ok(Answer::Transfer)
}
