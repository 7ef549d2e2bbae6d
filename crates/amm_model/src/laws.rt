//! What the words of the ledger mean, as laws over all ledgers. The functions do nothing.
ghost use Rattle.std.specs.Prelude.{ℕ, ◌≡◌, ◌≢◌, ◌+◌, ◌↔◌, true};
ghost use Rattle.amm_names.specs.declared.holder.Holder.{Holder};
ghost use Rattle.amm_names.specs.declared.holder.Asset.{Asset};
ghost use Rattle.amm_names.specs.Order.{same_holder, same_asset};
ghost use Rattle.amm_model.specs.Ledger.{Ledger, balance, total, set_balance};

/// Two holders that the order calls equal are one holder, and so it is with assets.
pub fn equal_accounts_are_one()
    ensures holders { (a b : Holder) → (same_holder a b ≡ true) ↔ (a ≡ b) }
    ensures assets { (a b : Asset) → (same_asset a b ≡ true) ↔ (a ≡ b) }
{}

/// Where one balance is set, it is what it was set to, and every other stays. The asset's total
/// moves with it, and that of every other asset stays.
pub fn one_balance_changes()
    ensures here { (ledger : Ledger) (asset : Asset) (holder : Holder) (n : ℕ) → balance (set_balance ledger asset holder n) asset holder ≡ n }
    ensures holders { (ledger : Ledger) (asset : Asset) (holder : Holder) (n : ℕ) (other : Holder) → other ≢ holder →
        balance (set_balance ledger asset holder n) asset other ≡ balance ledger asset other }
    ensures assets { (ledger : Ledger) (asset : Asset) (holder : Holder) (n : ℕ) (other : Asset) (any : Holder) → other ≢ asset →
        balance (set_balance ledger asset holder n) other any ≡ balance ledger other any }
    ensures total { (ledger : Ledger) (asset : Asset) (holder : Holder) (n : ℕ) →
        total (set_balance ledger asset holder n) asset + balance ledger asset holder ≡ total ledger asset + n }
    ensures totals { (ledger : Ledger) (asset : Asset) (holder : Holder) (n : ℕ) (other : Asset) → other ≢ asset →
        total (set_balance ledger asset holder n) other ≡ total ledger other }
{}
