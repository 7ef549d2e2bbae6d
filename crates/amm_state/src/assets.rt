//! What each holder has of each asset.
ghost use Rattle.std.specs.Prelude.{◌≡◌, ◌+◌, ◌-◌, ◌<◌, ◌≤◌, OnOk, OnErr, IfOk, IfErr, IsTrue};
ghost use Rattle.std.specs.FinMap as map;
ghost use Rattle.amm_model.specs.declared.fault.Refusal.TheVariants as refusal;
ghost use Rattle.amm_model.specs.Ledger.{amount, sum_held, holdings_of};
ghost use Rattle.amm_model.specs.declared.limits.TheConstants.{AMOUNT_LIMIT};
ghost use Rattle.amm_state.specs.Assets.{with_amount, has_row};
ghost use Rattle.amm_state.specs.Moves.{of_asset, IsMoved};
ghost use Rattle.amm_state.specs.Rows.{Because};

use crate::Seed;
use crate::rows::{AssetRows, Before};
use amm_model::{Fault, Refusal};
use amm_names::{Asset, Holder};
use indexmap::IndexMap;
use std::alloc::Global;
use std::marker::Model;

/// The tables of all assets. Contracts see what is held, and beside it which accounts have a row,
/// which may say 0. A change finds its asset once, and each row once.
#[derive(Drop)]
pub(crate) struct Assets {
    tables: IndexMap<Asset, AssetRows, Seed>,
}

impl Model for Assets {
    ghost use Rattle.amm_state.specs.Assets.{Tables, tables_code, tables_of};

    ghost Value = { Tables };

    ghost coded = { tables_code };

    ghost view = { λ assets. tables_of assets.tables.entries };
}

impl Assets {
    /// Nobody has anything.
    pub fn new(alloc: Global, seed: Seed) -> Assets
        ensures { result ≡ record { holdings = map.empty; rows = map.empty } }
    {
        Assets {
            tables: IndexMap::with_hasher(alloc, seed),
        }
    }

    /// What the holder has of the asset.
    pub fn amount(&self, asset: &Asset, holder: &Holder) -> u64
        ensures amount { result ≡ amount (holdings_of self.now.holdings asset.now) holder.now }
        ensures limit { result ≤ AMOUNT_LIMIT }
    {
        match self.tables.get(asset) {
            Some(rows) => rows.amount(holder),
            None => 0,
        }
    }

    /// What all holders have of the asset.
    pub fn total(&self, asset: &Asset) -> u64
        ensures sum { result ≡ sum_held (holdings_of self.now.holdings asset.now) }
        ensures limit { result ≤ AMOUNT_LIMIT }
    {
        match self.tables.get(asset) {
            Some(rows) => rows.total(),
            None => 0,
        }
    }

    /// Adds n units of the asset at a holder, and gives what it had. `TotalLimit` exactly where the
    /// total would be above 2^52-1.
    pub fn issue(&mut self, alloc: Global, asset: &Asset, to: &Holder, n: u64) -> Result<u64, Fault>
        ensures before { IfOk result (λ before. before ≡ amount (holdings_of self.old.holdings asset.now) to.now) }
        ensures limit { OnOk result (sum_held (holdings_of self.old.holdings asset.now) + n ≤ AMOUNT_LIMIT) }
        ensures ok { IfOk result (λ before. self.new ≡ with_amount self.old asset.now to.now (before + n)) }
        ensures fault { IfErr result (λ fault. Because fault refusal.TotalLimit (AMOUNT_LIMIT < sum_held (holdings_of self.old.holdings asset.now) + n)) }
        ensures err { OnErr result (self.new ≡ self.old) }
    {
        if let Some(rows) = self.tables.get_mut(asset) {
            return rows.issue(to, n);
        }
        let mut rows = AssetRows::new(alloc, *self.tables.hasher());
        let before = rows.issue(to, n)?;
        self.tables.insert(*asset, rows)?;
        Ok(before)
    }

    /// Takes n units of the asset from a holder, and gives what it had. `Funds` exactly where it
    /// has fewer.
    pub fn retire(&mut self, asset: &Asset, from: &Holder, n: u64) -> Result<u64, Fault>
        requires { 0 < n }
        ensures before { IfOk result (λ before. before ≡ amount (holdings_of self.old.holdings asset.now) from.now) }
        ensures funds { IfOk result (λ before. n ≤ before) }
        ensures limit { OnOk result (sum_held (holdings_of self.old.holdings asset.now) ≤ AMOUNT_LIMIT) }
        ensures ok { IfOk result (λ before. self.new ≡ with_amount self.old asset.now from.now (before - n)) }
        ensures fault { IfErr result (λ fault. Because fault refusal.Funds (amount (holdings_of self.old.holdings asset.now) from.now < n)) }
        ensures err { OnErr result (self.new ≡ self.old) }
    {
        let Some(rows) = self.tables.get_mut(asset) else {
            return Err(Fault::Refused(Refusal::Funds));
        };
        rows.retire(from, n)
    }

    /// Moves n units of the asset, and gives what the two had before. `Funds` exactly where the
    /// sender has fewer.
    pub fn move_units(
        &mut self,
        asset: &Asset,
        from: &Holder,
        to: &Holder,
        n: u64,
    ) -> Result<Before, Fault>
        requires { 0 < n }
        ensures moved { IsMoved (of_asset asset.now) self.old self.new from.now to.now n result }
    {
        let Some(rows) = self.tables.get_mut(asset) else {
            return Err(Fault::Refused(Refusal::Funds));
        };
        rows.move_units(from, to, n)
    }

    /// Gives a holder that has a row this amount of the asset.
    pub fn restore(&mut self, asset: &Asset, holder: &Holder, n: u64)
        requires row { IsTrue (has_row self.old.rows asset.now holder.now) }
        requires limit { sum_held (holdings_of self.old.holdings asset.now) - amount (holdings_of self.old.holdings asset.now) holder.now + n ≤ AMOUNT_LIMIT }
        ensures { self.new ≡ with_amount self.old asset.now holder.now n }
    {
        let Some(rows) = self.tables.get_mut(asset) else {
            return;
        };
        rows.restore(holder, n);
    }
}
