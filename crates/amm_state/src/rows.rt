//! What each holder has of one asset.
ghost use Rattle.std.specs.Prelude.{◌≡◌, ◌+◌, ◌-◌, ◌<◌, ◌≤◌, ◌^◌, OnOk, OnErr, IfOk, IfErr, IfSome, IfNone, IsOk, IsTrue, is_some};
ghost use Rattle.std.specs.FinSet as set;
ghost use Rattle.indexmap.specs.IndexMap.{spare};
ghost use Rattle.amm_model.specs.declared.fault.Refusal.TheVariants as refusal;
ghost use Rattle.amm_model.specs.Ledger.{amount, sum_held};
ghost use Rattle.amm_model.specs.declared.limits.TheConstants.{AMOUNT_LIMIT};
ghost use Rattle.amm_state.specs.Moves.{of_rows, IsMoved};
ghost use Rattle.amm_state.specs.Rows.{table_of, empty_table, with_row, Because};

use crate::Seed;
use amm_model::limits::AMOUNT_LIMIT;
use amm_model::{Fault, Refusal};
use amm_names::{Holder, Memory};
use indexmap::IndexMap;
use std::alloc::Global;
use std::marker::Model;
use std::mem::replace;

/// The rows of one asset, and the sum of their amounts.
#[derive(Drop)]
pub(crate) struct AssetRows {
    total: u64,
    rows: IndexMap<Holder, u64, Seed>,
}

impl Model for AssetRows {
    ghost use Rattle.std.specs.Prelude.{◌≡◌, ◌≤◌};
    ghost use Rattle.amm_model.specs.Ledger.{sum_held};
    ghost use Rattle.amm_model.specs.declared.limits.TheConstants.{AMOUNT_LIMIT};
    ghost use Rattle.amm_state.specs.Rows.{AssetTable, asset_table_code, table_of, held_of};

    ghost Value = { AssetTable };

    ghost coded = { asset_table_code };

    ghost view = { λ table. table_of table.rows.entries };

    ghost invariant = { λ table. (table.total ≡ sum_held (held_of table.rows.entries)) × (table.total ≤ AMOUNT_LIMIT) };
}

/// What two holders had before units went from one to the other; where they are the same, the
/// receiver's is what was left.
#[derive(Clone, Copy, Drop)]
pub(crate) struct Before {
    pub sender: u64,
    pub receiver: u64,
}

// Writes the row of a holder, if it has one, and gives what stood there.
fn replace_amount(rows: &mut IndexMap<Holder, u64, Seed>, holder: &Holder, n: u64) -> Option<u64>
    ensures found { is_some result ≡ set.contains (table_of rows.old.entries).rows holder.now }
    ensures before { IfSome result (λ before. before ≡ amount (table_of rows.old.entries).held holder.now) }
    ensures written { IfSome result (λ _. table_of rows.new.entries ≡ with_row (table_of rows.old.entries) holder.now n) }
{
    match rows.get_mut(holder) {
        Some(amount) => Some(replace(amount, n)),
        None => None,
    }
}

// Takes n units from a holder that has so many, and gives what it had.
fn take_units(rows: &mut IndexMap<Holder, u64, Seed>, from: &Holder, n: u64) -> Option<u64>
    requires { 0 < n }
    ensures before { IfSome result (λ before. before ≡ amount (table_of rows.old.entries).held from.now) }
    ensures funds { IfSome result (λ before. n ≤ before) }
    ensures taken { IfSome result (λ before. table_of rows.new.entries ≡ with_row (table_of rows.old.entries) from.now (before - n)) }
    ensures short { IfNone result (amount (table_of rows.old.entries).held from.now < n) }
    ensures unchanged { IfNone result (rows.new.entries ≡ rows.old.entries) }
    ensures room { spare rows.new ≡ spare rows.old }
{
    let Some(amount) = rows.get_mut(from) else {
        return None;
    };
    let before = *amount;
    if before < n {
        return None;
    }
    *amount = before - n;
    Some(before)
}

// Adds n units at a holder, and gives what it had. A row that is there takes no memory.
fn add_units(rows: &mut IndexMap<Holder, u64, Seed>, to: &Holder, n: u64) -> Result<u64, Memory>
    requires { amount (table_of rows.old.entries).held to.now + n ≤ AMOUNT_LIMIT }
    ensures before { IfOk result (λ before. before ≡ amount (table_of rows.old.entries).held to.now) }
    ensures added { IfOk result (λ before. table_of rows.new.entries ≡ with_row (table_of rows.old.entries) to.now (before + n)) }
    ensures err { OnErr result (rows.new.entries ≡ rows.old.entries) }
    ensures succeeds { 0 < spare rows.old → IsOk result }
{
    if let Some(amount) = rows.get_mut(to) {
        let before = *amount;
        *amount = before + n;
        return Ok(before);
    }
    rows.insert(*to, n)?;
    Ok(0)
}

impl AssetRows {
    pub fn new(alloc: Global, seed: Seed) -> AssetRows
        ensures { result ≡ empty_table }
    {
        AssetRows {
            total: 0,
            rows: IndexMap::with_hasher(alloc, seed),
        }
    }

    pub fn amount(&self, holder: &Holder) -> u64
        ensures amount { result ≡ amount self.now.held holder.now }
        ensures limit { result ≤ AMOUNT_LIMIT }
    {
        match self.rows.get(holder) {
            Some(amount) => *amount,
            None => 0,
        }
    }

    pub fn total(&self) -> u64
        ensures sum { result ≡ sum_held self.now.held }
        ensures limit { result ≤ AMOUNT_LIMIT }
    {
        self.total
    }

    /// Adds n units at a holder, and gives what it had. `TotalLimit` exactly where the total would
    /// be above 2^52-1.
    pub fn issue(&mut self, to: &Holder, n: u64) -> Result<u64, Fault>
        ensures before { IfOk result (λ before. before ≡ amount self.old.held to.now) }
        ensures limit { OnOk result (sum_held self.old.held + n ≤ AMOUNT_LIMIT) }
        ensures ok { IfOk result (λ before. self.new ≡ with_row self.old to.now (before + n)) }
        ensures fault { IfErr result (λ fault. Because fault refusal.TotalLimit (AMOUNT_LIMIT < sum_held self.old.held + n)) }
        ensures err { OnErr result (self.new ≡ self.old) }
    {
        if n > AMOUNT_LIMIT - self.total {
            return Err(Fault::Refused(Refusal::TotalLimit));
        }
        let before = add_units(&mut self.rows, to, n)?;
        self.total += n;
        Ok(before)
    }

    /// Takes n units from a holder, and gives what it had. `Funds` exactly where it has fewer.
    pub fn retire(&mut self, from: &Holder, n: u64) -> Result<u64, Fault>
        requires { 0 < n }
        ensures before { IfOk result (λ before. before ≡ amount self.old.held from.now) }
        ensures funds { IfOk result (λ before. n ≤ before) }
        ensures limit { OnOk result (sum_held self.old.held ≤ AMOUNT_LIMIT) }
        ensures ok { IfOk result (λ before. self.new ≡ with_row self.old from.now (before - n)) }
        ensures fault { IfErr result (λ fault. Because fault refusal.Funds (amount self.old.held from.now < n)) }
        ensures err { OnErr result (self.new ≡ self.old) }
    {
        let Some(before) = take_units(&mut self.rows, from, n) else {
            return Err(Fault::Refused(Refusal::Funds));
        };
        self.total -= n;
        Ok(before)
    }

    /// Moves n units, and gives what the two had before. `Funds` exactly where the sender has
    /// fewer.
    pub fn move_units(&mut self, from: &Holder, to: &Holder, n: u64) -> Result<Before, Fault>
        requires { 0 < n }
        ensures moved { IsMoved of_rows self.old self.new from.now to.now n result }
    {
        // With room for a new row nothing can fail once the sender's is written.
        self.rows.reserve(1)?;
        let Some(sender) = take_units(&mut self.rows, from, n) else {
            return Err(Fault::Refused(Refusal::Funds));
        };
        let receiver = add_units(&mut self.rows, to, n).unwrap();
        Ok(Before { sender, receiver })
    }

    /// Gives a holder that has a row this amount.
    pub fn restore(&mut self, holder: &Holder, n: u64)
        requires row { IsTrue (set.contains self.old.rows holder.now) }
        requires limit { sum_held self.old.held - amount self.old.held holder.now + n ≤ AMOUNT_LIMIT }
        ensures { self.new ≡ with_row self.old holder.now n }
    {
        let before = replace_amount(&mut self.rows, holder, n).unwrap();
        self.total = self.total - before + n;
    }
}
