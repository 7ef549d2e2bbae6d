//! The tables of the ledger.
ghost use Rattle.std.specs.Prelude.{◌≡◌, ◌+◌, ◌-◌, ◌<◌, ◌≤◌, ◌++◌, ◌∷◌, [], false, take, OnOk, OnErr, IfOk, IfErr, IfSome, IfNone, Some, IsTrue, length, None, slice_get};
ghost use Rattle.std.specs.FinMap as map;
ghost use Rattle.amm_model.specs.declared.fault.Refusal.TheVariants as refusal;
ghost use Rattle.amm_model.specs.Ledger.{balance, total, is_listed, opening_ledger, pair_of, quote_of, observation_at, set_pair, zero_pair, with_fee_to, with_quote, with_observation, with_setter};
ghost use Rattle.amm_model.specs.declared.limits.TheConstants.{AMOUNT_LIMIT};
ghost use Rattle.amm_state.specs.Assets.{has_row};
ghost use Rattle.amm_state.specs.Book.{with_balance, with_ledger, with_token, without_token, without_quote, without_observation, with_pairs, with_time};
ghost use Rattle.amm_state.specs.Moves.{of_book, IsMoved};
ghost use Rattle.amm_state.specs.Rows.{Because};
ghost use Rattle.std.specs.List.{list_any};
ghost use Rattle.std.specs.Map.{values_of};
ghost use Rattle.std.specs.Map.Iter.{deref_pair};
ghost use Rattle.std.specs.Option.{option_copied, option_map};
ghost use Rattle.amm_model.specs.Observations.{AreInTime, is_before};
ghost use Rattle.amm_model.specs.Oracle.{last_from};

use crate::Seed;
use crate::assets::Assets;
use crate::observations::Observations;
use crate::rows::Before;
use amm_model::{Fault, Observation, PairRecord, Quote};
use amm_names::{Asset, Holder, Memory, PoolName, TokenName, UserName};
use indexmap::{IndexMap, IndexSet};
use std::alloc::Global;
use std::marker::Model;
use std::mem::replace;

/// The tables of the ledger: who holds what, the listed tokens, the pairs, the kept quotes and
/// observations, the protocol's settings and the time. Contracts see the ledger, and beside it
/// which accounts have a row, which may say 0.
#[derive(Drop)]
pub struct Book {
    assets: Assets,
    tokens: IndexSet<TokenName, Seed>,
    pairs: IndexMap<PoolName, PairRecord, Seed>,
    quotes: Vec<Quote>,
    observations: Observations,
    fee_to: Holder,
    setter: UserName,
    time: u64,
}

impl Model for Book {
    ghost use Rattle.amm_state.specs.Book.{BookView, book_code};

    ghost Value = { BookView };

    ghost coded = { book_code };

    ghost view = { λ book. record { ledger = record { holdings = book.assets.holdings; tokens = book.tokens.keys; pairs = book.pairs.entries; fee_to = book.fee_to; setter = book.setter; time = book.time; quotes = book.quotes.items; observations = book.observations }; rows = book.assets.rows } };
}

// Writes the record of a pool, if it has a pair, and gives the one that stood there.
fn replace_record(
    pairs: &mut IndexMap<PoolName, PairRecord, Seed>,
    pool: &PoolName,
    pair: PairRecord,
) -> Option<PairRecord>
    ensures before { result ≡ pair_of pairs.old.entries pool.now }
    ensures written { pairs.new.entries ≡ set_pair pairs.old.entries pool.now pair }
{
    match pairs.get_mut(pool) {
        Some(record) => Some(replace(record, pair)),
        None => None,
    }
}

impl Book {
    /// A book in which nobody has anything.
    pub(crate) fn new(alloc: Global, setter: UserName, seed: Seed) -> Book
        ensures { result ≡ record { ledger = with_setter opening_ledger setter; rows = map.empty } }
    {
        Book {
            assets: Assets::new(alloc, seed),
            tokens: IndexSet::with_hasher(alloc, seed),
            pairs: IndexMap::with_hasher(alloc, seed),
            quotes: Vec::new(alloc),
            observations: Observations::new(alloc, seed),
            fee_to: Holder::Zero,
            setter,
            time: 0,
        }
    }

    /// What the holder has of the asset, at most 2^52-1.
    pub fn balance(&self, asset: &Asset, holder: &Holder) -> u64
        ensures amount { result ≡ balance self.now.ledger asset.now holder.now }
        ensures within { result ≤ total self.now.ledger asset.now }
        ensures limit { result ≤ AMOUNT_LIMIT }
    {
        self.assets.amount(asset, holder)
    }

    /// What all holders have of the asset.
    pub fn total(&self, asset: &Asset) -> u64
        ensures sum { result ≡ total self.now.ledger asset.now }
        ensures limit { result ≤ AMOUNT_LIMIT }
    {
        self.assets.total(asset)
    }

    /// Whether the token is listed.
    pub fn has_token(&self, token: &TokenName) -> bool
        ensures { result ≡ is_listed self.now.ledger.tokens token.now }
    {
        self.tokens.contains(token)
    }

    /// How many tokens are listed.
    pub fn token_count(&self) -> usize
        ensures { result ≡ length self.now.ledger.tokens }
    {
        self.tokens.len()
    }

    /// The record of the pool, if it has a pair.
    pub fn pair(&self, pool: &PoolName) -> Option<&PairRecord>
        ensures { option_copied result ≡ pair_of self.now.ledger.pairs pool.now }
    {
        self.pairs.get(pool)
    }

    /// The pair at a place in the order of creation.
    pub fn pair_at(&self, place: usize) -> Option<(&PoolName, &PairRecord)>
        ensures { option_map deref_pair result ≡ slice_get self.now.ledger.pairs place }
    {
        self.pairs.get_index(place)
    }

    /// How many pairs there are.
    pub fn pair_count(&self) -> usize
        ensures { result ≡ length self.now.ledger.pairs }
    {
        self.pairs.len()
    }

    /// Whether some pair is locked.
    pub fn any_locked(&self) -> bool
        ensures { result ≡ list_any (λ pair. pair.locked) (values_of self.now.ledger.pairs) }
    {
        self.pairs.values().any(|pair| pair.locked)
    }

    /// The quote with this number, counted from 1, if it is kept.
    pub fn quote(&self, number: u64) -> Option<&Quote>
        ensures some { IfSome result (λ quote. quote_of self.now.ledger.quotes number ≡ Some quote.now) }
        ensures none { IfNone result (quote_of self.now.ledger.quotes number ≡ None) }
    {
        let before = number.checked_sub(1)?;
        self.quotes.get(before as usize)
    }

    /// How many quotes are kept.
    pub fn quote_count(&self) -> usize
        ensures { result ≡ length self.now.ledger.quotes }
    {
        self.quotes.len()
    }

    /// The observation with this number, counted from 1, if it is kept.
    pub fn observation(&self, number: u64) -> Option<&Observation>
        ensures some { IfSome result (λ observation. observation_at self.now.ledger.observations number ≡ Some observation.now) }
        ensures none { IfNone result (observation_at self.now.ledger.observations number ≡ None) }
    {
        self.observations.get(number)
    }

    /// How many observations are kept.
    pub fn observation_count(&self) -> u64
        ensures { result ≡ length self.now.ledger.observations }
    {
        self.observations.len() as u64
    }

    /// The number of the pool's last observation at this time or before. It takes no memory, and a
    /// number of steps that grows with the logarithm of how many observations the pool has.
    pub fn last_observation(&self, pool: &PoolName, latest: u64) -> Option<u64>
        requires { AreInTime self.now.ledger.time self.now.ledger.observations }
        ensures { result ≡ option_map (λ found. found.0) (last_from 1 (is_before pool.now 0 latest) self.now.ledger.observations) }
    {
        self.observations.last_by(pool, latest)
    }

    /// Who receives the protocol's fee.
    pub fn fee_to(&self) -> &Holder
        ensures { result.now ≡ self.now.ledger.fee_to }
    {
        &self.fee_to
    }

    /// The user who may set the receiver of the fee.
    pub fn setter(&self) -> &UserName
        ensures { result.now ≡ self.now.ledger.setter }
    {
        &self.setter
    }

    /// The time, a number that never falls.
    pub fn time(&self) -> u64
        ensures { result ≡ self.now.ledger.time }
    {
        self.time
    }

    /// Adds n units of the asset at a holder, and gives what it had. `TotalLimit` exactly where the
    /// total would be above 2^52-1.
    pub(crate) fn issue(
        &mut self,
        alloc: Global,
        asset: &Asset,
        to: &Holder,
        n: u64,
    ) -> Result<u64, Fault>
        ensures before { IfOk result (λ before. before ≡ balance self.old.ledger asset.now to.now) }
        ensures limit { OnOk result (total self.old.ledger asset.now + n ≤ AMOUNT_LIMIT) }
        ensures ok { IfOk result (λ before. self.new ≡ with_balance self.old asset.now to.now (before + n)) }
        ensures fault { IfErr result (λ fault. Because fault refusal.TotalLimit (AMOUNT_LIMIT < total self.old.ledger asset.now + n)) }
        ensures err { OnErr result (self.new ≡ self.old) }
    {
        self.assets.issue(alloc, asset, to, n)
    }

    /// Takes n units of the asset from a holder, and gives what it had. `Funds` exactly where it
    /// has fewer.
    pub(crate) fn retire(&mut self, asset: &Asset, from: &Holder, n: u64) -> Result<u64, Fault>
        requires { 0 < n }
        ensures before { IfOk result (λ before. before ≡ balance self.old.ledger asset.now from.now) }
        ensures funds { IfOk result (λ before. n ≤ before) }
        ensures limit { OnOk result (total self.old.ledger asset.now ≤ AMOUNT_LIMIT) }
        ensures ok { IfOk result (λ before. self.new ≡ with_balance self.old asset.now from.now (before - n)) }
        ensures fault { IfErr result (λ fault. Because fault refusal.Funds (balance self.old.ledger asset.now from.now < n)) }
        ensures err { OnErr result (self.new ≡ self.old) }
    {
        self.assets.retire(asset, from, n)
    }

    /// Moves n units of the asset, and gives what the two had before. `Funds` exactly where the
    /// sender has fewer.
    pub(crate) fn move_units(
        &mut self,
        asset: &Asset,
        from: &Holder,
        to: &Holder,
        n: u64,
    ) -> Result<Before, Fault>
        requires { 0 < n }
        ensures moved { IsMoved (of_book asset.now) self.old self.new from.now to.now n result }
    {
        self.assets.move_units(asset, from, to, n)
    }

    /// Gives a holder that has a row this amount of the asset.
    pub(crate) fn restore_balance(&mut self, asset: &Asset, holder: &Holder, n: u64)
        requires row { IsTrue (has_row self.old.rows asset.now holder.now) }
        requires limit { total self.old.ledger asset.now - balance self.old.ledger asset.now holder.now + n ≤ AMOUNT_LIMIT }
        ensures { self.new ≡ with_balance self.old asset.now holder.now n }
    {
        self.assets.restore(asset, holder, n);
    }

    /// Lists the token last.
    pub(crate) fn add_token(&mut self, token: &TokenName) -> Result<(), Memory>
        requires { is_listed self.old.ledger.tokens token.now ≡ false }
        ensures ok { OnOk result (self.new ≡ with_ledger self.old (with_token self.old.ledger token.now)) }
        ensures err { OnErr result (self.new ≡ self.old) }
    {
        match self.tokens.insert(*token) {
            Ok(_) => Ok(()),
            Err(_) => Err(Memory),
        }
    }

    /// Takes the last token off the list.
    pub(crate) fn remove_last_token(&mut self)
        ensures { self.new ≡ with_ledger self.old (without_token self.old.ledger) }
    {
        let _ = self.tokens.pop();
    }

    /// Adds a pair with nothing in it, last.
    pub(crate) fn add_pair(&mut self, pool: &PoolName) -> Result<(), Memory>
        requires { pair_of self.old.ledger.pairs pool.now ≡ None }
        ensures ok { OnOk result (self.new ≡ with_ledger self.old (with_pairs self.old.ledger (self.old.ledger.pairs ++ (pool.now, zero_pair) ∷ []))) }
        ensures err { OnErr result (self.new ≡ self.old) }
    {
        let pair = PairRecord {
            r0: 0,
            r1: 0,
            last: 0,
            acc0: 0,
            acc1: 0,
            k_last: 0,
            locked: false,
        };
        match self.pairs.insert(*pool, pair) {
            Ok(_) => Ok(()),
            Err(_) => Err(Memory),
        }
    }

    /// Takes the last pair off the list.
    pub(crate) fn remove_last_pair(&mut self)
        ensures { self.new ≡ with_ledger self.old (with_pairs self.old.ledger (take (length self.old.ledger.pairs - 1) self.old.ledger.pairs)) }
    {
        let _ = self.pairs.pop();
    }

    /// Writes the record of a pool, if it has a pair, and gives the one that stood there.
    pub(crate) fn replace_pair(&mut self, pool: &PoolName, pair: PairRecord) -> Option<PairRecord>
        ensures before { result ≡ pair_of self.old.ledger.pairs pool.now }
        ensures written { self.new ≡ with_ledger self.old (with_pairs self.old.ledger (set_pair self.old.ledger.pairs pool.now pair)) }
    {
        replace_record(&mut self.pairs, pool, pair)
    }

    /// Keeps a quote, the last.
    pub(crate) fn add_quote(&mut self, quote: Quote) -> Result<(), Memory>
        ensures ok { OnOk result (self.new ≡ with_ledger self.old (with_quote self.old.ledger quote)) }
        ensures err { OnErr result (self.new ≡ self.old) }
    {
        self.quotes.push(quote)?;
        Ok(())
    }

    /// Gives up the quote that was kept last.
    pub(crate) fn remove_last_quote(&mut self)
        ensures { self.new ≡ with_ledger self.old (without_quote self.old.ledger) }
    {
        let _ = self.quotes.pop();
    }

    /// Keeps an observation, the last.
    pub(crate) fn add_observation(
        &mut self,
        alloc: Global,
        observation: Observation,
    ) -> Result<(), Memory>
        ensures ok { OnOk result (self.new ≡ with_ledger self.old (with_observation self.old.ledger observation)) }
        ensures err { OnErr result (self.new ≡ self.old) }
    {
        self.observations.push(alloc, observation)
    }

    /// Gives up the observation that was kept last.
    pub(crate) fn remove_last_observation(&mut self)
        ensures { self.new ≡ with_ledger self.old (without_observation self.old.ledger) }
    {
        self.observations.pop();
    }

    pub(crate) fn set_fee_to(&mut self, to: Holder)
        ensures { self.new ≡ with_ledger self.old (with_fee_to self.old.ledger to) }
    {
        self.fee_to = to;
    }

    pub(crate) fn set_setter(&mut self, to: UserName)
        ensures { self.new ≡ with_ledger self.old (with_setter self.old.ledger to) }
    {
        self.setter = to;
    }

    pub(crate) fn set_time(&mut self, time: u64)
        ensures { self.new ≡ with_ledger self.old (with_time self.old.ledger time) }
    {
        self.time = time;
    }
}
