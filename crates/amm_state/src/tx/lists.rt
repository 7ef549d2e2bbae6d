//! The listed tokens, the pairs, and the kept quotes and observations.
ghost use Rattle.std.specs.Prelude.{◌≡◌, ◌++◌, ◌∷◌, [], OnOk, OnErr, false, None, IsSome};
ghost use Rattle.amm_model.specs.Ledger.{with_pair, with_quote, with_observation, is_listed, pair_of, zero_pair};
ghost use Rattle.std.specs.Option.{unwrap_or};
ghost use Rattle.amm_model.specs.Oracle.{add_observation};
ghost use Rattle.amm_model.specs.Outcome.{ledger_only};
ghost use Rattle.amm_model.specs.Postings.{list_token, add_pair, add_quote};
ghost use Rattle.amm_state.specs.declared.mark.Mark.{Mark};
ghost use Rattle.amm_state.specs.Book.{with_token, with_pairs};
ghost use Rattle.amm_state.specs.Tx.{Meets};

use super::Tx;
use crate::journal::Undo;
use amm_model::limits::{OBSERVATION_LIMIT, PAIR_LIMIT, QUOTE_LIMIT, TOKEN_LIMIT};
use amm_model::{Fault, Observation, PairRecord, Quote, Refusal};
use amm_names::{Memory, PoolName, TokenName};
use std::alloc::Global;

impl Tx {
    /// Lists the token, if it is not listed. `TokenLimit` exactly where 64 others are.
    pub fn list_token(&mut self, alloc: Global, token: &TokenName) -> Result<(), Fault>
        requires { self.old.mark ≡ Mark.Clean }
        ensures { Meets self.old self.new result (list_token self.old.present token.now) }
    {
        if self.book.has_token(token) {
            return Ok(());
        }
        if self.book.token_count() >= TOKEN_LIMIT {
            return Err(self.refuse(Refusal::TokenLimit));
        }
        match self.add_token(token) {
            Ok(()) => Ok(()),
            Err(_) => Err(self.lack()),
        }
    }

    // Lists the token, and notes that it was not.
    fn add_token(&mut self, token: &TokenName) -> Result<(), Memory>
        requires { is_listed self.old.present.tokens token.now ≡ false }
        ensures ok { OnOk result (self.new ≡ record self.old { present = with_token self.old.present token.now }) }
        ensures err { OnErr result (self.new ≡ self.old) }
    {
        self.journal.reserve(1)?;
        self.book.add_token(token)?;
        self.journal.note(Undo::Token);
        Ok(())
    }

    /// Adds a pair with nothing in it, last. `PairLimit` exactly where 256 are.
    pub fn add_pair(&mut self, alloc: Global, pool: &PoolName) -> Result<(), Fault>
        requires clean { self.old.mark ≡ Mark.Clean }
        requires absent { pair_of self.old.present.pairs pool.now ≡ None }
        ensures { Meets self.old self.new result (add_pair self.old.present pool.now) }
    {
        if self.book.pair_count() >= PAIR_LIMIT {
            return Err(self.refuse(Refusal::PairLimit));
        }
        match self.put_pair(pool) {
            Ok(()) => Ok(()),
            Err(_) => Err(self.lack()),
        }
    }

    // Adds a pair, and notes that it was not there.
    fn put_pair(&mut self, pool: &PoolName) -> Result<(), Memory>
        requires { pair_of self.old.present.pairs pool.now ≡ None }
        ensures ok { OnOk result (self.new ≡ record self.old { present = with_pairs self.old.present (self.old.present.pairs ++ (pool.now, zero_pair) ∷ []) }) }
        ensures err { OnErr result (self.new ≡ self.old) }
    {
        self.journal.reserve(1)?;
        self.book.add_pair(pool)?;
        self.journal.note(Undo::NewPair);
        Ok(())
    }

    /// Writes the record of a pair. Only want of memory refuses, and then the ledger stays.
    pub fn set_pair(&mut self, alloc: Global, pool: &PoolName, new: PairRecord) -> Result<(), Fault>
        requires clean { self.old.mark ≡ Mark.Clean }
        requires there { IsSome (pair_of self.old.present.pairs pool.now) }
        ensures meets { Meets self.old self.new result (ledger_only (with_pair self.old.present pool.now new)) }
        ensures kept { OnErr result (self.new.present ≡ self.old.present) }
    {
        match self.write_pair(pool, new) {
            Ok(()) => Ok(()),
            Err(_) => Err(self.lack()),
        }
    }

    // Writes the record of a pair, and notes the old one.
    fn write_pair(&mut self, pool: &PoolName, new: PairRecord) -> Result<(), Memory>
        requires { IsSome (pair_of self.old.present.pairs pool.now) }
        ensures ok { OnOk result (self.new ≡ record self.old { present = with_pair self.old.present pool.now new }) }
        ensures err { OnErr result (self.new ≡ self.old) }
    {
        self.journal.reserve(1)?;
        let before = self.book.replace_pair(pool, new).unwrap();
        self.journal.note(Undo::Pair(*pool, before));
        Ok(())
    }

    /// Keeps a quote, and gives its number. `QuoteLimit` exactly where 256 are kept.
    pub fn add_quote(&mut self, alloc: Global, quote: Quote) -> Result<u64, Fault>
        requires { self.old.mark ≡ Mark.Clean }
        ensures { Meets self.old self.new result (add_quote self.old.present quote) }
    {
        if self.book.quote_count() >= QUOTE_LIMIT {
            return Err(self.refuse(Refusal::QuoteLimit));
        }
        let number = self.book.quote_count() as u64 + 1;
        match self.put_quote(quote) {
            Ok(()) => Ok(number),
            Err(_) => Err(self.lack()),
        }
    }

    // Keeps a quote, and notes that it was not there.
    fn put_quote(&mut self, quote: Quote) -> Result<(), Memory>
        ensures ok { OnOk result (self.new ≡ record self.old { present = with_quote self.old.present quote }) }
        ensures err { OnErr result (self.new ≡ self.old) }
    {
        self.journal.reserve(1)?;
        self.book.add_quote(quote)?;
        self.journal.note(Undo::NewQuote);
        Ok(())
    }

    /// Keeps an observation of a pool by its record as it stands, and gives its number.
    /// `ObservationLimit` exactly where 4096 are kept.
    #[tactic(auto, unfolding(amm_model::specs::Oracle::add_observation))]
    pub fn add_observation(&mut self, alloc: Global, pool: &PoolName) -> Result<u64, Fault>
        requires clean { self.old.mark ≡ Mark.Clean }
        requires there { IsSome (pair_of self.old.present.pairs pool.now) }
        ensures { Meets self.old self.new result (add_observation self.old.present pool.now (unwrap_or (pair_of self.old.present.pairs pool.now) zero_pair)) }
    {
        let count = self.book.observation_count();
        if count >= OBSERVATION_LIMIT as u64 {
            return Err(self.refuse(Refusal::ObservationLimit));
        }
        let pair = *self.book.pair(pool).unwrap();
        let observation = Observation {
            pool: *pool,
            time: self.book.time(),
            acc0: pair.acc0,
            acc1: pair.acc1,
        };
        match self.put_observation(alloc, observation) {
            Ok(()) => Ok(count + 1),
            Err(_) => Err(self.lack()),
        }
    }

    // Keeps an observation, and notes that it was not there.
    fn put_observation(&mut self, alloc: Global, observation: Observation) -> Result<(), Memory>
        ensures ok { OnOk result (self.new ≡ record self.old { present = with_observation self.old.present observation }) }
        ensures err { OnErr result (self.new ≡ self.old) }
    {
        self.journal.reserve(1)?;
        self.book.add_observation(alloc, observation)?;
        self.journal.note(Undo::NewObservation);
        Ok(())
    }
}
