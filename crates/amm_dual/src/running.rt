//! A problem and prices that change one by one, with the worth of each pool at them.
ghost use Rattle.std.specs.Prelude.{◌≡◌, ◌≢◌, ℕ, List, ◌+◌, ◌*◌, ◌/◌, ◌<◌, ◌≤◌, ◌^◌, length, map, slice_set, slice_index, slice_index_or, sum_by, IfOk};
ghost use Rattle.amm_model.specs.Routing.{ArePrices, HasReserves, IsOpenProblem, fee_of, no_pool, places_of};
ghost use Rattle.amm_model.specs.Bound.{bound_of, part_value, pool_worth, worth_of};
ghost use Rattle.amm_dual.specs.Nexts.{AreNexts, IsNext, IsNextOfBoth};
ghost use Rattle.amm_dual.specs.Running.{IsBalance, RunningView, after};

use crate::changes::{Change, Changes, price_after, worth_after};
use crate::nexts::{Nexts, nexts_of};
use amm_bound::{parts_value, worth_at};
use amm_model::{Memory, OpenProblem, Prices, ProblemPool, TokenPlaces};
use std::alloc::Global;
use std::marker::Model;

/// A problem and prices, with the worth of each pool at them.
#[derive(Drop)]
pub struct Running<'p> {
    problem: &'p OpenProblem,
    prices: Vec<u64>,
    worths: Vec<u128>,
    total: u128,
    nexts: Vec<Nexts>,
}

/// What some pools are worth after changes, and what they were worth before.
#[derive(Clone, Copy, Drop)]
pub struct Balance {
    pub gained: u128,
    pub lost: u128,
}

impl<'p> Model for Running<'p> {
    ghost use Rattle.std.specs.Prelude.{◌≡◌, ◌≤◌, ◌^◌, length, map, sum_by};
    ghost use Rattle.amm_model.specs.Routing.{ArePrices, IsOpenProblem};
    ghost use Rattle.amm_model.specs.Bound.{pool_worth};
    ghost use Rattle.amm_dual.specs.Nexts.{AreNexts};
    ghost use Rattle.amm_dual.specs.Running.{RunningView};

    ghost Value = { RunningView };

    ghost view = { λ r. record { problem = r.problem.now; prices = r.prices.items } };

    ghost invariant = { λ r.
        IsOpenProblem r.problem.now × ArePrices r.prices.items × (length r.prices.items ≡ length r.problem.now.tokens)
        × (r.worths.items ≡ map (pool_worth r.problem.now.tokens r.prices.items) r.problem.now.pools)
        × (r.total ≡ sum_by (pool_worth r.problem.now.tokens r.prices.items) r.problem.now.pools) × (r.total ≤ 2 ^ 107) × AreNexts r.problem.now r.nexts.items };
}

impl<'p> Running<'p> {
    /// At these prices.
    pub fn new(
        alloc: Global,
        problem: &'p OpenProblem,
        prices: &Prices,
    ) -> Result<Running<'p>, Memory>
        requires { length prices.now ≡ length problem.now.tokens }
        ensures problem { IfOk result (λ running. running.problem ≡ problem.now) }
        ensures prices { IfOk result (λ running. running.prices ≡ prices.now) }
    {
        let list = prices.as_slice();
        let worths = worths_of(alloc, problem, list)?;
        let total = total_of(problem, list, &worths);
        Ok(Running {
            problem,
            prices: Vec::from_slice(alloc, list)?,
            worths,
            total,
            nexts: nexts_of(alloc, problem)?,
        })
    }

    /// Gives one token another price.
    pub fn set(&mut self, token: usize, price: u64)
        requires token { token < length self.old.prices }
        requires price { (1 ≤ price) × (price < 2 ^ 40) }
        ensures problem { self.new.problem ≡ self.old.problem }
        ensures prices { self.new.prices ≡ slice_set self.old.prices token price }
    {
        let problem = self.problem;
        let pools = problem.pools();
        let places = problem.places();
        self.prices[token] = price;
        for i in 0..pools.len() {
            self.worths[i] = refreshed(self.worths[i], &pools[i], places[i], token, &self.prices);
        }
        self.total = total_of(problem, &self.prices, &self.worths);
    }

    /// The problem.
    pub fn problem(&self) -> &OpenProblem
        ensures same { result.now ≡ self.now.problem }
        ensures many { length self.now.prices ≡ length self.now.problem.tokens }
        ensures ranges { ArePrices self.now.prices }
    {
        self.problem
    }

    /// The price of a token.
    pub fn price(&self, token: usize) -> u64
        requires { token < length self.now.prices }
        ensures value { result ≡ slice_index self.now.prices token }
        ensures range { (1 ≤ result) × (result < 2 ^ 40) }
        ensures ranges { ArePrices self.now.prices }
    {
        self.prices[token]
    }

    /// The worth of a pool at the prices as set.
    pub fn worth(&self, i: usize) -> u128
        requires { i < length self.now.problem.pools }
        ensures value { result ≡ pool_worth self.now.problem.tokens self.now.prices (slice_index_or self.now.problem.pools i no_pool) }
        ensures below { result < 2 ^ 99 }
    {
        self.worths[i]
    }

    /// The sum of the worths of all pools at the prices as set.
    pub fn worths(&self) -> u128
        ensures value { result ≡ sum_by (pool_worth self.now.problem.tokens self.now.prices) self.now.problem.pools }
        ensures below { result ≤ 2 ^ 107 }
    {
        self.total
    }

    /// The worth of a pool after the changes.
    pub fn worth_with(&self, changes: Changes, i: usize) -> u128
        requires ranges { ArePrices (after self.now.prices changes) }
        requires within { i < length self.now.problem.pools }
        ensures value { result ≡ pool_worth self.now.problem.tokens (after self.now.prices changes) (slice_index_or self.now.problem.pools i no_pool) }
        ensures below { result < 2 ^ 99 }
    {
        let pools = self.problem.pools();
        let places = self.problem.places();
        worth_after(self.worths[i], &pools[i], places[i], &self.prices, changes)
    }

    /// The bound at the prices as set.
    pub fn bound(&self) -> u128
        ensures value { result ≡ bound_of self.now.problem self.now.prices }
        ensures below { result < 2 ^ 108 }
    {
        let target = self.problem.target();
        let value = parts_value(self.problem, &self.prices) + self.total;
        value / self.prices[target] as u128
    }

    /// The bound after the changes, which are not made.
    pub fn bound_after(&self, changes: Changes) -> u128
        requires ranges { ArePrices (after self.now.prices changes) }
        ensures value { result ≡ bound_of self.now.problem (after self.now.prices changes) }
        ensures below { result < 2 ^ 108 }
    {
        self.bound_where(changes, self.pools_after(changes))
    }

    /// The bound after the changes, where all pools are worth this after them.
    pub fn bound_where(&self, changes: Changes, worths: u128) -> u128
        requires ranges { ArePrices (after self.now.prices changes) }
        requires worths { worths ≡ sum_by (pool_worth self.now.problem.tokens (after self.now.prices changes)) self.now.problem.pools }
        requires below { worths < 2 ^ 107 + 1 }
        ensures value { result ≡ bound_of self.now.problem (after self.now.prices changes) }
        ensures below { result < 2 ^ 108 }
    {
        let target = self.problem.target();
        let value = self.parts_after(changes) + worths;
        value / price_after(&self.prices, changes, target) as u128
    }

    /// The value at another price of one token: what the parts and all pools are worth, in units of
    /// price. It is not divided and so tells prices apart that have one bound.
    pub fn value_at(&self, token: usize, price: u64) -> u128
        requires token { token < length self.now.prices }
        requires price { (1 ≤ price) × (price < 2 ^ 40) }
        requires ranges { ArePrices self.now.prices }
    {
        let change = Change {
            place: token,
            price,
        };
        let changes = Changes {
            first: change,
            second: change,
        };
        self.parts_after(changes) + self.pools_after(changes)
    }

    /// Makes the changes.
    pub fn change(&mut self, changes: Changes)
        requires first { changes.first.place < length self.old.prices }
        requires second { changes.second.place < length self.old.prices }
        requires prices { (1 ≤ changes.first.price) × (changes.first.price < 2 ^ 40) × (1 ≤ changes.second.price) × (changes.second.price < 2 ^ 40) }
        ensures problem { self.new.problem ≡ self.old.problem }
        ensures prices { self.new.prices ≡ after self.old.prices changes }
    {
        self.set(changes.first.place, changes.first.price);
        self.set(changes.second.place, changes.second.price);
    }

    // What the parts are worth after the changes.
    fn parts_after(&self, changes: Changes) -> u128
        requires ranges { ArePrices (after self.now.prices changes) }
        ensures value { result ≡ sum_by (part_value self.now.problem.tokens (after self.now.prices changes)) self.now.problem.parts }
        ensures below { result < 2 ^ 96 }
    {
        let parts = self.problem.parts();
        let places = self.problem.part_places();
        let mut value: u128 = 0;
        for i in 0..parts.len() {
            let price = price_after(&self.prices, changes, places[i]);
            value += price as u128 * parts[i].amount as u128;
        }
        value
    }

    /// The sum of the worths of all pools after the changes.
    pub fn pools_after(&self, changes: Changes) -> u128
        requires ranges { ArePrices (after self.now.prices changes) }
        ensures value { result ≡ sum_by (pool_worth self.now.problem.tokens (after self.now.prices changes)) self.now.problem.pools }
        ensures below { result < 2 ^ 107 + 1 }
    {
        let count = self.problem.pools().len();
        let mut balance = Balance { gained: 0, lost: 0 };
        let mut i = self.next_changed(changes, 0);
        while i < count {
            balance = self.balance_after(changes, i, balance);
            i = self.next_changed(changes, i + 1);
        }
        self.total + balance.gained - balance.lost
    }

    // The balance with that of the pool at a place.
    fn balance_after(&self, changes: Changes, i: usize, balance: Balance) -> Balance
        requires ranges { ArePrices (after self.now.prices changes) }
        requires within { i < length self.now.problem.pools }
        requires before { IsBalance self.now.problem self.now.prices changes i balance }
        ensures { IsBalance self.now.problem self.now.prices changes (i + 1) result }
    {
        let pools = self.problem.pools();
        let places = self.problem.places();
        let old = self.worths[i];
        let new = worth_after(old, &pools[i], places[i], &self.prices, changes);
        Balance {
            gained: balance.gained + new,
            lost: balance.lost + old,
        }
    }

    // The first of the pools from a place on that has a changed token; their number, where none
    // has one.
    fn next_changed(&self, changes: Changes, i: usize) -> usize
        requires { i ≤ length self.now.problem.pools }
        ensures { IsNextOfBoth (map (places_of self.now.problem.tokens) self.now.problem.pools) changes.first.place changes.second.place i result }
    {
        let first = self.next_with(changes.first.place, i);
        let second = self.next_with(changes.second.place, i);
        first.min(second)
    }

    /// The first of the pools from a place on that has the token; their number, where none has it.
    pub fn next_with(&self, token: usize, i: usize) -> usize
        requires { i ≤ length self.now.problem.pools }
        ensures { IsNext (map (places_of self.now.problem.tokens) self.now.problem.pools) token i result }
    {
        let count = self.problem.pools().len();
        if token >= self.nexts.len() {
            return count;
        }
        self.nexts[token].places[i] as usize
    }

    /// The prices as set.
    pub fn into_prices(self) -> Prices
        ensures same { result ≡ self.entry.prices }
        ensures ranges { ArePrices result }
    {
        Prices::from_parts(self.prices).unwrap()
    }
}

// The worths of all pools.
fn worths_of(alloc: Global, problem: &OpenProblem, prices: &[u64]) -> Result<Vec<u128>, Memory>
    requires many { length prices.now ≡ length problem.now.tokens }
    requires prices { ArePrices prices.now }
    ensures worths { IfOk result (λ worths. worths.items ≡ map (pool_worth problem.now.tokens prices.now) problem.now.pools) }
    ensures sound { IsOpenProblem problem.now }
{
    let pools = problem.pools();
    let places = problem.places();
    let mut worths = Vec::new(alloc);
    for i in 0..pools.len() {
        worths.push(worth_at(&pools[i], places[i], prices))?;
    }
    Ok(worths)
}

// The sum of the worths.
fn total_of(problem: &OpenProblem, prices: &[u64], worths: &[u128]) -> u128
    requires many { length prices.now ≡ length problem.now.tokens }
    requires prices { ArePrices prices.now }
    requires worths { worths.now ≡ map (pool_worth problem.now.tokens prices.now) problem.now.pools }
    ensures value { result ≡ sum_by (pool_worth problem.now.tokens prices.now) problem.now.pools }
    ensures below { result ≤ 2 ^ 107 }
{
    let _sound = problem.target();
    let mut total: u128 = 0;
    for i in 0..worths.len() {
        total += worths[i];
    }
    total
}

// The worth of a pool after one token's price was changed, where it was `old` before.
fn refreshed(
    old: u128,
    pool: &ProblemPool,
    places: TokenPlaces,
    changed: usize,
    prices: &[u64],
) -> u128
    requires reserves { HasReserves pool.now }
    requires places { (places.zero < length prices.now) × (places.one < length prices.now) }
    requires prices { ArePrices prices.now }
    requires kept { places.zero ≢ changed → places.one ≢ changed →
        old ≡ worth_of (fee_of pool.now) pool.now.r0 pool.now.r1 (slice_index prices.now places.zero) (slice_index prices.now places.one) }
    ensures { result ≡ worth_of (fee_of pool.now) pool.now.r0 pool.now.r1 (slice_index prices.now places.zero) (slice_index prices.now places.one) }
{
    if places.zero == changed || places.one == changed {
        return worth_at(pool, places, prices);
    }
    old
}
