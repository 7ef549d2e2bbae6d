//! What the best trades at some prices give and take of each token, all pools together.
ghost use Rattle.std.specs.Prelude.{◌≡◌, ℕ, List, All, IfOk, ◌+◌, ◌*◌, ◌<◌, ◌≤◌, ◌^◌, length, slice_index, slice_set, true};
ghost use Rattle.amm_model.specs.Routing.{ArePrices};
ghost use Rattle.amm_dual.specs.Flows.{AreAmounts, AreFlows, AreGifts, value_in};
ghost use Rattle.amm_dual.specs.Running.{after};

use crate::changes::{Change, Changes};
use crate::running::Running;
use crate::trades::{SCALE, trade_of};
use amm_model::{Memory, OpenProblem, TokenPlaces};
use std::alloc::Global;

// Amounts that grow no more.
const MOST_AMOUNT: u128 = 0x100_0000_0000_0000_0000;

/// Nothing, of each token of the problem.
pub fn no_amounts(alloc: Global, problem: &OpenProblem) -> Result<Vec<u128>, Memory>
    ensures { IfOk result (λ amounts. length amounts.items ≡ length problem.now.tokens) }
{
    let mut amounts = Vec::new(alloc);
    for _ in 0..problem.tokens().len() {
        amounts.push(0)?;
    }
    Ok(amounts)
}

/// Makes the two lists what the parts and the trades give, and what the trades take.
pub fn refill(running: &Running<'_>, given: &mut [u128], taken: &mut [u128])
    requires given { length given.old ≡ length running.now.problem.tokens }
    requires taken { length taken.old ≡ length running.now.problem.tokens }
    ensures { AreFlows running.now.problem (length running.now.problem.pools) given.new taken.new }
{
    clear(given);
    clear(taken);
    for i in 0..running.problem().parts().len() {
        add_part(running, given, i);
    }
    for i in 0..running.problem().pools().len() {
        add_pool(running, given, taken, i);
    }
}

// Makes each amount nothing.
fn clear(amounts: &mut [u128])
    ensures many { length amounts.new ≡ length amounts.old }
    ensures few { All (λ (amount : ℕ). amount < 2 ^ 73) amounts.new }
    ensures none { (prices : List ℕ) → value_in prices amounts.new ≡ 0 }
{
    for j in 0..amounts.len() {
        amounts[j] = 0;
    }
}

// The part at a place is given.
fn add_part(running: &Running<'_>, given: &mut [u128], i: usize)
    requires within { i < length running.now.problem.parts }
    requires before { AreGifts running.now.problem i given.old }
    ensures { AreGifts running.now.problem (i + 1) given.new }
{
    let problem = running.problem();
    let places = problem.part_places();
    let parts = problem.parts();
    let place = places[i];
    let amount = parts[i].amount;
    if given[place] < MOST_AMOUNT {
        given[place] += amount as u128 * SCALE as u128;
    }
}

// The trade with the pool at a place is made, where there is room for it.
fn add_pool(running: &Running<'_>, given: &mut [u128], taken: &mut [u128], i: usize)
    requires within { i < length running.now.problem.pools }
    requires before { AreFlows running.now.problem i given.old taken.old }
    ensures { AreFlows running.now.problem (i + 1) given.new taken.new }
{
    let problem = running.problem();
    let pools = problem.pools();
    let places = problem.places();
    let at = places[i];
    let zero = running.price(at.zero);
    let one = running.price(at.one);
    let trade = trade_of(&pools[i], zero, one);
    if has_room(given, at) && has_room(taken, at) {
        add(given, at, trade.given0, trade.given1);
        add(taken, at, trade.taken0, trade.taken1);
    }
}

// Whether the amounts of two tokens may grow.
fn has_room(amounts: &[u128], at: TokenPlaces) -> bool
    requires { (at.zero < length amounts.now) × (at.one < length amounts.now) }
    ensures { result ≡ true → (slice_index amounts.now at.zero < 2 ^ 72) × (slice_index amounts.now at.one < 2 ^ 72) }
{
    amounts[at.zero] < MOST_AMOUNT && amounts[at.one] < MOST_AMOUNT
}

// Adds to the amounts of two tokens.
fn add(amounts: &mut [u128], at: TokenPlaces, zero: u64, one: u64)
    requires there { (at.zero < length amounts.old) × (at.one < length amounts.old) }
    requires room { (slice_index amounts.old at.zero < 2 ^ 72) × (slice_index amounts.old at.one < 2 ^ 72) }
    requires few { All (λ (amount : ℕ). amount < 2 ^ 73) amounts.old }
    ensures many { length amounts.new ≡ length amounts.old }
    ensures few { All (λ (amount : ℕ). amount < 2 ^ 73) amounts.new }
    ensures value { (prices : List ℕ) → length prices ≡ length amounts.old → value_in prices amounts.new ≡ value_in prices amounts.old + slice_index prices at.zero * zero + slice_index prices at.one * one }
{
    amounts[at.zero] += zero as u128;
    amounts[at.one] += one as u128;
}

/// Amounts at the prices as set.
pub fn value_of(running: &Running<'_>, amounts: &[u128]) -> u128
    requires { AreAmounts running.now.problem amounts.now }
    ensures value { result ≡ value_in running.now.prices amounts.now }
    ensures below { result < 2 ^ 123 }
{
    let _few = running.problem().target();
    let mut value: u128 = 0;
    for j in 0..amounts.len() {
        value += running.price(j) as u128 * amounts[j];
    }
    value
}

/// Amounts at the prices after the changes, where they are worth `value` at those as set.
pub fn value_after(running: &Running<'_>, amounts: &[u128], value: u128, changes: Changes) -> u128
    requires first { changes.first.place < length running.now.prices }
    requires second { changes.second.place < length running.now.prices }
    requires prices { (changes.first.price < 2 ^ 40) × (changes.second.price < 2 ^ 40) }
    requires many { length running.now.prices ≡ length amounts.now }
    requires few { All (λ (amount : ℕ). amount < 2 ^ 73) amounts.now }
    requires value { value ≡ value_in running.now.prices amounts.now }
    requires below { value < 2 ^ 123 }
    ensures value { result ≡ value_in (after running.now.prices changes) amounts.now }
    ensures below { result < 2 ^ 125 }
{
    let first = changes.first;
    let second = changes.second;
    let old = running.price(first.place);
    let half = repriced(value, amounts[first.place], old, first.price);
    let middle = price_after_one(running, first, second.place);
    repriced(half, amounts[second.place], middle, second.price)
}

// The price at a place after one change.
fn price_after_one(running: &Running<'_>, change: Change, place: usize) -> u64
    requires place { place < length running.now.prices }
    requires price { change.price < 2 ^ 40 }
    ensures value { result ≡ slice_index (slice_set running.now.prices change.place change.price) place }
    ensures below { result < 2 ^ 40 }
{
    if place == change.place {
        return change.price;
    }
    running.price(place)
}

// A value where one of its amounts has another price.
fn repriced(value: u128, amount: u128, old: u64, new: u64) -> u128
    requires amount { amount < 2 ^ 73 }
    requires price { new < 2 ^ 40 }
    requires below { value < 2 ^ 124 }
    requires counted { old * amount ≤ value + new * amount }
    requires fits { old * amount < 2 ^ 113 }
    ensures value { result + old * amount ≡ value + new * amount }
    ensures below { result < value + 2 ^ 113 }
{
    value + new as u128 * amount - old as u128 * amount
}
