//! Brings each price to where the bound is least while the others stay.
//!
//! The bound is convex in each price, so its least is found by halving: forty steps a price, and
//! fewer where the price of now is near it. A few rounds over all prices take the place of
//! thousands of moves where the start was poor.
ghost use Rattle.std.specs.Prelude.{◌≡◌, ◌≢◌, ◌*◌, ◌<◌, ◌≤◌, ◌^◌, IfSome, length};
ghost use Rattle.amm_model.specs.Routing.{ArePrices, token_place};
ghost use Rattle.amm_model.specs.Bound.{price_of};

use crate::running::Running;

// The greatest price.
const MOST_PRICE: u64 = 0xff_ffff_ffff;

// Halvings of all prices, of which there are fewer than 2^40.
const HALVINGS: u32 = 40;

// How near the least is sought before it is sought everywhere: one part in 2^8 of a price.
const NEAR: u32 = 8;

// Rounds over all prices.
const ROUNDS: u32 = 8;

/// Lowers the bound price by price, until a round brings less than one part in 2^20.
pub fn lower_prices(running: &mut Running<'_>)
    ensures problem { running.new.problem ≡ running.old.problem }
    ensures many { length running.new.prices ≡ length running.old.prices }
    ensures unit { price_of running.new.problem.tokens running.new.prices running.new.problem.t ≡ price_of running.old.problem.tokens running.old.prices running.old.problem.t }
{
    let mut before = running.bound();
    for _ in 0..ROUNDS {
        round(running);
        let now = running.bound();
        if before.saturating_sub(now) <= before >> 20 {
            return;
        }
        before = now;
    }
}

// Each price but the target's, one after the other.
fn round(running: &mut Running<'_>)
    ensures problem { running.new.problem ≡ running.old.problem }
    ensures many { length running.new.prices ≡ length running.old.prices }
    ensures unit { price_of running.new.problem.tokens running.new.prices running.new.problem.t ≡ price_of running.old.problem.tokens running.old.prices running.old.problem.t }
{
    let count = running.problem().tokens().len();
    for place in 0..count {
        lower_at(running, place);
    }
}

// The price at one place, where it is not the target's.
fn lower_at(running: &mut Running<'_>, place: usize)
    requires { place < length running.old.prices }
    ensures problem { running.new.problem ≡ running.old.problem }
    ensures many { length running.new.prices ≡ length running.old.prices }
    ensures unit { price_of running.new.problem.tokens running.new.prices running.new.problem.t ≡ price_of running.old.problem.tokens running.old.prices running.old.problem.t }
{
    if place == running.problem().target() {
        return;
    }
    let price = least(running, place);
    running.set(place, price);
}

// The price at a place where the bound is least. It is mostly the price of now or near it.
fn least(running: &Running<'_>, place: usize) -> u64
    requires place { place < length running.now.prices }
    requires ranges { ArePrices running.now.prices }
    ensures { (1 ≤ result) × (result < 2 ^ 40) }
{
    let price = running.price(place);
    if let Some(found) = least_near(running, place, price, 0) {
        return found;
    }
    if let Some(found) = least_near(running, place, price, price >> NEAR) {
        return found;
    }
    halved(running, place, 1, MOST_PRICE)
}

// The same, where it is no further than that from a price; None where it is.
fn least_near(running: &Running<'_>, place: usize, price: u64, reach: u64) -> Option<u64>
    requires place { place < length running.now.prices }
    requires ranges { ArePrices running.now.prices }
    requires price { (1 ≤ price) × (price < 2 ^ 40) }
    requires reach { reach < 2 ^ 40 }
    ensures { IfSome result (λ found. (1 ≤ found) × (found < 2 ^ 40)) }
{
    let below = price.saturating_sub(reach + 1);
    let high = (price + reach).min(MOST_PRICE);
    if !falls_after(running, place, below) || falls_after(running, place, high) {
        return None;
    }
    Some(halved(running, place, below + 1, high))
}

// Whether the bound is lower at the next price than at this one; below the prices it falls, and at
// their end it does not.
fn falls_after(running: &Running<'_>, place: usize, price: u64) -> bool
    requires place { place < length running.now.prices }
    requires ranges { ArePrices running.now.prices }
{
    if price == 0 {
        return true;
    }
    if price >= MOST_PRICE {
        return false;
    }
    running.value_at(place, price + 1) < running.value_at(place, price)
}

// The price between two at which the bound is least.
fn halved(running: &Running<'_>, place: usize, from: u64, to: u64) -> u64
    requires place { place < length running.now.prices }
    requires ranges { ArePrices running.now.prices }
    requires between { (1 ≤ from) × (from ≤ to) × (to < 2 ^ 40) }
    ensures { (1 ≤ result) × (result < 2 ^ 40) }
{
    let mut low = from;
    let mut high = to;
    for _ in 0..HALVINGS {
        let middle = between(low, high);
        if middle < high {
            if running.value_at(place, middle) <= running.value_at(place, middle + 1) {
                high = middle;
            } else {
                low = middle + 1;
            }
        }
    }
    low
}

// The middle of two prices.
fn between(low: u64, high: u64) -> u64
    requires { (1 ≤ low) × (low ≤ high) × (high < 2 ^ 40) }
    ensures { (low ≤ result) × (result ≤ high) }
{
    low + (high - low) / 2
}
