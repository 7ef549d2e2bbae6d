//! The bound after moves of two tokens, from what is kept of the moves of each alone.
//!
//! A pool that has one of the tokens alone changes its worth as it does where that one moves alone.
//! So the worths after both moves are those after each, less those of now, but for the pools of
//! both tokens, of which there are at most as many as fees.
ghost use Rattle.std.specs.Prelude.{◌≡◌, ◌≢◌, ◌+◌, ◌<◌, ◌≤◌, ◌^◌, length, map, slice_index_or, slice_set};
ghost use Rattle.amm_model.specs.Routing.{ArePrices, no_pool, places_of};
ghost use Rattle.amm_model.specs.Bound.{bound_of, pool_worth};
ghost use Rattle.amm_dual.specs.Running.{after};
ghost use Rattle.amm_dual.specs.Singles.{AreSingles, IsNextShared, IsShared, worths_at};

use crate::changes::{Change, Changes};
use crate::running::{Balance, Running};
use crate::singles::{Single, worths_after_one};

/// Where the moves of two tokens are kept.
#[derive(Clone, Copy, Drop)]
pub struct Slots {
    pub first: usize,
    pub second: usize,
}

/// The bound after the changes, which are not made.
pub fn bound_with(
    running: &Running<'_>,
    singles: &mut [Single],
    changes: Changes,
    slots: Slots,
) -> u128
    requires first { changes.first.place < length running.now.prices }
    requires second { changes.second.place < length running.now.prices }
    requires prices { (1 ≤ changes.first.price) × (changes.first.price < 2 ^ 40) × (1 ≤ changes.second.price) × (changes.second.price < 2 ^ 40) }
    requires ranges { ArePrices (after running.now.prices changes) }
    requires slots { (slots.first < 32) × (slots.second < 32) }
    requires singles { AreSingles running.now.problem running.now.prices singles.old }
    ensures singles { AreSingles running.now.problem running.now.prices singles.new }
    ensures value { result ≡ bound_of running.now.problem (after running.now.prices changes) }
    ensures below { result < 2 ^ 108 }
{
    let worths = worths_with(running, singles, changes, slots);
    running.bound_where(changes, worths)
}

// What all pools are worth after the changes.
fn worths_with(
    running: &Running<'_>,
    singles: &mut [Single],
    changes: Changes,
    slots: Slots,
) -> u128
    requires first { changes.first.place < length running.now.prices }
    requires second { changes.second.place < length running.now.prices }
    requires prices { (1 ≤ changes.first.price) × (changes.first.price < 2 ^ 40) × (1 ≤ changes.second.price) × (changes.second.price < 2 ^ 40) }
    requires ranges { ArePrices (after running.now.prices changes) }
    requires slots { (slots.first < 32) × (slots.second < 32) }
    requires singles { AreSingles running.now.problem running.now.prices singles.old }
    ensures singles { AreSingles running.now.problem running.now.prices singles.new }
    ensures value { result ≡ worths_at running.now.problem (after running.now.prices changes) }
    ensures below { result < 2 ^ 107 + 1 }
{
    let _many = running.problem();
    let other = worths_after_one(running, singles, changes.second, slots.second);
    if changes.first.place == changes.second.place {
        return other;
    }
    let one = worths_after_one(running, singles, changes.first, slots.first);
    both(running, changes, one, other)
}

// What all pools are worth after both changes, from what they are worth after each.
fn both(running: &Running<'_>, changes: Changes, one: u128, other: u128) -> u128
    requires apart { changes.first.place ≢ changes.second.place }
    requires ranges { ArePrices (after running.now.prices changes) }
    requires prices { (1 ≤ changes.first.price) × (changes.first.price < 2 ^ 40) × (1 ≤ changes.second.price) × (changes.second.price < 2 ^ 40) }
    requires one { one ≡ worths_at running.now.problem (slice_set running.now.prices changes.first.place changes.first.price) }
    requires other { other ≡ worths_at running.now.problem (slice_set running.now.prices changes.second.place changes.second.price) }
    requires below { (one < 2 ^ 107 + 1) × (other < 2 ^ 107 + 1) }
    ensures value { result ≡ worths_at running.now.problem (after running.now.prices changes) }
    ensures below { result < 2 ^ 107 + 1 }
{
    let _few = running.problem().target();
    let count = running.problem().pools().len();
    let mut balance = Balance { gained: 0, lost: 0 };
    let mut i = next_shared(running, changes, 0);
    while i < count {
        balance = shared_at(running, changes, i, balance);
        i = next_shared(running, changes, i + 1);
    }
    one + other + balance.gained - balance.lost - running.worths()
}

// The balance with that of the pool at a place.
fn shared_at(running: &Running<'_>, changes: Changes, i: usize, balance: Balance) -> Balance
    requires ranges { ArePrices (after running.now.prices changes) }
    requires prices { (1 ≤ changes.first.price) × (changes.first.price < 2 ^ 40) × (1 ≤ changes.second.price) × (changes.second.price < 2 ^ 40) }
    requires within { i < length running.now.problem.pools }
    requires before { IsShared running.now.problem running.now.prices changes i balance }
    ensures { IsShared running.now.problem running.now.prices changes (i + 1) result }
{
    let _few = running.problem().target();
    let after_one = worth_alone(running, changes.first, i);
    let after_other = worth_alone(running, changes.second, i);
    Balance {
        gained: balance.gained + (running.worth_with(changes, i) + running.worth(i)),
        lost: balance.lost + (after_one + after_other),
    }
}

// The worth of a pool after one change.
fn worth_alone(running: &Running<'_>, change: Change, i: usize) -> u128
    requires price { (1 ≤ change.price) × (change.price < 2 ^ 40) }
    requires within { i < length running.now.problem.pools }
    ensures value { result ≡ pool_worth running.now.problem.tokens (slice_set running.now.prices change.place change.price) (slice_index_or running.now.problem.pools i no_pool) }
    ensures below { result < 2 ^ 99 }
{
    let _ranges = running.problem();
    let changes = Changes {
        first: change,
        second: change,
    };
    running.worth_with(changes, i)
}

// No pool from the place on to before the answer has both tokens.
fn next_shared(running: &Running<'_>, changes: Changes, i: usize) -> usize
    requires { i ≤ length running.now.problem.pools }
    ensures { IsNextShared (map (places_of running.now.problem.tokens) running.now.problem.pools) changes.first.place changes.second.place i result }
{
    let first = running.next_with(changes.first.place, i);
    let second = running.next_with(changes.second.place, i);
    first.max(second)
}
