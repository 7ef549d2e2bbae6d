//! Moves the prices down to where no move helps.
ghost use Rattle.std.specs.Prelude.{◌≡◌, ◌≢◌, ◌↔◌, ℕ, IsTrue, IfOk, IfSome, MatchOption, ◌+◌, ◌-◌, ◌*◌, ◌/◌, ◌<◌, ◌≤◌, ◌^◌, length, max, slice_index, true, false};
ghost use Rattle.amm_model.specs.Routing.{ArePrices, open_view, token_place};
ghost use Rattle.amm_model.specs.Bound.{bound_of, price_of};
ghost use Rattle.amm_model.specs.Settled.{IsSettled, prices_after, price_after as stepped_of, prices_after_turn};
ghost use Rattle.amm_dual.specs.Moves.{IsNoHelp, NoHelpBelow, NoHelpAt, Helps, turns_of, move_of};
ghost use Rattle.amm_dual.specs.Running.{after};
ghost use Rattle.amm_dual.specs.Flows.{IsLine};
ghost use Rattle.amm_dual.specs.Singles.{AreSingles};

use crate::changes::{Change, Changes};
use crate::flows::no_amounts;
use crate::lines::{Line, line_of, rules_out};
use crate::lower::lower_prices;
use crate::moves::{Move, move_at, move_count};
use crate::pairs::{Slots, bound_with};
use crate::running::Running;
use crate::singles::{Single, forget, no_singles};
use amm_model::limits::PRICE_LIMIT;
use amm_model::{Memory, OpenProblem, Prices, Problem, Turn};
use std::alloc::Global;

// The price of the target.
const UNIT: u64 = 0x10_0000;

/// Settled prices, found from these by moves that help.
pub fn descended(alloc: Global, problem: &OpenProblem, start: &Prices) -> Result<Prices, Memory>
    requires many { length start.now ≡ length problem.now.tokens }
    requires unit { price_of problem.now.tokens start.now problem.now.t ≡ 2 ^ 20 }
    ensures { IfOk result (λ prices. IsSettled problem.now prices) }
{
    let mut running = Running::new(alloc, problem, start)?;
    lower_prices(&mut running);
    let mut list = no_singles(alloc, problem)?;
    let singles = list.as_mut_slice();
    let mut list_of_given = no_amounts(alloc, problem)?;
    let given = list_of_given.as_mut_slice();
    let mut list_of_taken = no_amounts(alloc, problem)?;
    let taken = list_of_taken.as_mut_slice();
    while pass(&mut running, singles, given, taken) {}
    Ok(running.into_prices())
}

/// Whether the prices are settled.
pub fn settled(alloc: Global, problem: &Problem, prices: &Prices) -> Result<bool, Memory>
    requires { length prices.now ≡ length problem.now.tokens }
    ensures { IfOk result (λ is. IsTrue is ↔ IsSettled (open_view problem.now) prices.now) }
{
    open_settled(alloc, problem.as_open(), prices)
}

/// Whether the prices are settled, for a problem of any parts.
pub fn open_settled(alloc: Global, problem: &OpenProblem, prices: &Prices) -> Result<bool, Memory>
    requires { length prices.now ≡ length problem.now.tokens }
    ensures { IfOk result (λ is. IsTrue is ↔ IsSettled problem.now prices.now) }
{
    let list = prices.as_slice();
    if list[problem.target()] != UNIT {
        return Ok(false);
    }
    let mut running = Running::new(alloc, problem, prices)?;
    let mut list_of_singles = no_singles(alloc, problem)?;
    let singles = list_of_singles.as_mut_slice();
    let before = running.bound();
    for n in 0..move_count(problem) {
        if improve_at(&mut running, singles, n, before) {
            return Ok(false);
        }
    }
    Ok(true)
}

// Takes each move that helps, one after the other; whether any did.
fn pass(
    running: &mut Running<'_>,
    singles: &mut [Single],
    given: &mut [u128],
    taken: &mut [u128],
) -> bool
    requires singles { AreSingles running.old.problem running.old.prices singles.old }
    requires given { length given.old ≡ length running.old.problem.tokens }
    requires taken { length taken.old ≡ length running.old.problem.tokens }
    ensures given { length given.new ≡ length running.new.problem.tokens }
    ensures taken { length taken.new ≡ length running.new.problem.tokens }
    ensures singles { AreSingles running.new.problem running.new.prices singles.new }
    ensures problem { running.new.problem ≡ running.old.problem }
    ensures many { length running.new.prices ≡ length running.old.prices }
    ensures unit { price_of running.new.problem.tokens running.new.prices running.new.problem.t ≡ price_of running.old.problem.tokens running.old.prices running.old.problem.t }
    ensures lower { result ≡ true → bound_of running.new.problem running.new.prices < bound_of running.old.problem running.old.prices }
    ensures steady { result ≡ false → NoHelpBelow running.new.problem running.new.prices (64 * (length running.new.problem.tokens + length running.new.problem.pools)) }
{
    let count = move_count(running.problem());
    let mut before = running.bound();
    let mut line = line_of(running, given, taken);
    let mut helped = false;
    for n in 0..count {
        if improve_past(running, singles, given, taken, &mut line, n, before) {
            helped = true;
            before = running.bound();
        }
    }
    helped
}

// As `improve_at`, which is left out where the line tells that the move does not help. A move that
// is taken draws another line.
fn improve_past(
    running: &mut Running<'_>,
    singles: &mut [Single],
    given: &mut [u128],
    taken: &mut [u128],
    line: &mut Line,
    n: usize,
    before: u128,
) -> bool
    requires singles { AreSingles running.old.problem running.old.prices singles.old }
    requires line { IsLine running.old.problem running.old.prices given.old taken.old line.old }
    requires number { n < 64 * (length running.old.problem.tokens + length running.old.problem.pools) }
    requires before { before ≡ bound_of running.old.problem running.old.prices }
    requires below { before < 2 ^ 108 }
    ensures singles { AreSingles running.new.problem running.new.prices singles.new }
    ensures line { IsLine running.new.problem running.new.prices given.new taken.new line.new }
    ensures problem { running.new.problem ≡ running.old.problem }
    ensures many { length running.new.prices ≡ length running.old.prices }
    ensures unit { price_of running.new.problem.tokens running.new.prices running.new.problem.t ≡ price_of running.old.problem.tokens running.old.prices running.old.problem.t }
    ensures lower { result ≡ true → bound_of running.new.problem running.new.prices < bound_of running.old.problem running.old.prices }
    ensures kept { result ≡ false → running.new.prices ≡ running.old.prices }
    ensures steady { result ≡ false → NoHelpAt running.old.problem running.old.prices n }
{
    if is_ruled_out(running, given, taken, *line, n) {
        return false;
    }
    if !improve_at(running, singles, n, before) {
        return false;
    }
    *line = line_of(running, given, taken);
    true
}

// Whether the line tells that the move of this number does not help, or there is none.
fn is_ruled_out(running: &Running<'_>, given: &[u128], taken: &[u128], line: Line, n: usize) -> bool
    requires line { IsLine running.now.problem running.now.prices given.now taken.now line }
    requires number { n < 64 * (length running.now.problem.tokens + length running.now.problem.pools) }
    ensures { result ≡ true → NoHelpAt running.now.problem running.now.prices n }
{
    let problem = running.problem();
    let Some(step) = move_at(problem, n) else {
        return true;
    };
    let Some(changes) = changes_of(running, step) else {
        return true;
    };
    rules_out(running, given, taken, line, changes)
}

// Takes the move of this number, if there is one and it helps; whether it did.
fn improve_at(running: &mut Running<'_>, singles: &mut [Single], n: usize, before: u128) -> bool
    requires singles { AreSingles running.old.problem running.old.prices singles.old }
    requires number { n < 64 * (length running.old.problem.tokens + length running.old.problem.pools) }
    requires before { before ≡ bound_of running.old.problem running.old.prices }
    requires below { before < 2 ^ 108 }
    ensures singles { AreSingles running.new.problem running.new.prices singles.new }
    ensures problem { running.new.problem ≡ running.old.problem }
    ensures many { length running.new.prices ≡ length running.old.prices }
    ensures unit { price_of running.new.problem.tokens running.new.prices running.new.problem.t ≡ price_of running.old.problem.tokens running.old.prices running.old.problem.t }
    ensures helps { result ≡ true → Helps running.old.problem running.old.prices n }
    ensures lower { result ≡ true → bound_of running.new.problem running.new.prices < bound_of running.old.problem running.old.prices }
    ensures kept { result ≡ false → running.new.prices ≡ running.old.prices }
    ensures steady { result ≡ false → NoHelpAt running.old.problem running.old.prices n }
{
    let problem = running.problem();
    let Some(step) = move_at(problem, n) else {
        return false;
    };
    improve(running, singles, step, before)
}

// Takes the move if it lowers the bound, which is `before`, by more than one part in 65536.
fn improve(running: &mut Running<'_>, singles: &mut [Single], step: Move, before: u128) -> bool
    requires singles { AreSingles running.old.problem running.old.prices singles.old }
    requires first { step.first.place < length running.old.prices }
    requires second { IfSome step.second (λ turn. (turn.place < length running.old.prices) × (turn.place ≢ step.first.place)) }
    requires size { step.k ≤ 16 }
    requires before { before ≡ bound_of running.old.problem running.old.prices }
    requires below { before < 2 ^ 108 }
    ensures singles { AreSingles running.new.problem running.new.prices singles.new }
    ensures problem { running.new.problem ≡ running.old.problem }
    ensures taken { result ≡ true → running.new.prices ≡ prices_after step.k running.old.prices (turns_of step) }
    ensures ranges { ArePrices running.new.prices }
    ensures lower { result ≡ true → bound_of running.new.problem running.new.prices + bound_of running.old.problem running.old.prices / 65536 < bound_of running.old.problem running.old.prices }
    ensures kept { result ≡ false → running.new.prices ≡ running.old.prices }
    ensures steady { result ≡ false → IsNoHelp running.old.problem running.old.prices step }
{
    let Some(changes) = changes_of(running, step) else {
        let _ranges = running.price(step.first.place);
        return false;
    };
    let after = bound_with(running, singles, changes, slots_of(step));
    if after + before / 65536 >= before {
        let _ranges = running.price(step.first.place);
        return false;
    }
    running.change(changes);
    forget(running, singles);
    let _ranges = running.price(step.first.place);
    true
}

// Where the turns of a move are kept among those of their tokens.
fn slots_of(step: Move) -> Slots
    ensures { (result.first < 32) × (result.second < 32) }
{
    let first = slot_of(step.k, step.first);
    match step.second {
        None => Slots {
            first,
            second: first,
        },
        Some(turn) => Slots {
            first,
            second: slot_of(step.k, turn),
        },
    }
}

// Another place for each turn of a token.
fn slot_of(k: u32, turn: Turn) -> usize
    ensures { result < 32 }
{
    let size = k as usize % 16;
    if turn.up { size + 16 } else { size }
}

// The prices of a move; None where one of them is no price.
fn changes_of(running: &Running<'_>, step: Move) -> Option<Changes>
    requires first { step.first.place < length running.now.prices }
    requires second { IfSome step.second (λ turn. (turn.place < length running.now.prices) × (turn.place ≢ step.first.place)) }
    requires size { step.k ≤ 16 }
    ensures { MatchOption result (¬ ArePrices (prices_after step.k running.now.prices (turns_of step)))
        (λ changes. (changes.first.place < length running.now.prices) × (changes.second.place < length running.now.prices)
        × (after running.now.prices changes ≡ prices_after step.k running.now.prices (turns_of step))
        × ArePrices (after running.now.prices changes)
        × (1 ≤ changes.first.price) × (changes.first.price < 2 ^ 40) × (1 ≤ changes.second.price) × (changes.second.price < 2 ^ 40)) }
{
    let Some(first) = change_of(running, step.k, step.first) else {
        return None;
    };
    match step.second {
        None => Some(Changes {
            first,
            second: first,
        }),
        Some(turn) => {
            let Some(second) = change_of(running, step.k, turn) else {
                return None;
            };
            Some(Changes { first, second })
        }
    }
}

// The price of a turn; None where it is none.
fn change_of(running: &Running<'_>, k: u32, turn: Turn) -> Option<Change>
    requires place { turn.place < length running.now.prices }
    requires size { k ≤ 16 }
    ensures ranges { ArePrices running.now.prices }
    ensures price { MatchOption result
        ((1 ≤ stepped_of k turn.up (slice_index running.now.prices turn.place)) → (stepped_of k turn.up (slice_index running.now.prices turn.place) < 2 ^ 40) → ⊥)
        (λ change. (change.place ≡ turn.place) × (change.price ≡ stepped_of k turn.up (slice_index running.now.prices turn.place)) × (1 ≤ change.price) × (change.price < 2 ^ 40)) }
{
    let price = stepped(k, turn.up, running.price(turn.place));
    if price == 0 || price > PRICE_LIMIT {
        return None;
    }
    Some(Change {
        place: turn.place,
        price,
    })
}

// A price one step up or down.
fn stepped(k: u32, up: bool, price: u64) -> u64
    requires size { k ≤ 16 }
    requires price { price < 2 ^ 40 }
    ensures { result ≡ stepped_of k up price }
{
    let step = (price >> k).max(1);
    if up {
        price + step
    } else {
        price.saturating_sub(step)
    }
}
