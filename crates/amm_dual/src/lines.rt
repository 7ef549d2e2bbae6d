//! The line of values that trades draw: no prices have a value below it.
//!
//! It touches the value at the prices that the trades were worked out at. Most moves that do not
//! help are told by it alone, with no worth of a pool at other prices.
ghost use Rattle.std.specs.Prelude.{◌≡◌, ◌+◌, ◌*◌, ◌/◌, ◌<◌, ◌≤◌, ◌^◌, length, true};
ghost use Rattle.amm_model.specs.Bound.{bound_of, price_of};
ghost use Rattle.amm_dual.specs.Flows.{IsLine, IsNeed};
ghost use Rattle.amm_dual.specs.Running.{after};

use crate::changes::Changes;
use crate::flows::{refill, value_after, value_of};
use crate::running::Running;
use crate::trades::SCALE;

// What no line reaches.
const NO_NEED: u128 = 0x4000_0000_0000_0000_0000_0000_0000_0000;

// Bounds that are told by a line are below this.
const MOST_BOUND: u128 = 0x1_0000_0000_0000_0000;

/// What the parts and the trades give at the prices as set, what the trades take, and by how much
/// the one must pass the other for a move not to help.
#[derive(Clone, Copy, Drop)]
pub struct Line {
    pub given: u128,
    pub taken: u128,
    pub need: u128,
}

/// The line at the prices as set, with its amounts in the two lists.
pub fn line_of(running: &Running<'_>, given: &mut [u128], taken: &mut [u128]) -> Line
    requires given { length given.old ≡ length running.now.problem.tokens }
    requires taken { length taken.old ≡ length running.now.problem.tokens }
    ensures { IsLine running.now.problem running.now.prices given.new taken.new result }
{
    refill(running, given, taken);
    Line {
        given: value_of(running, given),
        taken: value_of(running, taken),
        need: need_of(running),
    }
}

// By how much what is given must pass what is taken.
fn need_of(running: &Running<'_>) -> u128
    ensures need { IsNeed running.now.problem running.now.prices result }
    ensures below { result < 2 ^ 127 }
{
    let bound = running.bound();
    let least = bound - bound / 65536;
    if least >= MOST_BOUND {
        return NO_NEED;
    }
    let target = running.problem().target();
    let count = running.problem().pools().len();
    SCALE as u128 * (least * running.price(target) as u128 + count as u128)
}

/// Whether the line tells that the changes do not help.
pub fn rules_out(
    running: &Running<'_>,
    given: &[u128],
    taken: &[u128],
    line: Line,
    changes: Changes,
) -> bool
    requires first { changes.first.place < length running.now.prices }
    requires second { changes.second.place < length running.now.prices }
    requires prices { (changes.first.price < 2 ^ 40) × (changes.second.price < 2 ^ 40) }
    requires line { IsLine running.now.problem running.now.prices given.now taken.now line }
    requires unit { price_of running.now.problem.tokens (after running.now.prices changes) running.now.problem.t ≡ price_of running.now.problem.tokens running.now.prices running.now.problem.t }
    ensures { result ≡ true → bound_of running.now.problem running.now.prices ≤ bound_of running.now.problem (after running.now.prices changes) + bound_of running.now.problem running.now.prices / 65536 }
{
    let target = running.problem().target();
    let _unit = running.price(target);
    let above = value_after(running, given, line.given, changes);
    let below = value_after(running, taken, line.taken, changes);
    below + line.need <= above
}
