//! The trade with a pool that gains most at two prices, in fine parts of a unit.
//!
//! Whatever the prices, what a trade gains at them is at most the worth of its pool. So a trade
//! that was worked out at some prices says of all others how low a worth can be, without a root.
ghost use Rattle.std.specs.Prelude.{◌≡◌, ℕ, ◌+◌, ◌*◌, ◌<◌, ◌≤◌, ◌^◌};
ghost use Rattle.amm_model.specs.Routing.{HasReserves, fee_of};
ghost use Rattle.amm_model.specs.Bound.{worth_of};

use amm_model::ProblemPool;
use amm_num::root;

/// Parts of a unit.
pub const SCALE: u64 = 0x4000;

// Roots are taken of numbers with twenty-eight more binary places.
const ROOT_SCALE: u128 = 0x1000_0000;

// Ratios have forty-eight binary places, fourteen of which stay in an input.
const RATIO_SCALE: u128 = 0x1_0000_0000_0000;

const RATIO_PARTS: u128 = 0x4_0000_0000;

// Ratios and inputs that are counted are below these.
const MOST_RATIO: u128 = 0x1000_0000_0000_0000;

const MOST_INPUT: u128 = 0x40_0000_0000_0000;

/// What a trade takes of each token of its pool, and what it gives.
#[derive(Clone, Copy, Drop)]
pub struct Trade {
    pub taken0: u64,
    pub taken1: u64,
    pub given0: u64,
    pub given1: u64,
}

/// A trade that gains near to the most at the prices: none, where it would be too large.
pub fn trade_of(pool: &ProblemPool, p0: u64, p1: u64) -> Trade
    requires reserves { HasReserves pool.now }
    requires prices { (1 ≤ p0) × (p0 < 2 ^ 40) × (1 ≤ p1) × (p1 < 2 ^ 40) }
    ensures { (q0 q1 : ℕ) → q0 * result.given0 + q1 * result.given1 ≤ q0 * result.taken0 + q1 * result.taken1 + 2 ^ 14 * (worth_of (fee_of pool.now) pool.now.r0 pool.now.r1 q0 q1 + 1) }
{
    let weight = 1000 - pool.name.fee() as u64;
    let first = best_input(weight, pool.r0, pool.r1, p0, p1);
    if first > 0 {
        return Trade {
            taken0: first,
            taken1: 0,
            given0: 0,
            given1: paid(weight, pool.r0, pool.r1, first),
        };
    }
    let second = best_input(weight, pool.r1, pool.r0, p1, p0);
    Trade {
        taken0: 0,
        taken1: second,
        given0: paid(weight, pool.r1, pool.r0, second),
        given1: 0,
    }
}

// The input that gains most, of one token for the other. Where the reserves are worth a of the one
// and b of the other after the fee, it makes the reserve that counts greater by the root of b / a.
fn best_input(weight: u64, rin: u64, rout: u64, pin: u64, pout: u64) -> u64
    requires weight { (1 ≤ weight) × (weight ≤ 1000) }
    requires reserves { (rin < 2 ^ 48) × (rout < 2 ^ 48) }
    requires prices { (pin < 2 ^ 40) × (pout < 2 ^ 40) }
    ensures { result < 2 ^ 54 }
{
    let a = 1000 * (pin as u128 * rin as u128);
    let b = weight as u128 * (pout as u128 * rout as u128);
    if a >= b {
        return 0;
    }
    let root_a = root(a * ROOT_SCALE);
    let root_b = root(b * ROOT_SCALE);
    let ratio = root_b.saturating_sub(root_a) as u128 * RATIO_SCALE / root_a.max(1) as u128;
    if ratio >= MOST_RATIO {
        return 0;
    }
    let input = (1000 * rin / weight) as u128 * ratio / RATIO_PARTS;
    if input >= MOST_INPUT {
        return 0;
    }
    input as u64
}

// What the pool pays for the input.
fn paid(weight: u64, rin: u64, rout: u64, input: u64) -> u64
    requires weight { (1 ≤ weight) × (weight ≤ 1000) }
    requires reserves { (1 ≤ rin) × (rin < 2 ^ 48) × (1 ≤ rout) × (rout < 2 ^ 48) }
    requires input { input < 2 ^ 54 }
    ensures { result * (1000 * (2 ^ 14 * rin) + weight * input) ≤ weight * input * (2 ^ 14 * rout) }
{
    let counted = (weight * input) as u128;
    let scaled = (SCALE * rout) as u128;
    let whole = 1000 * (SCALE * rin) as u128 + counted;
    (counted * scaled / whole) as u64
}
