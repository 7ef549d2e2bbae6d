//! The formulas of a pool: amounts of a swap, shares of a mint and a burn, the protocol's shares
//! and the price accumulators.
//!
//! Each call is proved equal to its formula over unbounded numbers, within the stated widths:
//! reserves below 2^48, balances and amounts below 2^52, fees of 1, 3 or 10 thousandths. None takes
//! memory and none refuses.
#![tactic(auto)]

mod laws;

ghost use Rattle.std.specs.Prelude.{◌≡◌, ◌+◌, ◌-◌, ◌*◌, ◌/◌, ◌^◌, ◌<◌, ◌≤◌, ◌↔◌, IsTrue};
ghost use Rattle.amm_model.specs.Root.{IsRoot, root_of};
ghost use Rattle.amm_model.specs.Swap.{Admits, IsFee, IsGreatestOutput, IsLeastInputOrOneMore, admits as admits_of, amount_in_of, amount_out_of, input_weight, quote_of};
ghost use Rattle.amm_model.specs.Formulas.{elapsed_seconds as elapsed_of, accumulator_after as grown_of, IsBacked, accumulated_record, fee_shares_of, later_shares_of};

use amm_model::PairRecord;
use amm_num::{mul_div, root};
pub use laws::{fee_keeps_backing, root_meets_its_rule, shares_keep_product, swap_keeps_product};

// Times are kept modulo 2^32.
const SECONDS: u64 = 0x1_0000_0000;

/// What a pool at this fee pays out for an input of `x`: the greatest output that the rule of a
/// swap admits. `x` is 1 to 2^52-1, the reserves are 1 to 2^48-1.
pub fn amount_out(fee: u8, x: u64, rin: u64, rout: u64) -> u64
    requires fee { IsFee fee }
    requires input { (1 ≤ x) × (x < 2 ^ 52) }
    requires reserve_in { (1 ≤ rin) × (rin < 2 ^ 48) }
    requires reserve_out { (1 ≤ rout) × (rout < 2 ^ 48) }
    ensures value { result ≡ amount_out_of fee x rin rout }
    ensures greatest { IsGreatestOutput fee x rin rout result }
    ensures within { result < rout }
{
    let counted = weight(fee) * x;
    mul_div(counted, rout, (1000 * rin + counted) as u128) as u64
}

/// What a pool at this fee asks for an output of `y`: the least input that the rule of a swap
/// admits, or one more. `y` is 1 to less than `rout`, the reserves are 1 to 2^48-1. The answer may
/// be above the limit of amounts, and above 64 bits.
pub fn amount_in(fee: u8, y: u64, rin: u64, rout: u64) -> u128
    requires fee { IsFee fee }
    requires output { (1 ≤ y) × (y < rout) }
    requires reserve_in { (1 ≤ rin) × (rin < 2 ^ 48) }
    requires reserve_out { rout < 2 ^ 48 }
    ensures value { result ≡ amount_in_of fee y rin rout }
    ensures least { IsLeastInputOrOneMore fee y rin rout result }
{
    mul_div(1000 * rin, y, (weight(fee) * (rout - y)) as u128) + 1
}

/// The amount of the other token that matches `a` at the reserves, rounded down (library, `quote`).
/// `a` is 1 to 2^52-1, the reserves are 1 to 2^48-1. The answer may be above 64 bits.
pub fn quote(a: u64, ra: u64, rb: u64) -> u128
    requires amount { (1 ≤ a) × (a < 2 ^ 52) }
    requires reserve_a { (1 ≤ ra) × (ra < 2 ^ 48) }
    requires reserve_b { (1 ≤ rb) × (rb < 2 ^ 48) }
    ensures { result ≡ quote_of a ra rb }
{
    mul_div(a, rb, ra as u128)
}

/// Whether the balances, less the fee on what came in, keep the product of the reserves: the rule
/// of a swap (core, `swap`). No input is above its balance.
pub fn admits(fee: u8, r0: u64, r1: u64, b0: u64, b1: u64, in0: u64, in1: u64) -> bool
    requires fee { IsFee fee }
    requires reserves { (r0 < 2 ^ 48) × (r1 < 2 ^ 48) }
    requires balances { (b0 < 2 ^ 52) × (b1 < 2 ^ 52) }
    requires inputs { (in0 ≤ b0) × (in1 ≤ b1) }
    ensures value { result ≡ admits_of fee r0 r1 b0 b1 in0 in1 }
    ensures rule { IsTrue result ↔ Admits fee r0 r1 b0 b1 in0 in1 }
{
    let left0 = adjusted(fee, b0, in0);
    let left1 = adjusted(fee, b1, in1);
    left0 as u128 * left1 as u128 >= 1_000_000 * r0 as u128 * r1 as u128
}

/// The root of the product of the first amounts, rounded down: all shares of the first mint, those
/// that are locked among them.
pub fn first_root(a0: u64, a1: u64) -> u64
    requires { (a0 < 2 ^ 52) × (a1 < 2 ^ 52) }
    ensures value { result ≡ root_of (a0 * a1) }
    ensures root { IsRoot (a0 * a1) result }
{
    root(a0 as u128 * a1 as u128)
}

/// The shares for amounts brought to a pair that has shares: those of the side that brings fewer,
/// rounded down (core, `mint`). `supply` is at least 1, its square at most the product of the
/// reserves.
pub fn later_shares(a0: u64, a1: u64, supply: u64, r0: u64, r1: u64) -> u64
    requires amounts { (a0 < 2 ^ 52) × (a1 < 2 ^ 52) }
    requires supply { (1 ≤ supply) × (supply * supply ≤ r0 * r1) }
    requires reserves { (r0 < 2 ^ 48) × (r1 < 2 ^ 48) }
    ensures { result ≡ later_shares_of a0 a1 supply r0 r1 }
{
    let by0 = mul_div(a0, supply, r0 as u128);
    let by1 = mul_div(a1, supply, r1 as u128);
    by0.min(by1) as u64
}

/// The part of a balance that the shares stand for, rounded down (core, `burn`). `supply` is 1 to
/// 2^48-1, and `shares` at most that.
pub fn burn_amount(shares: u64, balance: u64, supply: u64) -> u64
    requires part { shares ≤ supply }
    requires supply { (1 ≤ supply) × (supply < 2 ^ 48) }
    requires balance { balance < 2 ^ 52 }
    ensures { result ≡ shares * balance / supply }
{
    mul_div(shares, balance, supply as u128) as u64
}

/// The protocol's shares: one sixth of the growth of the root of the product since the last mint
/// or burn, rounded down (core, `_mintFee`); 0 where `k_last` is 0 or the root has not grown. The
/// squared supply is at most the product of the reserves, and a `k_last` that is not 0 between
/// them.
pub fn fee_shares(supply: u64, r0: u64, r1: u64, k_last: u128) -> u64
    requires reserves { (r0 < 2 ^ 48) × (r1 < 2 ^ 48) }
    requires backed { IsBacked supply r0 r1 k_last }
    ensures { result ≡ fee_shares_of supply r0 r1 k_last }
{
    if k_last == 0 {
        return 0;
    }
    let root_now = root(r0 as u128 * r1 as u128);
    let root_last = root(k_last);
    mul_div(
        supply,
        root_now - root_last,
        (5 * root_now + root_last) as u128,
    ) as u64
}

/// The record after an update at the time `now` in seconds, but for its reserves: the time modulo
/// 2^32, and the accumulators, whose prices have 48 binary places, and which wrap (core,
/// `_update`).
pub fn accumulate(old: &PairRecord, now: u64) -> PairRecord
    ensures { result ≡ accumulated_record old.now now }
{
    let seconds = elapsed(now, old.last);
    PairRecord {
        last: (now % SECONDS) as u32,
        acc0: grown(old.acc0, old.r1, old.r0, seconds),
        acc1: grown(old.acc1, old.r0, old.r1, seconds),
        ..*old
    }
}

// The seconds from one time to another, modulo 2^32.
fn elapsed(now: u64, last: u32) -> u32
    ensures { result ≡ elapsed_of now last }
{
    ((now % SECONDS) as u32).wrapping_sub(last)
}

// An accumulator after some seconds at the price of `units` for one unit of `per`.
fn grown(acc: u128, units: u64, per: u64, elapsed: u32) -> u128
    ensures { result ≡ grown_of acc units per elapsed }
{
    // Within one second no price is worked out.
    if elapsed == 0 || units == 0 || per == 0 {
        return acc;
    }
    let price = units as u128 * 0x1_0000_0000_0000 / per as u128;
    acc.wrapping_add(price.wrapping_mul(elapsed as u128))
}

// How many thousandths of an input count after the fee.
fn weight(fee: u8) -> u64
    requires { IsFee fee }
    ensures value { result ≡ input_weight fee }
    ensures range { (990 ≤ result) × (result ≤ 999) }
{
    1000 - fee as u64
}

// What counts of a balance, in thousandths, of which some has just come in.
fn adjusted(fee: u8, balance: u64, input: u64) -> u64
    requires fee { IsFee fee }
    requires balance { balance < 2 ^ 52 }
    requires input { input ≤ balance }
    ensures value { result ≡ 1000 * balance - fee * input }
    ensures within { result ≤ 1000 * balance }
{
    1000 * balance - fee as u64 * input
}

#[cfg(test)]
mod tests {
    use super::*;

    #[test]
    fn outputs_for_inputs(rt: HostRuntime) {
        for (x, rin, rout, y) in [
            (10000, 1000000, 4000000, 39486),
            (100000, 1000000, 1000000, 90661),
            (90661, 1000000, 1000000, 82896),
            (68750, 1000000, 1000000, 64146),
            (31250, 1000000, 1000000, 30214),
            (30214, 1000000, 1000000, 29242),
            (200000, 1000000, 1000000, 166249),
            (166249, 1000000, 1000000, 142183),
            (1, 1000000, 1000000, 0),
        ] {
            assert_eq!(rt; amount_out(3, x, rin, rout), y);
        }
        assert_eq!(rt; amount_out(1, 10000, 1000000, 4000000), 39564);
        assert_eq!(rt; amount_out(10, 10000, 1000000, 4000000), 39211);
    }

    #[test]
    fn inputs_for_outputs(rt: HostRuntime) {
        assert_eq!(rt; amount_in(3, 39486, 1000000, 4000000), 10000);
        assert_eq!(rt; amount_in(3, 1000, 997000, 2000), 1000001);
        assert_eq!(rt; amount_in(10, 39211, 1000000, 4000000), 10000);
        assert_eq!(rt; quote(3000, 4004000, 1001000), 750);
    }

    #[test]
    fn admitted_swaps(rt: HostRuntime) {
        for (b0, b1, in0, is_admitted) in [
            (1010000, 3960514, 10000, true),
            (1010000, 3960513, 10000, false),
            (1000004, 4000000, 1004, true),
            (1000003, 4000000, 1003, false),
        ] {
            assert_eq!(rt; admits(3, 1000000, 4000000, b0, b1, in0, 0), is_admitted);
        }
    }

    #[test]
    fn shares(rt: HostRuntime) {
        assert_eq!(rt; first_root(997000, 2000), 44654);
        assert_eq!(rt;
            later_shares(110000, 110000, 1015384, 1100000, 1100000),
            101538
        );
        assert_eq!(rt; burn_amount(200000, 1000000, 2000000), 100000);
        assert_eq!(rt; fee_shares(1000000, 1100000, 1100000, 1000000000000), 15384);
        assert_eq!(rt; fee_shares(1000000, 1100000, 1100000, 0), 0);
    }

    #[test]
    fn accumulators_wrap(rt: HostRuntime) {
        let old = PairRecord {
            r0: 1,
            r1: 281474976710655,
            last: 4294967295,
            acc0: 340282366920938463463374607431768211455,
            acc1: 0,
            k_last: 7,
            locked: true,
        };
        let new = accumulate(&old, 4294967296);
        assert_eq!(rt;
            new,
            PairRecord {
                last: 0,
                acc0: 79228162514264056118567239679,
                acc1: 1,
                ..old
            }
        );
    }
}
