//! How much one hop more can bring at most, told by products alone.
//!
//! A pool pays for an amount no more than the amount is worth at its reserves, less the fee: that
//! the amount moves the price makes it only less. Where not even that is a gain, what the pool pays
//! need not be worked out, which takes a division of 128 bits for each of the 52 powers of two.
ghost use Rattle.std.specs.Prelude.{◌≡◌, ◌+◌, ◌<◌, ◌≤◌, ◌^◌, ℕ, length, slice_index, true};
ghost use Rattle.amm_model.specs.Paths.{hop_gives};
ghost use Rattle.amm_model.specs.Swap.{IsFee, amount_out_of};

use crate::powers::Powers;
use amm_model::{Hop, OpenProblem};

/// Whether hops that give these amounts are sure to bring, with one hop more, at most so much more
/// than each power of two. No means that they may bring more, or not.
pub fn is_within(problem: &OpenProblem, powers: &Powers, hop: Hop, most: u64) -> bool
    requires there { hop.pool < length problem.now.pools }
    requires long { length powers.now.amounts ≡ 52 }
    requires below { (e : ℕ) → e < 52 → slice_index powers.now.amounts e < 2 ^ 52 }
    ensures { result ≡ true → (e : ℕ) → e < 52 → hop_gives problem.now.pools hop (slice_index powers.now.amounts e) ≤ 2 ^ e + most }
{
    let pools = problem.pools();
    let pool = &pools[hop.pool as usize];
    let fee = pool.name.fee();
    if hop.zero_in {
        is_side_within(powers, fee, pool.r0, pool.r1, most)
    } else {
        is_side_within(powers, fee, pool.r1, pool.r0, most)
    }
}

// The same of a side of a pool.
fn is_side_within(powers: &Powers, fee: u8, rin: u64, rout: u64, most: u64) -> bool
    requires long { length powers.now.amounts ≡ 52 }
    requires below { (e : ℕ) → e < 52 → slice_index powers.now.amounts e < 2 ^ 52 }
    requires fee { IsFee fee }
    requires reserve_in { rin < 2 ^ 48 }
    requires reserve_out { rout < 2 ^ 48 }
    ensures { result ≡ true → (e : ℕ) → e < 52 → amount_out_of fee (slice_index powers.now.amounts e) rin rout ≤ 2 ^ e + most }
{
    let worth = (1000 - fee as u64) * rout;
    let price = 1000 * rin;
    for e in 0..52 {
        let limit = (1u64 << e) as u128 + most as u128;
        if powers.amounts[e] as u128 * worth as u128 > limit * price as u128 {
            return false;
        }
    }
    true
}
