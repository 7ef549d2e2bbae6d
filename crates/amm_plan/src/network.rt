//! The linear system of a Newton step, as a network of resistors.
//!
//! Tokens are joined by resistors and with the ground, the target; what is left of a token flows
//! in, and the voltages are the steps of the prices. It is solved by taking out one token after
//! the other: its neighbours are joined with each other instead, each pair by the product of their
//! conductances to it over the sum of all (star and mesh). Nothing is subtracted and no token's
//! sum grows, so whole numbers lose nothing to speak of.
ghost use Rattle.std.specs.Prelude.{◌<◌, ◌≤◌};

use crate::scale::{DAMPING_BITS, FACTOR_BITS, SHARE_BITS};
use crate::{TOKENS, TokenPlace};

/// Conductances by the seats of the two ends, the lesser first; those with the ground; the flows.
#[derive(Drop)]
pub struct Network {
    tokens: usize,
    between: [u64; 4096],
    ground: [u64; TOKENS],
    flow: [i128; TOKENS],
    ghost few: { tokens ≤ 64 },
}

impl Network {
    /// A network with no resistor.
    pub fn new(tokens: usize) -> Network
        requires { tokens ≤ 64 }
    {
        Network {
            tokens,
            between: [0; 4096],
            ground: [0; TOKENS],
            flow: [0; TOKENS],
        }
    }

    /// Takes all resistors and flows away.
    pub fn clear(&mut self) {
        for at in 0..self.tokens * TOKENS {
            self.between[at] = 0;
        }
        self.ground = [0; TOKENS];
        self.flow = [0; TOKENS];
    }

    /// Joins two tokens.
    pub fn join(&mut self, i: usize, j: usize, c: u64)
        requires first { i < 64 }
        requires second { j < 64 }
    {
        let at = i.min(j) * TOKENS + i.max(j);
        self.between[at] = self.between[at].saturating_add(c);
    }

    /// Joins a token with the ground.
    pub fn join_ground(&mut self, i: usize, c: u64)
        requires { i < 64 }
    {
        self.ground[i] = self.ground[i].saturating_add(c);
    }

    /// What flows in at a token.
    pub fn flow_in(&mut self, seat: TokenPlace, flow: i128) {
        self.flow[seat.at()] = flow;
    }

    // The sum of the conductances at a token.
    fn row_sum(&self, k: usize) -> u64
        requires { k < 64 }
    {
        let mut sum = self.ground[k];
        for i in 0..self.tokens {
            sum = sum.saturating_add(self.between[k.min(i) * TOKENS + k.max(i)]);
        }
        sum
    }

    /// Joins each token with the ground by a part of all that it has, and by at least 1: this keeps
    /// the steps short and no sum is 0. Sums are below 2^65 and flows below 2^68, times 2^50.
    pub fn leak(&mut self, damping: u64) {
        let mut sums = [0u64; TOKENS];
        for k in 0..self.tokens {
            sums[k] = self.row_sum(k);
        }
        for k in 0..self.tokens {
            let all = (sums[k] as u128).wrapping_add(self.flow[k].unsigned_abs());
            let c = all.wrapping_mul(damping as u128) >> DAMPING_BITS;
            let small = c.min(1 << 60) as u64 + 1;
            self.ground[k] = self.ground[k].saturating_add(small);
        }
    }

    // Token i takes its share of what token k had.
    fn spread(&mut self, k: usize, i: usize, share: u64)
        requires first { k < 64 }
        requires second { i < 64 }
    {
        self.ground[i] = self.ground[i].saturating_add(part(self.ground[k], share));
        let flow = (share as i128).wrapping_mul(self.flow[k]) >> SHARE_BITS;
        self.flow[i] = self.flow[i].wrapping_add(flow);
        for j in i + 1..self.tokens {
            let c = part(self.between[k * TOKENS + j], share);
            let at = i * TOKENS + j;
            self.between[at] = self.between[at].saturating_add(c);
        }
    }

    // What joins token k with those after it and with the ground, at least 1: 65 of 64 bits.
    fn sum_after(&self, k: usize) -> u128
        requires { k < 64 }
        ensures { 1 ≤ result }
    {
        let mut sum = self.ground[k] as u128;
        for i in k + 1..self.tokens {
            sum = sum.wrapping_add(self.between[k * TOKENS + i] as u128);
        }
        sum.max(1)
    }

    /// The voltages, from -2^50 to 2^50. The resistors are gone then.
    pub fn voltages(&mut self) -> [i64; TOKENS] {
        let sums = self.take_out();
        self.voltages_of(&sums)
    }

    // Takes out one token after the other; the sums of conductances that they had.
    fn take_out(&mut self) -> [u128; TOKENS] {
        let mut sums = [1u128; TOKENS];
        for k in 0..self.tokens {
            let sum = self.sum_after(k);
            sums[k] = sum;
            for i in k + 1..self.tokens {
                let c = self.between[k * TOKENS + i];
                if c > 0 {
                    let share = ((c as u128) << SHARE_BITS) / sum;
                    self.spread(k, i, share.min(1 << SHARE_BITS) as u64);
                }
            }
        }
        sums
    }

    // The voltages, from the token that was taken out last to the first.
    fn voltages_of(&self, sums: &[u128; TOKENS]) -> [i64; TOKENS] {
        let mut v = [0i64; TOKENS];
        for k in (0..self.tokens).rev() {
            let mut f = self.flow[k] << FACTOR_BITS;
            for i in k + 1..self.tokens {
                f = f.wrapping_add(
                    (self.between[k * TOKENS + i] as i128).wrapping_mul(v[i] as i128),
                );
            }
            let sum = sums[k].max(1);
            v[k] = f.wrapping_div(sum.cast_signed()).clamp(-1 << 50, 1 << 50) as i64;
        }
        v
    }
}

// A share, at most 1, of a conductance: no more than it.
fn part(c: u64, share: u64) -> u64 {
    (c as u128 * share as u128 >> SHARE_BITS & u64::MAX as u128) as u64
}
