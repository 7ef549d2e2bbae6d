//! The market: start prices, and the values of the pools' sides at them.
//!
//! A start price is where the pools' reserves put it, along a tree from the target. From here on a
//! price is a factor on its start price, and amounts are values in one unit, scaled so that the
//! deepest side of a pool just fits.
ghost use Rattle.std.specs.Prelude.{◌<◌, ◌≤◌, length};

use crate::network::Network;
use crate::scale::{
    DEEPEST_BITS, LEAST_FACTOR, LEAST_PRICE, MOST_PRICE, ONE_FACTOR, UNIT_BITS, UNIT_PRICE,
};
use crate::{POOLS, PlanPool, Point, PoolPlace, Pools, TOKENS, TokenPlace};

/// A pool with the values of its sides at the start prices; both are 0 where it takes no part.
#[derive(Clone, Copy)]
pub struct Side {
    pub zero: TokenPlace,
    pub one: TokenPlace,
    pub weight: u64,
    pub v0: u64,
    pub v1: u64,
    /// Whether token 0 may go in, and whether token 1 may.
    pub may_zero: bool,
    pub may_one: bool,
}

/// The market over some pools.
#[derive(Clone, Copy)]
pub struct Market {
    pub tokens: usize,
    pub pools: usize,
    pub target: TokenPlace,
    pub sides: [Side; POOLS],
    /// The tokens' seats in the network: those of few pools first, which joins few anew.
    pub seats: [TokenPlace; TOKENS],
    /// Start prices; 0 where no pool joins the token with the target.
    pub prices: [u64; TOKENS],
    /// How far values are shifted down.
    pub shift: u32,
    ghost few_tokens: { tokens ≤ 64 },
    ghost few_pools: { pools ≤ 256 },
    ghost short: { shift < 128 },
}

impl Market {
    /// The market of some tokens over pools. For legs, pools that may not stand in a route take no
    /// part; for prices all do, since a bound counts them.
    pub fn new(tokens: usize, given: &Pools, target: TokenPlace, for_legs: bool) -> Market
        requires { tokens ≤ 64 }
    {
        let pools = given.as_slice();
        let nothing = Side {
            zero: target,
            one: target,
            weight: 1,
            v0: 0,
            v1: 0,
            may_zero: true,
            may_one: true,
        };
        let mut market = Market {
            tokens,
            pools: given.len(),
            target,
            sides: [nothing; POOLS],
            seats: [target; TOKENS],
            prices: [0; TOKENS],
            shift: 0,
        };
        market.take_prices(pools, for_legs);
        market.shift = market.scale(pools);
        market.fill(pools, for_legs);
        market.take_seats();
        market
    }

    // Start prices go from the target along a tree, the greatest value first.
    fn take_prices(&mut self, pools: &[PlanPool], for_legs: bool) {
        self.prices[self.target.at()] = UNIT_PRICE;
        for _ in 1..self.tokens {
            self.next_price(pools, for_legs);
        }
    }

    // What a pool's reserves are worth at the start prices: below 2^60 * 2^48.
    fn worths(&self, q: &PlanPool) -> (u128, u128) {
        (
            self.prices[q.zero.at()] as u128 * q.r0 as u128,
            self.prices[q.one.at()] as u128 * q.r1 as u128,
        )
    }

    // Prices the token without a price that the greatest value joins with one that has a price.
    fn next_price(&mut self, pools: &[PlanPool], for_legs: bool) {
        let mut most = 0;
        let mut token = self.target;
        let mut price = UNIT_PRICE as u128;
        for q in pools {
            let (v0, v1) = self.worths(q);
            if (v0 == 0) != (v1 == 0) && v0.max(v1) > most && (!for_legs || q.is_admissible) {
                most = v0.max(v1);
                if v1 == 0 {
                    token = q.one;
                    price = v0 / q.r1.max(1) as u128;
                } else {
                    token = q.zero;
                    price = v1 / q.r0.max(1) as u128;
                }
            }
        }
        self.prices[token.at()] = price.clamp(LEAST_PRICE as u128, MOST_PRICE as u128) as u64;
    }

    // The shift that brings the greatest value below 2^56; at most 52.
    fn scale(&self, pools: &[PlanPool]) -> u32
        ensures { result < 128 }
    {
        let mut most: u128 = 1;
        for q in pools {
            let (v0, v1) = self.worths(q);
            most = most.max(v0).max(v1);
        }
        (128 - most.leading_zeros()).saturating_sub(DEEPEST_BITS)
    }

    // The sides of all pools.
    fn fill(&mut self, pools: &[PlanPool], for_legs: bool)
        requires { length pools.now ≤ 256 }
    {
        for (k, q) in pools.iter().enumerate() {
            let takes_part = !for_legs || q.is_admissible;
            self.sides[k] = Side {
                zero: q.zero,
                one: q.one,
                weight: q.weight.max(1),
                v0: if takes_part {
                    self.value(q.zero, q.r0)
                } else {
                    0
                },
                v1: if takes_part {
                    self.value(q.one, q.r1)
                } else {
                    0
                },
                may_zero: true,
                may_one: true,
            };
        }
    }

    // An amount at the start price.
    fn value(&self, token: TokenPlace, amount: u64) -> u64 {
        let worth = self.prices[token.at()] as u128 * amount as u128 >> self.shift;
        worth.min(u64::MAX as u128) as u64
    }

    // The place of each token among all by how many pools have it.
    fn take_seats(&mut self) {
        let mut pools = [0u32; TOKENS];
        for k in 0..self.pools {
            let side = self.sides[k];
            pools[side.zero.at()] = pools[side.zero.at()].saturating_add(1);
            pools[side.one.at()] = pools[side.one.at()].saturating_add(1);
        }
        for a in 0..self.tokens {
            let mut rank: usize = 0;
            for b in 0..self.tokens {
                if pools[b] < pools[a] || (pools[b] == pools[a] && b < a) {
                    rank = rank.saturating_add(1);
                }
            }
            self.seats[a] = TokenPlace::new(rank);
        }
    }

    /// What is held, in value.
    pub fn values(&self, held: &[u64; TOKENS]) -> [u128; TOKENS] {
        let mut v = [0u128; TOKENS];
        for k in 0..self.tokens {
            v[k] = self.prices[k] as u128 * held[k] as u128 >> self.shift;
        }
        v
    }

    /// Factors to start with: 1, and less where more is held than the deepest pool is worth.
    pub fn start(&self, held: &[u128; TOKENS]) -> [u64; TOKENS] {
        let mut x = [ONE_FACTOR; TOKENS];
        for k in 0..self.tokens {
            if held[k] > 1 << DEEPEST_BITS && k != self.target.at() {
                let part = ((ONE_FACTOR as u128) << DEEPEST_BITS) / held[k];
                x[k] = part.clamp(LEAST_FACTOR as u128, ONE_FACTOR as u128) as u64;
            }
        }
        x
    }

    /// From now on trades lead only from tokens of lower rank to tokens of higher rank.
    pub fn one_way(&mut self, rank: &[usize; TOKENS]) {
        for k in 0..self.pools {
            let up = rank[self.sides[k].zero.at()] < rank[self.sides[k].one.at()];
            self.sides[k].may_zero = up;
            self.sides[k].may_one = !up;
        }
    }

    /// Leaves a pool out from now on.
    pub fn leave_out(&mut self, place: PoolPlace) {
        let k = place.at();
        self.sides[k].v0 = 0;
        self.sides[k].v1 = 0;
    }

    /// The worth of a point in units of the target; below 2^60, so that a sum of two fits.
    pub fn in_target(&self, p: &Point) -> u64 {
        (p.worth << self.shift >> UNIT_BITS).min(1 << 60) as u64
    }

    /// The price of a token at factors x: below 2^122; 0 where nothing joins it with the target.
    pub fn price(&self, x: &[u64; TOKENS], token: TokenPlace) -> u128 {
        self.prices[token.at()] as u128 * x[token.at()] as u128
    }

    /// Joins two tokens by a resistor of conductance c; the target is the ground.
    pub fn join(&self, network: &mut Network, i: TokenPlace, j: TokenPlace, c: u64) {
        let a = self.seats[i.at()];
        let b = self.seats[j.at()];
        let ground = self.seats[self.target.at()].at();
        if a.at() == ground {
            network.join_ground(b.at(), c);
        } else if b.at() == ground {
            network.join_ground(a.at(), c);
        } else {
            network.join(a.at(), b.at(), c);
        }
    }
}
