//! The market at some prices: each pool's best trade, and what the trades leave of each token.
//!
//! With the value `a` of the side that goes in, `b` of the other and `c = a*1000/weight`, a pool
//! trades where `b > c`: with `m = root(b*c)` it is paid `m - c` and pays `b - m`. The worth of a
//! point is what is held and what all trades gain; it is least where nothing is left over of any
//! token but the target. The derivative of what is left by the logarithm of a price is `m/2`, and
//! so a Newton step is the network of `m/2` between the two tokens of each pool.
ghost use Rattle.std.specs.Prelude.{◌<◌, ◌≤◌};

use crate::market::Side;
use crate::network::Network;
use crate::scale::{DAMPING_BITS, FACTOR_BITS, LEAST_FACTOR, MOST_FACTOR, MOST_INPUT, MOST_VALUE};
use crate::{Market, POOLS, TOKENS, TokenPlace};
use amm_num::root;

/// What a pool does at some prices.
#[derive(Clone, Copy)]
pub struct Trade {
    pub way: Way,
    /// The value of the side that goes in (of token 0, where none does), and what is paid of it.
    pub side: u64,
    pub paid: u64,
    /// The geometric mean of the sides: twice the conductance.
    pub mean: u64,
}

impl Trade {
    /// What is paid, in units of a token with this reserve; 0 where it is worth no more than the
    /// least.
    pub fn input(self, reserve: u64, least: u128) -> u64 {
        if self.way == Way::Rests || self.paid as u128 <= least {
            return 0;
        }
        let x = self.paid as u128 * reserve as u128 / self.side.max(1) as u128;
        x.clamp(1, MOST_INPUT) as u64
    }
}

/// Which token goes in, if any.
#[derive(Clone, Copy, PartialEq, Eq)]
pub enum Way {
    Rests,
    ZeroIn,
    OneIn,
}

const RESTING: Trade = Trade {
    way: Way::Rests,
    side: 0,
    paid: 0,
    mean: 0,
};

/// The market at factors x on the start prices.
#[derive(Clone, Copy)]
pub struct Point {
    pub x: [u64; TOKENS],
    pub trades: [Trade; POOLS],
    /// What is left of each token, in value.
    pub net: [i128; TOKENS],
    /// What is held and what the trades gain, in value.
    pub worth: u128,
    /// What is left of all tokens but the target.
    pub error: u128,
}

impl Point {
    /// All best trades at factors x, and what they leave of what is held.
    pub fn at(market: &Market, held: &[u128; TOKENS], x: [u64; TOKENS]) -> Point {
        let mut p = Point {
            x,
            trades: [RESTING; POOLS],
            net: [0; TOKENS],
            worth: 0,
            error: 0,
        };
        p.hold(market, held);
        p.trade_all(market);
        p.error = p.left(market);
        p
    }

    // Counts what is held.
    fn hold(&mut self, market: &Market, held: &[u128; TOKENS]) {
        for k in 0..market.tokens {
            let v = times(held[k], self.x[k]);
            self.net[k] = v as i128;
            self.worth = self.worth.wrapping_add(v as u128);
        }
    }

    // Each pool's best trade.
    fn trade_all(&mut self, market: &Market) {
        for k in 0..market.pools {
            self.trades[k] = self.trade(market.sides[k]);
        }
    }

    // The best trade of one pool, counted. Values are below 2^58, weights at most 1000.
    fn trade(&mut self, side: Side) -> Trade {
        let v0 = times(side.v0 as u128, self.x[side.zero.at()]);
        let v1 = times(side.v1 as u128, self.x[side.one.at()]);
        let weight = side.weight as u128;
        if side.may_zero && weight * v1 as u128 > 1000 * v0 as u128 {
            self.best(Way::ZeroIn, side.weight, (side.zero, v0), (side.one, v1))
        } else if side.may_one && weight * v0 as u128 > 1000 * v1 as u128 {
            self.best(Way::OneIn, side.weight, (side.one, v1), (side.zero, v0))
        } else {
            Trade {
                way: Way::Rests,
                side: v0,
                paid: 0,
                mean: 0,
            }
        }
    }

    // A pool's best trade from one side to the other: c below 2^59, c*b below 2^117.
    fn best(
        &mut self,
        way: Way,
        weight: u64,
        from: (TokenPlace, u64),
        to: (TokenPlace, u64),
    ) -> Trade {
        let (token, a) = from;
        let (other, b) = to;
        let c = a as u128 * 1000 / weight.max(1) as u128;
        let mean = root(c.wrapping_mul(b as u128));
        let paid = (mean as u128).saturating_sub(c) as u64;
        let got = b.saturating_sub(mean);
        self.net[token.at()] = self.net[token.at()].wrapping_sub(paid as i128);
        self.net[other.at()] = self.net[other.at()].wrapping_add(got as i128);
        self.worth = self.worth.wrapping_add(got.saturating_sub(paid) as u128);
        Trade {
            way,
            side: a,
            paid,
            mean,
        }
    }

    // What is left of all tokens but the target.
    fn left(&self, market: &Market) -> u128 {
        let mut sum: u128 = 0;
        for k in 0..market.tokens {
            if k != market.target.at() {
                sum = sum.wrapping_add(self.net[k].unsigned_abs());
            }
        }
        sum
    }

    // The factors after one step.
    fn stepped(&self, market: &Market, damping: u64, network: &mut Network) -> [u64; TOKENS] {
        network.clear();
        self.wire(market, damping, network);
        network.leak(damping);
        let v = network.voltages();
        let mut x = self.x;
        for k in 0..market.tokens {
            if k != market.target.at() {
                x[k] = moved(x[k], v[market.seats[k].at()]);
            }
        }
        x
    }

    // A pool that trades is a resistor. One that rests is a weak one, which keeps a step from
    // jumping past the price where it wakes.
    fn wire(&self, market: &Market, damping: u64, network: &mut Network) {
        for k in 0..market.pools {
            let trade = self.trades[k];
            let rest = trade.side as u128 * damping.min(1 << DAMPING_BITS) as u128 >> DAMPING_BITS;
            let c = match trade.way {
                Way::Rests => rest as u64,
                _ => trade.mean / 2,
            };
            let side = market.sides[k];
            market.join(network, side.zero, side.one, c);
        }
        for k in 0..market.tokens {
            if k != market.target.at() {
                network.flow_in(market.seats[k], self.net[k].wrapping_neg());
            }
        }
    }

    /// Newton steps from the factors x, until what is left is below 2^-bits of the worth; and how
    /// many they were. The damping begins at a quarter, falls by 8 after a step that brings
    /// something and grows by 8 after one that does not; past 2^50 no step brings anything.
    pub fn balanced(
        market: &Market,
        held: &[u128; TOKENS],
        x: [u64; TOKENS],
        bits: u32,
        steps: u32,
    ) -> (Point, u32)
        requires { bits < 128 }
    {
        let mut network = Network::new(market.tokens);
        let mut p = Point::at(market, held, x);
        let mut damping: u64 = 1 << 30;
        let mut spent: u32 = 0;
        for _ in 0..steps {
            if p.error <= (p.worth >> bits).max(1024) || damping > 1 << 50 {
                break;
            }
            spent = spent.saturating_add(1);
            let q = Point::at(market, held, p.stepped(market, damping, &mut network));
            if q.is_better(&p) {
                p = q;
                damping = (damping >> 3).max(1);
            } else {
                damping <<= 3;
            }
        }
        (p, spent)
    }

    // A lesser worth is better; where worths are the same but for rounding, half of what is left.
    fn is_better(&self, p: &Point) -> bool {
        self.worth < p.worth
            || (self.worth <= p.worth.wrapping_add(1024) && self.error < p.error / 2)
    }
}

// A factor after a step of so much of it, -3/4 to 2: below 2^64, times 2^46.
fn moved(x: u64, voltage: i64) -> u64 {
    let step = voltage.clamp(-3 << (FACTOR_BITS - 2), 2 << FACTOR_BITS);
    let more = x as i128 * step as i128 >> FACTOR_BITS;
    (x as i128 + more).clamp(LEAST_FACTOR as i128, MOST_FACTOR as i128) as u64
}

// A value at a factor: below 2^117 times 2^62 may be too much, and is then the greatest.
fn times(value: u128, x: u64) -> u64 {
    (value.saturating_mul(x as u128) >> FACTOR_BITS).min(MOST_VALUE) as u64
}
