//! Legs from a balanced point: an order in which what is held pays for the inputs, in whole units.
//!
//! The trades of the point are the plan. A token into which no planned leg flows any more is
//! shared out whole over its legs, in proportion to the plan. Where every token still has an
//! inflow, a leg on a cycle goes first: one that can be paid whole, else the one best covered.
ghost use Rattle.std.specs.Prelude.{◌<◌, ◌≤◌};

use crate::legs::{PlannedLeg, PlannedLegs};
use crate::{Market, POOLS, Point, PoolPlace, Pools, TOKENS, TokenPlace, Way};

// More than the score of any leg that is paid in part: 2^40 times an input of 52 bits.
const WHOLE: u128 = 0x10_0000_0000_0000_0000_0000_0000;

/// The state of a walk.
#[derive(Drop)]
pub struct Walk<'a> {
    pools: &'a Pools,
    market: Market,
    point: Point,
    // Trades below 2^-skip of the worth are not planned.
    skip: u32,
    held: [u64; TOKENS],
    used: [bool; POOLS],
    // The plan: whole inputs (0: none), and whether token 0 goes in.
    input: [u64; POOLS],
    zero_in: [bool; POOLS],
    // Planned legs into and out of each token.
    into: [u32; TOKENS],
    out: [u32; TOKENS],
    // A leg got less than its plan since the last look.
    is_short: bool,
    pub legs: PlannedLegs,
    /// Some leg was on a cycle.
    pub is_cyclic: bool,
    /// How many legs were before the first that a token pays for.
    pub rank: [usize; TOKENS],
    /// Newton steps of new looks.
    pub spent: u32,
    ghost small: { skip < 128 },
}

impl<'a> Walk<'a> {
    /// Before the first leg.
    pub fn new(
        pools: &'a Pools,
        market: &Market,
        point: &Point,
        held: [u64; TOKENS],
        skip: u32,
    ) -> Walk<'a>
        requires { skip < 128 }
    {
        let mut walk = Walk {
            pools,
            market: *market,
            point: *point,
            skip,
            held,
            used: [true; POOLS],
            input: [0; POOLS],
            zero_in: [false; POOLS],
            into: [0; TOKENS],
            out: [0; TOKENS],
            is_short: false,
            legs: PlannedLegs::none(),
            is_cyclic: false,
            rank: [POOLS; TOKENS],
            spent: 0,
        };
        walk.mark_used();
        walk.plan();
        walk
    }

    // Pools that may not stand in a route count as used.
    fn mark_used(&mut self) {
        for k in 0..self.market.pools {
            self.used[k] = !self.pools.at(PoolPlace::new(k)).is_admissible;
        }
    }

    // The trades of the point as whole inputs.
    fn plan(&mut self) {
        self.into = [0; TOKENS];
        self.out = [0; TOKENS];
        let least = self.point.worth >> self.skip;
        for k in 0..self.market.pools {
            self.plan_pool(PoolPlace::new(k), least);
        }
    }

    // The plan of one pool.
    fn plan_pool(&mut self, place: PoolPlace, least: u128) {
        let k = place.at();
        self.input[k] = 0;
        if self.used[k] {
            return;
        }
        let trade = self.point.trades[k];
        self.zero_in[k] = trade.way == Way::ZeroIn;
        let way = self.pools.at(place).way(self.zero_in[k]);
        self.input[k] = trade.input(way.rin, least);
        if self.input[k] == 0 {
            return;
        }
        let a = way.from.at();
        let b = way.to.at();
        self.out[a] = self.out[a].saturating_add(1);
        self.into[b] = self.into[b].saturating_add(1);
    }

    // The tokens that the planned leg of a pool leads from and to.
    fn ends(&self, k: PoolPlace) -> (TokenPlace, TokenPlace) {
        let way = self.pools.at(k).way(self.zero_in[k.at()]);
        (way.from, way.to)
    }

    // One leg on at most `want`, taken out of the plan. Only the least input that gives as much is
    // paid, so what rounding would lose goes on.
    fn trade(&mut self, place: PoolPlace, want: u64) {
        let k = place.at();
        let zero_in = self.zero_in[k];
        let way = self.pools.at(place).way(zero_in);
        let a = way.from.at();
        let b = way.to.at();
        let x = want.min(self.held[a]).min(way.room);
        let y = way.amount_out(x);
        self.is_short = self.is_short || way.room < want;
        self.used[k] = true;
        self.input[k] = 0;
        self.out[a] = self.out[a].saturating_sub(1);
        self.into[b] = self.into[b].saturating_sub(1);
        if y > 0 {
            let paid = way.least_in(y).min(x);
            self.rank[a] = self.rank[a].min(self.legs.len());
            self.held[a] = self.held[a].saturating_sub(paid);
            self.held[b] = self.held[b].saturating_add(y);
            self.legs.add(PlannedLeg {
                pool: place,
                zero_in,
                input: paid,
                output: y,
            });
        }
    }

    // Whether a token is to pay for the planned leg of a pool.
    fn pays(&self, k: PoolPlace, v: TokenPlace) -> bool {
        self.input[k.at()] > 0 && self.ends(k).0.at() == v.at()
    }

    // All of a token goes to its legs in proportion to the plan; what rounding leaves goes to the
    // one whose output has the finest unit.
    fn share_out(&mut self, v: TokenPlace) {
        let (mut rest, last) = self.shares(v);
        for k in 0..self.market.pools {
            let place = PoolPlace::new(k);
            if self.pays(place, v) && k != last.at() {
                let part = self.input[k] as u128;
                let want = self.held[v.at()] as u128 * part / rest.max(1);
                self.trade(place, want.min(u64::MAX as u128) as u64);
                rest = rest.saturating_sub(part);
            }
        }
        if self.pays(last, v) {
            self.trade(last, self.held[v.at()]);
        }
    }

    // The sum of the inputs that a token is to pay, and the last of its legs.
    fn shares(&self, v: TokenPlace) -> (u128, PoolPlace) {
        let mut sum: u128 = 0;
        let mut last = PoolPlace::new(0);
        let mut finest = u128::MAX;
        for k in 0..self.market.pools {
            let place = PoolPlace::new(k);
            if self.pays(place, v) {
                sum = sum.wrapping_add(self.input[k] as u128);
                let unit = self.market.price(&self.point.x, self.ends(place).1);
                if unit <= finest {
                    last = place;
                    finest = unit;
                }
            }
        }
        (sum, last)
    }

    // The tokens to which planned legs lead from each, one bit per token.
    fn next(&self) -> [u64; TOKENS] {
        let mut next = [0u64; TOKENS];
        for k in 0..self.market.pools {
            if self.input[k] > 0 {
                let (a, b) = self.ends(PoolPlace::new(k));
                next[a.at()] |= b.bit();
            }
        }
        next
    }

    // A leg on a cycle: of those that can be paid whole the one that the rule likes most, else the
    // one best covered.
    fn pick(&self, rule: u64) -> Option<PoolPlace> {
        let next = self.next();
        let mut best = None;
        let mut most = 0;
        for k in 0..self.market.pools {
            let place = PoolPlace::new(k);
            let score = self.score(place, rule);
            if score > most {
                let (a, b) = self.ends(place);
                if leads(&next, b, a) {
                    best = Some(place);
                    most = score;
                }
            }
        }
        best
    }

    // How soon a leg should go; 0 where it cannot.
    fn score(&self, place: PoolPlace, rule: u64) -> u128 {
        let input = self.input[place.at()];
        let held = self.held[self.ends(place).0.at()];
        if input == 0 || held == 0 {
            0
        } else if held >= input {
            WHOLE + self.liking(place, rule) as u128
        } else {
            1 + ((held as u128) << 40) / input as u128
        }
    }

    // Rule 0 likes the greatest leg, each other rule scrambles the places in its own way.
    fn liking(&self, place: PoolPlace, rule: u64) -> u64 {
        if rule == 0 {
            return self.point.trades[place.at()].paid;
        }
        let odd = rule.wrapping_mul(2).wrapping_add(1);
        (place.at() as u64 + 1)
            .wrapping_mul(0x9E37_79B9_7F4A_7C15)
            .wrapping_mul(odd)
            >> 5
    }

    // The tokens that pools which are left join with the target, one bit per token.
    fn near(&self) -> u64 {
        let mut near = self.market.target.bit();
        for _ in 0..self.market.tokens {
            for k in 0..self.market.pools {
                let (a, b) = self.ends(PoolPlace::new(k));
                let both = a.bit() | b.bit();
                if !self.used[k] && near & both != 0 {
                    near |= both;
                }
            }
        }
        near
    }

    // Prices and plan for what is held and the pools that are left, as far as they are joined with
    // the target.
    fn look_again(&mut self) {
        let near = self.near();
        let mut held = self.market.values(&self.held);
        for k in 0..self.market.tokens {
            if near & TokenPlace::new(k).bit() == 0 {
                held[k] = 0;
            }
        }
        for k in 0..self.market.pools {
            let place = PoolPlace::new(k);
            if self.used[k] || near & self.pools.at(place).zero.bit() == 0 {
                self.market.leave_out(place);
            }
        }
        let (point, steps) = Point::balanced(&self.market, &held, self.point.x, 16, 20);
        self.point = point;
        self.spent = self.spent.saturating_add(steps);
        self.plan();
        self.is_short = false;
    }

    // The first token into which nothing more flows and which is to pay.
    fn ready(&self) -> Option<TokenPlace> {
        for v in 0..self.market.tokens {
            if v != self.market.target.at() && self.out[v] > 0 && self.into[v] == 0 {
                return Some(TokenPlace::new(v));
            }
        }
        None
    }

    // The first token that is held and is to pay.
    fn able(&self) -> Option<TokenPlace> {
        for v in 0..self.market.tokens {
            if v != self.market.target.at() && self.out[v] > 0 && self.held[v] > 0 {
                return Some(TokenPlace::new(v));
            }
        }
        None
    }

    // One or more legs; false where nothing can be done.
    fn step(&mut self, rule: u64) -> bool {
        if let Some(v) = self.ready() {
            self.share_out(v);
            return true;
        }
        if let Some(k) = self.pick(rule) {
            self.is_cyclic = true;
            let input = self.input[k.at()];
            let (a, _) = self.ends(k);
            self.is_short = self.is_short || self.held[a.at()] < input;
            self.trade(k, input);
            return true;
        }
        if let Some(v) = self.able() {
            self.is_cyclic = true;
            self.is_short = true;
            self.share_out(v);
            return true;
        }
        false
    }

    /// Walks to the end, and answers how much of the target is held then. Where a leg fell short
    /// the rest is planned anew, as long as fewer than `budget` Newton steps went into that.
    pub fn run(&mut self, rule: u64, budget: u32) -> u64 {
        for _ in 0..self.market.pools {
            if !self.step(rule) {
                break;
            }
            if self.is_short && self.spent < budget {
                self.look_again();
            }
        }
        self.held[self.market.target.at()]
    }
}

// Whether planned legs lead from one token to another; each token is looked at once.
fn leads(next: &[u64; TOKENS], from: TokenPlace, to: TokenPlace) -> bool {
    let mut seen = from.bit();
    let mut front = seen;
    for _ in 0..TOKENS {
        if front == 0 || seen & to.bit() != 0 {
            break;
        }
        let after = next[front.trailing_zeros() as usize % TOKENS];
        front = (front & front.wrapping_sub(1)) | (after & !seen);
        seen |= after;
    }
    seen & to.bit() != 0
}
