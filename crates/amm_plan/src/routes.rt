//! The best of a few walks: by what they skip, by the order in which they break cycles, and with
//! trades in one way only.
ghost use Rattle.std.specs.Prelude.{◌<◌, ◌≤◌};

use crate::legs::PlannedLegs;
use crate::walk::Walk;
use crate::{Market, POOLS, Point, Pools, TOKENS};

// Newton steps at most; 5 to 50 are usual.
const STEPS: u32 = 80;

// Trades below 2^-skip of the worth are left out, since a leg may lose a unit by rounding.
const ALL: u32 = 120;

// Orders that are tried where the flow has cycles; the best of them get new looks.
const ORDERS: u64 = 40;

// So many orders are walked once more with new looks.
const LOOKS: usize = 4;

// Newton steps that the new looks may take in all.
const BUDGET: u32 = 160;

/// The pools, the market over them, its balanced point and what is held.
#[derive(Clone, Copy)]
pub struct Start<'a> {
    pub pools: &'a Pools,
    pub market: &'a Market,
    pub point: &'a Point,
    pub held: [u64; TOKENS],
}

/// The best legs so far.
#[derive(Drop)]
pub struct Best {
    pub delivered: u64,
    pub legs: PlannedLegs,
}

impl Best {
    // Keeps the better.
    fn see(&mut self, delivered: u64, legs: &PlannedLegs) {
        if delivered > self.delivered {
            self.delivered = delivered;
            self.legs = *legs;
        }
    }

    // Walks that differ in what they skip; the ranks of the first, where its flow had cycles.
    fn try_plain(&mut self, start: &Start) -> Option<[usize; TOKENS]> {
        let mut ranks = None;
        for skip in [ALL, 24, 16, 12] {
            let mut walk = Walk::new(
                start.pools,
                start.market,
                start.point,
                start.held,
                skip % 128,
            );
            let got = walk.run(0, 0);
            if walk.is_cyclic && skip == ALL {
                ranks = Some(walk.rank);
            }
            self.see(got, &walk.legs);
        }
        ranks
    }

    // Many orders of the cycles' legs, then new looks for the best of them and for rule 0.
    fn try_orders(&mut self, start: &Start, enough: u64) {
        let mut top = Top {
            got: [0; LOOKS],
            rule: [0; LOOKS],
        };
        for rule in 0..ORDERS {
            let mut walk = Walk::new(start.pools, start.market, start.point, start.held, ALL);
            let got = walk.run(rule, 0);
            self.see(got, &walk.legs);
            if self.delivered >= enough {
                return;
            }
            top.see(got, rule);
        }
        let mut left = BUDGET;
        for rule in top.rule {
            let mut walk = Walk::new(start.pools, start.market, start.point, start.held, ALL);
            let got = walk.run(rule, left);
            left = left.saturating_sub(walk.spent);
            self.see(got, &walk.legs);
        }
    }

    // Trades in one way only, by the order in which tokens first paid: there are no cycles then, so
    // nothing is lost for want of holdings.
    fn try_one_way(&mut self, start: &Start, rank: [usize; TOKENS]) {
        let mut ahead = *start.market;
        let mut rank = rank;
        rank[ahead.target.at()] = POOLS + 1;
        ahead.one_way(&rank);
        let held = start.market.values(&start.held);
        let (point, _) = Point::balanced(&ahead, &held, start.point.x, 24, STEPS);
        let next = Start {
            pools: start.pools,
            market: &ahead,
            point: &point,
            held: start.held,
        };
        let _ranks = self.try_plain(&next);
    }
}

// The best orders, by what they delivered; the first stays.
#[derive(Clone, Copy)]
struct Top {
    got: [u64; LOOKS],
    rule: [u64; LOOKS],
}

impl Top {
    // Takes an order in at its place.
    fn see(&mut self, delivered: u64, order: u64) {
        let mut got = delivered;
        let mut rule = order;
        for i in 1..LOOKS {
            if got > self.got[i] {
                let less = self.got[i];
                let other = self.rule[i];
                self.got[i] = got;
                self.rule[i] = rule;
                got = less;
                rule = other;
            }
        }
    }
}

/// The balanced point of a market with what is held: what is left is at most 2^-30 of the worth,
/// or 80 steps were made.
pub fn solved(market: &Market, held: &[u64; TOKENS]) -> Point {
    let values = market.values(held);
    let (point, _) = Point::balanced(market, &values, market.start(&values), 30, STEPS);
    point
}

/// The best legs of a few walks from a balanced point. Orders are tried only where a flow has
/// cycles and brings less than the point's worth by more than one part in 2^20 of it.
pub fn route(start: &Start) -> Best {
    let mut best = Best {
        delivered: 0,
        legs: PlannedLegs::none(),
    };
    let most = start.market.in_target(start.point);
    let enough = most - (most >> 20);
    if let Some(rank) = best.try_plain(start) {
        if best.delivered < enough {
            best.try_orders(start, enough);
            best.try_one_way(start, rank);
        }
    }
    best
}
