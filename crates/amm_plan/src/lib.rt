//! A plan for a routing problem: prices at which the best trades balance, and legs from them.
//!
//! **It owes safety alone.** No contract tells what its answers are, only that they come: nothing
//! overflows, no index is out of range, no divisor is 0, every loop ends. Whoever uses a price or
//! a leg from here judges it with code that is proved (`open_bound`, `open_legs_delivered`), so a
//! poor plan costs a tighter bound or a better route and never a wrong answer. No other part of
//! the engine is like that.
//!
//! Prices: the least of the bound over all real prices is where every pool's best trade at the
//! prices leaves nothing over of any token but the target. [`solved`] goes there by Newton steps
//! in fixed point (`market`, `point`); each step is the voltages of a network of resistors
//! (`network`). Legs: [`route`] walks over the pools in orders in which what is held pays for what
//! is planned (`walk`, `routes`). Tokens and pools go by places. Nothing is allocated.
#![tactic(auto)]

mod legs;
mod market;
mod network;
mod place;
mod point;
mod pools;
mod routes;
mod scale;
mod walk;

pub use legs::{PlannedLeg, PlannedLegs};
pub use market::Market;
pub use place::{PoolPlace, TokenPlace};
pub use point::{Point, Way};
pub use pools::{PlanPool, Pools};
pub use routes::{Best, Start, route, solved};
pub use scale::FACTOR_BITS;

/// A plan is made over at most 64 tokens: a set of them is the bits of one word, and a ledger's
/// problem has no more.
pub const TOKENS: usize = 64;

/// A plan is made over at most 256 pools, as many as a problem has.
pub const POOLS: usize = 256;

#[cfg(test)]
mod tests {
    use super::*;

    // A pool of tokens 0 and 1 at a fee of 3 thousandths, with room for anything.
    fn pool(r0: u64, r1: u64) -> PlanPool {
        PlanPool {
            zero: TokenPlace::new(0),
            one: TokenPlace::new(1),
            weight: 997,
            r0,
            r1,
            room0: 1 << 40,
            room1: 1 << 40,
            is_admissible: true,
        }
    }

    // With nothing held a pool rests at its own price: 10^6 of token 0 for 2*10^6 of token 1.
    #[test]
    fn a_pool_at_rest(rt: HostRuntime) {
        let mut pools = Pools::none();
        pools.add(pool(1000000, 2000000));
        let market = Market::new(2, &pools, TokenPlace::new(1), false);
        let point = solved(&market, &[0; TOKENS]);
        let zero = market.price(&point.x, TokenPlace::new(0));
        let one = market.price(&point.x, TokenPlace::new(1));
        assert_eq!(rt; (zero / one.max(1), zero % one.max(1)), (2, 0));
    }

    // Two equal pools get 50000 each. 997*50000*10^6 / (10^9 + 997*50000) = 47482.97, and 47482
    // cost 10^9*47482 / (997*952518) = 49998.9, so 49999. The 50001 that are left bring
    // 997*50001*10^6 / (10^9 + 997*50001) = 47483.8, and 47483 cost 50000.03, so 50001.
    #[test]
    fn equal_pools_share(rt: HostRuntime) {
        let mut pools = Pools::none();
        pools.add(pool(1000000, 1000000));
        pools.add(pool(1000000, 1000000));
        let market = Market::new(2, &pools, TokenPlace::new(1), true);
        let mut held = [0; TOKENS];
        held[0] = 100000;
        let point = solved(&market, &held);
        let best = route(&Start {
            pools: &pools,
            market: &market,
            point: &point,
            held,
        });
        let mut sum = (0u64, 0u64);
        for leg in best.legs.as_slice() {
            sum = (
                sum.0.wrapping_mul(1000000).wrapping_add(leg.input),
                sum.1.wrapping_mul(1000000).wrapping_add(leg.output),
            );
        }
        assert_eq!(rt; sum, (49999050001, 47482047483));
        assert_eq!(rt; best.delivered, 47482 + 47483);
    }
}
