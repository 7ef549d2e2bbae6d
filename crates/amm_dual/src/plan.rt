//! The plan of a problem, as prices to start from and legs.
//!
//! `amm_plan` knows tokens and pools by their places alone and owes safety alone. Here a problem
//! is told to it, and its answers become prices of the grid, 2^20 for the target, and legs. Nothing
//! more is promised of them: they are judged by `open_bound` and `open_legs_delivered`.
ghost use Rattle.std.specs.Prelude.{◌≡◌, ◌<◌, ◌≤◌, ◌^◌, IfOk, length, slice_index};
ghost use Rattle.amm_model.specs.Bound.{price_of};

use amm_model::{Leg, LegList, Memory, OpenProblem, Prices};
use amm_plan::{
    Best, Market, PlanPool, Point, PoolPlace, Pools, Start, TOKENS, TokenPlace, route, solved,
};
use std::alloc::Global;

// The price of the target.
const UNIT: u64 = 0x10_0000;

// The greatest price.
const MOST_PRICE: u64 = 0xff_ffff_ffff;

// Balances of a pool in a route are at most this.
const MOST_BALANCE: u64 = 0xffff_ffff_ffff;

/// Prices to start from, and legs that may be a route: candidates, both.
#[derive(Drop)]
pub struct Plan {
    pub prices: Prices,
    pub legs: LegList,
}

/// The plan of a problem. Equal prices and no legs, where it has more tokens than a plan can have.
pub fn planned(alloc: Global, problem: &OpenProblem) -> Result<Plan, Memory>
    ensures many { IfOk result (λ plan. length plan.prices ≡ length problem.now.tokens) }
    ensures unit { IfOk result (λ plan. price_of problem.now.tokens plan.prices problem.now.t ≡ 2 ^ 20) }
{
    let count = problem.tokens().len();
    if count > TOKENS {
        return Ok(Plan {
            prices: prices_of(alloc, problem, &[UNIT; TOKENS])?,
            legs: LegList::from_vec(Vec::new(alloc)),
        });
    }
    let pools = pools_of(problem);
    let held = held_of(problem);
    let target = TokenPlace::new(problem.target());
    let market = Market::new(count, &pools, target, false);
    let point = solved(&market, &held);
    let found = on_the_grid(&market, &point);
    let legs = legs_of(alloc, &best_of(count, &pools, &market, &point, held))?;
    Ok(Plan {
        prices: prices_of(alloc, problem, &found)?,
        legs,
    })
}

// The best legs; pools that may not stand in a route take no part in them.
fn best_of(count: usize, pools: &Pools, market: &Market, point: &Point, held: [u64; TOKENS]) -> Best
    requires { count ≤ 64 }
{
    if pools.as_slice().iter().all(|pool| pool.is_admissible) {
        return route(&Start {
            pools,
            market,
            point,
            held,
        });
    }
    let open = Market::new(count, pools, market.target, true);
    let open_point = solved(&open, &held);
    route(&Start {
        pools,
        market: &open,
        point: &open_point,
        held,
    })
}

// The pools of a problem, as a plan takes them.
fn pools_of(problem: &OpenProblem) -> Pools {
    let mut list = Pools::none();
    let places = problem.places();
    for (i, pool) in problem.pools().iter().enumerate() {
        if let Some(at) = places.get(i) {
            list.add(PlanPool {
                zero: TokenPlace::new(at.zero),
                one: TokenPlace::new(at.one),
                weight: 1000u64.saturating_sub(pool.name.fee() as u64),
                r0: pool.r0,
                r1: pool.r1,
                room0: MOST_BALANCE.saturating_sub(pool.b0),
                room1: MOST_BALANCE.saturating_sub(pool.b1),
                is_admissible: pool.b0 <= MOST_BALANCE && pool.b1 <= MOST_BALANCE,
            });
        }
    }
    list
}

// What the parts give of each token.
fn held_of(problem: &OpenProblem) -> [u64; TOKENS] {
    let mut held = [0; TOKENS];
    let places = problem.part_places();
    for (i, part) in problem.parts().iter().enumerate() {
        if let Some(place) = places.get(i) {
            held[TokenPlace::new(*place).at()] = part.amount;
        }
    }
    held
}

// The prices of a point on a scale where the target's is 2^20: there they are 2^84.
fn on_the_grid(market: &Market, point: &Point) -> [u64; TOKENS] {
    let mut found = [UNIT; TOKENS];
    for k in 0..TOKENS {
        let price = market.price(&point.x, TokenPlace::new(k));
        found[k] = (price.saturating_add(1 << 63) >> 64).min(MOST_PRICE as u128) as u64;
    }
    found
}

// The prices that were found, as far as they are in range, and 2^20 for the target.
fn prices_of(alloc: Global, problem: &OpenProblem, found: &[u64; TOKENS]) -> Result<Prices, Memory>
    ensures many { IfOk result (λ prices. length prices ≡ length problem.now.tokens) }
    ensures unit { IfOk result (λ prices. price_of problem.now.tokens prices problem.now.t ≡ 2 ^ 20) }
{
    let target = problem.target();
    let mut list = Vec::new(alloc);
    for k in 0..problem.tokens().len() {
        list.push(found.get(k).copied().unwrap_or(UNIT).clamp(1, MOST_PRICE))?;
    }
    list[target] = UNIT;
    Ok(Prices::from_parts(list).unwrap())
}

// Legs as a route has them.
fn legs_of(alloc: Global, best: &Best) -> Result<LegList, Memory> {
    let mut legs = Vec::new(alloc);
    for leg in best.legs.as_slice() {
        legs.push(Leg {
            pool: leg.pool.at() as u32,
            zero_in: leg.zero_in,
            input: leg.input,
            output: leg.output,
        })?;
    }
    Ok(LegList::from_vec(legs))
}
