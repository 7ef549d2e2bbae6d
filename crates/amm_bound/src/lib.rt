//! What pools are worth to a route at given prices, and the bound that no route passes.
//!
//! `bound` is proved to be at least what every route over the problem's pools delivers that uses
//! each pool at most once, whatever its trades and their order. `no_route_beats` says the same of
//! all problems, prices and routes, and `legs_are_a_route` that a route leg by leg is such a route.
#![tactic(auto)]

ghost use Rattle.std.specs.Prelude.{◌≡◌, ℕ, List, ◌+◌, ◌*◌, ◌/◌, ◌<◌, ◌≤◌, ◌^◌, length, slice_index, sum_by, map, []};
ghost use Rattle.amm_model.specs.Routing.{ArePrices, HasReserves, IsOpenProblem, IsProblem, IsRoute, OpenView, ProblemView, PoolTrade, delivered_by, fee_of, amount_given, open_view};
ghost use Rattle.amm_model.specs.Legs.{AreLegs, after_legs, trade_of};
ghost use Rattle.amm_model.specs.declared.route.Leg as leg_view;
ghost use Rattle.amm_model.specs.Swap.{IsFee};
ghost use Rattle.amm_model.specs.Bound.{bound_of, margin as margin_of, part_value, pool_worth, worth_of};

use amm_model::{OpenProblem, Prices, Problem, ProblemPool, TokenPlaces};
use amm_num::root;

// Roots are taken of numbers with thirty more binary places.
const SCALE: u128 = 0x4000_0000;

/// The most that a route can gain from a pool with this fee and these reserves, at these prices of
/// its tokens, in units of price. The fee is 1, 3 or 10 thousandths, reserves are 1 to 2^48-1,
/// prices 1 to 2^40-1.
pub fn worth(fee: u8, r0: u64, r1: u64, p0: u64, p1: u64) -> u128
    requires fee { IsFee fee }
    requires reserves { (1 ≤ r0) × (r0 < 2 ^ 48) × (1 ≤ r1) × (r1 < 2 ^ 48) }
    requires prices { (1 ≤ p0) × (p0 < 2 ^ 40) × (1 ≤ p1) × (p1 < 2 ^ 40) }
    ensures value { result ≡ worth_of fee r0 r1 p0 p1 }
    ensures below { result < 2 ^ 99 }
{
    let weight = 1000 - fee as u128;
    let value0 = p0 as u128 * r0 as u128;
    let value1 = p1 as u128 * r1 as u128;
    if 1000 * value0 < weight * value1 {
        margin(weight, 1000 * value0, weight * value1)
    } else if 1000 * value1 < weight * value0 {
        margin(weight, 1000 * value1, weight * value0)
    } else {
        0
    }
}

// What a route can gain from a pool whose reserves are worth `a`, and `b` after the fee.
fn margin(weight: u128, a: u128, b: u128) -> u128
    requires weight { (1 ≤ weight) × (weight ≤ 1000) }
    requires fits { (a < 2 ^ 98) × (b < 2 ^ 98) }
    ensures value { result ≡ margin_of weight a b }
    ensures below { result < 2 ^ 99 }
{
    let root_a = root(a * SCALE);
    let root_b = root(b * SCALE);
    let twice_mean = root_a as u128 * root_b as u128 / (SCALE / 2);
    (a + b - twice_mean) / weight
}

/// The bound at the prices, in units of the target: no route delivers more. There is one price for
/// each token of the problem, in the order of its tokens. The answer may be above 64 bits.
pub fn bound(problem: &Problem, prices: &Prices) -> u128
    requires { length prices.now ≡ length problem.now.tokens }
    ensures value { result ≡ bound_of (open_view problem.now) prices.now }
    ensures beats { (route : List PoolTrade) → IsRoute (open_view problem.now) route → delivered_by (open_view problem.now) route ≤ result }
    ensures below { result < 2 ^ 108 }
{
    open_bound(problem.as_open(), prices)
}

/// The bound of a problem of any parts, in units of the target: no route delivers more.
pub fn open_bound(problem: &OpenProblem, prices: &Prices) -> u128
    requires { length prices.now ≡ length problem.now.tokens }
    ensures value { result ≡ bound_of problem.now prices.now }
    ensures beats { (route : List PoolTrade) → IsRoute problem.now route → delivered_by problem.now route ≤ result }
    ensures below { result < 2 ^ 108 }
{
    let list = prices.as_slice();
    let target = problem.target();
    let value = parts_value(problem, list) + worths(problem, list);
    value / list[target] as u128
}

/// What the parts are worth at the prices of their tokens.
pub fn parts_value(problem: &OpenProblem, prices: &[u64]) -> u128
    requires many { length prices.now ≡ length problem.now.tokens }
    requires prices { ArePrices prices.now }
    ensures value { result ≡ sum_by (part_value problem.now.tokens prices.now) problem.now.parts }
    ensures below { result < 2 ^ 96 }
{
    let parts = problem.parts();
    let places = problem.part_places();
    let mut value: u128 = 0;
    for i in 0..parts.len() {
        value += prices[places[i]] as u128 * parts[i].amount as u128;
    }
    value
}

// The sum of the worths of all pools.
fn worths(problem: &OpenProblem, prices: &[u64]) -> u128
    requires many { length prices.now ≡ length problem.now.tokens }
    requires prices { ArePrices prices.now }
    ensures value { result ≡ sum_by (pool_worth problem.now.tokens prices.now) problem.now.pools }
    ensures below { result < 2 ^ 107 + 1 }
{
    let pools = problem.pools();
    let places = problem.places();
    let mut value: u128 = 0;
    for i in 0..pools.len() {
        value += worth_at(&pools[i], places[i], prices);
    }
    value
}

/// The worth of a pool at the prices of its tokens, which stand at the places.
pub fn worth_at(pool: &ProblemPool, places: TokenPlaces, prices: &[u64]) -> u128
    requires reserves { HasReserves pool.now }
    requires places { (places.zero < length prices.now) × (places.one < length prices.now) }
    requires prices { ArePrices prices.now }
    ensures value { result ≡ worth_of (fee_of pool.now) pool.now.r0 pool.now.r1 (slice_index prices.now places.zero) (slice_index prices.now places.one) }
    ensures below { result < 2 ^ 99 }
{
    worth(
        pool.name.fee(),
        pool.r0,
        pool.r1,
        prices[places.zero],
        prices[places.one],
    )
}

/// No route delivers more than the bound, at any prices of any problem.
pub fn no_route_beats()
    ensures { (problem : ProblemView) (prices : List ℕ) (route : List PoolTrade) →
        IsProblem problem → length prices ≡ length problem.tokens → ArePrices prices → IsRoute (open_view problem) route →
        delivered_by (open_view problem) route ≤ bound_of (open_view problem) prices }
{}

/// The same of problems of any parts.
pub fn no_open_route_beats()
    ensures { (problem : OpenView) (prices : List ℕ) (route : List PoolTrade) →
        IsOpenProblem problem → length prices ≡ length problem.tokens → ArePrices prices → IsRoute problem route →
        delivered_by problem route ≤ bound_of problem prices }
{}

/// A leg-by-leg route is, leg for trade, a route that delivers the same.
pub fn legs_are_a_route()
    ensures route { (problem : OpenView) (legs : List leg_view.Leg) →
        IsOpenProblem problem → AreLegs problem.pools [] (amount_given problem) legs →
        IsRoute problem (map trade_of legs) }
    ensures delivers { (problem : OpenView) (legs : List leg_view.Leg) →
        IsOpenProblem problem → AreLegs problem.pools [] (amount_given problem) legs →
        delivered_by problem (map trade_of legs) ≡ after_legs problem.pools (amount_given problem) legs problem.t }
{}
