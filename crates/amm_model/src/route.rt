//! Routes leg by leg, and quotes.
ghost use Rattle.std.specs.Prelude.{◌≡◌, IfOk};

use crate::{LegList, OpenProblem, Prices, Problem};
use amm_names::Memory;
use std::alloc::Global;

/// A trade of a route leg by leg: an input into a pool, named by its place in the problem, and
/// the output of the other token.
#[derive(Clone, Copy, Debug, PartialEq, Eq)]
pub struct Leg {
    pub pool: u32,
    /// Whether the pool's token 0 goes in.
    pub zero_in: bool,
    pub input: u64,
    pub output: u64,
}

/// A pool of a path, named by its place in the problem, and which of its tokens goes in.
#[derive(Clone, Copy, Debug, PartialEq, Eq, Drop)]
pub struct Hop {
    pub pool: u32,
    /// Whether the pool's token 0 goes in.
    pub zero_in: bool,
}

/// Legs in the order in which they are taken.
#[derive(Drop)]
pub struct Route {
    pub legs: LegList,
}

impl Route {
    /// An equal route.
    pub fn copy(&self, alloc: Global) -> Result<Route, Memory>
        ensures { IfOk result (λ route. route ≡ self.now) }
    {
        Ok(Route {
            legs: self.legs.copy(alloc)?,
        })
    }
}

/// A kept answer to a split: the problem, prices, a route, what it delivers, and the bound at the
/// prices.
#[derive(Drop)]
pub struct Quote {
    pub problem: Problem,
    pub prices: Prices,
    pub route: Route,
    pub delivered: u64,
    pub bound: u128,
}

impl Quote {
    /// An equal quote.
    pub fn copy(&self, alloc: Global) -> Result<Quote, Memory>
        ensures { IfOk result (λ quote. quote ≡ self.now) }
    {
        Ok(Quote {
            problem: self.problem.copy(alloc)?,
            prices: self.prices.copy(alloc)?,
            route: self.route.copy(alloc)?,
            delivered: self.delivered,
            bound: self.bound,
        })
    }
}

/// What is printed for a problem of any parts: the problem, prices, a route, what it delivers, and
/// the bound at the prices. Without parts the route is a cycle, and what it delivers its profit.
#[derive(Drop)]
pub struct OpenQuote {
    pub problem: OpenProblem,
    pub prices: Prices,
    pub route: Route,
    pub delivered: u64,
    pub bound: u128,
}
