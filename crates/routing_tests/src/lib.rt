//! Tests of the public calls of the routing crates: the evaluator of legs, the worth of a pool and
//! the bound, paths, prices, splits, baskets, cycles, and the check of a quote.
//!
//! They stand apart, since a crate with test functions is proved once more as a whole with them.
//! Each problem and its routes are worked out by hand, beside the test.
#![tactic(auto)]

#[cfg(test)]
mod baskets;
#[cfg(test)]
mod bounds;
#[cfg(test)]
mod checks;
#[cfg(test)]
mod cycles;
#[cfg(test)]
mod ledger;
#[cfg(test)]
mod legs;
#[cfg(test)]
mod market;
#[cfg(test)]
mod paths;
#[cfg(test)]
mod prices;
#[cfg(test)]
mod splits;
