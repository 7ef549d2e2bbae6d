//! The price oracle: observations of a pool's price accumulators, and the average prices between
//! two of them.
//!
//! `observe` brings a pool up to the time and keeps an observation of it. `average`, `consult` and
//! `window` read a ledger, take no memory, and answer and refuse exactly as their definitions say:
//! an average is the growth of an accumulator modulo 2^128 over the seconds of a window of at most
//! 2^32-1, rounded down once.
#![tactic(auto)]

mod averages;
mod observing;
mod queries;
mod worth;

pub use observing::observe;
pub use queries::{average, consult, window};
