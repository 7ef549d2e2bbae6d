//! What the averages of the price oracle mean: in every run of the ledger, an accepted `average` or
//! `window` whose two observations were made in that run tells, for each of the pool's two prices,
//! the time-weighted average between them. That is the sum, over the lines that set the time, of
//! the seconds by which the line raises it times the price of the pool's reserves at that line,
//! divided by the seconds between the two observations, and rounded down.
//!
//! No accumulator and no modulus stands in that sum (`weighted_sum` of `amm_model`): whoever takes
//! an average needs not to know how the pairs count, when they were last updated, or that both the
//! accumulators and their clock wrap around. It holds of the definitions, whoever ran the lines, so
//! this crate has no code, and stands on the definitions alone.
#![tactic(auto)]

mod law;

pub use law::averages_are_time_weighted;
