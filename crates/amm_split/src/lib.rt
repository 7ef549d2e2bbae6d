//! Routes, and the answer to a split.
//!
//! `split` answers a routing problem with a quote: settled prices, their bound, and a leg-by-leg
//! route that delivers at least what any one path gives, any two, and each of four spreads over
//! several. Routes are proposed in several ways; `best_of` keeps the better of two and has each
//! judged by the evaluator of legs, so that a proposal may be anything, and a further one is one
//! more line.
#![tactic(auto)]

mod answers;
mod deliveries;
mod legs;
mod pairs;
mod rounding;
mod rows;
mod shares;
mod sizes;
mod source;
mod spreads;
mod values;
mod ways;

pub use answers::split;
pub use deliveries::{Delivery, best_of, no_legs};
pub use legs::{push_legs, push_places};
pub use pairs::{Pick, best_pair, gives_at};
pub use rounding::{equal_terms, round};
pub use rows::{Row, rows_of};
pub use shares::{Choice, Offer, Terms, best_share, sixteenths};
pub use sizes::{BestWay, best_way};
pub use source::part_amount;
pub use spreads::{one_spread_value, spread};
pub use values::greatest_value;
pub use ways::{best_of_ways, best_two_way};
