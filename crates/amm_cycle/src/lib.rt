//! Cycles: two to four pools from a token back to itself that bring more than they take.
//!
//! Where pools disagree, a chain of trades that starts and ends in one token pays a profit.
//! `cycle` goes over all cycles of a problem without parts, each on the 52 powers of two unless it
//! is sure to bring less than half of the best before it, improves the input of the best ones, and
//! tries those beside the last one's. Its answer is a cycle whose profit is at least that of each
//! on each of the powers, as legs, with settled prices and their bound; none comes exactly where no
//! cycle brings more than a power of two. `no_cycle_beats` says that no cycle on any input brings
//! more than the bound at any prices. The search takes no memory.
#![tactic(auto)]

mod answers;
mod chain;
mod found;
mod laws;
mod legs;
mod powers;
mod reach;
mod walk;

pub use answers::cycle;
pub use laws::no_cycle_beats;
