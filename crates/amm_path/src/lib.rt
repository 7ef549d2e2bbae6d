//! The router: the amounts along a path, swaps of an exact input or output along it, and liquidity
//! added and removed with minimums.
//!
//! Each call answers, refuses and leaves the ledger exactly as its definition says, and an accepted
//! call leaves a sound ledger sound. A pool may come twice in a path: the amounts are those of the
//! reserves at the start, and the pair's own tests decide at each swap.
#![tactic(auto)]

mod add_remove;
mod exact_in;
mod exact_out;
mod plan;
mod quotes;
mod sides;
mod swaps;

pub use add_remove::{add, remove};
pub use exact_in::swap_exact_in;
pub use exact_out::swap_exact_out;
pub use quotes::{amounts_in, amounts_out};
