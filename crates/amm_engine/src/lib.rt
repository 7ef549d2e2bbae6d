//! The engine: one line of the input, and a whole run.
//! Each line that is not blank has one reply, exactly as the ledger answers it; a line that is
//! refused, or whose reply finds no memory, leaves the ledger as it was; and whatever ends a run,
//! what was written is the replies to its first lines.
#![tactic(auto)]

mod basket;
mod cycle;
mod dispatch;
mod engine;
mod laws;
mod oracle;
mod queries;
mod split;
mod status;
mod transaction;

pub use amm_state::Seed;
pub use engine::Engine;
pub use laws::replies_fix_the_ledger;
pub use status::Status;
