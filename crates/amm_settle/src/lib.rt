//! Settlement: a quote is paid exactly as it was made, or nothing happens.
//!
//! `settle` takes a user through the legs of a quote: each input goes from him to its pool, and the
//! pool swaps the output to him. It is refused by EXPIRED, LOCKED, STALE or FUNDS alone, in this
//! order: where the pools of its legs are as they were quoted, no pool refuses a leg, and he has
//! exactly what the quote delivers.
//!
//! `perform` takes a user through the legs of a quote of any parts, which he has (`has_parts`). Its
//! caller knows that no pool of the legs is lent and that each is as the problem says, so that it
//! is refused by no code.
#![tactic(auto)]

mod as_quoted;
mod legs;
mod performing;
mod settling;

pub use performing::{has_parts, perform};
pub use settling::settle;
