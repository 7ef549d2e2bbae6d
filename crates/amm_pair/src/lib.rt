//! The operations of a pair: mint, burn, swap, skim and sync, and a loan that is opened, and closed
//! or abandoned.
//!
//! Each call leaves the ledger, answers and refuses exactly as its definition says, whoever
//! receives; `pay` brings a pool what a user puts in. An accepted call leaves a sound ledger sound.
//! A swap and a closed loan never lower the product of the reserves, and a mint and a burn never
//! lower it against the squared supply after the protocol's fee.
#![tactic(auto)]

mod halves;
mod holdings;
mod loans;
mod mint_burn;
mod payments;
mod protocol;
mod records;
mod surplus;
mod swaps;

pub use loans::{Loan, abandon_loan, close_loan, open_loan};
pub use mint_burn::{burn, mint};
pub use payments::pay;
pub use surplus::{skim, sync};
pub use swaps::swap;
