//! Steps: what a user does by one command, and the steps inside a loan.
//!
//! A step leaves the ledger, answers and refuses exactly as its meaning says. A loan is lent to the
//! actor, its steps run one after another, and only then is it given back; the first code ends
//! them. An accepted step leaves a sound ledger sound. A settlement pays a quote that the ledger
//! keeps, exactly as it was made. A script is a borrower too, and a flash swap with it is the flash
//! step of the same steps.
#![tactic(auto)]

mod asset;
mod borrower;
mod run;
mod settlement;

pub use asset::known;
pub use borrower::{ScriptBorrower, flash_script};
pub use run::{run_step, run_steps};
