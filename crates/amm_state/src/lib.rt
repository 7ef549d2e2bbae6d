//! The ledger in tables, and transactions over it.
//!
//! A `State` is a ledger at rest: sound, with no pair locked. A `Tx` changes it call by call, each
//! exactly as the call's definition says, and notes what takes each change back. It ends in
//! `commit`, which keeps the present ledger, or in `rollback`, which gives back the opening one
//! whatever happened. After a fault only `rollback` helps.
#![tactic(auto)]

mod assets;
mod book;
mod journal;
mod mark;
mod observations;
mod rows;
mod seed;
mod state;
mod tx;

pub use book::Book;
pub use mark::Mark;
pub use seed::Seed;
pub use state::State;
pub use tx::Tx;
