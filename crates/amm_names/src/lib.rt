//! Names of tokens, users and pools, kept in place and seen as the lists of their bytes; holders
//! and assets.
#![tactic(auto)]

mod holder;
mod memory;
mod name;

pub use holder::{Asset, Holder};
pub use memory::Memory;
pub use name::{PoolName, TokenName, UserName};
