//! Prices of a routing problem at which its bound says most.
//!
//! The bound holds at any prices; it is tight where no small change of them lowers it. `Running`
//! keeps a problem with its prices and the worth of each pool: it says the bound of now, and the
//! bound after some changes without making them. `settled` decides whether no move of one or two
//! prices lowers the bound by more than one part in 65536. `search` answers settled prices for
//! every problem: from a plan, by what its route delivers, price by price, and then by moves.
#![tactic(auto)]

mod changes;
mod descent;
mod flows;
mod lines;
mod lower;
mod moves;
mod nexts;
mod pairs;
mod plan;
mod running;
mod settling;
mod singles;
mod trades;

pub use changes::{Change, Changes};
pub use descent::{descended, open_settled, settled};
pub use plan::{Plan, planned};
pub use running::Running;
pub use settling::{are_settled_by, open_search, search, settle};
