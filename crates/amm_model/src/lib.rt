//! The plain types of the exchange, and the definitions that its contracts cite.
#![tactic(auto)]

mod amounts;
mod byte_line;
mod command;
mod fault;
mod laws;
pub mod limits;
mod line;
mod list;
mod observation;
mod pair;
mod parts;
mod prices;
mod problem;
mod reply;
mod route;
mod route_path;
mod trade;

pub use amm_names::{Asset, Holder, Memory, PoolName, TokenName, UserName};
pub use amounts::AmountList;
pub use byte_line::ByteLine;
pub use command::{AddWant, Command, RemoveWant, Step};
pub use fault::{Fault, Refusal};
pub use laws::{equal_accounts_are_one, one_balance_changes};
pub use line::Line;
pub use list::{LegList, PartList, ProblemPoolList};
pub use observation::{Averages, Observation, WindowAnswer};
pub use pair::{
    AddReceipt, BurnReceipt, MintReceipt, PairRecord, RemoveReceipt, SkimReceipt, SwapReceipt,
};
pub use prices::{Prices, Turn};
pub use problem::{
    OpenProblem, Part, Problem, ProblemPool, TokenPlaces, parts_determine_open_problem,
    parts_determine_problem,
};
pub use reply::{Answer, Reply};
pub use route::{Hop, Leg, OpenQuote, Quote, Route};
pub use route_path::{FeeList, RoutePath, TokenList};
pub use trade::{Matched, Side, Trade};
