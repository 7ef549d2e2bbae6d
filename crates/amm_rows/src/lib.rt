//! The row that a command is written as reads as that command. `amm_command` says what a row is
//! read as; this is the same the other way round, for every command that has a row, so that the
//! grammar of rows need not be believed by itself: whoever writes the row of a command knows what
//! a ledger makes of the line.
//!
//! A row is `row_value` of `amm_command`: the word of the command, and the values behind it. It is
//! written by `serde_json`'s own definition of a value's text with no spaces. `IsRow` says which
//! commands have one: names are names in holders and assets too, numbers are within their limits,
//! and loans nest no deeper than those of a line may.
#![tactic(auto)]

mod law;

pub use law::rows_read_back;
