//! Reads the bytes of a line as a command. Bytes that are no JSON, and JSON that fits no row of the
//! table of commands, are told apart exactly, and a command is read as exactly what its row says.
//!
//! There are two ways. A line that is plainly written is taken from its front in one pass; any
//! other is read by `serde_json`, and its value as a row. Both are proved to find the command that
//! one definition finds, so that how a line is written shows in nothing but its time.
#![tactic(auto)]

mod form;
mod parts;
mod path;
mod plain;
mod row;
mod step;
mod step_row;
mod whole_line;

pub use whole_line::read_line;
