//! A large valid input from a number: `make` writes as many lines as it is asked for, the same for
//! the same seed on every machine; the words `work SEED COUNT` of the program count the replies to
//! them. An opening gives four users four tokens and makes the six pools between them. Then come
//! swaps, liquidity, loans, transfers and questions that a generator of pseudo-random numbers
//! draws, and once in a thousand lines a split and its certificate.
//!
//! The bytes are those of a definition of the commands, each written as the row of a command is.
//! So each line is read as the command that it was made from, as a law here says. Another says that
//! no line trades along a route that was found.
#![tactic(auto)]

mod draws;
mod law;
mod lines;
mod names;
mod work_line;

pub use law::{lines_read_back, lines_take_no_route};
pub use lines::make;
