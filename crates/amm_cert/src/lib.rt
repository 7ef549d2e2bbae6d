//! Certificates: a quote as JSON, from which anybody can check it.
//!
//! `write` gives the compact text of a quote. `read` gives the quote of which some bytes are a
//! certificate, and None exactly where they are a certificate of none: the JSON value of the bytes
//! must be that of the quote, in a version that fits its pools. So what was written is read back as
//! the same quote. Nothing here asks whether a quote is right: that is the work of `amm_check`.
#![tactic(auto)]

mod certificate_writer;
mod form;
pub mod law;
pub mod quote;
mod reader;
mod row;

pub use certificate_writer::{send_certificate, write};
pub use reader::read;
