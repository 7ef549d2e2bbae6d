//! Writes replies: each as the compact JSON text of exactly its value, with a newline.
#![tactic(auto)]

mod reply_row;
mod reply_writer;

pub use reply_writer::{write, write_answer};
