//! The check of a quote, whoever made it: whether its route is one, delivers what it says, and its
//! bound is that of its prices.
//!
//! It needs nothing but the quote, no search and no memory. After a Yes no route over the quote's
//! pools delivers more than the quote's bound, and its own legs deliver its delivered amount. It
//! does not ask whether the prices are good ones, or whether another route delivers more.
#![tactic(auto)]

pub mod law;
mod verdict;

pub use verdict::{Verdict, check};
