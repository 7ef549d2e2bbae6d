//! Tests of the public calls of the ledger's crates: transactions, the factory, pairs, borrowers
//! and their loans, scripts, settlements and the price oracle.
//!
//! They stand apart, since a crate with test functions is proved once more as a whole with them.
//! They ask what no line can: borrowers that cheat, calls of a loan, a quote that no search makes,
//! and that a transaction is taken back. What lines are answered is asked by `sessions/`.
#![tactic(auto)]

#[cfg(test)]
mod borrowers;
#[cfg(test)]
mod factory;
#[cfg(test)]
mod loans;
#[cfg(test)]
mod market;
#[cfg(test)]
mod observations;
#[cfg(test)]
mod pairs;
#[cfg(test)]
mod scripts;
#[cfg(test)]
mod settlements;
#[cfg(test)]
mod transactions;
