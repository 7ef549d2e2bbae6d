//! The engine and the check of certificates for C: a static library, whose header is
//! `include/exchange.h`.
//!
//! C keeps a handle, which is shut or holds a session: an engine, the number of its next line and
//! its last reply. Each export is a call of the crates below that states their clauses again, want
//! of memory is a status, and nothing is kept outside the handles, so that sessions do not touch
//! each other. C holds up its end: a handle begins as `EXCHANGE_SHUT`, and is changed by these
//! calls alone, one at a time.
#![tactic(auto)]

mod address;
mod certificate;
mod copied;
mod exports;
mod handle;
mod line;
mod loose;
mod opened;
mod outcome;
mod session;
mod verdict;
