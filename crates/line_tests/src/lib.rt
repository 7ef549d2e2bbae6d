//! Tests of the public calls of the crates of lines: commands that are read, replies that are
//! written, certificates, sources and sinks, and lines made from a seed.
//!
//! They stand apart, since a crate with test functions is proved once more as a whole with them.
//! They ask what no stored session can: sources and sinks that fail, a line's limits, what a line
//! is read as. The replies to lines, damaged ones too, are asked by `sessions/`.
#![tactic(auto)]

#[cfg(test)]
mod certificates;
#[cfg(test)]
mod commands;
#[cfg(test)]
mod replies;
#[cfg(test)]
mod seeds;
#[cfg(test)]
mod sources;
