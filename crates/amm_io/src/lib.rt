//! Sources and sinks of bytes that count their faults, and the lines of a source.
//! The lines are those of the bytes however the source cuts them; a fault is told only where a
//! count of faults rose; a write that fails has put out a front of its bytes and nothing else.
#![tactic(auto)]

mod bytes;
mod memory;
mod part;
mod sink;
mod source;
mod standard;
mod stream;
mod sure;
mod whole;

pub use memory::{MemSink, MemSource};
pub use sink::{IoFail, Sink, WriteEnd, write_all};
pub use source::{Failed, IoEnd, Source};
pub use standard::{StdSink, StdSource};
pub use stream::{Lines, Stop};
pub use sure::{SureSink, SureSource};
pub use whole::read_within;
