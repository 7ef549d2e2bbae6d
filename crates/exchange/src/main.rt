//! The program: with the word `run` it answers the lines of standard input on standard output,
//! exactly as a Uniswap v2 ledger answers them. With the word `check` it takes standard input for a
//! certificate, and writes one line: a yes with what the certificate's legs deliver and the bound
//! that no route over its pools beats, or the first thing that is not so. With the words `work`,
//! SEED and COUNT it makes so many lines of the seed, answers them in memory, and writes one line:
//! how many it accepted and how many it refused.
#![tactic(auto)]

mod checker;
mod finding;
mod laws;
mod runner;
mod summary;
#[cfg(test)]
mod tests;
mod top;
mod verdicts;
mod word_number;
mod words;
mod worker;

use amm_engine::{Seed, Status};
use amm_io::{StdSink, StdSource};
pub use laws::{kept_quotes_are_found_right, work_is_a_function_of_its_words};
use std::process::ExitCode;
use std::random::RandomSource;
use std::{env, io};
pub use top::exchange;

/// The text for standard error, where a status has one.
fn message(status: Status) -> Option<&'static str> {
    match status {
        Status::Done | Status::No => None,
        Status::Usage => { Some("usage: exchange run | exchange check | exchange work SEED COUNT") }
        Status::ReadFault => Some("exchange: read fault"),
        Status::WriteFault => Some("exchange: write fault"),
        Status::Memory => Some("exchange: out of memory"),
        Status::InputLimit => Some("exchange: input too long"),
    }
}

/// The words of the command line, without the program's name.
fn words_of(rt: &HostRuntime) -> Result<Vec<String>, Status> {
    match env::args(rt) {
        Ok(words) => match words.skip(1).collect(rt.alloc()) {
            Ok(words) => Ok(words),
            Err(_) => Err(Status::Memory),
        },
        Err(error) if error.kind() == io::ErrorKind::OutOfMemory => Err(Status::Memory),
        Err(_) => Err(Status::Usage),
    }
}

/// A number that nobody foresees, so that nobody can choose names that collide. Where the system
/// gives none it is a fixed one, which costs no more than time.
fn seed(rt: &HostRuntime) -> Seed {
    let mut bytes = [0; 8];
    match rt.fill_bytes(&mut bytes) {
        Ok(()) => Seed::new(u64::from_le_bytes(bytes)),
        Err(_) => Seed::new(0),
    }
}

fn status_of(rt: &HostRuntime) -> Status {
    let words = match words_of(rt) {
        Ok(words) => words,
        Err(status) => return status,
    };
    let mut source = StdSource::new(rt.stdin());
    let mut sink = StdSink::new(rt.stdout());
    exchange(
        rt.alloc(),
        seed(rt),
        words.as_slice(),
        &mut source,
        &mut sink,
    )
}

fn main(rt: HostRuntime) -> ExitCode {
    let status = status_of(&rt);
    if let Some(text) = message(status) {
        // Where standard error takes no text, the status still tells.
        let _ = rt.eprintln(text);
    }
    ExitCode::from(status.code())
}
