//! How a test runs the program: bytes in, replies out.
use crate::exchange;
use amm_engine::{Seed, Status};
use amm_io::{SureSink, SureSource};
use std::test::Fail;

/// The words of a command line.
pub fn words(rt: &HostRuntime, text: &str) -> Result<Vec<String>, Fail> {
    let mut words = Vec::new(rt.alloc());
    for word in text.split(' ') {
        words.push(String::from_str(rt.alloc(), word)?)?;
    }
    Ok(words)
}

/// Whether a run over these bytes comes to their end and writes just these.
pub fn is_run(rt: &HostRuntime, input: Vec<u8>, output: &[u8]) -> Result<bool, Fail> {
    let words = words(rt, "run")?;
    let mut source = SureSource::new(input);
    let mut sink = SureSink::new(rt.alloc());
    let status = exchange(
        rt.alloc(),
        Seed::new(0),
        words.as_slice(),
        &mut source,
        &mut sink,
    );
    Ok(status == Status::Done && sink.bytes() == output)
}
