//! The word `work`: so many lines of a seed, answered in memory.
use super::session::words;
use crate::exchange;
use amm_engine::{Seed, Status};
use amm_io::{MemSink, Sink, Source, SureSink, SureSource};
use std::test::Fail;

/// The status of words, and how many bytes the source can give behind them, which has one before.
fn answered<K: Sink>(rt: &HostRuntime, text: &str, sink: &mut K) -> Result<(Status, usize), Fail> {
    let words = words(rt, text)?;
    let mut source = SureSource::new(vec![in rt.alloc(); b'x']?);
    let status = exchange(
        rt.alloc(),
        Seed::new(0),
        words.as_slice(),
        &mut source,
        sink,
    );
    let mut buffer = [0; 2];
    Ok((status, source.read(&mut buffer).unwrap_or(0)))
}

/// The opening of every seed is sixteen deposits of 10^12 and six pools to which u0, who has 10^12
/// of each token, brings 10^10 of two of them at a time. So no line of it is refused.
#[test]
fn tells_what_the_opening_is_answered(rt: HostRuntime) -> Result<(), Fail> {
    for (text, status, line) in [
        (
            "work 7 22",
            Status::Done,
            b"[\"work\",7,22,22,0]\n".as_slice(),
        ),
        ("work 7 0", Status::Usage, b"".as_slice()),
        ("work 07 5", Status::Usage, b"".as_slice()),
        ("run now", Status::Usage, b"".as_slice()),
        ("", Status::Usage, b"".as_slice()),
    ] {
        let mut sink = SureSink::new(rt.alloc());
        assert_eq!(rt; answered(&rt, text, &mut sink)?, (status, 1), "{text}");
        assert_eq!(rt; sink.bytes(), line, "{text}");
    }
    Ok(())
}

#[test]
fn tells_a_failed_write(rt: HostRuntime) -> Result<(), Fail> {
    let mut sink = MemSink::new(rt.alloc(), vec![in rt.alloc(); 0]?);
    assert_eq!(rt;
        answered(&rt, "work 7 22", &mut sink)?,
        (Status::WriteFault, 1)
    );
    assert_eq!(rt; sink.bytes(), b"".as_slice());
    Ok(())
}
