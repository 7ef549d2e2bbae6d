//! Reads and writes that fail, at each call in turn.
use super::session::words;
use crate::exchange;
use amm_engine::{Seed, Status};
use amm_io::{MemSink, MemSource, SureSink, SureSource};
use std::test::Fail;

/// Six lines that make a pool, and their replies.
const POOL: [(&str, &str); 6] = [
    (
        "[\"deposit\",\"alice\",\"ETH\",2000000]\n",
        "[1,\"ok\",2000000,2000000]\n",
    ),
    (
        "[\"deposit\",\"alice\",\"USD\",8000000]\n",
        "[2,\"ok\",8000000,8000000]\n",
    ),
    (
        "[\"create\",\"alice\",\"USD\",\"ETH\"]\n",
        "[3,\"ok\",\"ETH/USD\"]\n",
    ),
    (
        "[\"transfer\",\"alice\",\"ETH\",\"ETH/USD\",1000000]\n",
        "[4,\"ok\"]\n",
    ),
    (
        "[\"transfer\",\"alice\",\"USD\",\"ETH/USD\",4000000]\n",
        "[5,\"ok\"]\n",
    ),
    (
        "[\"mint\",\"alice\",\"ETH/USD\",\"alice\"]\n",
        "[6,\"ok\",1999000,0]\n",
    ),
];

fn lines(rt: &HostRuntime) -> Result<Vec<u8>, Fail> {
    let mut bytes = Vec::new(rt.alloc());
    for (line, _) in POOL.iter() {
        bytes.extend_from_slice(line.as_bytes())?;
    }
    Ok(bytes)
}

fn replies(rt: &HostRuntime, count: usize) -> Result<Vec<u8>, Fail> {
    let mut bytes = Vec::new(rt.alloc());
    for (i, (_, reply)) in POOL.iter().enumerate() {
        if i < count {
            bytes.extend_from_slice(reply.as_bytes())?;
        }
    }
    Ok(bytes)
}

/// Four deposits and a sink that fails at its third write; one deposit, a cut second, and a failed
/// read behind it.
#[test]
fn stops_at_the_failing_call(rt: HostRuntime) -> Result<(), Fail> {
    let words = words(&rt, "run")?;
    let deposit = "[\"deposit\",\"alice\",\"ETH\",5]\n";
    let mut source = SureSource::new(deposit.as_bytes().repeat(rt.alloc(), 4)?);
    let mut sink = MemSink::new(rt.alloc(), vec![in rt.alloc(); 2]?);
    let status = exchange(
        rt.alloc(),
        Seed::new(0),
        words.as_slice(),
        &mut source,
        &mut sink,
    );
    assert_eq!(rt; status, Status::WriteFault);
    assert_eq!(rt;
        sink.bytes(),
        b"[1,\"ok\",5,5]\n[2,\"ok\",10,10]\n".as_slice()
    );

    let mut input = deposit.as_bytes().to_vec(rt.alloc())?;
    input.extend_from_slice(b"[\"deposit\",\"al")?;
    let mut source = MemSource::new(input, 100, vec![in rt.alloc(); 1]?);
    let mut sink = SureSink::new(rt.alloc());
    let status = exchange(
        rt.alloc(),
        Seed::new(0),
        words.as_slice(),
        &mut source,
        &mut sink,
    );
    assert_eq!(rt; status, Status::ReadFault);
    assert_eq!(rt; sink.bytes(), b"[1,\"ok\",5,5]\n".as_slice());
    Ok(())
}

#[test]
fn writes_whole_replies_up_to_a_failed_write(rt: HostRuntime) -> Result<(), Fail> {
    let words = words(&rt, "run")?;
    for j in 0..6usize {
        let mut source = SureSource::new(lines(&rt)?);
        let mut sink = MemSink::new(rt.alloc(), vec![in rt.alloc(); j as u64]?);
        let status = exchange(
            rt.alloc(),
            Seed::new(0),
            words.as_slice(),
            &mut source,
            &mut sink,
        );
        assert_eq!(rt; status, Status::WriteFault);
        let written = replies(&rt, j)?;
        assert_eq!(rt; sink.bytes(), written.as_slice());
    }
    Ok(())
}

/// The 224 bytes come in 32 pieces of 7, and then their end; so a failed read before piece `j`
/// leaves the lines that end within `7*j` bytes.
#[test]
fn answers_the_lines_ended_before_a_failed_read(rt: HostRuntime) -> Result<(), Fail> {
    let words = words(&rt, "run")?;
    for j in 0..33usize {
        let input = lines(&rt)?;
        let mut ended = 0usize;
        for (i, byte) in input.iter().enumerate() {
            if i < 7 * j && *byte == b'\n' {
                ended = ended.saturating_add(1);
            }
        }
        let mut source = MemSource::new(input, 7, vec![in rt.alloc(); j as u64]?);
        let mut sink = SureSink::new(rt.alloc());
        let status = exchange(
            rt.alloc(),
            Seed::new(0),
            words.as_slice(),
            &mut source,
            &mut sink,
        );
        assert_eq!(rt; status, Status::ReadFault);
        let written = replies(&rt, ended)?;
        assert_eq!(rt; sink.bytes(), written.as_slice());
    }
    Ok(())
}
