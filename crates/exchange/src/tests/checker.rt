//! The word `check`: a certificate in, one line out.
use super::session::words;
use crate::exchange;
use amm_engine::{Seed, Status};
use amm_io::{MemSink, MemSource, Sink, Source, SureSink, SureSource};
use std::test::Fail;

/// A certificate up to its legs: 10,000 ETH for USD over a pool of 1,000,000 ETH and 4,000,000 USD
/// at the fee of 3, which gives floor(997*10000*4000000 / (1000*1000000 + 997*10000)) = 39486. The
/// prices are those of the reserves, so that the pool has no worth, and the bound is
/// floor(4194304*10000 / 1048576) = 40000.
const FRONT: &str =
    r#"["amm-split-certificate",1,"ETH","USD",10000,[["ETH/USD",1000000,4000000,1000000,4000000]],[["ETH",4194304],["USD",1048576]],"#;

/// What stands behind it in a certificate that is right.
const RIGHT: &str = r#"[["ETH/USD","ETH",10000,39486]],39486,"40000"]"#;

/// What stands behind it, and the line that comes.
const CASES: [(&str, &str); 9] = [
    (RIGHT, r#"["yes",39486,"40000"]"#),
    // No certificate: the text breaks off, goes on, or has a bound that is a number.
    ("", r#"["no","BAD_CERT"]"#),
    (
        r#"[["ETH/USD","ETH",10000,39486]],39486,"40000"]x"#,
        r#"["no","BAD_CERT"]"#,
    ),
    (
        r#"[["ETH/USD","ETH",10000,39486]],39486,40000]"#,
        r#"["no","BAD_CERT"]"#,
    ),
    // One unit more than the pool gives, and one pool used twice: floor(997*5000*4000000 /
    // (1000*1000000 + 997*5000)) = 19841.
    (
        r#"[["ETH/USD","ETH",10000,39487]],39487,"40000"]"#,
        r#"["no","BAD_ROUTE"]"#,
    ),
    (
        r#"[["ETH/USD","ETH",5000,19841],["ETH/USD","ETH",5000,19841]],39682,"40000"]"#,
        r#"["no","BAD_ROUTE"]"#,
    ),
    // The delivered amount is told before the bound.
    (
        r#"[["ETH/USD","ETH",10000,39486]],39485,"39999"]"#,
        r#"["no","BAD_DELIVERED"]"#,
    ),
    (
        r#"[["ETH/USD","ETH",10000,39486]],39486,"39999"]"#,
        r#"["no","BAD_BOUND"]"#,
    ),
    // A route of no legs delivers nothing, within the same bound.
    (r#"[],0,"40000"]"#, r#"["yes",0,"40000"]"#),
];

fn certificate(rt: &HostRuntime, rest: &str) -> Result<Vec<u8>, Fail> {
    let mut bytes = FRONT.as_bytes().to_vec(rt.alloc())?;
    bytes.extend_from_slice(rest.as_bytes())?;
    Ok(bytes)
}

/// The status of a check.
fn check<S: Source, K: Sink>(
    rt: &HostRuntime,
    source: &mut S,
    sink: &mut K,
) -> Result<Status, Fail> {
    let words = words(rt, "check")?;
    Ok(exchange(rt.alloc(), Seed::new(0), words.as_slice(), source, sink))
}

#[test]
fn tells_the_first_thing_that_is_not_so(rt: HostRuntime) -> Result<(), Fail> {
    for (rest, line) in CASES {
        let status = if line.starts_with("[\"yes\"") {
            Status::Done
        } else {
            Status::No
        };
        let mut wanted = line.as_bytes().to_vec(rt.alloc())?;
        wanted.push(b'\n')?;
        for piece in [7, 1000] {
            let fails = Vec::new(rt.alloc());
            let mut source = MemSource::new(certificate(&rt, rest)?, piece, fails);
            let mut sink = SureSink::new(rt.alloc());
            assert_eq!(rt; check(&rt, &mut source, &mut sink)?, status, "{rest}");
            assert_eq!(rt; sink.bytes(), wanted.as_slice(), "{rest}");
        }
    }
    Ok(())
}

/// A certificate that is right with as many spaces behind it as make 2^20 bytes, and one more.
#[test]
fn takes_bytes_up_to_the_limit(rt: HostRuntime) -> Result<(), Fail> {
    for (length, status, line) in [
        (
            1_048_576,
            Status::Done,
            b"[\"yes\",39486,\"40000\"]\n".as_slice(),
        ),
        (1_048_577, Status::InputLimit, b"".as_slice()),
    ] {
        let mut input = certificate(&rt, RIGHT)?;
        input.resize(length, b' ')?;
        let mut source = SureSource::new(input);
        let mut sink = SureSink::new(rt.alloc());
        assert_eq!(rt; check(&rt, &mut source, &mut sink)?, status);
        assert_eq!(rt; sink.bytes(), line);
    }
    Ok(())
}

/// The certificate comes in pieces of 100 bytes: one and a rest, and then its end.
#[test]
fn writes_nothing_after_a_failed_read(rt: HostRuntime) -> Result<(), Fail> {
    for j in 0..3u64 {
        let fails = vec![in rt.alloc(); j]?;
        let mut source = MemSource::new(certificate(&rt, RIGHT)?, 100, fails);
        let mut sink = SureSink::new(rt.alloc());
        assert_eq!(rt; check(&rt, &mut source, &mut sink)?, Status::ReadFault);
        assert_eq!(rt; sink.bytes(), b"".as_slice());
    }
    Ok(())
}

#[test]
fn tells_a_failed_write(rt: HostRuntime) -> Result<(), Fail> {
    for rest in [RIGHT, ""] {
        let mut source = SureSource::new(certificate(&rt, rest)?);
        let mut sink = MemSink::new(rt.alloc(), vec![in rt.alloc(); 0]?);
        assert_eq!(rt; check(&rt, &mut source, &mut sink)?, Status::WriteFault);
        assert_eq!(rt; sink.bytes(), b"".as_slice());
    }
    Ok(())
}
