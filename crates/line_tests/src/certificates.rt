//! Certificates read, and written back.
use amm_cert::{read, write};
use std::alloc::Global;

/// A certificate over a pool at the fee of 1, compact and as it is written. Its leg gives
/// floor(999*10000*4000000 / (1000*1000000 + 999*10000)) = 39564; the prices are those of the
/// reserves, so the pool has no worth, and the bound is 4194304*10000/1048576 = 40000.
const ONE_POOL: &str =
    r#"["amm-split-certificate",2,"ETH","USD",10000,[["ETH/USD:1",1000000,4000000,1000000,4000000]],[["ETH",4194304],["USD",1048576]],[["ETH/USD:1","ETH",10000,39564]],39564,"40000"]"#;

/// The same with white space, and with a letter of a name as an escape.
const SPACED: &str = " [ \"amm-split-certificate\",2, \"\\u0045TH\",\"USD\",10000,
[[\"ETH/USD:1\",1000000,4000000,1000000,4000000]],[[\"ETH\",4194304],[\"USD\",1048576]],[[\"ETH/USD:1\",\"ETH\",10000,39564]],39564,\"40000\"]\t";

/// Whether the bytes are a certificate of a quote that is written as the text.
fn is_read_as(alloc: Global, bytes: &[u8], text: &[u8]) -> Option<bool> {
    let quote = read(alloc, bytes).ok()??;
    if quote.prices.as_slice().len() != quote.problem.tokens().len() {
        return None;
    }
    let legs = quote.route.legs.as_slice();
    if legs.len() != 1
        || legs[0].pool != 0
        || quote.problem.pools().len() != 1
        || legs[0].input > 10000
        || legs[0].output > 40000
    {
        return None;
    }
    Some(write(alloc, &quote).ok()?.as_slice() == text)
}

#[test]
fn what_is_read_is_written_back(rt: HostRuntime) {
    for text in [ONE_POOL, SPACED] {
        assert_eq!(rt;
            is_read_as(rt.alloc(), text.as_bytes(), ONE_POOL.as_bytes()),
            Some(true)
        );
    }
}

/// The amount that a certificate says is delivered.
fn delivered(alloc: Global, text: &str) -> Option<u64> {
    Some(read(alloc, text.as_bytes()).ok()??.delivered)
}

#[test]
fn a_certificate_or_none(rt: HostRuntime) {
    for (text, amount) in [
        (ONE_POOL, Some(39564)),
        // A pool of the fee 1 in version 1, which has pools of the fee 3 alone.
        (
            r#"["amm-split-certificate",1,"ETH","USD",10000,[["ETH/USD:1",1000000,4000000,1000000,4000000]],[["ETH",4194304],["USD",1048576]],[["ETH/USD:1","ETH",10000,39564]],39564,"40000"]"#,
            None,
        ),
        // No leg at all: a certificate, whatever a check says of it.
        (
            r#"["amm-split-certificate",1,"ETH","USD",10000,[["ETH/USD",1000000,4000000,1000000,4000000]],[["ETH",4194304],["USD",1048576]],[],0,"0"]"#,
            Some(0),
        ),
        // A bound with a zero in front.
        (
            r#"["amm-split-certificate",1,"ETH","USD",10000,[["ETH/USD",1000000,4000000,1000000,4000000]],[["ETH",4194304],["USD",1048576]],[],0,"00"]"#,
            None,
        ),
        // No JSON.
        ("[1,2", None),
    ] {
        assert_eq!(rt; delivered(rt.alloc(), text), amount, "{text}");
    }
}
