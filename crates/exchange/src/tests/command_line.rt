//! The words that the program takes.
use super::session::words;
use crate::words::{Request, request_of};
use std::test::Fail;

#[test]
fn reads_the_words(rt: HostRuntime) -> Result<(), Fail> {
    for (text, request) in [
        ("run", Some(Request::Run)),
        ("check", Some(Request::Check)),
        ("work 0 1", Some(Request::Work { seed: 0, count: 1 })),
        (
            "work 18446744073709551615 100000",
            Some(Request::Work {
                seed: u64::MAX,
                count: 100000,
            }),
        ),
        ("work 18446744073709551616 1", None),
        ("work 1 0", None),
        ("work 01 1", None),
        ("work 1 100001", None),
        ("run run", None),
        ("", None),
    ] {
        let words = words(&rt, text)?;
        assert_eq!(rt; request_of(words.as_slice()), request);
    }
    Ok(())
}
