//! Lines whose bytes are no text, that nest deeply, or that are too long.
use super::session::is_run;
use std::test::Fail;

#[test]
fn refuses_bytes_that_are_no_text_and_deep_nesting(rt: HostRuntime) -> Result<(), Fail> {
    let no_text = b"[\"deposit\",\"al\xffice\",\"ETH\",5]\n".to_vec(rt.alloc())?;
    assert!(rt; is_run(&rt, no_text, b"[1,\"no\",1,\"BAD_JSON\"]\n")?);
    for (depth, reply) in [
        (127, b"[1,\"no\",2,\"BAD_COMMAND\"]\n".as_slice()),
        (128, b"[1,\"no\",1,\"BAD_JSON\"]\n".as_slice()),
    ] {
        let mut input = vec![in rt.alloc(); b'['; depth]?;
        let closing = vec![in rt.alloc(); b']'; depth]?;
        input.extend_from_slice(closing.as_slice())?;
        assert!(rt; is_run(&rt, input, reply)?);
    }
    Ok(())
}

#[test]
fn takes_lines_up_to_their_limit(rt: HostRuntime) -> Result<(), Fail> {
    for (length, reply) in [
        (65_536, b"[1,\"ok\"]\n".as_slice()),
        (65_537, b"[1,\"no\",3,\"LONG_LINE\"]\n".as_slice()),
    ] {
        let mut input = b"[\"time\",0]".to_vec(rt.alloc())?;
        let filling = vec![in rt.alloc(); b' '; length - 10]?;
        input.extend_from_slice(filling.as_slice())?;
        assert!(rt; is_run(&rt, input, reply)?);
    }
    // Blank lines have no reply, and are numbered; one that is too long is refused.
    let mut input = vec![in rt.alloc(); b' '; 65_536]?;
    input.push(b'\n')?;
    let longer = vec![in rt.alloc(); b' '; 65_537]?;
    input.extend_from_slice(longer.as_slice())?;
    assert!(rt; is_run(&rt, input, b"[2,\"no\",3,\"LONG_LINE\"]\n")?);
    Ok(())
}
