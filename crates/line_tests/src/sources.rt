//! Lines of sources that are cut and fail, and what sinks take.
use amm_io::{
    IoEnd, Lines, MemSink, MemSource, Source, StdSink, StdSource, SureSource, WriteEnd, write_all,
};
use amm_model::Line;
use std::io::Cursor;
use std::test::Fail;

/// The next lines of a source, each ended by `|`, up to its end and once more.
fn lines_of<S: Source>(rt: &HostRuntime, limit: u64, source: &mut S) -> Result<Vec<u8>, Fail> {
    let mut lines = Lines::new(rt.alloc(), limit)?;
    let mut text = Vec::new(rt.alloc());
    let mut ended = false;
    for _ in 0..20 {
        match lines.next(rt.alloc(), source) {
            Ok(Some(Line::Whole(line))) => text.extend_from_slice(line.as_slice())?,
            Ok(Some(Line::Blank)) => text.push(b'_')?,
            Ok(Some(Line::Long)) => text.push(b'L')?,
            Ok(None) => text.extend_from_slice(b"END")?,
            Err(IoEnd::ReadFault) => text.extend_from_slice(b"FAULT")?,
            Err(IoEnd::InputLimit) => text.extend_from_slice(b"LIMIT")?,
            Err(IoEnd::Memory) => text.extend_from_slice(b"MEMORY")?,
        }
        text.push(b'|')?;
        let ends = text.ends_with(b"END|") || text.ends_with(b"T|");
        if ended && ends {
            break;
        }
        ended = ends;
    }
    Ok(text)
}

#[test]
fn lines_do_not_depend_on_the_pieces(rt: HostRuntime) -> Result<(), Fail> {
    for piece in [1, 3, 100] {
        for (input, fails, lines) in [
            ("ab\ncd\nefghi", 99, "ab|cd|LIMIT|LIMIT|"),
            ("ab\ncd\nefgh", 99, "ab|cd|efgh|END|END|"),
            ("ab\ncd\nefg\ni", 99, "ab|cd|efg|LIMIT|LIMIT|"),
            ("", 99, "END|END|"),
            ("\n \t\r\n\na\n", 99, "_|_|_|a|END|END|"),
            ("ab\ncd", 0, "FAULT|FAULT|"),
        ] {
            let fails = vec![in rt.alloc(); fails]?;
            let mut source = MemSource::new(input.as_bytes().to_vec(rt.alloc())?, piece, fails);
            let read = lines_of(&rt, 10, &mut source)?;
            assert_eq!(rt;
                read.as_slice(),
                lines.as_bytes(),
                "{input} in pieces of {piece}"
            );
        }
    }
    Ok(())
}

#[test]
fn a_line_is_long_past_its_limit(rt: HostRuntime) -> Result<(), Fail> {
    for (byte, count, first) in [
        (b'x', 65536, b'x'),
        (b'x', 65537, b'L'),
        (b' ', 65536, b'_'),
        (b' ', 65537, b'L'),
        (b'x', 200000, b'L'),
    ] {
        let mut input: Vec<u8> = vec![in rt.alloc(); byte; count]?;
        input.extend_from_slice(b"\nend")?;
        let read = lines_of(&rt, 1000000, &mut SureSource::new(input))?;
        assert_eq!(rt; read.first(), Some(&first), "{count} bytes");
        assert!(rt; read.ends_with(b"|end|END|END|"), "{count} bytes");
    }
    Ok(())
}

#[test]
fn the_named_calls_fail(rt: HostRuntime) -> Result<(), Fail> {
    let fails = vec![in rt.alloc(); 1]?;
    let mut source = MemSource::new(b"ab\ncd\nef".to_vec(rt.alloc())?, 4, fails);
    let read = lines_of(&rt, 10, &mut source)?;
    assert_eq!(rt; read.as_slice(), b"ab|FAULT|FAULT|".as_slice());
    let read = lines_of(&rt, 10, &mut source)?;
    assert_eq!(rt; read.as_slice(), b"d|ef|END|END|".as_slice());

    let mut sink = MemSink::new(rt.alloc(), vec![in rt.alloc(); 1]?);
    for (bytes, written) in [
        ("ab", Ok(())),
        ("cd", Err(WriteEnd::WriteFault)),
        ("", Ok(())),
        ("ef", Ok(())),
    ] {
        assert_eq!(rt; write_all(&mut sink, bytes.as_bytes()), written);
    }
    assert_eq!(rt; sink.bytes(), b"abef".as_slice());
    Ok(())
}

/// Over a reader and a writer of std; the writer has room for five bytes, and then takes none.
#[test]
fn readers_and_writers_of_std(rt: HostRuntime) -> Result<(), Fail> {
    let mut source = StdSource::new(b"ab\n\ncd".as_slice());
    let read = lines_of(&rt, 10, &mut source)?;
    assert_eq!(rt; read.as_slice(), b"ab|_|cd|END|END|".as_slice());

    let mut room = [0u8; 5];
    let mut sink = StdSink::new(Cursor::new(room.as_mut_slice()));
    for (bytes, written) in [
        ("ab", Ok(())),
        ("", Ok(())),
        ("cde", Ok(())),
        ("f", Err(WriteEnd::WriteFault)),
    ] {
        assert_eq!(rt; write_all(&mut sink, bytes.as_bytes()), written);
    }
    drop(sink);
    assert_eq!(rt; room.as_slice(), b"abcde".as_slice());
    Ok(())
}
