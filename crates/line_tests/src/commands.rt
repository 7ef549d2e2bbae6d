//! Which lines are commands: damaged ones, and the limits of fees, paths, parts, amounts and steps.
//! That a line is the same command however it is written is asked of the program, by
//! `scripts/stored-replies`.
use amm_command::read_line;
use amm_model::{Command, Fault, RoutePath};
use std::alloc::Global;
use std::test::Fail;

/// 0 for a command, else the number of the refusal; 99 for want of memory.
fn code(alloc: Global, line: &[u8]) -> u64 {
    match read_line(alloc, line) {
        Ok(_) => 0,
        Err(Fault::Refused(why)) => why.number(),
        Err(Fault::Memory) => 99,
    }
}

#[test]
fn damaged_lines(rt: HostRuntime) {
    for (line, want) in [
        ("[\"deposit\",\"alice\",\"ETH\",5]x", 1),
        ("[\"deposit\",\"alice\",\"ETH\",5", 1),
        ("{\"a\"", 1),
        ("", 1),
        ("[\"deposit\",\"alice\",\"ETH\",1e999]", 1),
        ("[\"deposit\",\"alice\",\"ETH\",05]", 1),
        ("[\"mint\"]", 2),
        ("[\"deposit\",\"alice\",\"ETH\",1.0]", 2),
        ("[\"deposit\",\"alice\",\"ETH\",1e3]", 2),
        ("[\"deposit\",\"alice\",\"ETH\",-1]", 2),
        ("[\"deposit\",\"alice\",\"ETH\",-0]", 2),
        ("[\"deposit\",\"alice\",\"ETH\",\"5\"]", 2),
        ("[\"deposit\",\"alice\",\"ETH\",5,6]", 2),
        ("[\"deposit\",\"Alice\",\"ETH\",5]", 2),
        ("[\"deposit\",\"alice\",\"ETH\",4503599627370496]", 2),
        ("[\"deposit\",\"alice\",\"ETH\",18446744073709551616]", 2),
        ("[\"deposit\",\"alice\",\"ETH\"]", 2),
        ("[\"Deposit\",\"alice\",\"ETH\",5]", 2),
        ("{\"deposit\":5}", 2),
        ("[]", 2),
        ("5", 2),
        ("[\"deposit\",\"alice\",\"ETH\",4503599627370495]", 0),
        ("[\"de\\u0070osit\",\"alice\",\"ETH\",5]", 0),
        (" [ \"time\" , 0 ] ", 0),
        ("[\"feeto\",\"admin\",\"\\u0030\"]", 0),
        // A front that is plain.
        ("[\"time\", 5]", 0),
        ("[\"time\",5] \t\r", 0),
        ("[\"time\",5]]", 1),
        ("[\"time\",5],", 1),
        ("[\"time\",5.0]", 2),
        ("[\"times\",5]", 2),
        ("[\"sync\",\"alice\",\"ETH/USD\",\"é\"]", 2),
        (
            "[\"flash\",\"alice\",\"A/B\",1,0,[[\"sync\",\"alice\",\"A/B\"],]]",
            1,
        ),
        // Numbers that no double holds, wherever they stand.
        ("[\"deposit\",\"alice\",\"ETH\",{\"a\":[true,1e999]}]", 1),
        ("{\"a\":1e999,\"a\":1}", 1),
        ("[[-1e999]]", 1),
        ("[\"time\",1e308]", 2),
        ("[\"time\",-18446744073709551616]", 2),
        ("[\"time\",\"1e999\"]", 2),
        ("{\"1e999\":[1e-999,null]}", 2),
    ] {
        assert_eq!(rt; code(rt.alloc(), line.as_bytes()), want, "{line}");
    }
}

#[test]
fn limits(rt: HostRuntime) {
    for (line, want) in [
        // Fees are 1, 3 and 10.
        ("[\"create\",\"bob\",\"ETH\",\"USD\",10]", 0),
        ("[\"create\",\"bob\",\"ETH\",\"USD\",2]", 2),
        ("[\"create\",\"bob\",\"ETH\",\"USD\",257]", 2),
        ("[\"create\",\"bob\",\"ETH\",\"USD\",1,1]", 2),
        (
            "[\"add\",\"alice\",\"ETH\",\"USD\",1,4,0,0,\"alice\",0,4]",
            2,
        ),
        (
            "[\"remove\",\"alice\",\"ETH\",\"USD\",1,0,0,\"alice\",0,10,1]",
            2,
        ),
        ("[\"pool\",\"ETH/USD:1\"]", 0),
        ("[\"pool\",\"ETH/USD:3\"]", 2),
        ("[\"pool\",\"USD/ETH\"]", 2),
        // A path has two to eight tokens, and a fee between two of them or none.
        ("[\"quoteout\",[\"ETH\"],1]", 2),
        ("[\"quoteout\",[],1]", 2),
        ("[\"quoteout\",[1,\"ETH\",\"USD\"],1]", 2),
        ("[\"quoteout\",[\"ETH\",\"USD\",1],1]", 2),
        ("[\"quoteout\",[\"ETH\",1,1,\"USD\"],1]", 2),
        ("[\"quoteout\",[\"ETH\",2,\"USD\"],1]", 2),
        (
            "[\"quoteout\",[\"A\",1,\"B\",1,\"A\",1,\"B\",1,\"A\",1,\"B\",1,\"A\",1,\"B\"],1]",
            0,
        ),
        (
            "[\"quoteout\",[\"A\",\"B\",\"A\",\"B\",\"A\",\"B\",\"A\",\"B\",\"A\"],1]",
            2,
        ),
        // A basket has one to eight parts, whose tokens rise.
        ("[\"basket\",\"al\",[[\"B\",1],[\"A\",1]],\"T\",0,0]", 2),
        ("[\"basket\",\"al\",[[\"A\",1],[\"A\",1]],\"T\",0,0]", 2),
        ("[\"basket\",\"al\",[],\"T\",0,0]", 2),
        ("[\"basket\",\"al\",[[\"A\",1,3]],\"T\",0,0]", 2),
        (
            "[\"basket\",\"al\",[[\"A\",1],[\"B\",1],[\"C\",1],[\"D\",1],[\"E\",1],[\"F\",1],[\"G\",1],[\"H\",1]],\"T\",0,0]",
            0,
        ),
        (
            "[\"basket\",\"al\",[[\"A\",1],[\"B\",1],[\"C\",1],[\"D\",1],[\"E\",1],[\"F\",1],[\"G\",1],[\"H\",1],[\"I\",1]],\"T\",0,0]",
            2,
        ),
        // An amount is below 2^52, and an element too few or too many is none.
        ("[\"average\",1,4503599627370495]", 0),
        ("[\"average\",1,4503599627370496]", 2),
        ("[\"average\",1]", 2),
        ("[\"average\",1,2,3]", 2),
        ("[\"consult\",1,2,\"ETH\",4503599627370495]", 0),
        ("[\"consult\",1,2,\"ETH\",4503599627370496]", 2),
        ("[\"window\",\"ETH/USD\",4503599627370495]", 0),
        ("[\"window\",\"ETH/USD\",4503599627370496]", 2),
        // What is a step, and whose.
        (
            "[\"flash\",\"alice\",\"A/B\",1,0,[[\"settle\",\"alice\",1,0]]]",
            0,
        ),
        (
            "[\"flash\",\"alice\",\"A/B\",1,0,[[\"sync\",\"bob\",\"A/B\"]]]",
            2,
        ),
        (
            "[\"flash\",\"alice\",\"A/B\",1,0,[[\"observe\",\"alice\",\"A/B\"]]]",
            2,
        ),
        (
            "[\"flash\",\"alice\",\"A/B\",1,0,[[\"feeto\",\"alice\",\"0\"]]]",
            2,
        ),
        (
            "[\"flash\",\"al\",\"A/B\",1,0,[[\"cycle\",\"al\",\"A\",0]]]",
            2,
        ),
        ("[\"flash\",\"alice\",\"A/B\",1,0,[5]]", 2),
    ] {
        assert_eq!(rt; code(rt.alloc(), line.as_bytes()), want, "{line}");
    }
}

fn quoted(command: &Command) -> Option<&RoutePath> {
    match command {
        Command::QuoteOut { path, .. } => Some(path),
        _ => None,
    }
}

#[test]
fn path_that_is_read(rt: HostRuntime) -> Result<(), Fail> {
    let line = b"[\"quoteout\",[\"ETH\",1,\"USD\",\"DAI\"],7]";
    let Ok(command) = read_line(rt.alloc(), line) else {
        return Err("no command")?;
    };
    let path = quoted(&command).ok_or("no path")?;
    assert_eq!(rt; path.fees.as_slice(), [1, 3].as_slice());
    for (token, want) in path.tokens.as_slice().iter().zip(["ETH", "USD", "DAI"]) {
        assert_eq!(rt; token.as_bytes(), want.as_bytes());
    }
    Ok(())
}
