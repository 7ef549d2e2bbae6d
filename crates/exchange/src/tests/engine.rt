//! The engine's own calls, with ample memory.
use amm_engine::Engine;
use amm_model::{Asset, ByteLine, Holder, Line, TokenName, UserName};
use std::alloc::Global;
use std::test::Fail;

fn line(alloc: Global, text: &str) -> Result<Line, Fail> {
    match text {
        "" => Ok(Line::Blank),
        "long" => Ok(Line::Long),
        _ => Ok(Line::Whole(ByteLine::from_vec(text.as_bytes().to_vec(alloc)?))),
    }
}

/// What alice has of a token, by the engine's ledger.
fn balance(alloc: Global, engine: &Engine) -> Result<u64, Fail> {
    let eth = TokenName::read(alloc, b"ETH")?.ok_or("no token")?;
    let alice = UserName::read(alloc, b"alice")?.ok_or("no user")?;
    Ok(
        engine
            .book()
            .balance(&Asset::Token(eth), &Holder::User(alice)),
    )
}

/// Each line in turn, with its number, its reply, and what alice has after it.
#[test]
fn answers_one_line_at_a_time(rt: HostRuntime) -> Result<(), Fail> {
    let mut engine = Engine::new(rt.alloc())?;
    assert_eq!(rt; balance(rt.alloc(), &engine)?, 0);
    for (number, text, reply, left) in [
        (
            1,
            "[\"deposit\",\"alice\",\"ETH\",5]",
            "[1,\"ok\",5,5]\n",
            5,
        ),
        (2, "", "", 5),
        (2, "long", "[2,\"no\",3,\"LONG_LINE\"]\n", 5),
        (
            9,
            "[\"withdraw\",\"alice\",\"ETH\",6]",
            "[9,\"no\",7,\"FUNDS\"]\n",
            5,
        ),
        (0, "[\"mint\"]", "[0,\"no\",2,\"BAD_COMMAND\"]\n", 5),
        (1, "[", "[1,\"no\",1,\"BAD_JSON\"]\n", 5),
        (
            u64::MAX,
            "[\"withdraw\",\"alice\",\"ETH\",2]",
            "[18446744073709551615,\"ok\",3,3]\n",
            3,
        ),
    ] {
        let line = line(rt.alloc(), text)?;
        let answer = engine.step(rt.alloc(), number, &line)?;
        assert_eq!(rt; answer.as_slice(), reply.as_bytes(), "{text}");
        assert_eq!(rt; balance(rt.alloc(), &engine)?, left, "{text}");
    }
    Ok(())
}
