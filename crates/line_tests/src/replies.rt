//! Replies that no line brings forth, and those that carry a quote. The other forms are in
//! `sessions/`.
ghost use Rattle.std.specs.Prelude.{IfOk};
ghost use Rattle.amm_model.specs.Certificate.{IsWritable};
ghost use Rattle.amm_model.specs.ReplyText.{CanBeWritten};

use amm_model::{
    AmountList, Answer, Leg, LegList, Memory, PoolName, Prices, Problem, ProblemPool, Quote, Reply,
    Route, TokenName,
};
use amm_reply::{write, write_answer};
use std::alloc::Global;
use std::test::Fail;

fn text(alloc: Global, answer: Answer) -> Result<Vec<u8>, Memory>
    requires { CanBeWritten answer }
{
    write(alloc, &Reply { line: 7, answer })
}

/// A list with nothing in it, and an answer that is written by itself.
#[test]
fn an_empty_list_and_an_answer(rt: HostRuntime) -> Result<(), Fail> {
    let alloc = rt.alloc();
    let quote_in = Answer::QuoteIn {
        amounts: AmountList::from_vec(Vec::new(alloc)),
    };
    assert_eq!(rt;
        text(alloc, quote_in)?.as_slice(),
        b"[7,\"ok\",[]]\n".as_slice()
    );
    assert_eq!(rt;
        write_answer(alloc, 8, &Answer::Time)?.as_slice(),
        b"[8,\"ok\"]\n".as_slice()
    );
    Ok(())
}

fn token(alloc: Global, name: &[u8]) -> Result<TokenName, Fail> {
    match TokenName::read(alloc, name)? {
        Some(token) => Ok(token),
        None => Err("no token")?,
    }
}

/// A route of one leg over one pool: floor(999*10000*4000000 / (1000*1000000 + 999*10000)) = 39564;
/// at the prices of the reserves the pool has no worth, and the bound is 4194304*10000/1048576.
fn quote(alloc: Global) -> Result<Quote, Fail>
    ensures { IfOk result (λ quote. IsWritable quote) }
{
    let eth = token(alloc, b"ETH".as_slice())?;
    let usd = token(alloc, b"USD".as_slice())?;
    let Some(name) = PoolName::read(alloc, b"ETH/USD:1".as_slice())? else {
        return Err("no pool")?;
    };
    let mut pools = Vec::new(alloc);
    pools.push(ProblemPool {
        name,
        r0: 1000000,
        r1: 4000000,
        b0: 1000000,
        b1: 4000000,
    })?;
    let Some(problem) = Problem::from_parts(alloc, eth, usd, 10000, pools)? else {
        return Err("no problem")?;
    };
    let Some(prices) = Prices::from_parts(Vec::from_slice(alloc, &[4194304, 1048576])?) else {
        return Err("no prices")?;
    };
    if prices.as_slice().len() != problem.tokens().len() || problem.pools().is_empty() {
        return Err("not priced")?;
    }
    let mut legs = Vec::new(alloc);
    legs.push(Leg {
        pool: 0,
        zero_in: true,
        input: 10000,
        output: 39564,
    })?;
    let legs = LegList::from_vec(legs);
    Ok(Quote {
        problem,
        prices,
        route: Route { legs },
        delivered: 39564,
        bound: 40000,
    })
}

/// The certificate of that quote.
const CERTIFICATE: &str =
    r#"["amm-split-certificate",2,"ETH","USD",10000,[["ETH/USD:1",1000000,4000000,1000000,4000000]],[["ETH",4194304],["USD",1048576]],[["ETH/USD:1","ETH",10000,39564]],39564,"40000"]"#;

#[test]
fn quotes(rt: HostRuntime) -> Result<(), Fail> {
    let alloc = rt.alloc();
    let copy = quote(alloc)?.copy(alloc)?;
    assert_eq!(rt;
        amm_cert::write(alloc, &copy)?.as_slice(),
        CERTIFICATE.as_bytes(),
        "of a copy"
    );
    let split = Answer::Split {
        number: 1,
        quote: quote(alloc)?,
    };
    assert_eq!(rt;
        text(alloc, split)?.as_slice(),
        b"[7,\"ok\",1,39564,\"40000\",[[\"ETH\",4194304],[\"USD\",1048576]],[[\"ETH/USD:1\",\"ETH\",10000,39564]]]\n".as_slice()
    );
    Ok(())
}
