//! Loans with a script as their borrower. The same loans as steps are asked by
//! `sessions/scripts.txt`.
ghost use Rattle.std.specs.Prelude.{◌≡◌, ◌≤◌, IfOk};
ghost use Rattle.amm_model.specs.CommandView.{move_of_step, moves_of_steps};
ghost use Rattle.amm_model.specs.Fits.{FitMoves, FitsMove};
ghost use Rattle.amm_model.specs.declared.limits.TheConstants.{AMOUNT_LIMIT};

use crate::market::{Names, open_market, read_names};
use amm_model::{Answer, Asset, Fault, Holder, PoolName, Refusal, Step, SwapReceipt};
use amm_script::{ScriptBorrower, flash_script};
use amm_state::{State, Tx};
use std::alloc::Global;
use std::test::Fail;

// What the first step of a loan does.
#[derive(Clone, Copy, Debug, PartialEq, Eq, Drop)]
enum First {
    Nothing,
    Sync,
    // It settles the first quote, which the ledger does not keep.
    Settle,
}

// A step that pays a loan back, with n units of ETH.
fn pays_back(names: &Names, pool: &PoolName, n: u64) -> Step
    requires amount { n ≤ AMOUNT_LIMIT }
    ensures { FitsMove (move_of_step result) }
{
    Step::Transfer {
        asset: Asset::Token(names.eth),
        to: Holder::Pool(*pool),
        n,
    }
}

fn first_step(names: &Names, pool: &PoolName, first: First) -> Step
    ensures { FitsMove (move_of_step result) }
{
    match first {
        First::Nothing => pays_back(names, pool, 0),
        First::Sync => Step::Sync { pool: *pool },
        First::Settle => Step::Settle {
            quote: 1,
            deadline: 0,
        },
    }
}

fn two_steps(alloc: Global, first: Step, second: Step) -> Result<Vec<Step>, Fault>
    requires first { FitsMove (move_of_step first) }
    requires second { FitsMove (move_of_step second) }
    ensures { IfOk result (λ steps. FitMoves (moves_of_steps steps.items)) }
{
    match vec![in alloc; first, second] {
        Ok(steps) => Ok(steps),
        Err(_) => Err(Fault::Memory),
    }
}

// A script of alice's: a first step, and one that pays back n.
fn script_of(
    alloc: Global,
    names: &Names,
    pool: &PoolName,
    first: First,
    n: u64,
) -> Result<ScriptBorrower, Fault>
    requires amount { n ≤ AMOUNT_LIMIT }
{
    let steps = two_steps(
        alloc,
        first_step(names, pool, first),
        pays_back(names, pool, n),
    )?;
    Ok(ScriptBorrower {
        actor: names.alice,
        steps,
    })
}

// A loan of ETH for a script, after which all is taken back.
fn lend(
    alloc: Global,
    state: State,
    pool: &PoolName,
    out0: u64,
    script: &mut ScriptBorrower,
) -> (State, Result<Answer, Fault>)
    ensures { result.0 ≡ state }
{
    let mut tx = Tx::begin(state);
    let answer = flash_script(alloc, &mut tx, pool, out0, 0, script);
    (tx.rollback(), answer)
}

// Whether the answer is this receipt.
fn is_paid(answer: &Result<Answer, Fault>, want: &SwapReceipt) -> bool {
    match answer {
        Ok(Answer::Flash(receipt)) => receipt == want,
        _ => false,
    }
}

/// 997*x >= 1000*1000 holds from x = 1004 on. Alice has 500000 ETH, and the 1000 of the loan.
#[test]
fn loans_by_scripts(rt: HostRuntime) -> Result<(), Fail> {
    let alloc = rt.alloc();
    let names = read_names(alloc)?;
    let (state, pools) = open_market(alloc, &names)?;
    let mut script = script_of(alloc, &names, &pools.eth_usd, First::Nothing, 1004)?;
    let (mut state, answer) = lend(alloc, state, &pools.eth_usd, 1000, &mut script);
    let paid = SwapReceipt {
        in0: 1004,
        in1: 0,
        out0: 1000,
        out1: 0,
    };
    assert!(&rt; is_paid(&answer, &paid));
    for (out0, first, n, why) in [
        (0, First::Nothing, 1004, Refusal::InsufficientOutputAmount),
        (
            1_000_000,
            First::Nothing,
            1004,
            Refusal::InsufficientLiquidity,
        ),
        (1000, First::Sync, 1004, Refusal::Locked),
        (1000, First::Settle, 1004, Refusal::NoQuote),
        (1000, First::Nothing, 501_001, Refusal::Funds),
        (1000, First::Nothing, 0, Refusal::InsufficientInputAmount),
        (1000, First::Nothing, 1003, Refusal::K),
    ] {
        let mut script = script_of(alloc, &names, &pools.eth_usd, first, n)?;
        let (back, answer) = lend(alloc, state, &pools.eth_usd, out0, &mut script);
        assert_eq!(&rt; answer.err(), Some(Fault::Refused(why)), "{n}");
        state = back;
    }
    Ok(())
}
