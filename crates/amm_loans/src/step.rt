//! The legs of a cycle as one step.
ghost use Rattle.std.specs.Prelude.{◌≡◌, ◌<◌, ◌≤◌, IfOk, length};
ghost use Rattle.amm_names.specs.declared.holder.Asset.TheVariants as assets;
ghost use Rattle.amm_model.specs.CommandView as view;
ghost use Rattle.amm_model.specs.CommandView.{move_of_step, moves_of_steps};
ghost use Rattle.amm_model.specs.Cycles.{loan as loan_of, nested_loans, payment as payment_of};
ghost use Rattle.amm_model.specs.Legs.{token_in};
ghost use Rattle.amm_settle.specs.Places.{AreThere};
ghost use Rattle.amm_loans.specs.Loans.{AreLoansOf};

use amm_model::{Asset, Holder, Leg, Memory, ProblemPool, Step};
use std::alloc::Global;

/// The nested loans of the legs, which are over these pools, as one step: each pool lends its
/// output, the later legs run within its loan, and then its input is paid. There is one leg at
/// least.
pub fn as_step(alloc: Global, pools: &[ProblemPool], legs: &[Leg]) -> Result<Step, Memory>
    requires some { 1 ≤ length legs.now }
    requires there { AreThere pools.now legs.now }
    ensures { IfOk result (λ step. AreLoansOf pools.now legs.now (move_of_step step)) }
{
    let (first, later) = legs.split_first().unwrap();
    nested_loans(alloc, pools, first, later)
}

// The loan of the first leg, within which the later legs run.
#[tactic(auto, unfolding(amm_model::specs::Cycles::nested_loans))]
fn nested_loans(
    alloc: Global,
    pools: &[ProblemPool],
    first: &Leg,
    later: &[Leg],
) -> Result<Step, Memory>
    requires first { first.now.pool < length pools.now }
    requires later { AreThere pools.now later.now }
    ensures { IfOk result (λ step. move_of_step step ≡ nested_loans pools.now first.now later.now) }
{
    let payment = payment(pools, first);
    let Some((next, rest)) = later.split_first() else {
        return Ok(loan(pools, first, vec![in alloc; payment]?));
    };
    let inner = nested_loans(alloc, pools, next, rest)?;
    Ok(loan(pools, first, vec![in alloc; inner, payment]?))
}

// The loan of a leg's output, within which these steps run.
fn loan(pools: &[ProblemPool], leg: &Leg, steps: Vec<Step>) -> Step
    requires there { leg.now.pool < length pools.now }
    ensures { move_of_step result ≡ loan_of pools.now leg.now (moves_of_steps steps.items) }
{
    Step::Flash {
        pool: pools[leg.pool as usize].name,
        out0: if leg.zero_in { 0 } else { leg.output },
        out1: if leg.zero_in { leg.output } else { 0 },
        steps,
    }
}

// What a leg owes: its input goes to its pool.
fn payment(pools: &[ProblemPool], leg: &Leg) -> Step
    requires there { leg.now.pool < length pools.now }
    ensures { view.move (move_of_step result) view.no_moves ≡ payment_of pools.now leg.now }
{
    Step::Transfer {
        asset: asset_in(pools, leg),
        to: Holder::Pool(pools[leg.pool as usize].name),
        n: leg.input,
    }
}

// The token that a leg puts in.
fn asset_in(pools: &[ProblemPool], leg: &Leg) -> Asset
    requires there { leg.now.pool < length pools.now }
    ensures { result ≡ assets.Token (token_in pools.now leg.now) }
{
    let pool = &pools[leg.pool as usize].name;
    if leg.zero_in {
        Asset::Token(*pool.token0())
    } else {
        Asset::Token(*pool.token1())
    }
}
