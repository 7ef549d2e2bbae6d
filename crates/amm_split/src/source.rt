//! What a problem brings, with what is known of it.
ghost use Rattle.std.specs.Prelude.{◌≡◌, ◌≢◌, ◌<◌, ◌≤◌, ◌^◌, Contains};
ghost use Rattle.amm_model.specs.Routing.{IsOpenProblem, one_part};
ghost use Rattle.amm_split.specs.Deliveries.{source_part as source_part_of};

use amm_model::{OpenProblem, Part, Problem};

/// The amount of the problem's source token.
pub fn source_amount(problem: &Problem) -> u64
    ensures value { result ≡ problem.now.d }
    ensures below { result < 2 ^ 52 }
    ensures apart { problem.now.s ≢ problem.now.t }
{
    problem.d()
}

/// The problem's one part.
pub fn source_part(problem: &Problem) -> &Part
    ensures part { result.now ≡ source_part_of problem.now }
    ensures only { Contains (one_part problem.now.s problem.now.d) (source_part_of problem.now) }
{
    &problem.as_open().parts()[0]
}

/// The amount of a part of the problem.
pub fn part_amount(problem: &OpenProblem, part: &Part) -> u64
    requires { Contains problem.now.parts part.now }
    ensures value { result ≡ part.now.amount }
    ensures range { (1 ≤ result) × (result < 2 ^ 52) }
    ensures apart { part.now.token ≢ problem.now.t }
    ensures sound { IsOpenProblem problem.now }
{
    let _sound = problem.t();
    part.amount
}
