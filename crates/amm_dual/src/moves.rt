//! The moves of the prices of a problem, by numbers.
ghost use Rattle.std.specs.Prelude.{◌≡◌, ◌+◌, ◌*◌, ◌<◌, ◌≤◌, ℕ, Bool, length, slice_index_or};
ghost use Rattle.amm_model.specs.Routing.{IsOpenProblem};
ghost use Rattle.amm_dual.specs.Moves.{move_of, pool_move, token_move};

use amm_model::{OpenProblem, Turn};

/// One token's price goes up or down by one part in 2^k of it, or those of two.
#[derive(Clone, Copy, Drop)]
pub struct Move {
    pub k: u32,
    pub first: Turn,
    pub second: Option<Turn>,
}

/// How many numbers there are.
pub fn move_count(problem: &OpenProblem) -> usize
    ensures { result ≡ 64 * (length problem.now.tokens + length problem.now.pools) }
{
    let _few = problem.target();
    64 * (problem.tokens().len() + problem.pools().len())
}

/// The move of this number, if there is one.
pub fn move_at(problem: &OpenProblem, n: usize) -> Option<Move>
    requires { n < 64 * (length problem.now.tokens + length problem.now.pools) }
    ensures same { result ≡ move_of problem.now n }
    ensures sound { IsOpenProblem problem.now }
{
    let who = n / 64;
    let k = (n % 64 / 4 + 1) as u32;
    let first_up = n % 4 >= 2;
    let second_up = n % 2 == 1;
    let count = problem.tokens().len();
    if who < count {
        return token_move(problem, who, k, first_up);
    }
    pool_move(problem, who - count, k, first_up, second_up)
}

// The move of one token.
fn token_move(problem: &OpenProblem, place: usize, k: u32, up: bool) -> Option<Move>
    ensures { result ≡ token_move problem.now place k up }
{
    if place == problem.target() {
        return None;
    }
    Some(Move {
        k,
        first: Turn { place, up },
        second: None,
    })
}

// The move of the two tokens of a pool.
fn pool_move(
    problem: &OpenProblem,
    i: usize,
    k: u32,
    first_up: bool,
    second_up: bool,
) -> Option<Move>
    requires { i < length problem.now.pools }
    ensures { result ≡ pool_move problem.now i k first_up second_up }
{
    let target = problem.target();
    let places = problem.places();
    let zero = places[i].zero;
    let one = places[i].one;
    if zero == target {
        return None;
    }
    if one == target {
        return None;
    }
    Some(Move {
        k,
        first: Turn {
            place: zero,
            up: first_up,
        },
        second: Some(Turn {
            place: one,
            up: second_up,
        }),
    })
}
