//! For each token, where the next pool stands that has it: a change of its price goes over those
//! pools alone.
ghost use Rattle.std.specs.Prelude.{◌≡◌, ◌+◌, ◌<◌, ◌≤◌, ℕ, IfOk, length, map, slice_index};
ghost use Rattle.amm_model.specs.Routing.{IsOpenProblem, places_of};
ghost use Rattle.amm_dual.specs.Nexts.{AreNexts, AreNextsFrom, IsNext};

use amm_model::{Memory, OpenProblem, TokenPlaces};
use std::alloc::Global;

// Places among the pools, of which there are at most 256, and their end.
const PLACES: usize = 257;

/// From each place among the pools on, and from their end, the first place of a pool that has a
/// token; the number of pools where none has it.
#[derive(Clone, Copy, Drop)]
pub struct Nexts {
    pub places: [u16; PLACES],
}

/// Those of each token of the problem.
pub fn nexts_of(alloc: Global, problem: &OpenProblem) -> Result<Vec<Nexts>, Memory>
    ensures { IfOk result (λ nexts. AreNexts problem.now nexts.items) }
{
    let places = problem.places();
    let mut list = Vec::new(alloc);
    for token in 0..problem.tokens().len() {
        list.push(nexts_of_token(problem, places, token))?;
    }
    Ok(list)
}

// Those of one token.
fn nexts_of_token(problem: &OpenProblem, places: &[TokenPlaces], token: usize) -> Nexts
    requires places { places.now ≡ map (places_of problem.now.tokens) problem.now.pools }
    ensures { AreNextsFrom places.now token 0 result.places }
{
    let count = problem.pools().len();
    let mut next = count;
    let mut list = all_at(next);
    for k in 0..count {
        let i = count - 1 - k;
        next = next_before(places, token, i, next);
        list[i] = next as u16;
    }
    Nexts { places: list }
}

// One place from everywhere.
fn all_at(next: usize) -> [u16; PLACES]
    requires { next ≤ 256 }
    ensures long { length result ≡ 257 }
    ensures each { (i : ℕ) → i < 257 → slice_index result i ≡ next }
{
    [next as u16; PLACES]
}

// The next place from one on, from that after it.
fn next_before(places: &[TokenPlaces], token: usize, i: usize, next: usize) -> usize
    requires within { i < length places.now }
    requires next { IsNext places.now token (i + 1) next }
    ensures { IsNext places.now token i result }
{
    if places[i].zero == token || places[i].one == token {
        return i;
    }
    next
}
