//! The holdings and the used pools, from leg to leg.
ghost use Rattle.std.specs.Prelude.{◌≡◌, ◌↔◌, ◌<◌, ◌≤◌, ◌+◌, ◌^◌, [], IsTrue, length, take, slice_index, slice_index_or, ℕ, false, if◌then◌else◌};
ghost use Rattle.amm_model.specs.Swap.{IsFee, amount_out_of};
ghost use Rattle.amm_model.specs.Routing.{HasReserves, fee_of, amount_given};
ghost use Rattle.amm_model.specs.Legs.{IsAdmissible, IsLeg, after_legs, no_leg, used_after};
ghost use Rattle.amm_legs.specs.Progress.{Follows, IsNext, IsPaid};

use amm_model::limits::{PAIR_LIMIT, RESERVE_LIMIT};
use amm_model::{Leg, OpenProblem, ProblemPool, TokenPlaces};
use amm_pool::amount_out;

// At most so many tokens: the target, eight parts, and two for each pool.
const MAX_TOKENS: usize = 521;

/// What is held of each token of a problem, by its place, and which pools were used.
#[derive(Drop)]
pub struct Progress {
    pub held: [u64; MAX_TOKENS],
    pub used: [bool; PAIR_LIMIT],
}

impl Progress {
    /// Before the first leg.
    pub fn start(problem: &OpenProblem) -> Progress
        ensures { Follows problem.now [] result.held result.used }
    {
        let parts = problem.parts();
        let places = problem.part_places();
        let mut held = no_amounts();
        for i in 0..parts.len() {
            held[places[i]] = parts[i].amount;
        }
        Progress {
            held,
            used: no_marks(),
        }
    }

    /// Takes the next leg, if it may be taken.
    pub fn take(&mut self, problem: &OpenProblem, legs: &[Leg], i: usize) -> bool
        requires within { i < length legs.now }
        requires follows { Follows problem.now (take i legs.now) self.old.held self.old.used }
        ensures next { IsTrue result ↔ IsNext problem.now legs.now i }
        ensures follows { IsTrue result → Follows problem.now (take (i + 1) legs.now) self.new.held self.new.used }
    {
        if !self.admits(problem, legs, i) {
            return false;
        }
        self.pass(problem, legs, i);
        true
    }

    // Whether the next leg may be taken.
    fn admits(&self, problem: &OpenProblem, legs: &[Leg], i: usize) -> bool
        requires within { i < length legs.now }
        requires follows { Follows problem.now (take i legs.now) self.now.held self.now.used }
        ensures { IsTrue result ↔ IsNext problem.now legs.now i }
    {
        let leg = legs[i];
        let place = leg.pool as usize;
        let pools = problem.pools();
        if place >= pools.len() {
            return false;
        }
        if self.used[place] {
            return false;
        }
        if !is_paid(&pools[place], leg) {
            return false;
        }
        let places = problem.places();
        let (from, _) = sides(places[place], leg.zero_in);
        leg.input <= self.held[from]
    }

    // The next leg's amounts go from one place to another.
    fn pass(&mut self, problem: &OpenProblem, legs: &[Leg], i: usize)
        requires within { i < length legs.now }
        requires follows { Follows problem.now (take i legs.now) self.old.held self.old.used }
        requires next { IsNext problem.now legs.now i }
        ensures { Follows problem.now (take (i + 1) legs.now) self.new.held self.new.used }
    {
        let leg = legs[i];
        let place = leg.pool as usize;
        let places = problem.places();
        let _few = problem.pools();
        let (from, to) = sides(places[place], leg.zero_in);
        self.held[from] -= leg.input;
        self.held[to] += leg.output;
        self.used[place] = true;
    }

    /// What is held of the problem's target.
    pub fn held_of_target(&self, problem: &OpenProblem, legs: &[Leg]) -> u64
        requires { Follows problem.now legs.now self.now.held self.now.used }
        ensures { result ≡ after_legs problem.now.pools (amount_given problem.now) legs.now problem.now.t }
    {
        self.held[problem.target()]
    }
}

fn no_amounts() -> [u64; MAX_TOKENS]
    ensures zero { (j : ℕ) → slice_index result j ≡ 0 }
    ensures long { length result ≡ 521 }
{
    [0; MAX_TOKENS]
}

fn no_marks() -> [bool; PAIR_LIMIT]
    ensures unmarked { (place : ℕ) → slice_index_or result place false ≡ false }
    ensures long { length result ≡ 256 }
{
    [false; PAIR_LIMIT]
}

// The places of the token that goes in and of the one that comes out.
fn sides(at: TokenPlaces, zero_in: bool) -> (usize, usize)
    ensures input { result.0 ≡ (if zero_in then at.zero else at.one) }
    ensures output { result.1 ≡ (if zero_in then at.one else at.zero) }
{
    if zero_in {
        (at.zero, at.one)
    } else {
        (at.one, at.zero)
    }
}

// Whether the pool is admissible, has room for the leg's input, and pays its output for it.
fn is_paid(pool: &ProblemPool, leg: Leg) -> bool
    requires reserves { HasReserves pool.now }
    ensures { IsTrue result ↔ IsPaid pool.now leg }
{
    if pool.b0 > RESERVE_LIMIT || pool.b1 > RESERVE_LIMIT {
        return false;
    }
    let fee = pool.name.fee();
    if leg.zero_in {
        pays(fee, pool.b0, pool.r0, pool.r1, leg)
    } else {
        pays(fee, pool.b1, pool.r1, pool.r0, leg)
    }
}

// Whether a side with room takes the input and pays the output for it.
fn pays(fee: u8, balance: u64, rin: u64, rout: u64, leg: Leg) -> bool
    requires fee { IsFee fee }
    requires room { balance < 2 ^ 48 }
    requires reserve_in { (1 ≤ rin) × (rin < 2 ^ 48) }
    requires reserve_out { (1 ≤ rout) × (rout < 2 ^ 48) }
    ensures { IsTrue result ↔ ((1 ≤ leg.input) × (balance + leg.input < 2 ^ 48) × (1 ≤ leg.output) × (leg.output ≡ amount_out_of fee leg.input rin rout)) }
{
    if leg.input == 0 || leg.input > RESERVE_LIMIT || leg.output == 0 {
        return false;
    }
    balance + leg.input <= RESERVE_LIMIT && leg.output == amount_out(fee, leg.input, rin, rout)
}
