//! The routing problem of a ledger: all its pools whose two reserves are positive, in the order of
//! their names, each with its reserves and with what the ledger has at its name.
//!
//! Any two different tokens make a problem, listed or not, and so does a ledger with no such pool:
//! whether a route is there is the search's affair.
ghost use Rattle.std.specs.Prelude.{◌≡◌, ◌≢◌, ◌↔◌, ◌++◌, ◌<◌, ◌≤◌, ◌^◌, [], All, AllPairs, Contains, IfOk, List, Some, ℕ, length, slice_index_or};
ghost use Rattle.std.specs.List.{IsDistinct, cons_option, filter_map};
ghost use Rattle.std.specs.Map.{keys_of};
ghost use Rattle.amm_model.specs.declared.limits.TheConstants.{PART_LIMIT};
ghost use Rattle.amm_model.specs.declared.problem.Part as part_view;
ghost use Rattle.amm_model.specs.declared.problem.ProblemPool as pool_view;
ghost use Rattle.amm_model.specs.Market.{IsOpenProblemIn, IsPoolIn, IsProblemIn};
ghost use Rattle.amm_model.specs.Pools.{same_name};
ghost use Rattle.amm_model.specs.Routing.{IsBefore};
ghost use Rattle.amm_model.specs.Sound.{IsAtRest};
ghost use Rattle.amm_graph.specs.Markets.{pool_in, pool_with};

use amm_model::{
    Asset, Holder, Memory, OpenProblem, PairRecord, Part, PoolName, Problem, ProblemPool, TokenName,
};
use amm_state::{Book, State};
use std::alloc::Global;

/// The problem of bringing `d` of `s` to `t` over the pools of the ledger.
pub fn problem(
    alloc: Global,
    state: &State,
    s: &TokenName,
    t: &TokenName,
    d: u64,
) -> Result<Problem, Memory>
    requires apart { s.now ≢ t.now }
    requires amount { (1 ≤ d) × (d < 2 ^ 52) }
    ensures { IfOk result (λ problem. IsProblemIn state.now s.now t.now d problem) }
{
    problem_of_book(alloc, state.book(), s, t, d)
}

/// The same over a book within a transaction, whose ledger is at rest.
pub fn problem_of_book(
    alloc: Global,
    book: &Book,
    s: &TokenName,
    t: &TokenName,
    d: u64,
) -> Result<Problem, Memory>
    requires rest { IsAtRest book.now.ledger }
    requires apart { s.now ≢ t.now }
    requires amount { (1 ≤ d) × (d < 2 ^ 52) }
    ensures { IfOk result (λ problem. IsProblemIn book.now.ledger s.now t.now d problem) }
{
    let pools = pools_of(alloc, book)?;
    Ok(Problem::from_parts(alloc, *s, *t, d, pools)?.unwrap())
}

/// The problem of bringing the parts to `t` over the pools of the ledger.
pub fn open_problem(
    alloc: Global,
    state: &State,
    parts: &[Part],
    t: &TokenName,
) -> Result<OpenProblem, Memory>
    requires few { length parts.now ≤ PART_LIMIT }
    requires rising { AllPairs (λ (a b : part_view.Part). IsBefore a.token b.token) parts.now }
    requires apart { All (λ (part : part_view.Part). part.token ≢ t.now) parts.now }
    requires amounts { All (λ (part : part_view.Part). (1 ≤ part.amount) × (part.amount < 2 ^ 52)) parts.now }
    ensures { IfOk result (λ problem. IsOpenProblemIn state.now parts.now t.now problem) }
{
    open_problem_of_book(alloc, state.book(), parts, t)
}

/// The same over a book within a transaction, whose ledger is at rest.
pub fn open_problem_of_book(
    alloc: Global,
    book: &Book,
    parts: &[Part],
    t: &TokenName,
) -> Result<OpenProblem, Memory>
    requires rest { IsAtRest book.now.ledger }
    requires few { length parts.now ≤ PART_LIMIT }
    requires rising { AllPairs (λ (a b : part_view.Part). IsBefore a.token b.token) parts.now }
    requires apart { All (λ (part : part_view.Part). part.token ≢ t.now) parts.now }
    requires amounts { All (λ (part : part_view.Part). (1 ≤ part.amount) × (part.amount < 2 ^ 52)) parts.now }
    ensures { IfOk result (λ problem. IsOpenProblemIn book.now.ledger parts.now t.now problem) }
{
    let pools = pools_of(alloc, book)?;
    let parts = Vec::from_slice(alloc, parts)?;
    Ok(OpenProblem::from_parts(alloc, parts, *t, pools)?.unwrap())
}

// The pools whose two reserves are positive, in the order of their names.
fn pools_of(alloc: Global, book: &Book) -> Result<Vec<ProblemPool>, Memory>
    requires rest { IsAtRest book.now.ledger }
    ensures pools { IfOk result (λ pools. (pool : pool_view.ProblemPool) → Contains pools.items pool ↔ IsPoolIn book.now.ledger pool) }
    ensures names { IfOk result (λ pools. AllPairs (λ (a b : pool_view.ProblemPool). IsBefore a.name b.name) pools.items) }
    ensures few { IfOk result (λ pools. length pools.items ≤ length book.now.ledger.pairs) }
{
    let names = names_of(alloc, book)?;
    let pools = pools_named(alloc, book, &names)?;
    Ok(pools)
}

// The pools of these names, as far as there are such and both their reserves are positive.
fn pools_named(alloc: Global, book: &Book, names: &[PoolName]) -> Result<Vec<ProblemPool>, Memory>
    ensures { IfOk result (λ pools. pools.items ≡ filter_map (pool_in book.now.ledger) names.now) }
{
    let mut pools = Vec::new(alloc);
    for name in names {
        push_some(&mut pools, pool_of(book, name))?;
    }
    Ok(pools)
}

// Adds the pool, if there is one.
fn push_some(pools: &mut Vec<ProblemPool>, pool: Option<ProblemPool>) -> Result<(), Memory>
    ensures { IfOk result (λ _. pools.new.items ≡ pools.old.items ++ cons_option pool []) }
{
    if let Some(pool) = pool {
        pools.push(pool)?;
    }
    Ok(())
}

// The names of all pools, in order.
fn names_of(alloc: Global, book: &Book) -> Result<Vec<PoolName>, Memory>
    requires apart { IsDistinct same_name (keys_of book.now.ledger.pairs) }
    ensures ascending { IfOk result (λ names. AllPairs IsBefore names.items) }
    ensures names { IfOk result (λ names. (name : List ℕ) → Contains names.items name ↔ Contains (keys_of book.now.ledger.pairs) name) }
    ensures count { IfOk result (λ names. length names.items ≡ length book.now.ledger.pairs) }
{
    let mut names = Vec::new(alloc);
    for i in 0..book.pair_count() {
        names.push(name_at(book, i))?;
    }
    names.sort_unstable();
    Ok(names)
}

// The name of the pool that was created at this place.
fn name_at(book: &Book, place: usize) -> PoolName
    requires { place < length book.now.ledger.pairs }
    ensures { result ≡ slice_index_or (keys_of book.now.ledger.pairs) place [] }
{
    let (name, _) = book.pair_at(place).unwrap();
    *name
}

// The pool of this name, if there is one and both its reserves are positive.
fn pool_of(book: &Book, name: &PoolName) -> Option<ProblemPool>
    ensures { result ≡ pool_in book.now.ledger name.now }
{
    match book.pair(name) {
        Some(pair) => filled(book, name, *pair),
        None => None,
    }
}

// The pool of this name with the reserves of its pair, if both are positive.
fn filled(book: &Book, name: &PoolName, pair: PairRecord) -> Option<ProblemPool>
    ensures { result ≡ pool_with book.now.ledger name.now (Some pair) }
{
    if pair.r0 == 0 || pair.r1 == 0 {
        return None;
    }
    let holder = Holder::Pool(*name);
    Some(ProblemPool {
        name: *name,
        r0: pair.r0,
        r1: pair.r1,
        b0: book.balance(&Asset::Token(*name.token0()), &holder),
        b1: book.balance(&Asset::Token(*name.token1()), &holder),
    })
}
