// What a routing problem is made of: its parts are tested, and its tokens gathered and placed.
ghost use Rattle.std.specs.Prelude.{◌≡◌, ◌↔◌, ◌<◌, ◌≤◌, ◌≢◌, ◌^◌, IfOk, IsTrue, All, AllPairs, Contains, length, map, ◌∷◌, ◌++◌, List, ℕ};
ghost use Rattle.amm_names.specs.Pools.{is_pool_name};
ghost use Rattle.amm_model.specs.declared.problem.Part as part_view;
ghost use Rattle.amm_model.specs.declared.problem.ProblemPool as pool_view;
ghost use Rattle.amm_model.specs.Routing.{AreOpenParts, AreSpelled, HasBalances, HasReserves, IsBefore, part_place, places_of as places_of_pool, token_place, tokens_named as tokens_named_by, tokens_of_pools};

use crate::limits::{AMOUNT_LIMIT, PAIR_LIMIT, PART_LIMIT, RESERVE_LIMIT};
use crate::{Part, ProblemPool, TokenPlaces};
use amm_names::{Memory, TokenName};
use std::alloc::Global;

/// Whether a problem can be made of these parts.
pub fn are_parts(parts: &[Part], t: &TokenName, pools: &[ProblemPool]) -> bool
    ensures { IsTrue result ↔ AreOpenParts parts.now t.now pools.now }
{
    if parts.len() > PART_LIMIT || pools.len() > PAIR_LIMIT {
        return false;
    }
    are_rising(parts) && are_given(parts, t) && are_ascending(pools) && are_filled(pools)
}

// Whether the tokens of the parts strictly ascend.
fn are_rising(parts: &[Part]) -> bool
    ensures { IsTrue result ↔ AllPairs (λ (a b : part_view.Part). IsBefore a.token b.token) parts.now }
{
    for i in 1..parts.len() {
        if parts[i - 1].token >= parts[i].token {
            return false;
        }
    }
    true
}

// Whether no part is of the target, and each amount is in its range.
fn are_given(parts: &[Part], t: &TokenName) -> bool
    ensures { IsTrue result ↔ (All (λ (part : part_view.Part). part.token ≢ t.now) parts.now
        × All (λ (part : part_view.Part). (1 ≤ part.amount) × (part.amount < 2 ^ 52)) parts.now) }
{
    for part in parts {
        if part.token == *t || part.amount == 0 || part.amount > AMOUNT_LIMIT {
            return false;
        }
    }
    true
}

// Whether the names of the pools strictly ascend.
fn are_ascending(pools: &[ProblemPool]) -> bool
    ensures { IsTrue result ↔ AllPairs (λ (a b : pool_view.ProblemPool). IsBefore a.name b.name) pools.now }
{
    for i in 1..pools.len() {
        if pools[i - 1].name >= pools[i].name {
            return false;
        }
    }
    true
}

// Whether the reserves and balances of each pool are in their ranges.
fn are_filled(pools: &[ProblemPool]) -> bool
    ensures { IsTrue result ↔ (All HasReserves pools.now × All HasBalances pools.now) }
{
    for pool in pools {
        if !is_filled(pool.r0, pool.b0) || !is_filled(pool.r1, pool.b1) {
            return false;
        }
    }
    true
}

fn is_filled(reserve: u64, balance: u64) -> bool
    ensures { IsTrue result ↔ ((1 ≤ reserve) × (reserve < 2 ^ 48) × (reserve ≤ balance) × (balance < 2 ^ 52)) }
{
    0 < reserve && reserve <= RESERVE_LIMIT && reserve <= balance && balance <= AMOUNT_LIMIT
}

/// Does nothing: the names of a problem are spelled as their types say.
pub fn spelled(parts: &[Part], t: &TokenName, pools: &[ProblemPool])
    ensures { AreSpelled parts.now t.now pools.now }
{
    let _target = t.as_bytes();
    for part in parts {
        let _source = part.token.as_bytes();
    }
    for pool in pools {
        let _name = pool.name.as_bytes();
    }
}

/// The target, and the tokens of the parts and of the pools, each once, in the order of their
/// names.
pub fn tokens_of(
    alloc: Global,
    parts: &[Part],
    t: TokenName,
    pools: &[ProblemPool],
) -> Result<Vec<TokenName>, Memory>
    ensures ascending { IfOk result (λ tokens. AllPairs IsBefore tokens.items) }
    ensures tokens { IfOk result (λ tokens. (token : List ℕ) → Contains tokens.items token ↔ Contains (tokens_named_by parts.now t pools.now) token) }
{
    let mut tokens = tokens_named(alloc, parts, t, pools)?;
    tokens.sort_unstable();
    tokens.dedup();
    Ok(tokens)
}

// The target, the tokens of the parts, and those of the pools, pool by pool.
fn tokens_named(
    alloc: Global,
    parts: &[Part],
    t: TokenName,
    pools: &[ProblemPool],
) -> Result<Vec<TokenName>, Memory>
    ensures { IfOk result (λ tokens. tokens.items ≡ tokens_named_by parts.now t pools.now) }
{
    let mut tokens = Vec::new(alloc);
    tokens.push(t)?;
    for part in parts {
        tokens.push(part.token)?;
    }
    for pool in pools {
        tokens.push(*pool.name.token0())?;
        tokens.push(*pool.name.token1())?;
    }
    Ok(tokens)
}

/// The places of the parts' tokens, part by part.
pub fn part_places_of(
    alloc: Global,
    tokens: &[TokenName],
    parts: &[Part],
) -> Result<Vec<usize>, Memory>
    ensures { IfOk result (λ places. places.items ≡ map (part_place tokens.now) parts.now) }
{
    let mut places = Vec::new(alloc);
    for part in parts {
        places.push(place_of(tokens, &part.token))?;
    }
    Ok(places)
}

/// The places of the pools' tokens, pool by pool.
pub fn places_of(
    alloc: Global,
    tokens: &[TokenName],
    pools: &[ProblemPool],
) -> Result<Vec<TokenPlaces>, Memory>
    ensures { IfOk result (λ places. places.items ≡ map (places_of_pool tokens.now) pools.now) }
{
    let mut places = Vec::new(alloc);
    for pool in pools {
        let zero = place_of(tokens, pool.name.token0());
        let one = place_of(tokens, pool.name.token1());
        places.push(TokenPlaces { zero, one })?;
    }
    Ok(places)
}

/// Where a token stands among the tokens; their number, where it is none of them.
pub fn place_of(tokens: &[TokenName], token: &TokenName) -> usize
    ensures { result ≡ token_place tokens.now token.now }
{
    for i in 0..tokens.len() {
        if *token == tokens[i] {
            return i;
        }
    }
    tokens.len()
}
