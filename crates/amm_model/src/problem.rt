//! The routing problem: how much of which tokens to bring to another, and over which pools.
ghost use Rattle.std.specs.Prelude.{◌≡◌, ◌<◌, ◌≤◌, ℕ, List, All, IfOk, MatchOption, length, map};
ghost use Rattle.amm_model.specs.declared.problem.Part as part_view;
ghost use Rattle.amm_model.specs.declared.problem.ProblemPool as pool_view;
ghost use Rattle.amm_model.specs.declared.problem.TokenPlaces as places_view;
ghost use Rattle.amm_model.specs.Routing.{AreOpenParts, AreParts, IsOpenProblem, IsOpenProblemOf, IsProblem, IsProblemOf, OpenView, ProblemView, open_view, part_place, places_of, token_place};

use crate::parts::{are_parts, part_places_of, place_of, places_of, spelled, tokens_of};
use crate::{PartList, ProblemPoolList};
use amm_names::{Memory, PoolName, TokenName};
use std::alloc::Global;
use std::marker::Model;

/// So much of a token.
#[derive(Clone, Copy, Drop)]
pub struct Part {
    pub token: TokenName,
    pub amount: u64,
}

/// A pool of a route problem: its name, which has its tokens and its fee, its reserves and its
/// balances.
#[derive(Clone, Copy, Drop)]
pub struct ProblemPool {
    pub name: PoolName,
    pub r0: u64,
    pub r1: u64,
    pub b0: u64,
    pub b1: u64,
}

/// Where a pool's two tokens stand among the tokens of a problem.
#[derive(Clone, Copy, Debug, PartialEq, Eq, Drop)]
pub struct TokenPlaces {
    pub zero: usize,
    pub one: usize,
}

/// What to bring to a token, part by part, and over which pools. It keeps the places of its
/// tokens, so that a price is found without a search of names.
#[derive(Drop)]
pub struct OpenProblem {
    parts: PartList,
    t: TokenName,
    tokens: Vec<TokenName>,
    pools: ProblemPoolList,
    part_places: Vec<usize>,
    t_place: usize,
    places: Vec<TokenPlaces>,
}

impl Model for OpenProblem {
    ghost use Rattle.amm_model.specs.Routing.{OpenView, open_code, IsOpenProblem, part_place, places_of, token_place};
    ghost use Rattle.std.specs.Prelude.{◌≡◌, map};

    ghost Value = { OpenView };

    ghost coded = { open_code };

    ghost view = { λ p. record { parts = p.parts; t = p.t; tokens = p.tokens.items; pools = p.pools } };

    ghost invariant = { λ p.
        IsOpenProblem (record { parts = p.parts; t = p.t; tokens = p.tokens.items; pools = p.pools })
        × (p.part_places.items ≡ map (part_place p.tokens.items) p.parts)
        × (p.t_place ≡ token_place p.tokens.items p.t)
        × (p.places.items ≡ map (places_of p.tokens.items) p.pools) };
}

/// The parts of a problem determine it: its tokens are no choice.
pub fn parts_determine_open_problem()
    ensures { (parts : List part_view.Part) (t : List ℕ) (pools : List pool_view.ProblemPool) (p q : OpenView) →
        IsOpenProblemOf parts t pools p → IsOpenProblemOf parts t pools q → p ≡ q }
{}

impl OpenProblem {
    /// The problem of bringing the parts to `t` over the pools. None where there are more than
    /// eight parts, their tokens do not strictly ascend, one of them is `t`, an amount is not 1 to
    /// 2^52-1, there are more than 256 pools, their names do not strictly ascend, a reserve is not
    /// 1 to 2^48-1, or a balance is below its reserve or above 2^52-1.
    pub fn from_parts(
        alloc: Global,
        parts: Vec<Part>,
        t: TokenName,
        pools: Vec<ProblemPool>,
    ) -> Result<Option<OpenProblem>, Memory>
        ensures { IfOk result (λ made. MatchOption made (¬ AreOpenParts parts.items t pools.items) (λ problem. IsOpenProblemOf parts.items t pools.items problem)) }
    {
        if !are_parts(&parts, &t, &pools) {
            return Ok(None);
        }
        spelled(&parts, &t, &pools);
        let tokens = tokens_of(alloc, &parts, t, &pools)?;
        let part_places = part_places_of(alloc, &tokens, &parts)?;
        let places = places_of(alloc, &tokens, &pools)?;
        let t_place = place_of(&tokens, &t);
        Ok(Some(OpenProblem {
            parts: PartList::from_vec(parts),
            t,
            tokens,
            pools: ProblemPoolList::from_vec(pools),
            part_places,
            t_place,
            places,
        }))
    }

    /// The parts, in the order of their tokens.
    pub fn parts(&self) -> &[Part]
        ensures list { result.now ≡ self.now.parts }
        ensures sound { IsOpenProblem self.now }
    {
        self.parts.as_slice()
    }

    /// The token to deliver.
    pub fn t(&self) -> &TokenName
        ensures token { result.now ≡ self.now.t }
        ensures sound { IsOpenProblem self.now }
    {
        &self.t
    }

    /// The pools, in the order of their names.
    pub fn pools(&self) -> &[ProblemPool]
        ensures list { result.now ≡ self.now.pools }
        ensures sound { IsOpenProblem self.now }
    {
        self.pools.as_slice()
    }

    /// The target's token and those of the parts and of the pools, in the order of their names.
    pub fn tokens(&self) -> &[TokenName]
        ensures list { result.now ≡ self.now.tokens }
        ensures sound { IsOpenProblem self.now }
    {
        &self.tokens
    }

    /// The places of the parts' tokens among the tokens, part by part.
    pub fn part_places(&self) -> &[usize]
        ensures list { result.now ≡ map (part_place self.now.tokens) self.now.parts }
        ensures there { All (λ (place : ℕ). place < length self.now.tokens) result.now }
        ensures sound { IsOpenProblem self.now }
    {
        &self.part_places
    }

    /// The place of the target among the tokens.
    pub fn target(&self) -> usize
        ensures place { result ≡ token_place self.now.tokens self.now.t }
        ensures there { result < length self.now.tokens }
        ensures few { length self.now.tokens ≤ 521 }
        ensures sound { IsOpenProblem self.now }
    {
        self.t_place
    }

    /// The places of the pools' tokens among the tokens, pool by pool.
    pub fn places(&self) -> &[TokenPlaces]
        ensures list { result.now ≡ map (places_of self.now.tokens) self.now.pools }
        ensures there { All (λ (at : places_view.TokenPlaces). (at.zero < length self.now.tokens) × (at.one < length self.now.tokens)) result.now }
        ensures few { length self.now.tokens ≤ 521 }
        ensures sound { IsOpenProblem self.now }
    {
        &self.places
    }

    /// An equal problem.
    pub fn copy(&self, alloc: Global) -> Result<OpenProblem, Memory>
        ensures { IfOk result (λ problem. problem ≡ self.now) }
    {
        Ok(OpenProblem {
            parts: self.parts.copy(alloc)?,
            t: self.t,
            tokens: Vec::from_slice(alloc, &self.tokens)?,
            pools: self.pools.copy(alloc)?,
            part_places: Vec::from_slice(alloc, &self.part_places)?,
            t_place: self.t_place,
            places: Vec::from_slice(alloc, &self.places)?,
        })
    }
}

/// What to bring from one token to another, and over which pools: a problem with a single part.
#[derive(Drop)]
pub struct Problem {
    s: TokenName,
    d: u64,
    general: OpenProblem,
}

impl Model for Problem {
    ghost use Rattle.amm_model.specs.Routing.{ProblemView, problem_code, one_part};
    ghost use Rattle.std.specs.Prelude.{◌≡◌};

    ghost Value = { ProblemView };

    ghost coded = { problem_code };

    ghost view = { λ p. record { s = p.s; t = p.general.t; d = p.d; tokens = p.general.tokens; pools = p.general.pools } };

    ghost invariant = { λ p. p.general.parts ≡ one_part p.s p.d };
}

/// The parts of a problem determine it: its tokens are no choice.
pub fn parts_determine_problem()
    ensures { (s t : List ℕ) (d : ℕ) (pools : List pool_view.ProblemPool) (p q : ProblemView) →
        IsProblemOf s t d pools p → IsProblemOf s t d pools q → p ≡ q }
{}

impl Problem {
    /// The problem of bringing `d` of `s` to `t` over the pools. None where `s` is `t`, `d` is not
    /// 1 to 2^52-1, there are more than 256 pools, their names do not strictly ascend, a reserve is
    /// not 1 to 2^48-1, or a balance is below its reserve or above 2^52-1.
    pub fn from_parts(
        alloc: Global,
        s: TokenName,
        t: TokenName,
        d: u64,
        pools: Vec<ProblemPool>,
    ) -> Result<Option<Problem>, Memory>
        ensures { IfOk result (λ made. MatchOption made (¬ AreParts s t d pools.items) (λ problem. IsProblemOf s t d pools.items problem)) }
    {
        let mut parts = Vec::new(alloc);
        parts.push(Part {
            token: s,
            amount: d,
        })?;
        match OpenProblem::from_parts(alloc, parts, t, pools)? {
            Some(made) => Ok(Some(Problem {
                s,
                d,
                general: made,
            })),
            None => Ok(None),
        }
    }

    /// The same problem, with what it starts from as its one part.
    pub fn as_open(&self) -> &OpenProblem
        ensures { result.now ≡ open_view self.now }
    {
        &self.general
    }

    /// The token to start from.
    pub fn s(&self) -> &TokenName
        ensures token { result.now ≡ self.now.s }
        ensures sound { IsProblem self.now }
    {
        let _sound = self.general.t();
        &self.s
    }

    /// The token to deliver.
    pub fn t(&self) -> &TokenName
        ensures token { result.now ≡ self.now.t }
        ensures sound { IsProblem self.now }
    {
        self.general.t()
    }

    /// How much of the first token there is.
    pub fn d(&self) -> u64
        ensures value { result ≡ self.now.d }
        ensures sound { IsProblem self.now }
    {
        let _sound = self.general.t();
        self.d
    }

    /// The pools, in the order of their names.
    pub fn pools(&self) -> &[ProblemPool]
        ensures list { result.now ≡ self.now.pools }
        ensures sound { IsProblem self.now }
    {
        self.general.pools()
    }

    /// The two tokens and those of the pools, in the order of their names.
    pub fn tokens(&self) -> &[TokenName]
        ensures list { result.now ≡ self.now.tokens }
        ensures sound { IsProblem self.now }
    {
        self.general.tokens()
    }

    /// An equal problem.
    pub fn copy(&self, alloc: Global) -> Result<Problem, Memory>
        ensures { IfOk result (λ problem. problem ≡ self.now) }
    {
        Ok(Problem {
            s: self.s,
            d: self.d,
            general: self.general.copy(alloc)?,
        })
    }
}
