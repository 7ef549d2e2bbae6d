//! The name of a pool: its two tokens and its fee.
ghost use Rattle.std.specs.Prelude.{◌≡◌, ◌≢◌, ◌≤◌, ℕ, [], ◌∷◌, ◌++◌, length, IfNone, IfOk, IfSome, IsTrue, IsUtf8, Some, None, if◌then◌else◌, ◌==◌};
ghost use Rattle.std.specs.List.{position, before_first, after_first};
ghost use Rattle.amm_names.specs.Names.{is_token_name};
ghost use Rattle.amm_names.specs.Pools.{pool_spelling, is_before, is_fee, fee_spelling, pool_between, is_pool_name, pool_token0, pool_token1, pool_fee};

use super::TokenName;
use super::text::Text;
use crate::Memory;
use std::alloc::Global;
use std::cmp::Ordering;
use std::hash::{Hash, Hasher};
use std::marker::Model;

/// The name of a pool of two tokens, the lower one first, at a fee of 1, 3 or 10 thousandths.
#[derive(Clone, Copy, Drop)]
pub struct PoolName {
    token0: TokenName,
    token1: TokenName,
    fee: u8,
    text: Text<28>,
}

impl Model for PoolName {
    ghost use Rattle.std.specs.Prelude.{◌≡◌, List, ℕ, IsTrue};
    ghost use Rattle.amm_names.specs.Pools.{is_pool_name, pool_token0, pool_token1, pool_fee};

    ghost Value = { List ℕ };

    ghost view = { λ name. name.text };

    ghost invariant = { λ name. IsTrue (is_pool_name name.text) × ((pool_token0 name.text ≡ name.token0) × ((pool_token1 name.text ≡ name.token1) × (pool_fee name.text ≡ name.fee))) };

    ghost inverse = { λ bytes. record { token0 = pool_token0 bytes; token1 = pool_token1 bytes; fee = pool_fee bytes; text = bytes } };

    ghost inverse_ok = { λ name parts i. record { token0 = parts.1.0 i; token1 = parts.1.1.0 i; fee = parts.1.1.1 i; text = name.text } };
}

/// Where the first such byte stands.
fn place(bytes: &[u8], stop: u8) -> Option<usize>
    ensures { result ≡ position (λ b. b == stop) bytes.now }
{
    bytes.iter().position(|b| *b == stop)
}

/// What stands before the first such byte and what stands behind it, if there is one.
fn split_once(bytes: &[u8], stop: u8) -> Option<(&[u8], &[u8])>
    ensures none { IfNone result (before_first (λ b. b == stop) bytes.now ≡ bytes.now × after_first (λ b. b == stop) bytes.now ≡ []) }
    ensures before { IfSome result (λ parts. parts.0.now ≡ before_first (λ b. b == stop) bytes.now) }
    ensures after { IfSome result (λ parts. parts.1.now ≡ after_first (λ b. b == stop) bytes.now) }
    ensures whole { IfSome result (λ parts. bytes.now ≡ parts.0.now ++ stop ∷ parts.1.now) }
{
    let at = place(bytes, stop)?;
    Some((&bytes[..at], &bytes[at + 1..]))
}

/// The fee that these digits behind a colon spell, if they do.
fn fee_of_digits(digits: &[u8]) -> Option<u8>
    ensures none { IfNone result ((fee : ℕ) → IsTrue (is_fee fee) → 58 ∷ digits.now ≢ fee_spelling fee) }
    ensures fee { IfSome result (λ fee. IsTrue (is_fee fee)) }
    ensures spelled { IfSome result (λ fee. 58 ∷ digits.now ≡ fee_spelling fee) }
{
    match digits {
        b"1" => Some(1),
        b"10" => Some(10),
        _ => None,
    }
}

/// The second token's bytes and the fee, if what stands behind those bytes spells one.
fn split_fee(tail: &[u8]) -> Option<(&[u8], u8)>
    ensures none { IfNone result ((fee : ℕ) → IsTrue (is_fee fee) → tail.now ≢ before_first (λ b. b == 58) tail.now ++ fee_spelling fee) }
    ensures second { IfSome result (λ parts. parts.0.now ≡ before_first (λ b. b == 58) tail.now) }
    ensures fee { IfSome result (λ parts. IsTrue (is_fee parts.1)) }
    ensures spelled { IfSome result (λ parts. tail.now ≡ parts.0.now ++ fee_spelling parts.1) }
{
    match split_once(tail, b':') {
        Some((second, digits)) => Some((second, fee_of_digits(digits)?)),
        None => Some((tail, 3)),
    }
}

/// A text of two tokens, and the fee behind it.
fn with_fee(tokens: Text<28>, fee: u8) -> Text<28>
    requires fee { IsTrue (is_fee fee) }
    requires room { length tokens ≤ 25 }
    ensures { result ≡ tokens ++ fee_spelling fee }
{
    match fee {
        1 => tokens.with(b":1"),
        10 => tokens.with(b":10"),
        _ => tokens,
    }
}

/// The name of the pool of these tokens, the first being the lower one.
fn spell(token0: TokenName, token1: TokenName, fee: u8) -> PoolName
    requires ascending { IsTrue (is_before token0 token1) }
    requires fee { IsTrue (is_fee fee) }
    ensures { result ≡ pool_spelling token0 token1 fee }
{
    let tokens = Text::empty()
        .joined(token0.text)
        .with(b"/")
        .joined(token1.text);
    PoolName {
        token0,
        token1,
        fee,
        text: with_fee(tokens, fee),
    }
}

impl PoolName {
    /// The name that the bytes spell, if they do.
    #[tactic(auto, unfolding(crate::specs::Pools::is_pool_name, crate::specs::Pools::pool_token0, crate::specs::Pools::pool_token1))]
    fn parse(bytes: &[u8]) -> Option<PoolName>
        ensures { result ≡ (if is_pool_name bytes.now then Some bytes.now else None) }
    {
        let (first, tail) = split_once(bytes, b'/')?;
        let (second, fee) = split_fee(tail)?;
        let token0 = TokenName::of(first)?;
        let token1 = TokenName::of(second)?;
        if token0 >= token1 {
            return None;
        }
        Some(spell(token0, token1, fee))
    }

    /// Reads a name, if the bytes spell one.
    pub fn read(alloc: Global, bytes: &[u8]) -> Result<Option<PoolName>, Memory>
        ensures { IfOk result (λ name. name ≡ (if is_pool_name bytes.now then Some bytes.now else None)) }
    {
        Ok(PoolName::parse(bytes))
    }

    /// The name of the pool of two tokens. One token has none with itself.
    #[tactic(auto, unfolding(crate::specs::Pools::pool_between))]
    pub fn of(
        alloc: Global,
        a: &TokenName,
        b: &TokenName,
        fee: u8,
    ) -> Result<Option<PoolName>, Memory>
        requires { IsTrue (is_fee fee) }
        ensures { IfOk result (λ name. name ≡ pool_between a.now b.now fee) }
    {
        Ok(match a.cmp(b) {
            Ordering::Less => Some(spell(*a, *b, fee)),
            Ordering::Equal => None,
            Ordering::Greater => Some(spell(*b, *a, fee)),
        })
    }

    pub fn token0(&self) -> &TokenName
        ensures value { result.now ≡ pool_token0 self.now }
        ensures token { IsTrue (is_token_name result.now) }
    {
        &self.token0
    }

    pub fn token1(&self) -> &TokenName
        ensures value { result.now ≡ pool_token1 self.now }
        ensures token { IsTrue (is_token_name result.now) }
    {
        &self.token1
    }

    pub fn fee(&self) -> u8
        ensures value { result ≡ pool_fee self.now }
        ensures fee { IsTrue (is_fee result) }
    {
        self.fee
    }

    pub fn as_bytes(&self) -> &[u8]
        ensures value { result.now ≡ self.now }
        ensures pool { IsTrue (is_pool_name self.now) }
        ensures utf8 { IsUtf8 result.now }
    {
        self.text.as_bytes()
    }

    pub fn copy(&self, alloc: Global) -> Result<PoolName, Memory>
        ensures { IfOk result (λ name. name ≡ self.now) }
    {
        Ok(*self)
    }
}

impl PartialEq for PoolName {
    ghost use Rattle.std.specs.Prelude.{nat_eq};
    ghost use Rattle.std.specs.Cmp.{partial_equiv_from_equiv};
    ghost use Rattle.std.specs.Cmp.Lexicographic.{pointwise, nat_list_eq_equiv};

    ghost eq = { pointwise nat_eq };

    ghost laws = { partial_equiv_from_equiv nat_list_eq_equiv };

    fn eq(&self, other: &PoolName) -> bool {
        self.text == other.text
    }
}

impl Eq for PoolName {
    ghost use Rattle.std.specs.Cmp.Lexicographic.{nat_list_eq_equiv};

    ghost laws = { nat_list_eq_equiv };
}

impl Hash for PoolName {
    ghost use Rattle.std.proofs.Common.{rules};
    ghost use Rattle.std.specs.Prelude.{[], ◌∷◌};
    ghost use Rattle.std.specs.Cmp.Rules.{hashing};

    ghost hash_input = { λ bytes. bytes ∷ [] };

    ghost respects_eq = { Prim.search (hashing, rules) };

    fn hash<H: Hasher>(&self, state: &mut H) {
        self.text.hash(state);
    }
}

impl Ord for PoolName {
    ghost use Rattle.std.proofs.Common.{rules};
    ghost use Rattle.std.specs.Cmp.Rules.{comparing};
    ghost use Rattle.std.specs.Cmp.Lexicographic.{slice_cmp, nat_list_cmp_total};
    ghost use Rattle.std.specs.Ordering.{nat_cmp};

    ghost cmp = { slice_cmp nat_cmp };

    ghost total = { nat_list_cmp_total };

    ghost matches_partial_cmp = { Prim.search (comparing, rules) };

    ghost matches_eq = { Prim.search (comparing, rules) };

    fn cmp(&self, other: &PoolName) -> Ordering {
        self.text.cmp(&other.text)
    }
}

impl PartialOrd for PoolName {
    ghost use Rattle.std.proofs.Common.{rules};
    ghost use Rattle.std.specs.Cmp.{partial_order_from_own_ties};
    ghost use Rattle.std.specs.Cmp.Rules.{comparing};
    ghost use Rattle.std.specs.Cmp.Lexicographic.{slice_cmp};
    ghost use Rattle.std.specs.Ordering.{nat_cmp, as_partial_cmp};

    ghost partial_cmp = { as_partial_cmp (slice_cmp nat_cmp) };

    ghost laws = { partial_order_from_own_ties (Prim.search (comparing, rules)) (Prim.search (comparing, rules)) };

    fn partial_cmp(&self, other: &PoolName) -> Option<Ordering> {
        Some(self.cmp(other))
    }
}
