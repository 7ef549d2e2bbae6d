//! Names of tokens, users and pools, each seen as the list of its bytes.
ghost use Rattle.std.specs.Prelude.{◌≡◌, IfOk, IsTrue, IsUtf8, Some, None, if◌then◌else◌, ◌||◌, ◌==◌};
ghost use Rattle.amm_names.specs.Names.{is_upper, is_lower, is_digit, is_token_name, is_user_name};
ghost use Rattle.std.specs.List.{list_all};

mod pool;
mod text;

use crate::Memory;
pub use pool::PoolName;
use std::alloc::Global;
use std::marker::Model;
use text::Text;

fn is_upper(c: u8) -> bool
    ensures { result ≡ is_upper c }
{
    b'A' <= c && c <= b'Z'
}

fn is_lower(c: u8) -> bool
    ensures { result ≡ is_lower c }
{
    b'a' <= c && c <= b'z'
}

fn is_digit(c: u8) -> bool
    ensures { result ≡ is_digit c }
{
    b'0' <= c && c <= b'9'
}

fn all_upper_or_digit(cs: &[u8]) -> bool
    ensures { result ≡ list_all (λ d. is_upper d || is_digit d) cs.now }
{
    cs.iter().all(|c| is_upper(*c) || is_digit(*c))
}

fn all_lower_or_digit(cs: &[u8]) -> bool
    ensures { result ≡ list_all (λ d. is_lower d || (is_digit d || d == 95)) cs.now }
{
    cs.iter()
        .all(|c| is_lower(*c) || (is_digit(*c) || *c == b'_'))
}

fn is_token_name(bytes: &[u8]) -> bool
    ensures { result ≡ is_token_name bytes.now }
{
    match bytes.split_first() {
        Some((first, rest)) => is_upper(*first) && (rest.len() <= 11 && all_upper_or_digit(rest)),
        None => false,
    }
}

fn is_user_name(bytes: &[u8]) -> bool
    ensures { result ≡ is_user_name bytes.now }
{
    match bytes.split_first() {
        Some((first, rest)) => is_lower(*first) && (rest.len() <= 31 && all_lower_or_digit(rest)),
        None => false,
    }
}

/// The name of a token.
#[derive(Clone, Copy, PartialEq, Eq, Hash, PartialOrd, Ord, Drop)]
pub struct TokenName {
    text: Text<12>,
}

impl Model for TokenName {
    ghost use Rattle.std.specs.Prelude.{List, ℕ, IsTrue};
    ghost use Rattle.amm_names.specs.Names.{is_token_name};

    ghost Value = { List ℕ };

    ghost view = { λ name. name.text };

    ghost invariant = { λ name. IsTrue (is_token_name name.text) };

    ghost inverse = { λ bytes. record { text = bytes } };
}

impl TokenName {
    /// The name that the bytes spell, if they do.
    fn of(bytes: &[u8]) -> Option<TokenName>
        ensures { result ≡ (if is_token_name bytes.now then Some bytes.now else None) }
    {
        if !is_token_name(bytes) {
            return None;
        }
        Some(TokenName {
            text: Text::new(bytes),
        })
    }

    /// Reads a name, if the bytes spell one.
    pub fn read(alloc: Global, bytes: &[u8]) -> Result<Option<TokenName>, Memory>
        ensures { IfOk result (λ name. name ≡ (if is_token_name bytes.now then Some bytes.now else None)) }
    {
        Ok(TokenName::of(bytes))
    }

    pub fn as_bytes(&self) -> &[u8]
        ensures value { result.now ≡ self.now }
        ensures token { IsTrue (is_token_name self.now) }
        ensures utf8 { IsUtf8 result.now }
    {
        self.text.as_bytes()
    }

    pub fn copy(&self, alloc: Global) -> Result<TokenName, Memory>
        ensures { IfOk result (λ name. name ≡ self.now) }
    {
        Ok(*self)
    }
}

/// The name of a user.
#[derive(Clone, Copy, PartialEq, Eq, Hash, PartialOrd, Ord, Drop)]
pub struct UserName {
    text: Text<32>,
}

impl Model for UserName {
    ghost use Rattle.std.specs.Prelude.{List, ℕ, IsTrue};
    ghost use Rattle.amm_names.specs.Names.{is_user_name};

    ghost Value = { List ℕ };

    ghost view = { λ name. name.text };

    ghost invariant = { λ name. IsTrue (is_user_name name.text) };

    ghost inverse = { λ bytes. record { text = bytes } };
}

impl UserName {
    /// Reads a name, if the bytes spell one.
    pub fn read(alloc: Global, bytes: &[u8]) -> Result<Option<UserName>, Memory>
        ensures { IfOk result (λ name. name ≡ (if is_user_name bytes.now then Some bytes.now else None)) }
    {
        if !is_user_name(bytes) {
            return Ok(None);
        }
        Ok(Some(UserName {
            text: Text::new(bytes),
        }))
    }

    pub fn as_bytes(&self) -> &[u8]
        ensures value { result.now ≡ self.now }
        ensures user { IsTrue (is_user_name self.now) }
        ensures utf8 { IsUtf8 result.now }
    {
        self.text.as_bytes()
    }

    pub fn copy(&self, alloc: Global) -> Result<UserName, Memory>
        ensures { IfOk result (λ name. name ≡ self.now) }
    {
        Ok(*self)
    }
}
