//! A path of trades: tokens, and the fee of the pool between each two of them.
use crate::TokenName;
use std::marker::Model;

/// The tokens of a path, in order.
#[derive(Drop)]
pub struct TokenList {
    list: Vec<TokenName>,
}

impl Model for TokenList {
    ghost use Rattle.std.specs.Prelude.{List, ℕ};

    ghost Value = { List (List ℕ) };

    ghost view = { λ a. a.list.items };
}

impl TokenList {
    ghost use Rattle.std.specs.Prelude.{◌≡◌};

    pub fn from_vec(list: Vec<TokenName>) -> TokenList
        ensures { result ≡ list.items }
    {
        TokenList { list }
    }

    pub fn as_slice(&self) -> &[TokenName]
        ensures { result.now ≡ self.now }
    {
        &self.list
    }
}

/// Fees of 1, 3 or 10 thousandths, in order.
#[derive(Drop)]
pub struct FeeList {
    list: Vec<u8>,
}

impl Model for FeeList {
    ghost use Rattle.std.specs.Prelude.{List, ℕ};

    ghost Value = { List ℕ };

    ghost view = { λ a. a.list.items };
}

impl FeeList {
    ghost use Rattle.std.specs.Prelude.{◌≡◌};

    pub fn from_vec(list: Vec<u8>) -> FeeList
        ensures { result ≡ list.items }
    {
        FeeList { list }
    }

    pub fn as_slice(&self) -> &[u8]
        ensures { result.now ≡ self.now }
    {
        &self.list
    }
}

/// Two to eight tokens, and one fee fewer: that of the pool between each token and the next.
#[derive(Drop)]
pub struct RoutePath {
    pub tokens: TokenList,
    pub fees: FeeList,
}
