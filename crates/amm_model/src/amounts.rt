//! The amounts along a path.
use std::marker::Model;

/// Amounts along a path, one for each of its tokens.
#[derive(Drop)]
pub struct AmountList {
    list: Vec<u64>,
}

impl Model for AmountList {
    ghost use Rattle.std.specs.Prelude.{List, ℕ};

    ghost Value = { List ℕ };

    ghost view = { λ a. a.list.items };
}

impl AmountList {
    ghost use Rattle.std.specs.Prelude.{◌≡◌};

    pub fn from_vec(list: Vec<u64>) -> AmountList
        ensures { result ≡ list.items }
    {
        AmountList { list }
    }

    pub fn as_slice(&self) -> &[u64]
        ensures { result.now ≡ self.now }
    {
        &self.list
    }
}
