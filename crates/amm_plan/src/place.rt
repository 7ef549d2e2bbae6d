//! Places of tokens and of pools. Each keeps, wherever it goes, that it is within its range, so
//! that a table at a place needs no test.
ghost use Rattle.std.specs.Prelude.{◌<◌};

use crate::{POOLS, TOKENS};

/// The place of a token: below 64.
#[derive(Clone, Copy)]
pub struct TokenPlace {
    at: usize,
    ghost in_range: { at < 64 },
}

impl TokenPlace {
    /// The place of a number; of one that is too great, the last place.
    pub fn new(at: usize) -> TokenPlace {
        TokenPlace {
            at: at.min(TOKENS - 1),
        }
    }

    /// The number of a place.
    pub fn at(self) -> usize
        ensures { result < 64 }
    {
        self.at
    }

    /// The place as one bit of 64.
    pub fn bit(self) -> u64 {
        1 << self.at
    }
}

/// The place of a pool: below 256.
#[derive(Clone, Copy)]
pub struct PoolPlace {
    at: usize,
    ghost in_range: { at < 256 },
}

impl PoolPlace {
    /// The place of a number; of one that is too great, the last place.
    pub fn new(at: usize) -> PoolPlace {
        PoolPlace {
            at: at.min(POOLS - 1),
        }
    }

    /// The number of a place.
    pub fn at(self) -> usize
        ensures { result < 256 }
    {
        self.at
    }
}
