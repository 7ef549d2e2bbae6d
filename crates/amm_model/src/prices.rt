//! Prices of the tokens of a routing problem.
ghost use Rattle.std.specs.Prelude.{◌≡◌, ◌↔◌, IsTrue, IfOk, MatchOption};
ghost use Rattle.amm_model.specs.Routing.{ArePrices};

use crate::limits::PRICE_LIMIT;
use amm_names::Memory;
use std::alloc::Global;
use std::marker::Model;

/// A price for each token of a problem, in their order. Each is 1 to 2^40-1.
#[derive(Drop)]
pub struct Prices {
    list: Vec<u64>,
}

impl Model for Prices {
    ghost use Rattle.amm_model.specs.Routing.{ArePrices};
    ghost use Rattle.std.specs.Prelude.{ℕ, List};

    ghost Value = { List ℕ };

    ghost view = { λ prices. prices.list.items };

    ghost invariant = { λ prices. ArePrices prices.list.items };
}

impl Prices {
    /// The prices of a list. None where one is not 1 to 2^40-1.
    pub fn from_parts(list: Vec<u64>) -> Option<Prices>
        ensures { MatchOption result (¬ ArePrices list.items) (λ prices. (prices ≡ list.items) × ArePrices prices) }
    {
        if are_prices(&list) {
            Some(Prices { list })
        } else {
            None
        }
    }

    pub fn as_slice(&self) -> &[u64]
        ensures list { result.now ≡ self.now }
        ensures ranges { ArePrices self.now }
    {
        &self.list
    }

    /// Equal prices.
    pub fn copy(&self, alloc: Global) -> Result<Prices, Memory>
        ensures { IfOk result (λ prices. prices ≡ self.now) }
    {
        Ok(Prices {
            list: Vec::from_slice(alloc, &self.list)?,
        })
    }
}

/// The price of the token at a place goes up or down.
#[derive(Clone, Copy, Debug, PartialEq, Eq, Drop)]
pub struct Turn {
    pub place: usize,
    pub up: bool,
}

fn are_prices(list: &[u64]) -> bool
    ensures { IsTrue result ↔ ArePrices list.now }
{
    list.iter().all(|price| 0 < *price && *price <= PRICE_LIMIT)
}
