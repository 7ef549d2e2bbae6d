//! Legs in their order, at most one of each pool.
ghost use Rattle.std.specs.Prelude.{◌<◌, ◌≤◌};

use crate::{POOLS, PoolPlace};

/// One leg: at most one of each pool.
#[derive(Clone, Copy)]
pub struct PlannedLeg {
    pub pool: PoolPlace,
    pub zero_in: bool,
    pub input: u64,
    pub output: u64,
}

/// At most 256 legs in their order.
#[derive(Clone, Copy)]
pub struct PlannedLegs {
    list: [PlannedLeg; POOLS],
    count: usize,
    ghost fits: { count ≤ 256 },
}

impl PlannedLegs {
    /// No legs.
    pub fn none() -> PlannedLegs {
        let leg = PlannedLeg {
            pool: PoolPlace::new(0),
            zero_in: false,
            input: 0,
            output: 0,
        };
        PlannedLegs {
            list: [leg; POOLS],
            count: 0,
        }
    }

    /// Adds a leg, if there is room for one.
    pub fn add(&mut self, leg: PlannedLeg) {
        if self.count < POOLS {
            self.list[self.count] = leg;
            self.count += 1;
        }
    }

    /// How many there are.
    pub fn len(&self) -> usize {
        self.count
    }

    /// The legs in their order.
    pub fn as_slice(&self) -> &[PlannedLeg] {
        &self.list[..self.count]
    }
}
