//! What a pool is to a plan, and a list of pools.
ghost use Rattle.std.specs.Prelude.{◌<◌, ◌≤◌, length};

use crate::{POOLS, PoolPlace, TokenPlace};

/// A pool of two tokens: its reserves, and its weight: 1000 less its fee in thousandths.
#[derive(Clone, Copy)]
pub struct PlanPool {
    pub zero: TokenPlace,
    pub one: TokenPlace,
    pub weight: u64,
    pub r0: u64,
    pub r1: u64,
    /// How much more of each token its balances have room for.
    pub room0: u64,
    pub room1: u64,
    /// Whether both balances let it stand in a route.
    pub is_admissible: bool,
}

/// One way through a pool.
#[derive(Clone, Copy)]
pub struct OneWay {
    pub from: TokenPlace,
    pub to: TokenPlace,
    pub weight: u64,
    pub rin: u64,
    pub rout: u64,
    pub room: u64,
}

impl PlanPool {
    // A pool that holds nothing.
    fn empty() -> PlanPool {
        PlanPool {
            zero: TokenPlace::new(0),
            one: TokenPlace::new(0),
            weight: 1,
            r0: 0,
            r1: 0,
            room0: 0,
            room1: 0,
            is_admissible: false,
        }
    }

    /// The way in which token 0 goes in, or token 1.
    pub fn way(&self, zero_in: bool) -> OneWay {
        if zero_in {
            OneWay {
                from: self.zero,
                to: self.one,
                weight: self.weight,
                rin: self.r0,
                rout: self.r1,
                room: self.room0,
            }
        } else {
            OneWay {
                from: self.one,
                to: self.zero,
                weight: self.weight,
                rin: self.r1,
                rout: self.r0,
                room: self.room1,
            }
        }
    }
}

impl OneWay {
    /// What is paid out for an input, as the rule of a swap has it. Products of 64 by 64 bits fit
    /// 128, the third factor may wrap only at reserves that no pool has.
    pub fn amount_out(&self, x: u64) -> u64 {
        let gx = self.weight as u128 * x as u128;
        let over = gx.wrapping_add(1000 * self.rin as u128).max(1);
        (gx.wrapping_mul(self.rout as u128) / over).min(self.rout as u128) as u64
    }

    /// The least input that is paid this output.
    pub fn least_in(&self, y: u64) -> u64 {
        let under = self.weight as u128 * self.rout.saturating_sub(y) as u128;
        let over = (1000 * self.rin as u128).wrapping_mul(y as u128);
        (over / under.max(1)).min(u64::MAX as u128 - 1) as u64 + 1
    }
}

/// At most 256 pools in their order.
#[derive(Clone, Copy)]
pub struct Pools {
    list: [PlanPool; POOLS],
    count: usize,
    ghost few: { count ≤ 256 },
}

impl Pools {
    /// No pools.
    pub fn none() -> Pools {
        Pools {
            list: [PlanPool::empty(); POOLS],
            count: 0,
        }
    }

    /// Adds a pool, if there is room for one.
    pub fn add(&mut self, pool: PlanPool) {
        if self.count < POOLS {
            self.list[self.count] = pool;
            self.count += 1;
        }
    }

    /// How many there are.
    pub fn len(&self) -> usize
        ensures { result ≤ 256 }
    {
        self.count
    }

    /// The pools in their order.
    pub fn as_slice(&self) -> &[PlanPool]
        ensures { length result.now ≤ 256 }
    {
        &self.list[..self.count]
    }

    /// The pool at a place.
    pub fn at(&self, place: PoolPlace) -> PlanPool {
        self.list[place.at()]
    }
}
