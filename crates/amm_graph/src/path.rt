//! Paths of at most three hops.
ghost use Rattle.std.specs.Prelude.{◌≡◌, ◌<◌, ◌+◌, ◌++◌, ◌∷◌, []};
ghost use Rattle.amm_graph.specs.Hops.{hops_of};

use amm_model::Hop;

/// One to three hops; those past `count` mean nothing.
#[derive(Clone, Copy, Drop)]
pub struct Path {
    pub count: u8,
    pub hop0: Hop,
    pub hop1: Hop,
    pub hop2: Hop,
}

// Stands where a path has no hop.
const NO_HOP: Hop = Hop {
    pool: 0,
    zero_in: false,
};

impl Path {
    /// No hop yet.
    pub fn empty() -> Path
        ensures hops { hops_of result ≡ [] }
        ensures count { result.count ≡ 0 }
    {
        Path {
            count: 0,
            hop0: NO_HOP,
            hop1: NO_HOP,
            hop2: NO_HOP,
        }
    }

    /// One hop more.
    pub fn with(&self, hop: Hop) -> Path
        requires { self.now.count < 3 }
        ensures hops { hops_of result ≡ hops_of self.now ++ hop ∷ [] }
        ensures count { result.count ≡ self.now.count + 1 }
    {
        if self.count == 0 {
            return self.of_one(hop);
        }
        if self.count == 1 {
            return self.of_two(hop);
        }
        Path {
            count: 3,
            hop0: self.hop0,
            hop1: self.hop1,
            hop2: hop,
        }
    }

    fn of_one(&self, hop: Hop) -> Path
        requires { self.now.count ≡ 0 }
        ensures hops { hops_of result ≡ hops_of self.now ++ hop ∷ [] }
        ensures count { result.count ≡ 1 }
    {
        Path {
            count: 1,
            hop0: hop,
            hop1: NO_HOP,
            hop2: NO_HOP,
        }
    }

    fn of_two(&self, hop: Hop) -> Path
        requires { self.now.count ≡ 1 }
        ensures hops { hops_of result ≡ hops_of self.now ++ hop ∷ [] }
        ensures count { result.count ≡ 2 }
    {
        Path {
            count: 2,
            hop0: self.hop0,
            hop1: hop,
            hop2: NO_HOP,
        }
    }
}
