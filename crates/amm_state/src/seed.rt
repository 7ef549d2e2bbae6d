//! The hash of the tables.
use std::hash::{BuildHasher, FoldHasher, Hasher};

/// What the tables' hashes begin with, so that names which collide under one seed are spread under
/// another. It decides only where rows lie in the tables, and no clause speaks of it.
#[derive(Clone, Copy)]
pub struct Seed {
    // A hasher that has taken in the seed.
    started: FoldHasher,
}

impl Seed {
    pub fn new(n: u64) -> Seed {
        let mut started = FoldHasher::default();
        started.write_u64(n);
        Seed { started }
    }
}

impl BuildHasher for Seed {
    type Hasher = FoldHasher;

    ghost build_hasher = { λ seed. seed.started };

    fn build_hasher(&self) -> FoldHasher {
        self.started
    }
}
