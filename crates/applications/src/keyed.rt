//! Hashing by a key.

use std::hash::{BuildHasher, FoldHasher, Hasher};

/// Makes hashers of a key: each begins with the key, and then takes what is hashed.
#[derive(Clone, Copy)]
pub struct Keyed {
    initial: FoldHasher,
}

impl Keyed {
    /// Returns what makes the hashers of a key.
    pub fn by(key: u64) -> Keyed {
        let mut initial = FoldHasher::default();
        initial.write_u64(key);
        Keyed { initial }
    }
}

impl BuildHasher for Keyed {
    type Hasher = FoldHasher;

    ghost build_hasher = { λ k. k.initial };

    fn build_hasher(&self) -> FoldHasher {
        self.initial
    }
}
