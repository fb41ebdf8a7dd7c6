//! A digest of results.

use std::hash::{FoldHasher, Hasher};

// What was taken so far, as a number.
#[derive(Drop)]
pub(crate) struct Digest {
    hasher: FoldHasher,
}

impl Digest {
    pub(crate) fn new() -> Digest {
        Digest {
            hasher: FoldHasher::default(),
        }
    }

    // Takes bytes.
    pub(crate) fn take(&mut self, bytes: &[u8]) {
        self.hasher.write(bytes);
    }

    // Takes a number.
    pub(crate) fn take_number(&mut self, number: u64) {
        self.hasher.write_u64(number);
    }

    pub(crate) fn value(&self) -> u64 {
        self.hasher.finish()
    }
}
