//! Counts the ranges that are needed.

ghost use Rattle.std.specs.Prelude.{◌≡◌, ◌+◌, min, ℕ};

use std::marker::Model;

/// A count of steps, which stops at 18446744073709551615.
#[derive(Debug, Drop)]
pub struct Steps {
    count: u64,
}

impl Model for Steps {
    ghost Value = { ℕ };

    ghost view = { λ steps. steps.count };
}

impl Steps {
    /// Returns a count of no step.
    pub fn new() -> Steps
        ensures { result ≡ 0 }
    {
        Steps { count: 0 }
    }

    /// Returns how many steps were counted.
    pub fn count(&self) -> u64
        ensures { result ≡ self.now }
    {
        self.count
    }
}

/// No step yet.
impl Default for Steps {
    ghost is_default = { λ steps. steps ≡ 0 };

    fn default() -> Steps {
        Steps::new()
    }
}

// What counts each range that is read, or doesn't.
pub(crate) trait Counter {
    ghost after_one: { Self → Self };

    fn step(&mut self)
        ensures { self.new ≡ after_one self.old };
}

impl Counter for Steps {
    ghost after_one = { λ steps. min (steps + 1) 18446744073709551615 };

    #[inline]
    fn step(&mut self) {
        self.count = self.count.saturating_add(1);
    }
}

// Counts nothing.
#[derive(Drop)]
pub(crate) struct Uncounted;

impl Counter for Uncounted {
    ghost after_one = { λ uncounted. uncounted };

    #[inline]
    fn step(&mut self) {}
}
