//! The counts of a report.

ghost use Rattle.std.specs.Prelude.{◌≡◌, ◌+◌, IfOk};

use std::alloc::AllocError;

/// The most findings of a place that are told; the others are counted.
pub const MOST_TOLD: u64 = 10;

/// Returns the sum of two counts. One that is too large is reported as out of memory.
pub fn sum(first: u64, second: u64) -> Result<u64, AllocError>
    ensures { IfOk result (λ both. both ≡ first + second) }
{
    match first.checked_add(second) {
        Some(both) => Ok(both),
        None => Err(AllocError),
    }
}
