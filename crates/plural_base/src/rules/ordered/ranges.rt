//! The ranges of a relation in order, among which a value is found by halves.

ghost use Rattle.std.specs.Prelude.{◌≡◌, ◌-◌, ◌<◌, ◌≤◌, ℕ, IfOk, MatchBool, length, slice_index_or};
ghost use Rattle.std.specs.List.Sorted.{IsNonDecreasingBy};
ghost use Rattle.plural_reference.specs.Truth.{is_in_ranges};
ghost use Rattle.plural_base.specs.Inner.OrderedRules.{AreOrdered, HoldSame};

use std::alloc::{AllocError, Global};
use std::marker::Model;

// Ranges of which neither the first nor the second ends go down. Contracts see the list.
#[derive(Debug, Drop)]
pub(crate) struct OrderedRanges {
    ranges: Vec<(u32, u32)>,
}

impl Model for OrderedRanges {
    ghost use Rattle.std.specs.Prelude.{List, ℕ};
    ghost use Rattle.plural_base.specs.Inner.OrderedRules.{AreOrdered};

    ghost Value = { List (ℕ × ℕ) };

    ghost view = { λ ordered. ordered.ranges.items };

    ghost invariant = { λ ordered. AreOrdered ordered.ranges.items };
}

impl OrderedRanges {
    // Ranges that hold the same values.
    pub(crate) fn of(
        alloc: Global,
        mut ranges: Vec<(u32, u32)>,
    ) -> Result<OrderedRanges, AllocError>
        ensures { IfOk result (λ ordered. HoldSame ordered ranges.items) }
    {
        ranges.sort_unstable_by_key(|range| range.0);
        without_covered(alloc, ranges.as_slice())
    }

    // Whether a range holds the value.
    pub(crate) fn hold(&self, value: u64) -> bool
        ensures { result ≡ is_in_ranges self.now value }
    {
        let ranges = self.ranges.as_slice();
        let count = ranges.partition_point(|range| u64::from(range.0) <= value);
        if count == 0 {
            return false;
        }
        value <= u64::from(ranges[count - 1].1)
    }
}

// The ranges, which begin in order, without those that an earlier one covers.
fn without_covered(alloc: Global, ranges: &[(u32, u32)]) -> Result<OrderedRanges, AllocError>
    requires { IsNonDecreasingBy (λ (range : ℕ × ℕ). range.0) ranges.now }
    ensures { IfOk result (λ ordered. HoldSame ordered ranges.now) }
{
    let mut kept = Vec::new(alloc);
    for range in ranges {
        if is_covered(kept.as_slice(), range.1) {
            continue;
        }
        kept.push(*range)?;
    }
    Ok(OrderedRanges { ranges: kept })
}

// Whether the last range ends at an end or after it.
fn is_covered(ranges: &[(u32, u32)], end: u32) -> bool
    ensures { MatchBool result
        ((0 < length ranges.now) × ((d : ℕ × ℕ) → end ≤ (slice_index_or ranges.now (length ranges.now - 1) d).1))
        ((d : ℕ × ℕ) → 0 < length ranges.now → (slice_index_or ranges.now (length ranges.now - 1) d).1 < end) }
{
    match ranges {
        [.., last] => end <= last.1,
        [] => false,
    }
}
