//! The iterator over the ranges of a relation.

ghost use Rattle.std.specs.Prelude.{◌≡◌, map, IsTrue, length};
ghost use Rattle.std.specs.Iterator.{YieldsFirst, item_count};
ghost use Rattle.plural_runtime.specs.PackedRelations.{is_whole};
ghost use Rattle.plural_runtime.specs.Inner.RuleReading.{ranges_in};
ghost use Rattle.plural_runtime.specs.RuleKinds.{range_or_value};

use crate::item::RANGE_LENGTH;
use crate::range::{RangeOrValue, first_range};
use std::marker::Model;

// The remaining ranges of a relation.
#[derive(Drop)]
pub(crate) struct Ranges<'a> {
    bytes: &'a [u8],
}

impl<'a> Model for Ranges<'a> {
    ghost use Rattle.std.specs.Prelude.{List, IsTrue, length, map};
    ghost use Rattle.plural_runtime.specs.declared.range.RangeOrValue.{RangeOrValue};

    ghost Value = { List RangeOrValue };

    ghost use Rattle.plural_runtime.specs.PackedRelations.{is_whole};
    ghost use Rattle.plural_runtime.specs.Inner.RuleReading.{ranges_in};
    ghost use Rattle.plural_runtime.specs.RuleKinds.{range_or_value};

    ghost view = { λ ranges. map range_or_value (ranges_in ranges.bytes.now) };

    ghost invariant = { λ ranges. IsTrue (is_whole (length ranges.bytes.now)) };
}

impl<'a> Ranges<'a> {
    // The ranges that bytes hold.
    #[inline]
    pub(crate) fn of(bytes: &'a [u8]) -> Ranges<'a>
        requires { IsTrue (is_whole (length bytes.now)) }
        ensures { result ≡ map range_or_value (ranges_in bytes.now) }
    {
        Ranges { bytes }
    }
}

impl<'a> Iterator for Ranges<'a> {
    type Item = RangeOrValue;

    ghost next_gives = { YieldsFirst (λ ranges. ranges) };

    ghost remaining = { item_count (λ ranges. ranges) };

    #[inline]
    fn next(&mut self) -> Option<RangeOrValue> {
        if self.bytes.is_empty() {
            return None;
        }
        let (range, others) = self.bytes.split_at(RANGE_LENGTH);
        self.bytes = others;
        Some(first_range(range))
    }
}
