//! Both ends of a range of a relation.

ghost use Rattle.std.specs.Prelude.{◌≡◌, ◌<◌, length, slice_index_or};
ghost use Rattle.plural_runtime.specs.RuleKinds.{ends};
ghost use Rattle.plural_runtime.specs.Inner.RuleViews.{lent_relation};

use plural_runtime::{RangeOrValue, Relation};

// Both ends of the range at a place.
pub(crate) fn ends_at(relation: &Relation<'_>, place: usize) -> (u32, u32)
    requires { place < length (lent_relation relation.now).meaning.ranges }
    ensures { result ≡ slice_index_or (lent_relation relation.now).meaning.ranges place (0, 0) }
{
    match relation.range(place) {
        Some(range) => ends_of(range),
        None => unreachable!(),
    }
}

// Both ends of a range: those of a value are equal.
fn ends_of(range: RangeOrValue) -> (u32, u32)
    ensures { result ≡ ends range }
{
    match range {
        RangeOrValue::Range(start, end) => (start, end),
        RangeOrValue::Value(value) => (value, value),
    }
}
