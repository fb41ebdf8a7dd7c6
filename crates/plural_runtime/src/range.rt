//! The ranges of a packed relation.

ghost use Rattle.std.specs.Prelude.{◌≡◌, ◌≤◌, length};
ghost use Rattle.plural_runtime.specs.PackedRelations.{range_bytes, range_length};
ghost use Rattle.plural_runtime.specs.Inner.RuleReading.{range_in};
ghost use Rattle.plural_runtime.specs.RuleKinds.{ends, item_of, ItemGives, range_or_value};

use plural_reference::{ParseError, ast};

/// A range of values with both its ends, or one value. A range whose start is above its end holds
/// nothing.
///
/// <!-- snippet crates/tests_libraries/src/tests/plural_runtime_examples.rt:
/// example "let equal_ends" to "holds!(rt; RangeOrValue" of fn ranges_are_those_of_trees -->
/// ```
/// let equal_ends = RangeOrValue::Range(2, 2);
/// let item = ast::RangeListItem::from(equal_ends);
/// assert!(rt; item == ast::RangeListItem::Range(ast::Value(2), ast::Value(2)));
/// assert!(rt; RangeOrValue::try_from(&item) == Ok(equal_ends));
/// ```
#[derive(Clone, Copy, Debug, PartialEq, Eq)]
pub enum RangeOrValue {
    /// From the first value to the second one, both included.
    Range(u32, u32),
    /// This value alone.
    Value(u32),
}

impl From<RangeOrValue> for ast::RangeListItem {
    ghost from_gives = { λ range item. item ≡ item_of range };

    fn from(range: RangeOrValue) -> ast::RangeListItem {
        match range {
            RangeOrValue::Range(start, end) => {
                ast::RangeListItem::Range(ast::Value::from(start), ast::Value::from(end))
            }
            RangeOrValue::Value(value) => ast::RangeListItem::Value(ast::Value::from(value)),
        }
    }
}

/// `ParseError::ValueTooLarge` for an item with a value above 4294967295.
impl<'a> TryFrom<&'a ast::RangeListItem> for RangeOrValue {
    type Error = ParseError;

    ghost try_from_gives = { λ item result. ItemGives item.now result };

    fn try_from(item: &'a ast::RangeListItem) -> Result<RangeOrValue, ParseError> {
        match item {
            ast::RangeListItem::Range(start, end) => {
                Ok(RangeOrValue::Range(u32::try_from(start)?, u32::try_from(end)?))
            }
            ast::RangeListItem::Value(value) => Ok(RangeOrValue::Value(u32::try_from(value)?)),
        }
    }
}

impl RangeOrValue {
    /// Returns both ends as four bytes each, low byte first. Those of a value are equal.
    pub fn to_unaligned(self) -> [u8; 8]
        ensures { result ≡ range_bytes (ends self) }
    {
        let (start, end) = match self {
            RangeOrValue::Range(start, end) => (start, end),
            RangeOrValue::Value(value) => (value, value),
        };
        let [a, b, c, d] = start.to_le_bytes();
        let [e, f, g, h] = end.to_le_bytes();
        [a, b, c, d, e, f, g, h]
    }

    /// Returns the range of two ends of four bytes each, low byte first, or the value if they are
    /// equal.
    pub fn from_unaligned(bytes: [u8; 8]) -> RangeOrValue
        ensures bytes { range_bytes (ends result) ≡ bytes }
        ensures value { result ≡ range_or_value (ends result) }
    {
        spelled(&bytes);
        range_of(bytes)
    }
}

// Only for the proof: eight bytes encode the range that they hold.
fn spelled(bytes: &[u8])
    requires { length bytes.now ≡ range_length }
    ensures { range_bytes (range_in bytes.now) ≡ bytes.now }
{}

// The range in eight bytes.
#[inline]
pub(crate) fn range_of(bytes: [u8; 8]) -> RangeOrValue
    ensures { result ≡ range_or_value (range_in bytes) }
{
    let [a, b, c, d, e, f, g, h] = bytes;
    let start = u32::from_le_bytes([a, b, c, d]);
    let end = u32::from_le_bytes([e, f, g, h]);
    if start == end {
        RangeOrValue::Value(start)
    } else {
        RangeOrValue::Range(start, end)
    }
}

// The range in the first eight bytes.
#[inline]
pub(crate) fn first_range(bytes: &[u8]) -> RangeOrValue
    requires { range_length ≤ length bytes.now }
    ensures { result ≡ range_or_value (range_in bytes.now) }
{
    range_of([
        bytes[0], bytes[1], bytes[2], bytes[3], bytes[4], bytes[5], bytes[6], bytes[7],
    ])
}
