//! Ranges of two categories, by a byte and by a text.

ghost use Rattle.std.specs.Prelude.{◌≡◌, ◌↔◌, Some};
ghost use Rattle.plural_base.specs.declared.category.raw.RawPluralCategory.{RawPluralCategory as Category};
ghost use Rattle.plural_base.specs.declared.ranges.key.UnvalidatedPluralRange.{UnvalidatedPluralRange as Key};
ghost use Rattle.plural_base.specs.Categories.{raw_number};
ghost use Rattle.plural_base.specs.Ranges.{raw_category_named, range_byte, range_key, range_named, IsKeyOfText};

use crate::category::PluralCategory;
use crate::category::raw::RawPluralCategory;

/// A range of numbers by the categories of its start and its end, in one byte (UTS 35 Part 3,
/// Plural Ranges): 16 times the start's number, plus the end's number, as [`RawPluralCategory`]
/// counts them. A byte with another number in it names no range.
///
/// The order is that of the bytes.
///
/// <!-- snippet crates/example_calls/src/calls/ranges.rt: body of fn print_key -->
/// ```
/// let key = UnvalidatedPluralRange::from_range(RawPluralCategory::Two, RawPluralCategory::One);
/// println!(rt; "{}", key.0)?;
/// let named = UnvalidatedPluralRange::from_text("two--one");
/// println!(rt; "{}", named == Some(key))?;
/// ```
///
/// This prints
///
/// <!-- snippet crates/example_calls/stdout: section a key -->
/// ```text
/// 50
/// true
/// ```
#[derive(Clone, Copy, Debug, PartialEq, Eq, PartialOrd, Ord, Hash)]
pub struct UnvalidatedPluralRange(pub u8);

impl UnvalidatedPluralRange {
    /// Returns the byte of a start and an end.
    ///
    /// <!-- snippet crates/example_calls/src/calls/ranges.rt: "let key" to "println" of fn print_key -->
    /// ```
    /// let key = UnvalidatedPluralRange::from_range(RawPluralCategory::Two, RawPluralCategory::One);
    /// println!(rt; "{}", key.0)?;
    /// ```
    pub fn from_range(start: RawPluralCategory, end: RawPluralCategory) -> UnvalidatedPluralRange
        ensures { result ≡ range_key start end }
    {
        UnvalidatedPluralRange(16 * (start as u8) + end as u8)
    }

    /// Returns the byte of a range's text: the start's name, two hyphens, the end's name. `None`
    /// for any other text.
    pub fn from_text(text: &str) -> Option<UnvalidatedPluralRange>
        ensures { (key : Key) → (result ≡ Some key) ↔ IsKeyOfText text.now key }
    {
        let (start, end) = range_of_text(text)?;
        Some(UnvalidatedPluralRange::from_range(start, end))
    }

    // The start and the end that the byte names, if it names any.
    pub(crate) fn range(self) -> Option<(RawPluralCategory, RawPluralCategory)>
        ensures { (start : Category) (end : Category) → (result ≡ Some (start, end)) ↔ (self.0 ≡ range_byte start end) }
    {
        Some((numbered(self.0 / 16)?, numbered(self.0 % 16)?))
    }
}

// The start and the end that a text names, if it names any.
pub(crate) fn range_of_text(text: &str) -> Option<(RawPluralCategory, RawPluralCategory)>
    ensures { result ≡ range_named text.now }
{
    let (start, end) = text.split_once("--")?;
    Some((category_of_name(start)?, category_of_name(end)?))
}

// The category of a name, if it has one.
pub(crate) fn category_of_name(name: &str) -> Option<RawPluralCategory>
    ensures { result ≡ raw_category_named name.now }
{
    Some(RawPluralCategory::from(PluralCategory::get_for_cldr_string(name)?))
}

// The category of a number, if it has one.
fn numbered(number: u8) -> Option<RawPluralCategory>
    ensures { (category : Category) → (result ≡ Some category) ↔ (number ≡ raw_number category) }
{
    match number {
        0 => Some(RawPluralCategory::Other),
        1 => Some(RawPluralCategory::Zero),
        2 => Some(RawPluralCategory::One),
        3 => Some(RawPluralCategory::Two),
        4 => Some(RawPluralCategory::Few),
        5 => Some(RawPluralCategory::Many),
        _ => None,
    }
}
