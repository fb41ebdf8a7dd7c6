//! The plural categories.

ghost use Rattle.std.specs.Prelude.{◌≡◌, ◌↔◌, length, Some, IfSome};
ghost use Rattle.std.specs.Iterator.{YieldsFirst, UpTo, at_most, item_count};
ghost use Rattle.std.specs.Iterator.SizeHint.{IsWithinCount};
ghost use Rattle.plural_base.specs.Categories.{name_of, all_categories};

pub(crate) mod by_category;
pub(crate) mod raw;

use std::fmt;
use std::marker::Model;

/// A plural category (UTS 35 Part 3, Language Plural Rules). Which numbers have it differs from
/// language to language: `Two` may be the category of 2 alone, of 2 and 102, or of no number.
///
/// The order is that of the variants.
#[derive(Clone, Copy, Debug, PartialEq, Eq, PartialOrd, Ord, Hash)]
pub enum PluralCategory {
    /// `zero`.
    Zero,
    /// `one`.
    One,
    /// `two`.
    Two,
    /// `few`.
    Few,
    /// `many`.
    Many,
    /// `other`, which every language has, and which needs no rule.
    Other,
}

const ALL: &[PluralCategory] = &[
    PluralCategory::Few,
    PluralCategory::Many,
    PluralCategory::One,
    PluralCategory::Other,
    PluralCategory::Two,
    PluralCategory::Zero,
];

impl PluralCategory {
    /// Returns all six, in the order of their names: few, many, one, other, two, zero.
    ///
    /// <!-- snippet crates/tests_libraries/src/tests/plural_base_rules.rt:
    ///      example "let mut all" to "holds!(rt; all.next() == Some(PluralCategory::Few" -->
    /// ```
    /// let mut all = PluralCategory::all();
    /// assert!(rt; all.len() == 6);
    /// assert!(rt; all.size_hint() == (6, Some(6)));
    /// assert!(rt; all.next() == Some(PluralCategory::Few));
    /// ```
    pub fn all() -> AllCategories
        ensures { result ≡ all_categories }
    {
        AllCategories { left: ALL }
    }

    /// Returns the name in lower case, as CLDR writes it. [`PluralCategory::get_for_cldr_string`]
    /// reads it back.
    pub fn as_str(self) -> &'static str
        ensures { result.now ≡ name_of self }
    {
        match self {
            PluralCategory::Zero => "zero",
            PluralCategory::One => "one",
            PluralCategory::Two => "two",
            PluralCategory::Few => "few",
            PluralCategory::Many => "many",
            PluralCategory::Other => "other",
        }
    }

    /// Returns the category of a name in lower case, as CLDR writes it; `None` for any other text.
    ///
    /// <!-- snippet crates/tests_libraries/src/tests/plural_base_rules.rt:
    ///      example "let rows" to "}" of fn names_are_those_of_the_categories -->
    /// ```
    /// let rows = [
    ///     ("zero", PluralCategory::Zero),
    ///     ("one", PluralCategory::One),
    ///     ("two", PluralCategory::Two),
    ///     ("few", PluralCategory::Few),
    ///     ("many", PluralCategory::Many),
    ///     ("other", PluralCategory::Other),
    /// ];
    /// for (name, category) in rows {
    ///     assert!(rt; PluralCategory::get_for_cldr_string(name) == Some(category));
    ///     assert!(rt; RawPluralCategory::from(category).as_str() == name);
    /// }
    /// ```
    pub fn get_for_cldr_string(name: &str) -> Option<PluralCategory>
        ensures { (category : PluralCategory) →
            (result ≡ Some category) ↔ (name.now ≡ name_of category) }
    {
        PluralCategory::get_for_cldr_bytes(name.as_bytes())
    }

    /// Returns the category whose name has these bytes; `None` for any others.
    ///
    /// <!-- snippet crates/tests_libraries/src/tests/plural_base_rules.rt:
    ///      example "for name in" to "}" of fn names_are_those_of_the_categories -->
    /// ```
    /// for name in ["", "Few", "other ", "ones"] {
    ///     assert!(rt; PluralCategory::get_for_cldr_bytes(name.as_bytes()) == None);
    /// }
    /// ```
    pub fn get_for_cldr_bytes(name: &[u8]) -> Option<PluralCategory>
        ensures { (category : PluralCategory) →
            (result ≡ Some category) ↔ (name.now ≡ name_of category) }
    {
        match name {
            b"zero" => Some(PluralCategory::Zero),
            b"one" => Some(PluralCategory::One),
            b"two" => Some(PluralCategory::Two),
            b"few" => Some(PluralCategory::Few),
            b"many" => Some(PluralCategory::Many),
            b"other" => Some(PluralCategory::Other),
            _ => None,
        }
    }
}

/// The name, as CLDR writes it.
impl fmt::Display for PluralCategory {
    ghost output = { λ category. Some (name_of category) };

    fn fmt<W: fmt::Write>(&self, f: &mut fmt::Formatter<W>) -> fmt::Result {
        f.write_str(self.as_str())
    }
}

/// The remaining categories of [`PluralCategory::all`].
#[derive(Debug, Drop)]
pub struct AllCategories {
    left: &'static [PluralCategory],
}

impl Model for AllCategories {
    ghost use Rattle.std.specs.Prelude.{List};
    ghost use Rattle.plural_base.specs.declared.category.PluralCategory.{PluralCategory};

    ghost Value = { List PluralCategory };

    ghost view = { λ categories. categories.left.now };
}

impl Iterator for AllCategories {
    type Item = PluralCategory;

    ghost next_gives = { YieldsFirst (λ categories. categories) };

    ghost remaining = { item_count (λ categories. categories) };

    fn next(&mut self) -> Option<PluralCategory> {
        let (first, left) = self.left.split_first()?;
        self.left = left;
        Some(*first)
    }

    fn size_hint(&self) -> (usize, Option<usize>)
        ensures lower { IsWithinCount result.0 (at_most (length self.now)) }
        ensures upper { IfSome result.1 (UpTo (at_most (length self.now))) }
        // It is exact.
        ensures exact { result ≡ (length self.now, Some (length self.now)) }
    {
        let left = self.left.len();
        (left, Some(left))
    }
}

impl ExactSizeIterator for AllCategories {
    fn len(&self) -> usize
        ensures { result ≡ length self.now }
    {
        self.left.len()
    }
}
