//! Plural categories by their numbers.

ghost use Rattle.std.specs.Prelude.{◌≡◌};
ghost use Rattle.plural_base.specs.Categories.{name_of, category_of, raw_category_of};

use crate::category::PluralCategory;

/// A plural category by its number, as data writes it.
///
/// The order is that of the numbers.
///
/// <!-- snippet crates/tests_libraries/src/tests/plural_base_rules.rt:
///      example "let rows" to "}" of fn numbers_are_those_of_the_raw_categories -->
/// ```
/// let rows = [
///     (RawPluralCategory::Other, PluralCategory::Other),
///     (RawPluralCategory::Zero, PluralCategory::Zero),
///     (RawPluralCategory::One, PluralCategory::One),
///     (RawPluralCategory::Two, PluralCategory::Two),
///     (RawPluralCategory::Few, PluralCategory::Few),
///     (RawPluralCategory::Many, PluralCategory::Many),
/// ];
/// for (number, (raw, category)) in rows.iter().enumerate() {
///     assert!(rt; (*raw as usize) == number);
///     assert!(rt; PluralCategory::from(*raw) == *category);
/// }
/// ```
#[derive(Clone, Copy, Debug, PartialEq, Eq, PartialOrd, Ord, Hash)]
pub enum RawPluralCategory {
    /// `other`.
    Other = 0,
    /// `zero`.
    Zero = 1,
    /// `one`.
    One = 2,
    /// `two`.
    Two = 3,
    /// `few`.
    Few = 4,
    /// `many`.
    Many = 5,
}

// All six, in the order of their numbers.
pub(crate) const ALL: [RawPluralCategory; 6] = [
    RawPluralCategory::Other,
    RawPluralCategory::Zero,
    RawPluralCategory::One,
    RawPluralCategory::Two,
    RawPluralCategory::Few,
    RawPluralCategory::Many,
];

impl RawPluralCategory {
    /// Returns the name in lower case, as CLDR writes it.
    pub fn as_str(self) -> &'static str
        ensures { result.now ≡ name_of (category_of self) }
    {
        PluralCategory::from(self).as_str()
    }
}

/// The category of the same name.
impl From<RawPluralCategory> for PluralCategory {
    ghost from_gives = { λ raw category. category ≡ category_of raw };

    fn from(raw: RawPluralCategory) -> PluralCategory {
        match raw {
            RawPluralCategory::Other => PluralCategory::Other,
            RawPluralCategory::Zero => PluralCategory::Zero,
            RawPluralCategory::One => PluralCategory::One,
            RawPluralCategory::Two => PluralCategory::Two,
            RawPluralCategory::Few => PluralCategory::Few,
            RawPluralCategory::Many => PluralCategory::Many,
        }
    }
}

/// The numbered category of the same name.
impl From<PluralCategory> for RawPluralCategory {
    ghost from_gives = { λ category raw. raw ≡ raw_category_of category };

    fn from(category: PluralCategory) -> RawPluralCategory {
        match category {
            PluralCategory::Zero => RawPluralCategory::Zero,
            PluralCategory::One => RawPluralCategory::One,
            PluralCategory::Two => RawPluralCategory::Two,
            PluralCategory::Few => RawPluralCategory::Few,
            PluralCategory::Many => RawPluralCategory::Many,
            PluralCategory::Other => RawPluralCategory::Other,
        }
    }
}
