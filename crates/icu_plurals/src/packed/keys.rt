//! The keys of the items after the default of packed elements.

ghost use Rattle.std.specs.Prelude.{◌≡◌};
ghost use Rattle.icu_plurals.specs.Inner.ElementsReading.{category_key};

use plural_base::PluralCategory;

pub(crate) const ZERO: u8 = 0;

pub(crate) const ONE: u8 = 1;

pub(crate) const TWO: u8 = 2;

pub(crate) const FEW: u8 = 3;

pub(crate) const MANY: u8 = 4;

pub(crate) const EXPLICIT_ZERO: u8 = 5;

pub(crate) const EXPLICIT_ONE: u8 = 6;

// The key of a category's value, which is the category's number. The value of other is the default
// and has none.
pub(crate) fn key_of(category: PluralCategory) -> Option<u8>
    ensures { result ≡ category_key category }
{
    match category {
        PluralCategory::Other => None,
        _ => Some(category as u8),
    }
}
