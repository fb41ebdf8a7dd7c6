//! The orders of categories and of ranges, and the defaults.

ghost use Rattle.std.specs.Prelude.{◌≡◌, None};
ghost use Rattle.std.specs.Ordering.{nat_cmp};
ghost use Rattle.plural_base.specs.Categories.{raw_number, place_of};

use crate::category::PluralCategory;
use crate::category::raw::RawPluralCategory;
use crate::provider::options::{PluralRuleType, PluralRulesOptions};
use crate::ranges::key::UnvalidatedPluralRange;
use crate::rules::data::PluralRulesData;
use std::cmp::Ordering;

/// Categories are in the order zero, one, two, few, many, other.
pub fn order_of_categories(first: PluralCategory, second: PluralCategory) -> Ordering
    ensures { result ≡ nat_cmp (place_of first) (place_of second) }
{
    first.cmp(&second)
}

/// Numbered categories are in the order of their numbers.
pub fn order_of_raw_categories(first: RawPluralCategory, second: RawPluralCategory) -> Ordering
    ensures { result ≡ nat_cmp (raw_number first) (raw_number second) }
{
    first.cmp(&second)
}

/// Ranges are in the order of their bytes.
pub fn order_of_ranges(first: UnvalidatedPluralRange, second: UnvalidatedPluralRange) -> Ordering
    ensures { result ≡ nat_cmp first.0 second.0 }
{
    first.cmp(&second)
}

/// The type that is meant by default is cardinal.
pub fn default_type() -> PluralRuleType
    ensures { result ≡ PluralRuleType.Cardinal }
{
    PluralRuleType::default()
}

/// By default the options name no type.
pub fn default_options() -> PluralRulesOptions
    ensures { result ≡ record { rule_type = None } }
{
    PluralRulesOptions::default()
}

/// By default there are no rules.
pub fn default_rules() -> PluralRulesData<'static>
    ensures { result ≡ record { zero = None; one = None; two = None; few = None; many = None } }
{
    PluralRulesData::default()
}
