//! The whole numbers that have a category.

ghost use Rattle.number_categories.specs.WholeNumbers.{AreLeastOfEach, AreTwoLeast, AreTwoLeastOfEach, IsLeastFrom};

use crate::least_numbers::LeastNumbers;
use crate::number_walk::find;
use crate::sought::Sought;
use plural_base::{PluralCategory, PluralRules};

/// Returns the least whole number from a start, and below [`WHOLE_LIMIT`](crate::WHOLE_LIMIT), that
/// has the category under these rules. It allocates nothing.
pub fn least_from(rules: &PluralRules<'_>, category: PluralCategory, start: u16) -> Option<u16>
    ensures { IsLeastFrom rules.now category start result }
{
    find(rules, Sought::of(category, start, true))
        .at(category)
        .first
}

/// Returns the two least whole numbers below [`WHOLE_LIMIT`](crate::WHOLE_LIMIT) that have the
/// category under these rules. Where there is one alone, the second is absent; where there is none,
/// both are. It allocates nothing.
pub fn two_least(rules: &PluralRules<'_>, category: PluralCategory) -> (Option<u16>, Option<u16>)
    ensures { AreTwoLeast rules.now category result.0 result.1 }
{
    let two = find(rules, Sought::of(category, 0, false)).at(category);
    (two.first, two.second)
}

/// Returns the least whole number from a start, and below [`WHOLE_LIMIT`](crate::WHOLE_LIMIT), of
/// each category, if it has one under these rules. All are found by one walk over the numbers. It
/// allocates nothing.
pub fn least_of_each(rules: &PluralRules<'_>, start: u16) -> LeastNumbers
    ensures { AreLeastOfEach rules.now start result }
{
    find(rules, Sought::of_each(rules, start, true))
}

/// Returns the two least whole numbers from a start, and below [`WHOLE_LIMIT`](crate::WHOLE_LIMIT),
/// of each category, as far as it has two under these rules. All are found by one walk over the
/// numbers. It allocates nothing.
pub fn two_least_of_each(rules: &PluralRules<'_>, start: u16) -> LeastNumbers
    ensures { AreTwoLeastOfEach rules.now start result }
{
    find(rules, Sought::of_each(rules, start, false))
}
