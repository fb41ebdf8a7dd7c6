//! The category of a number under a block of rules.

ghost use Rattle.std.specs.Prelude.{◌≡◌};
ghost use Rattle.plural_exports.specs.Inner.UnderRules.{IsCategoryUnder, IsExactnessUnder};
ghost use Rattle.plural_exports.specs.NumberAnswers.{IsCategoryOfNumber, IsCategoryOfInteger, IsExactnessOf, category_number, truth_number};
ghost use Rattle.plural_exports.specs.Results.{Answered};

use crate::fault::Fault;
use crate::given::{number_in, rules_in};
use crate::ranges::number_of;
use icu_plurals::{PluralCategory, PluralOperands, PluralRules};
use std::alloc::Global;

/// Returns the category of an integer, by its number: 0 zero, 1 one, 2 two, 3 few, 4 many, 5 other.
/// It allocates nothing.
///
/// A fault is negative, and is one of the rules.
pub fn category_of_integer(rules: &[u8], number: u64) -> i32
    ensures { Answered (IsCategoryOfInteger rules.now number) category_number result }
{
    match integer_category(rules, number) {
        Ok(category) => category_number(category),
        Err(fault) => fault.number(),
    }
}

/// Returns the category of the number that a text writes, a decimal with a compact exponent or not,
/// by its number as [`category_of_integer`] returns it. It is chosen by what is kept of the
/// number; where [`is_exact`] returns 1 it is that of the number itself.
///
/// A fault is negative: one of the rules, else one of the number. It allocates for a number of more
/// than 16 bytes.
pub fn category(alloc: Global, rules: &[u8], number: &[u8]) -> i32
    ensures { Answered (IsCategoryOfNumber rules.now number.now) category_number result }
{
    match category_of(alloc, rules, number) {
        Ok(category) => category_number(category),
        Err(fault) => fault.number(),
    }
}

/// Returns 1 if the category is guaranteed for the whole number, as it is within the exactness
/// bound of the rules, else 0.
///
/// A fault is negative: one of the rules, else one of the number. It allocates for a number of more
/// than 16 bytes.
pub fn is_exact(alloc: Global, rules: &[u8], number: &[u8]) -> i32
    ensures { Answered (IsExactnessOf rules.now number.now) truth_number result }
{
    match is_exact_for(alloc, rules, number) {
        Ok(is_exact) => i32::from(is_exact),
        Err(fault) => fault.number(),
    }
}

// The category of an integer.
fn integer_category(rules: &[u8], number: u64) -> Result<PluralCategory, Fault>
    ensures { IsCategoryOfInteger rules.now number result }
{
    let rules = rules_in(rules)?;
    Ok(rules.category_for(PluralOperands::from(number)))
}

// The category of the number that a text writes.
fn category_of(alloc: Global, rules: &[u8], number: &[u8]) -> Result<PluralCategory, Fault>
    ensures { IsCategoryOfNumber rules.now number.now result }
{
    match rules_in(rules) {
        Ok(rules) => category_under(alloc, &rules, number),
        Err(fault) => Err(fault),
    }
}

// The category under the rules.
fn category_under(
    alloc: Global,
    rules: &PluralRules<'_>,
    number: &[u8],
) -> Result<PluralCategory, Fault>
    ensures { IsCategoryUnder rules.now number.now result }
{
    let number = number_in(alloc, number)?;
    Ok(rules.category_for_compact(&number))
}

// Whether this category is exact.
fn is_exact_for(alloc: Global, rules: &[u8], number: &[u8]) -> Result<bool, Fault>
    ensures { IsExactnessOf rules.now number.now result }
{
    match rules_in(rules) {
        Ok(rules) => is_exact_under(alloc, &rules, number),
        Err(fault) => Err(fault),
    }
}

// Whether the category under the rules is exact.
fn is_exact_under(alloc: Global, rules: &PluralRules<'_>, number: &[u8]) -> Result<bool, Fault>
    ensures { IsExactnessUnder rules.now number.now result }
{
    let number = number_in(alloc, number)?;
    Ok(rules.is_exact_for(&number))
}

// The number of a category.
pub(crate) fn category_number(category: PluralCategory) -> i32
    ensures { result ≡ category_number category }
{
    i32::from(number_of(category))
}
