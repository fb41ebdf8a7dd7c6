//! The category of a number that is sure to be that of the number itself.

ghost use Rattle.std.specs.Prelude.{◌≡◌};
ghost use Rattle.plural_exports.specs.Inner.UnderRules.{IsSureCategoryUnder};
ghost use Rattle.plural_exports.specs.NumberAnswers.{IsSureCategoryOf, category_number};
ghost use Rattle.plural_exports.specs.Results.{Answered};

use crate::fault::Fault;
use crate::given::{number_in, rules_in};
use crate::number_category::category_number;
use icu_plurals::{PluralCategory, PluralRules};
use std::alloc::Global;

/// Returns the category of the number that a text writes, as [`category`] does, where it is
/// sure to be that of the number itself, whatever its length.
///
/// A fault is negative: one of the rules, else one of the number, else that the number is outside
/// the exactness bound of the rules ([`is_exact`]). It allocates for a number of more than
/// 16 bytes.
pub fn sure_category(alloc: Global, rules: &[u8], number: &[u8]) -> i32
    ensures { Answered (IsSureCategoryOf rules.now number.now) category_number result }
{
    match sure_category_of(alloc, rules, number) {
        Ok(category) => category_number(category),
        Err(fault) => fault.number(),
    }
}

// The category of the number that a text writes, within the bound.
fn sure_category_of(alloc: Global, rules: &[u8], number: &[u8]) -> Result<PluralCategory, Fault>
    ensures { IsSureCategoryOf rules.now number.now result }
{
    match rules_in(rules) {
        Ok(rules) => sure_category_under(alloc, &rules, number),
        Err(fault) => Err(fault),
    }
}

// The category under the rules, within the bound.
fn sure_category_under(
    alloc: Global,
    rules: &PluralRules<'_>,
    number: &[u8],
) -> Result<PluralCategory, Fault>
    ensures { IsSureCategoryUnder rules.now number.now result }
{
    let number = number_in(alloc, number)?;
    match rules.sure_category_for(&number) {
        Some(category) => Ok(category),
        None => Err(Fault::OutsideBound),
    }
}
