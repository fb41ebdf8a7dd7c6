//! The categories of the numbers that texts write.

ghost use Rattle.plural_exports.specs.NumberAnswers.{IsCategoryOfNumber, IsExactnessOf, IsSureCategoryOf, category_number, truth_number};
ghost use Rattle.plural_exports.specs.Results.{Answered};

use std::alloc::Global;

/// Returns the category of the number that a text writes, a decimal with a compact exponent or not,
/// by its number as [`plurals_category_of_integer`] returns it. It is chosen by what is kept of the
/// number; where [`plurals_is_exact`] returns 1 it is that of the number itself.
///
/// A fault is negative: one of the rules, else one of the number. It allocates for a number of more
/// than 16 bytes.
#[unsafe(no_mangle)]
pub extern "C" fn plurals_category(alloc: Global, rules: &[u8], number: &[u8]) -> i32
    ensures { Answered (IsCategoryOfNumber rules.now number.now) category_number result }
{
    plural_exports::category(alloc, rules, number)
}

/// Returns 1 if the category is guaranteed for the whole number, as it is within the exactness
/// bound of the rules, else 0.
///
/// A fault is negative: one of the rules, else one of the number. It allocates for a number of more
/// than 16 bytes.
#[unsafe(no_mangle)]
pub extern "C" fn plurals_is_exact(alloc: Global, rules: &[u8], number: &[u8]) -> i32
    ensures { Answered (IsExactnessOf rules.now number.now) truth_number result }
{
    plural_exports::is_exact(alloc, rules, number)
}

/// Returns the category of the number that a text writes, as [`plurals_category`] does, where it is
/// sure to be that of the number itself, whatever its length.
///
/// A fault is negative: one of the rules, else one of the number, else that the number is outside
/// the exactness bound of the rules ([`plurals_is_exact`]). It allocates for a number of more than
/// 16 bytes.
#[unsafe(no_mangle)]
pub extern "C" fn plurals_sure_category(alloc: Global, rules: &[u8], number: &[u8]) -> i32
    ensures { Answered (IsSureCategoryOf rules.now number.now) category_number result }
{
    plural_exports::sure_category(alloc, rules, number)
}
