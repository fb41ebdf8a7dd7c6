//! The category of an integer with a sign.

ghost use Rattle.std.specs.Prelude.{nat_abs};
ghost use Rattle.plural_exports.specs.NumberAnswers.{IsCategoryOfInteger, category_number};
ghost use Rattle.plural_exports.specs.Results.{Answered};

use crate::number_category::category_of_integer;

/// Returns the category of an integer, which is that of its absolute value, as
/// [`category_of_integer`] does. It allocates nothing.
pub fn category_of_signed_integer(rules: &[u8], number: i64) -> i32
    ensures { Answered (IsCategoryOfInteger rules.now (nat_abs number)) category_number result }
{
    category_of_integer(rules, number.unsigned_abs())
}
