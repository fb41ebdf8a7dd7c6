//! Laws on the operands of all numbers: each is the contract of a function.

ghost use Rattle.std.specs.Prelude.{◌≡◌, nat_abs};
ghost use Rattle.plural_operands.specs.Operands.{of_whole, of_wide};
ghost use Rattle.plural_operands.specs.OperandLaws.{SameBelowLimit, CongruentFromLimit, AllIsKept, OneKept, OneExact, OneNamed, TellTheNumber};

use crate::operands::PluralOperands;

/// An integer has the same operands at 64 and at 128 bits below `10^18`; from there on both integer
/// parts are at least `10^18` and congruent modulo `10^18`.
pub fn integers_of_every_width()
    ensures below { SameBelowLimit }
    ensures above { CongruentFromLimit }
{}

/// The operands of a signed integer, and those of its absolute value: they are the same.
pub fn signed_as_absolute(number: i64) -> (PluralOperands, PluralOperands)
    ensures same { result.0 ≡ result.1 }
    ensures signed { result.0 ≡ of_whole (nat_abs number) }
{
    let absolute: u64 = number.unsigned_abs();
    (PluralOperands::from(number), PluralOperands::from(absolute))
}

/// [`signed_as_absolute`] at 128 bits.
pub fn wide_signed_as_absolute(number: i128) -> (PluralOperands, PluralOperands)
    ensures same { result.0 ≡ result.1 }
    ensures signed { result.0 ≡ of_wide (nat_abs number) }
{
    let absolute: u128 = number.unsigned_abs();
    (PluralOperands::from(number), PluralOperands::from(absolute))
}

/// With at most 18 places on each side of the point, once the exponent has moved it, the kept
/// operands are the exact ones.
pub fn short_numbers_are_exact()
    ensures { AllIsKept }
{}

/// A number has exactly one list of kept operands, and one of exact ones.
pub fn one_list_of_operands()
    ensures kept { OneKept }
    ensures exact { OneExact }
{}

/// A text names at most one list of operands.
pub fn texts_name_one_list()
    ensures { OneNamed }
{}

/// The exact operands determine the number.
pub fn operands_tell_the_number()
    ensures { TellTheNumber }
{}
