//! What holds of the texts of all decimals.

ghost use Rattle.fixed_decimal.specs.Digits.{ReadAlike};
ghost use Rattle.fixed_decimal.specs.Rounding.{OneRounding};
ghost use Rattle.fixed_decimal.specs.Shown.{UnsignedReadAgain, DecimalReadAgain, CompactReadAgain};
ghost use Rattle.fixed_decimal.specs.Written.{OneUnsigned, OneSigned, OneCompact};

/// A text writes at most one number: it determines the sign, every place and the exponent.
pub fn texts_write_one_number()
    ensures unsigned { OneUnsigned }
    ensures signed { OneSigned }
    ensures compact { OneCompact }
{}

/// Digits write the number that std reads when it parses their text.
pub fn digits_are_read_alike()
    ensures { ReadAlike }
{}

/// The text that a number prints writes this number: the same sign, places and exponent are read
/// from it again.
pub fn numbers_are_read_again()
    ensures unsigned { UnsignedReadAgain }
    ensures signed { DecimalReadAgain }
    ensures compact { CompactReadAgain }
{}

/// A mode and a place determine what a number is rounded to, and how that is written.
pub fn numbers_have_one_rounding()
    ensures { OneRounding }
{}
