//! Prints decimals.

ghost use Rattle.std.specs.Prelude.{◌≡◌, ◌≢◌, ◌+◌, ◌≤◌, ◌++◌, Some, length, take, drop};
ghost use Rattle.std.specs.Fmt.{DisplaysOnOk};
ghost use Rattle.fixed_decimal.specs.Digits.{text_of};
ghost use Rattle.fixed_decimal.specs.Places.{IsWritten};
ghost use Rattle.fixed_decimal.specs.Shown.{fraction_text, exponent_text};
ghost use Rattle.fixed_decimal.specs.Written.{sign_text};

use crate::{CompactDecimal, Decimal, Sign, UnsignedDecimal};
use std::fmt;

/// All written digits, and a point before those of a fraction, as `0.50`. The same number is read
/// from this text again. It allocates nothing.
impl fmt::Display for UnsignedDecimal {
    ghost use Rattle.std.specs.Prelude.{Some};
    ghost use Rattle.fixed_decimal.specs.Shown.{unsigned_text};

    ghost output = { λ number. Some (unsigned_text number) };

    fn fmt<W: fmt::Write>(&self, f: &mut fmt::Formatter<W>) -> fmt::Result {
        let (whole, _) = self.written_places();
        write_digits(self, 0, whole, f)?;
        write_fraction(self, f)
    }
}

/// The sign that is written, then the digits, as `-0.50` and `+1`. The same number is read from
/// this text again. It allocates nothing.
impl fmt::Display for Decimal {
    ghost use Rattle.std.specs.Prelude.{Some};
    ghost use Rattle.fixed_decimal.specs.Shown.{decimal_text};

    ghost output = { λ number. Some (decimal_text number) };

    fn fmt<W: fmt::Write>(&self, f: &mut fmt::Formatter<W>) -> fmt::Result {
        write_sign(self.sign, f)?;
        write!(f, "{}", self.absolute)
    }
}

/// The decimal, then `c` and the exponent unless that is 0, as `1.2c6`. The same number is read
/// from this text again. It allocates nothing.
impl fmt::Display for CompactDecimal {
    ghost use Rattle.std.specs.Prelude.{Some};
    ghost use Rattle.fixed_decimal.specs.Shown.{compact_text};

    ghost output = { λ number. Some (compact_text number) };

    fn fmt<W: fmt::Write>(&self, f: &mut fmt::Formatter<W>) -> fmt::Result {
        write!(f, "{}", self.significand())?;
        write_exponent(self.exponent(), f)
    }
}

// Prints the sign that is written.
fn write_sign<W: fmt::Write>(sign: Sign, f: &mut fmt::Formatter<W>) -> fmt::Result
    ensures { DisplaysOnOk W.write_str_gives f.old result (Some (sign_text sign)) f.new }
{
    f.write_str(match sign {
        Sign::None => "",
        Sign::Negative => "-",
        Sign::Positive => "+",
    })
}

// Prints the point and the fraction digits, if there are any.
fn write_fraction<W: fmt::Write>(number: &UnsignedDecimal, f: &mut fmt::Formatter<W>) -> fmt::Result
    ensures { DisplaysOnOk W.write_str_gives f.old result
        (Some (fraction_text number.now.fraction)) f.new }
{
    let (whole, fraction) = number.written_places();
    if fraction == 0 {
        return Ok(());
    }
    f.write_str(".")?;
    write_digits(number, whole, fraction, f)
}

// Prints the digits of so many places from an index on.
fn write_digits<W: fmt::Write>(
    number: &UnsignedDecimal,
    from: u16,
    count: u16,
    f: &mut fmt::Formatter<W>,
) -> fmt::Result
    requires written { IsWritten number.now }
    requires inside { from + count ≤ length (number.now.whole ++ number.now.fraction) }
    ensures { DisplaysOnOk W.write_str_gives f.old result
        (Some (text_of (take count (drop from (number.now.whole ++ number.now.fraction))))) f.new }
{
    for index in 0..count {
        let digit = number.digit(from as usize + index as usize);
        write!(f, "{digit}")?;
    }
    Ok(())
}

// Prints `c` and the exponent unless that is 0.
fn write_exponent<W: fmt::Write>(exponent: u8, f: &mut fmt::Formatter<W>) -> fmt::Result
    ensures { DisplaysOnOk W.write_str_gives f.old result (Some (exponent_text exponent)) f.new }
{
    if exponent == 0 {
        Ok(())
    } else {
        write!(f, "c{exponent}")
    }
}
