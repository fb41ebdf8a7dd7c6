//! The operands of decimals.

ghost use Rattle.std.specs.Prelude.{◌≡◌};
ghost use Rattle.fixed_decimal.specs.Places.{IsWritten};
ghost use Rattle.plural_operands.specs.Operands.{AreKept};

use crate::operands::PluralOperands;
use crate::operands::kept::{KEPT_LIMIT, KEPT_PLACES, power_of_ten};
use fixed_decimal::{CompactDecimal, Decimal, UnsignedDecimal};

impl PluralOperands {
    /// Returns the operands of a number times a power of ten, which is their compact exponent.
    ///
    /// First the point moves to the right by `exponent` places. If the integer part then has more
    /// than 18 written places, leading zeros counted, `i` is the value of its last 18 digits plus
    /// `10^18`. Of the fraction the first 18 places count. At most 36 digits are read.
    ///
    /// For example:
    ///
    /// <!-- snippet crates/example_calls/src/calls/numbers.rt: body of fn print_operands -->
    /// ```
    /// let number = CompactDecimal::from_str(alloc, "1.00000020c6")?;
    /// let operands = RawPluralOperands::from(PluralOperands::from(&number));
    /// let RawPluralOperands { i, v, w, f, t, c } = operands;
    /// println!(rt; "i = {i}, v = {v}, w = {w}, f = {f}, t = {t}, c = {c}")?;
    /// ```
    ///
    /// This prints
    ///
    /// <!-- snippet crates/example_calls/stdout: section operands -->
    /// ```text
    /// i = 1000000, v = 2, w = 1, f = 20, t = 2, c = 6
    /// ```
    #[inline]
    pub fn from_significand_and_exponent(
        significand: &UnsignedDecimal,
        exponent: u8,
    ) -> PluralOperands
        ensures kept { AreKept significand.now exponent result }
        ensures written { IsWritten significand.now }
    {
        let (whole, fraction) = significand.places_after(exponent);
        let kept = whole.min(KEPT_PLACES);
        let (last, zeros) = significand.number_from(whole - kept, kept);
        let last = last * power_of_ten(zeros);
        let i = if whole <= KEPT_PLACES {
            last
        } else {
            last + KEPT_LIMIT
        };
        let v = fraction.min(KEPT_PLACES);
        let (number, zeros) = significand.number_from(whole, v);
        PluralOperands::from_scaled_parts(i, v, number, zeros, exponent as usize)
    }
}

/// [`PluralOperands::from_significand_and_exponent`] with the exponent 0.
impl From<&UnsignedDecimal> for PluralOperands {
    ghost from_gives = { λ x o. AreKept x.now 0 o × IsWritten x.now };

    #[inline]
    fn from(number: &UnsignedDecimal) -> PluralOperands {
        PluralOperands::from_significand_and_exponent(number, 0)
    }
}

/// The operands of the digits: the sign has no effect.
impl From<&Decimal> for PluralOperands {
    ghost from_gives = { λ x o. AreKept x.now.absolute 0 o × IsWritten x.now.absolute };

    #[inline]
    fn from(number: &Decimal) -> PluralOperands {
        PluralOperands::from(&number.absolute)
    }
}

/// [`PluralOperands::from_significand_and_exponent`] of the two parts: the sign has no effect.
impl From<&CompactDecimal> for PluralOperands {
    ghost from_gives = { λ x o.
        AreKept x.now.significand.absolute x.now.exponent o × IsWritten x.now.significand.absolute };

    #[inline]
    fn from(number: &CompactDecimal) -> PluralOperands {
        PluralOperands::from_significand_and_exponent(
            &number.significand().absolute,
            number.exponent(),
        )
    }
}
