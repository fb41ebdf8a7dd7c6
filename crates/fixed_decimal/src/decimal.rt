//! Decimals with a sign.

ghost use Rattle.std.specs.Prelude.{◌≡◌, ◌≢◌, ◌<◌, ◌↔◌, ◌++◌, [], pos, nat_abs, int_lt, if◌then◌else◌, IfOk, IfErr, OnOk, OnErr};
ghost use Rattle.fixed_decimal.specs.Places.{Places, IsWithinLimit, IsOverLimit, shift, most_places};
ghost use Rattle.fixed_decimal.specs.FractionEnds.{places_down_to, padded_to, IsTrimmed};
ghost use Rattle.fixed_decimal.specs.Rounding.{IsRounded, mode_of_absolute as absolute_mode};
ghost use Rattle.fixed_decimal.specs.Digits.{IsNumeral};
ghost use Rattle.fixed_decimal.specs.Written.{WritesDecimal, sign_text};
ghost use Rattle.fixed_decimal.specs.Inner.TextParts.{HasPointWithin};
ghost use Rattle.fixed_decimal.specs.declared.sign.Sign.TheVariants as sign;
ghost use Rattle.fixed_decimal.specs.declared.decimal.Decimal.{Decimal as SignedNumber};

use crate::point::point_within;
use crate::rounding::{RoundingMode, mode_of_absolute};
use crate::sign::split_sign;
use crate::{DecimalError, Sign, UnsignedDecimal};
use std::alloc::Global;

/// A written number with the sign that its text has.
///
/// <!-- snippet crates/example_calls/src/calls/numbers.rt: body of fn print_decimal -->
/// ```
/// let number = Decimal::from_str(alloc, "-12.50")?;
/// let (lowest, highest) = number.absolute.magnitude_range();
/// println!(rt; "{:?}, {lowest} to {highest}", number.sign)?;
/// ```
///
/// This prints
///
/// <!-- snippet crates/example_calls/stdout: section a decimal -->
/// ```text
/// Negative, -2 to 1
/// ```
#[derive(Debug, Drop)]
pub struct Decimal {
    /// The sign that is written.
    pub sign: Sign,
    /// The digits after the sign.
    pub absolute: UnsignedDecimal,
}

impl Decimal {
    /// Returns the number that a text writes: an unsigned decimal, after `+`, `-` or no sign. The
    /// errors are those of [`UnsignedDecimal::from_str`].
    // Inlined, it isn't returned through memory: a tenth of the instructions that read a decimal.
    #[inline(always)]
    pub fn from_str(alloc: Global, text: &str) -> Result<Decimal, DecimalError>
        ensures number { IfOk result (λ x. WritesDecimal text.now x × IsWithinLimit x.absolute) }
        ensures syntax { (result ≡ Err DecimalError.Syntax)
            ↔ ((x : SignedNumber) → ¬ (WritesDecimal text.now x)) }
        ensures limit { (result ≡ Err DecimalError.Limit)
            ↔ ((x : SignedNumber) × WritesDecimal text.now x × IsOverLimit x.absolute) }
    {
        let (sign, digits, point) = parts_within(text.as_bytes())?;
        Ok(Decimal {
            sign,
            absolute: UnsignedDecimal::from_point(alloc, digits, point)?,
        })
    }

    /// Returns the number without leading zeros, and 0 as one digit, without a fraction; its sign
    /// is `Negative` below 0, else `None`. `Memory` if the digits can't be allocated.
    pub fn from_i128(alloc: Global, number: i128) -> Result<Decimal, DecimalError>
        ensures digits { IfOk result (λ x.
            IsNumeral x.absolute.whole (nat_abs number) × (x.absolute.fraction ≡ [])) }
        ensures sign { IfOk result (λ x.
            x.sign ≡ (if int_lt number (pos 0) then sign.Negative else sign.None)) }
        ensures only_memory { IfErr result (λ e. e ≡ DecimalError.Memory) }
    {
        let sign = if number < 0 {
            Sign::Negative
        } else {
            Sign::None
        };
        Ok(Decimal {
            sign,
            absolute: UnsignedDecimal::from_u128(alloc, number.unsigned_abs())?,
        })
    }

    /// Returns the number as [`Decimal::from_i128`] does.
    pub fn from_i64(alloc: Global, number: i64) -> Result<Decimal, DecimalError>
        ensures digits { IfOk result (λ x.
            IsNumeral x.absolute.whole (nat_abs number) × (x.absolute.fraction ≡ [])) }
        ensures sign { IfOk result (λ x.
            x.sign ≡ (if int_lt number (pos 0) then sign.Negative else sign.None)) }
        ensures only_memory { IfErr result (λ e. e ≡ DecimalError.Memory) }
    {
        Decimal::from_i128(alloc, i128::from(number))
    }

    /// Moves the point as [`UnsignedDecimal::multiply_pow10`] does; the sign stays.
    pub fn multiply_pow10(&mut self, places: i16) -> Result<(), DecimalError>
        ensures shifted { OnOk result
            (self.new ≡ record self.old { absolute = shift places self.old.absolute }) }
        ensures limit { (result ≡ Err DecimalError.Limit)
            ↔ IsOverLimit (shift places self.old.absolute) }
        ensures only_limit { IfErr result (λ e. e ≡ DecimalError.Limit) }
        ensures unchanged { OnErr result (self.new ≡ self.old) }
    {
        self.absolute.multiply_pow10(places)
    }

    /// Adds zeros to the fraction as [`UnsignedDecimal::pad_end`] does; the sign stays.
    pub fn pad_end(&mut self, position: i16) -> Result<(), DecimalError>
        ensures padded { OnOk result
            (self.new ≡ record self.old { absolute = padded_to (places_down_to position) self.old.absolute }) }
        ensures limit { (result ≡ Err DecimalError.Limit) ↔ (most_places < places_down_to position) }
        ensures only_limit { IfErr result (λ e. e ≡ DecimalError.Limit) }
        ensures unchanged { OnErr result (self.new ≡ self.old) }
    {
        self.absolute.pad_end(position)
    }

    /// Cuts the zeros at the end of the fraction; the sign stays. It allocates nothing.
    pub fn trim_end(&mut self)
        ensures sign { self.new.sign ≡ self.old.sign }
        ensures absolute { IsTrimmed self.old.absolute self.new.absolute }
    {
        self.absolute.trim_end();
    }

    /// Rounds to a multiple of `10^position` as [`UnsignedDecimal::round_with_mode`] does, and of a
    /// negative number `Ceil` is towards zero and `Floor` away from it. The sign stays, also before
    /// a number that is then 0.
    pub fn round_with_mode(&mut self, position: i16, mode: RoundingMode) -> Result<(), DecimalError>
        ensures rounded { OnOk result
            (IsRounded (absolute_mode self.old.sign mode) position self.old.absolute self.new.absolute) }
        ensures sign { self.new.sign ≡ self.old.sign }
        ensures limit { (result ≡ Err DecimalError.Limit)
            ↔ ((x : Places) × IsRounded (absolute_mode self.old.sign mode) position self.old.absolute x × IsOverLimit x) }
        ensures only_limit { IfErr result (λ e. e ≡ DecimalError.Limit) }
        ensures unchanged { OnErr result (self.new ≡ self.old) }
    {
        let mode = mode_of_absolute(self.sign, mode);
        self.absolute.round_with_mode(position, mode)
    }
}

// The sign of a decimal's text within the limit, the digits after it, and the place of the point.
pub(crate) fn parts_within(text: &[u8]) -> Result<(Sign, &[u8], usize), DecimalError>
    ensures parts { IfOk result (λ p.
        (text.now ≡ sign_text p.0 ++ p.1.now) × HasPointWithin p.1.now p.2) }
    ensures syntax { (result ≡ Err DecimalError.Syntax)
        ↔ ((x : SignedNumber) → ¬ (WritesDecimal text.now x)) }
    ensures limit { (result ≡ Err DecimalError.Limit)
        ↔ ((x : SignedNumber) × WritesDecimal text.now x × IsOverLimit x.absolute) }
    ensures no_memory { result ≢ Err DecimalError.Memory }
{
    let (sign, digits) = split_sign(text);
    let point = point_within(digits)?;
    Ok((sign, digits, point))
}
