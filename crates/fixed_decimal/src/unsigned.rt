//! Decimals without a sign.

ghost use Rattle.std.specs.Prelude.{◌≡◌, ◌+◌, ◌-◌, ◌*◌, ◌^◌, ◌<◌, ◌≤◌, ◌++◌, ◌↔◌, pos, neg_ℤ, [], length, slice_index, IfOk, IsOk, IfErr, OnOk, OnErr, IsTrue};
ghost use Rattle.fixed_decimal.specs.Digits.{IsNumeral, value_of};
ghost use Rattle.fixed_decimal.specs.Written.{WritesUnsigned};
ghost use Rattle.fixed_decimal.specs.Inner.TextParts.{AllDigitBytes, HasPointWithin, places_of_sides, places_around};
ghost use Rattle.fixed_decimal.specs.Places.{Places, IsWritten, IsWithinLimit, IsOverLimit, shift, shift_left, shift_right, digit_at, digits_from, HasDigitFrom, most_places};
ghost use Rattle.fixed_decimal.specs.FractionEnds.{places_down_to as fraction_places_to, padded_to, IsTrimmed};
ghost use Rattle.fixed_decimal.specs.Rounding.{IsRounded, zeros_below as integer_zeros_below};

use crate::DecimalError;
use crate::digits::{MOST_PLACES, number_of_digits};
use crate::point::point_within;
use crate::rounding::{RoundingMode, leave_rounded, rounded_end, rounded_places};
use crate::span::{INLINE_DIGITS, digits_between, end_before_zeros, zeros_before};
use itoa::Buffer;
use smallvec::SmallVec;
use std::alloc::Global;
use std::marker::Model;

/// A written number without a sign: its integer digits, at least one, and its fraction digits. All
/// written zeros count. Only the digits from the first to the last that isn't zero are stored.
///
/// <!-- snippet crates/example_calls/src/calls/numbers.rt: body of fn print_digits -->
/// ```
/// let number = UnsignedDecimal::from_str(alloc, "98.70")?;
/// for magnitude in [2i16, 1, 0, -1, -2] {
///     let digit = number.digit_at(magnitude);
///     println!(rt; "{magnitude}: {digit}")?;
/// }
/// ```
///
/// This prints
///
/// <!-- snippet crates/example_calls/stdout: section digits -->
/// ```text
/// 2: 0
/// 1: 9
/// 0: 8
/// -1: 7
/// -2: 0
/// ```
#[derive(Debug)]
pub struct UnsignedDecimal {
    whole_places: u16,
    fraction_places: u16,
    leading_zeros: u16,
    span: SmallVec<u8, INLINE_DIGITS>,
}

// Written out, so that each end of a value is one call.
impl Drop for UnsignedDecimal {
    fn drop(self) {
        let UnsignedDecimal {
            whole_places: _,
            fraction_places: _,
            leading_zeros: _,
            span: _,
        } = self;
    }
}

impl Model for UnsignedDecimal {
    ghost use Rattle.fixed_decimal.specs.Places.{Places};
    ghost use Rattle.fixed_decimal.specs.Inner.UnsignedInside.{places_of, IsSpan};

    ghost Value = { Places };

    ghost view = { places_of };

    ghost invariant = { IsSpan };
}

impl UnsignedDecimal {
    /// Returns the number that a text without a sign writes: digits, digits `.` digits, or `.`
    /// digits. The whole text is judged before anything is allocated: `Syntax` if it isn't of this
    /// form, `Limit` if it has more than 32767 places on a side, and `Memory` if the digits can't
    /// be allocated.
    pub fn from_str(alloc: Global, text: &str) -> Result<UnsignedDecimal, DecimalError>
        ensures number { IfOk result (λ x. WritesUnsigned text.now x × IsWithinLimit x) }
        ensures syntax { (result ≡ Err DecimalError.Syntax)
            ↔ ((x : Places) → ¬ (WritesUnsigned text.now x)) }
        ensures limit { (result ≡ Err DecimalError.Limit)
            ↔ ((x : Places) × WritesUnsigned text.now x × IsOverLimit x) }
    {
        let digits = text.as_bytes();
        let point = point_within(digits)?;
        UnsignedDecimal::from_point(alloc, digits, point)
    }

    /// Returns the number without leading zeros, and 0 as one digit; it has no fraction. `Memory`
    /// if the digits can't be allocated.
    pub fn from_u128(alloc: Global, number: u128) -> Result<UnsignedDecimal, DecimalError>
        ensures digits { IfOk result (λ x. IsNumeral x.whole number × (x.fraction ≡ [])) }
        ensures only_memory { IfErr result (λ e. e ≡ DecimalError.Memory) }
    {
        let mut buffer = Buffer::new();
        let digits = buffer.format(number).as_bytes();
        UnsignedDecimal::from_digits(alloc, digits, &[])
    }

    /// Returns the number as [`UnsignedDecimal::from_u128`] does.
    pub fn from_u64(alloc: Global, number: u64) -> Result<UnsignedDecimal, DecimalError>
        ensures digits { IfOk result (λ x. IsNumeral x.whole number × (x.fraction ≡ [])) }
        ensures only_memory { IfErr result (λ e. e ≡ DecimalError.Memory) }
    {
        UnsignedDecimal::from_u128(alloc, u128::from(number))
    }

    // The number with these digits before and after the point.
    // Inlined, it isn't returned through memory: a tenth of the instructions that read a decimal.
    #[inline(always)]
    pub(crate) fn from_digits(
        alloc: Global,
        whole: &[u8],
        fraction: &[u8],
    ) -> Result<UnsignedDecimal, DecimalError>
        requires whole { AllDigitBytes whole.now }
        requires fraction { AllDigitBytes fraction.now }
        requires whole_within { length whole.now ≤ MOST_PLACES }
        requires fraction_within { length fraction.now ≤ MOST_PLACES }
        ensures places { IfOk result (λ x. x ≡ places_of_sides whole.now fraction.now) }
        ensures inline { length whole.now + length fraction.now ≤ INLINE_DIGITS → IsOk result }
        ensures only_memory { IfErr result (λ e. e ≡ DecimalError.Memory) }
    {
        let whole_places = whole.len().max(1);
        let from = zeros_before(whole, fraction);
        let end = end_before_zeros(whole, fraction, from);
        Ok(UnsignedDecimal {
            whole_places: whole_places as u16,
            fraction_places: fraction.len() as u16,
            leading_zeros: from as u16,
            span: digits_between(alloc, whole, fraction, from, end)?,
        })
    }

    // The number of a text with its point at an index.
    #[inline(always)]
    pub(crate) fn from_point(
        alloc: Global,
        text: &[u8],
        point: usize,
    ) -> Result<UnsignedDecimal, DecimalError>
        requires { HasPointWithin text.now point }
        ensures places { IfOk result (λ x. x ≡ places_around text.now point) }
        ensures inline { length text.now ≤ INLINE_DIGITS → IsOk result }
        ensures only_memory { IfErr result (λ e. e ≡ DecimalError.Memory) }
    {
        let (whole, rest) = text.split_at(point);
        let fraction = &rest[rest.len().min(1)..];
        UnsignedDecimal::from_digits(alloc, whole, fraction)
    }

    /// Returns the digit at `10^magnitude`, and 0 outside the written places.
    #[inline]
    pub fn digit_at(&self, magnitude: i16) -> u8
        ensures digit { result ≡ digit_at self.now magnitude }
        ensures written { IsWritten self.now }
    {
        let places = self.whole_places as usize;
        let power = magnitude.unsigned_abs() as usize;
        if magnitude < 0 {
            self.digit(places + power - 1)
        } else if power < places {
            self.digit(places - 1 - power)
        } else {
            0
        }
    }

    // The digit at an index among all written ones, and 0 after the last.
    #[inline]
    pub(crate) fn digit(&self, index: usize) -> u8
        ensures { result ≡ slice_index (self.now.whole ++ self.now.fraction) index }
    {
        let leading = self.leading_zeros as usize;
        if index < leading {
            return 0;
        }
        self.span
            .as_slice()
            .get(index - leading)
            .copied()
            .unwrap_or(0)
    }

    /// Returns the lowest and the highest power of ten that has a written place: minus the count of
    /// fraction digits, and the count of integer digits minus 1.
    #[inline]
    pub fn magnitude_range(&self) -> (i16, i16)
        ensures lowest { result.0 ≡ neg_ℤ (pos (length self.now.fraction)) }
        ensures highest { result.1 ≡ pos (length self.now.whole - 1) }
        ensures written { IsWritten self.now }
        ensures within { IsWithinLimit self.now }
    {
        (
            -(self.fraction_places as i16),
            (self.whole_places - 1) as i16,
        )
    }

    // How many integer places and how many fraction places are written.
    pub(crate) fn written_places(&self) -> (u16, u16)
        ensures whole { result.0 ≡ length self.now.whole }
        ensures fraction { result.1 ≡ length self.now.fraction }
        ensures written { IsWritten self.now }
    {
        (self.whole_places, self.fraction_places)
    }

    /// Returns how many integer places and how many fraction places are written after the point has
    /// moved to the right by `exponent` places, as a compact exponent moves it.
    ///
    /// <!-- snippet crates/tests_libraries/src/tests/fixed_decimal_examples.rt:
    /// example "let rows" to "}" of fn an_exponent_moves_places_to_the_left_of_the_point -->
    /// ```
    /// let rows = [
    ///     ("12.340", 0, (2, 3)),
    ///     ("12.340", 2, (4, 1)),
    ///     ("12.340", 3, (5, 0)),
    ///     ("12.340", 4, (6, 0)),
    ///     ("0", 255, (256, 0)),
    /// ];
    /// for (text, exponent, places) in rows {
    ///     let decimal = UnsignedDecimal::from_str(alloc, text)?;
    ///     assert!(rt; decimal.places_after(exponent) == places);
    /// }
    /// ```
    #[inline]
    pub fn places_after(&self, exponent: u8) -> (usize, usize)
        ensures whole { result.0 ≡ length (shift_right exponent self.now).whole }
        ensures fraction { result.1 ≡ length (shift_right exponent self.now).fraction }
        ensures written { IsWritten self.now }
    {
        (
            self.whole_places as usize + exponent as usize,
            (self.fraction_places as usize).saturating_sub(exponent as usize),
        )
    }

    /// Returns the number that up to 18 digits write, from a place on, as a number and the power of
    /// ten that it is multiplied by. Places count from the first integer digit at 0, and after the
    /// last written place each digit is 0. The zeros after the stored digits aren't read but
    /// counted: the clauses fix the product, and leave open which of its last zeros are in the
    /// power.
    #[inline]
    pub fn number_from(&self, place: usize, count: usize) -> (u64, usize)
        requires few { count ≤ 18 }
        ensures value { result.0 * 10 ^ result.1 ≡ value_of (digits_from self.now place count) }
        ensures zeros { result.1 ≤ count }
        ensures below { result.0 * 10 ^ result.1 < 10 ^ count }
    {
        let leading = self.leading_zeros as usize;
        let start = place.saturating_sub(leading);
        if start >= self.span.len() {
            return (0, 0);
        }
        let end = (place + count).saturating_sub(leading);
        let stop = end.min(self.span.len());
        (
            number_of_digits(&self.span.as_slice()[start..stop]),
            end - stop,
        )
    }

    /// Returns whether a digit at `10^magnitude` or above isn't 0. It reads no digit: the stored
    /// digits begin with one that isn't 0.
    #[inline]
    pub fn has_digit_from(&self, magnitude: i16) -> bool
        ensures { IsTrue result ↔ HasDigitFrom self.now magnitude }
    {
        if self.span.is_empty() {
            return false;
        }
        let places = self.whole_places as usize;
        let leading = self.leading_zeros as usize;
        let power = magnitude.unsigned_abs() as usize;
        if magnitude < 0 {
            leading < places + power
        } else {
            leading + power < places
        }
    }

    /// Moves the point to the right by `places`, or to the left if that is negative. If no fraction
    /// digit is left, a 0 is added after the integer digits; if no integer digit is left, the
    /// single digit 0 takes its place. `Limit` if a side would have more than 32767 places; the
    /// number is then unchanged. It allocates nothing.
    ///
    /// <!-- snippet crates/tests_libraries/src/tests/fixed_decimal_examples.rt:
    /// example "let rows" to "}" of fn a_shift_reaches_the_last_place -->
    /// ```
    /// let rows = [
    ///     ("1", 32766, (0, 32766), 32766, 1),
    ///     ("5", -32767, (-32767, 0), -32767, 5),
    /// ];
    /// for (text, places, range, magnitude, digit) in rows {
    ///     let mut number = UnsignedDecimal::from_str(alloc, text)?;
    ///     assert!(rt; number.multiply_pow10(places) == Ok(()));
    ///     assert!(rt; number.magnitude_range() == range);
    ///     assert!(rt; number.digit_at(magnitude) == digit);
    ///     assert!(rt; number.digit_at(magnitude / 2) == 0);
    ///     assert!(rt; number.digit_at(0) == 0);
    /// }
    /// ```
    pub fn multiply_pow10(&mut self, places: i16) -> Result<(), DecimalError>
        ensures shifted { OnOk result (self.new ≡ shift places self.old) }
        ensures limit { (result ≡ Err DecimalError.Limit) ↔ IsOverLimit (shift places self.old) }
        ensures only_limit { IfErr result (λ e. e ≡ DecimalError.Limit) }
        ensures unchanged { OnErr result (self.new ≡ self.old) }
    {
        if places < 0 {
            self.move_left(places.unsigned_abs())
        } else {
            self.move_right(places.unsigned_abs())
        }
    }

    // Moves the point to the right.
    fn move_right(&mut self, by: u16) -> Result<(), DecimalError>
        ensures shifted { OnOk result (self.new ≡ shift_right by self.old) }
        ensures limit { OnErr result (IsOverLimit (shift_right by self.old)) }
        ensures within { OnOk result (¬ (IsOverLimit (shift_right by self.old))) }
        ensures only_limit { IfErr result (λ e. e ≡ DecimalError.Limit) }
        ensures unchanged { OnErr result (self.new ≡ self.old) }
    {
        if by > MOST_PLACES - self.whole_places {
            return Err(DecimalError::Limit);
        }
        self.whole_places += by;
        self.fraction_places = self.fraction_places.saturating_sub(by);
        Ok(())
    }

    // Moves the point to the left.
    fn move_left(&mut self, by: u16) -> Result<(), DecimalError>
        ensures shifted { OnOk result (self.new ≡ shift_left by self.old) }
        ensures limit { OnErr result (IsOverLimit (shift_left by self.old)) }
        ensures within { OnOk result (¬ (IsOverLimit (shift_left by self.old))) }
        ensures only_limit { IfErr result (λ e. e ≡ DecimalError.Limit) }
        ensures unchanged { OnErr result (self.new ≡ self.old) }
    {
        if by > MOST_PLACES - self.fraction_places {
            return Err(DecimalError::Limit);
        }
        self.fraction_places += by;
        if by < self.whole_places {
            self.whole_places -= by;
        } else {
            self.leading_zeros += by - self.whole_places + 1;
            self.whole_places = 1;
        }
        Ok(())
    }

    /// Adds zeros to the fraction until it reaches down to `10^position`: `1.5` padded to -2 is
    /// `1.50`. A fraction that reaches as far, or a position from 0 on, changes nothing. `Limit` if
    /// that would be more than 32767 places, as at -32768 alone; the number is then unchanged. It
    /// allocates nothing.
    pub fn pad_end(&mut self, position: i16) -> Result<(), DecimalError>
        ensures padded { OnOk result (self.new ≡ padded_to (fraction_places_to position) self.old) }
        ensures limit { (result ≡ Err DecimalError.Limit) ↔ (most_places < fraction_places_to position) }
        ensures only_limit { IfErr result (λ e. e ≡ DecimalError.Limit) }
        ensures unchanged { OnErr result (self.new ≡ self.old) }
    {
        let places = places_down_to(position);
        if places > MOST_PLACES {
            return Err(DecimalError::Limit);
        }
        self.fraction_places = self.fraction_places.max(places);
        Ok(())
    }

    /// Cuts the zeros at the end of the fraction: `1.50` is then `1.5`, and `100.0` is `100`. It
    /// allocates nothing.
    pub fn trim_end(&mut self)
        ensures { IsTrimmed self.old self.new }
    {
        if self.span.is_empty() {
            self.leading_zeros = 0;
            self.fraction_places = 0;
        } else {
            let end = self.leading_zeros + self.span.len() as u16;
            self.fraction_places = end.saturating_sub(self.whole_places);
        }
    }

    /// Rounds to a multiple of `10^position`: `1.257` at -2 is `1.26`, and at -4 `1.2570`; `1257`
    /// at 2 is `1300`. It is written without leading zeros, 0 as one digit, and with a fraction
    /// down to `10^position`, none from position 0 on. Without a sign, `Ceil` is `Expand` and
    /// `Floor` is `Trunc`. `Limit` if a side would have more than 32767 places, as the fraction at
    /// -32768; the number is then unchanged. It allocates nothing.
    pub fn round_with_mode(&mut self, position: i16, mode: RoundingMode) -> Result<(), DecimalError>
        ensures rounded { OnOk result (IsRounded mode position self.old self.new) }
        ensures limit { (result ≡ Err DecimalError.Limit)
            ↔ ((x : Places) × IsRounded mode position self.old x × IsOverLimit x) }
        ensures only_limit { IfErr result (λ e. e ≡ DecimalError.Limit) }
        ensures unchanged { OnErr result (self.new ≡ self.old) }
    {
        let fraction = places_down_to(position) as usize;
        let zeros = zeros_below(position) as usize;
        let above = self.whole_places as usize + fraction;
        let below = self.leading_zeros as usize + zeros;
        let kept = above.saturating_sub(below);
        let gap = below.saturating_sub(above);
        let (end, up) = rounded_end(self.span.as_slice(), kept, gap, mode);
        let places = rounded_places(up, end, kept, zeros);
        let whole = places.saturating_sub(fraction).max(1);
        if whole.max(fraction) > MOST_PLACES as usize {
            return Err(DecimalError::Limit);
        }
        leave_rounded(&mut self.span, end, up);
        self.whole_places = whole as u16;
        self.fraction_places = fraction as u16;
        self.leading_zeros = (whole + fraction - places) as u16;
        Ok(())
    }
}

// How many fraction places reach down to a power of ten.
fn places_down_to(position: i16) -> u16
    ensures { result ≡ fraction_places_to position }
{
    if position < 0 {
        position.unsigned_abs()
    } else {
        0
    }
}

// How many integer places are below a power of ten.
fn zeros_below(position: i16) -> u16
    ensures { result ≡ integer_zeros_below position }
{
    if position < 0 {
        0
    } else {
        position.unsigned_abs()
    }
}
