//! Numbers of the same value.

ghost use Rattle.std.specs.Prelude.{◌≡◌, ◌↔◌, ◌<◌, ◌≤◌, ◌<ℤ◌, ◌≤ℤ◌, ◌-ℤ◌, ℤ, ℕ, pos, neg_ℤ, IsTrue, IfOk, IfSome, IfNone, Err};
ghost use Rattle.fixed_decimal.specs.Places.{digit_at, IsWithinLimit};
ghost use Rattle.fixed_decimal.specs.SameValue.{digit_of, HaveSameDigits, IsBelowZero, HaveSameValue, EqualsWritten};
ghost use Rattle.fixed_decimal.specs.Written.{CompactNumber, WritesCompact, IsCompactOverLimit};
ghost use Rattle.message_format.specs.FormatBranches.{Equals};
ghost use Rattle.message_format.specs.Inner.FormatViews.{IsZeroOutside, IsSpanOf};

use crate::source::Chooser;
use fixed_decimal::laws::texts_write_one_number;
use fixed_decimal::{CompactDecimal, DecimalError, Sign, UnsignedDecimal};
use message_pattern::Selector;
use std::alloc::{AllocError, Global};

// The number that a text writes.
pub(crate) fn number_of_text(alloc: Global, text: &[u8]) -> Result<CompactDecimal, DecimalError>
    ensures number { IfOk result (λ x. WritesCompact text.now x × IsWithinLimit x.significand.absolute × (x.exponent ≤ 255)) }
    ensures syntax { (result ≡ Err DecimalError.Syntax) → ((x : CompactNumber) → ¬ (WritesCompact text.now x)) }
    ensures limit { (result ≡ Err DecimalError.Limit) → ((x : CompactNumber) × WritesCompact text.now x × IsCompactOverLimit x) }
{
    match std::str::from_utf8(text) {
        Ok(text) => CompactDecimal::from_str(alloc, text),
        Err(_) => Err(DecimalError::Syntax),
    }
}

// The powers of ten outside which all digits are 0.
fn powers_of(number: &CompactDecimal) -> (i32, i32)
    ensures outside { IsZeroOutside number.now result.0 result.1 }
    ensures low { neg_ℤ (pos 32767) ≤ℤ result.0 }
    ensures ordered { result.0 ≤ℤ result.1 }
    ensures high { result.1 ≤ℤ pos 33022 }
{
    let (low, high) = number.significand().absolute.magnitude_range();
    let exponent = i32::from(number.exponent());
    (i32::from(low) + exponent, i32::from(high) + exponent)
}

// The digit at a power of ten, and 0 outside the written places.
fn digit_at(digits: &UnsignedDecimal, power: i32) -> u8
    ensures { result ≡ digit_at digits.now power }
{
    let (low, high) = digits.magnitude_range();
    if power < i32::from(low) || i32::from(high) < power {
        return 0;
    }
    match i16::try_from(power) {
        Ok(power) => digits.digit_at(power),
        Err(_) => 0,
    }
}

// The digit at a power of ten, after the point has moved by the exponent.
fn digit_of(number: &CompactDecimal, power: i32) -> u8
    requires low { neg_ℤ (pos 32767) ≤ℤ power }
    requires high { power ≤ℤ pos 33022 }
    ensures { result ≡ digit_of number.now power }
{
    let digits = &number.significand().absolute;
    digit_at(digits, power - i32::from(number.exponent()))
}

// The powers of ten of a number's lowest and highest digit other than 0.
#[derive(Clone, Copy)]
pub(crate) struct Span {
    low: i32,
    high: i32,
}

// The span of a number without such a digit.
const NO_DIGIT: Span = Span {
    low: 33023,
    high: -32768,
};

// The lowest power of ten whose digit isn't 0.
fn lowest_digit(number: &CompactDecimal) -> Option<i32>
    ensures below { IfSome result (λ low. (k : ℤ) → k <ℤ low → digit_of number.now k ≡ 0) }
    ensures digit { IfSome result (λ low. 0 < digit_of number.now low) }
    ensures least { IfSome result (λ low. neg_ℤ (pos 32767) ≤ℤ low) }
    ensures none { IfNone result ((k : ℤ) → digit_of number.now k ≡ 0) }
{
    let (low, high) = powers_of(number);
    for power in low..high + 1 {
        if digit_of(number, power) != 0 {
            return Some(power);
        }
    }
    None
}

// The highest power of ten whose digit isn't 0: this one, or one above it.
fn highest_digit(number: &CompactDecimal, low: i32) -> i32
    requires least { neg_ℤ (pos 32767) ≤ℤ low }
    requires digit { 0 < digit_of number.now low }
    ensures above { (k : ℤ) → result <ℤ k → digit_of number.now k ≡ 0 }
    ensures digit { 0 < digit_of number.now result }
{
    let (_, high) = powers_of(number);
    let mut top = low;
    for power in low..high + 1 {
        if digit_of(number, power) != 0 {
            top = power;
        }
    }
    top
}

// The span of a number's digits other than 0.
pub(crate) fn span_of(number: &CompactDecimal) -> Span
    ensures { IsSpanOf number.now result.low result.high }
{
    match lowest_digit(number) {
        Some(low) => Span {
            low,
            high: highest_digit(number, low),
        },
        None => NO_DIGIT,
    }
}

// Whether the digits are the same at each power of ten. It looks at those of the other number, and
// at no more.
fn has_same_digits(number: &CompactDecimal, span: Span, other: &CompactDecimal) -> bool
    requires { IsSpanOf number.now span.low span.high }
    ensures { IsTrue result ↔ HaveSameDigits number.now other.now }
{
    let (other_low, other_high) = powers_of(other);
    if other_high < span.high {
        return false;
    }
    for power in span.low.min(other_low)..other_high + 1 {
        if digit_of(number, power) != digit_of(other, power) {
            return false;
        }
    }
    true
}

// Whether the sign is a minus, and a digit isn't 0.
fn is_below_zero(number: &CompactDecimal) -> bool
    ensures { IsTrue result ↔ IsBelowZero number.now }
{
    let digits = &number.significand().absolute;
    let (low, _) = digits.magnitude_range();
    number.significand().sign == Sign::Negative && digits.has_digit_from(low)
}

// Whether the numbers have the same value.
fn has_same_value(number: &CompactDecimal, span: Span, other: &CompactDecimal) -> bool
    requires { IsSpanOf number.now span.low span.high }
    ensures { IsTrue result ↔ HaveSameValue number.now other.now }
{
    is_below_zero(number) == is_below_zero(other) && has_same_digits(number, span, other)
}

// Whether a text writes a number of the same value.
fn equals_written(
    alloc: Global,
    number: &CompactDecimal,
    span: Span,
    written: &[u8],
) -> Result<bool, AllocError>
    requires { IsSpanOf number.now span.low span.high }
    ensures { IfOk result (λ same. IsTrue same ↔ EqualsWritten number.now written.now) }
{
    // Another number that the text writes would be the same.
    texts_write_one_number();
    match number_of_text(alloc, written) {
        Ok(other) => Ok(has_same_value(number, span, &other)),
        Err(DecimalError::Syntax) => Ok(false),
        Err(DecimalError::Limit) => Ok(false),
        Err(DecimalError::Memory) => Err(AllocError),
    }
}

// A number, which chooses the branch of its value.
#[derive(Clone, Copy)]
pub(crate) struct Compared<'n> {
    alloc: Global,
    number: &'n CompactDecimal,
    span: Span,
}

impl<'n> Compared<'n> {
    // The number with its span.
    pub(crate) fn of(alloc: Global, number: &'n CompactDecimal) -> Self
        ensures number { result.number.now ≡ number.now }
        ensures span { IsSpanOf result.number.now result.span.low result.span.high }
    {
        let span = span_of(number);
        Compared {
            alloc,
            number,
            span,
        }
    }
}

impl<'n> Chooser for Compared<'n> {
    type Stop = AllocError;

    ghost IsReady = { λ it. IsSpanOf it.number.now it.span.low it.span.high };

    ghost IsChosen = { λ it selector. Equals it.number.now selector };

    fn chooses(&self, selector: Selector<'_>) -> Result<bool, AllocError> {
        match selector {
            Selector::Exactly(written) => equals_written(
                self.alloc,
                self.number,
                self.span,
                written,
            ),
            Selector::Keyword(_) => Ok(false),
        }
    }
}
