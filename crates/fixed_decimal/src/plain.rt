//! Numbers that are written plainly.

ghost use Rattle.std.specs.Prelude.{◌≡◌, ◌<◌, ◌≤◌, ◌↔◌, ℕ, List, ◌++◌, length, IsSome, IsTrue, IfSome, IfNone};
ghost use Rattle.std.specs.List.{list_all};
ghost use Rattle.fixed_decimal.specs.Places.{IsWithinLimit, most_places};
ghost use Rattle.fixed_decimal.specs.Written.{CompactNumber, WritesCompact};
ghost use Rattle.fixed_decimal.specs.PlainNumbers.{IsPlain, IsPlainInteger};
ghost use Rattle.fixed_decimal.specs.SameValue.{EqualsWritten};
ghost use Rattle.fixed_decimal.specs.Inner.TextParts.{AllDigitBytes};
ghost use Rattle.fixed_decimal.specs.Inner.PlainSides.{is_zero, IsShortest, IsFraction, EndsDigits};

use crate::digits::{MOST_PLACES, run_end};
use std::marker::Model;

/// The digits of a number that a text writes plainly: without a sign, a needless zero before them
/// and an exponent. They tell whether other texts write the same value, without memory.
#[derive(Debug, Drop)]
pub struct PlainNumber<'s> {
    whole: &'s [u8],
    fraction: &'s [u8],
}

impl<'s> Model for PlainNumber<'s> {
    ghost use Rattle.fixed_decimal.specs.Written.{CompactNumber};

    ghost Value = { CompactNumber };

    ghost use Rattle.fixed_decimal.specs.Inner.PlainSides.{plain_number, AreSides};

    ghost view = { λ a. plain_number a.whole.now a.fraction.now };

    ghost invariant = { λ a. AreSides a.whole.now a.fraction.now };
}

impl<'s> PlainNumber<'s> {
    /// Returns the number of a text that is digits, or digits, `.` and digits, where `0` isn't the
    /// first of several integer digits. It walks the text once. `None` if the text isn't of this
    /// form, or has more than 32767 bytes.
    #[inline(always)]
    pub fn of(text: &'s [u8]) -> Option<PlainNumber<'s>>
        ensures plain { IfSome result (λ x. IsPlain text.now x) }
        ensures number { IfSome result (λ x. WritesCompact text.now x × IsWithinLimit x.significand.absolute × (x.exponent ≤ 255)) }
        ensures none { IfNone result ((x : CompactNumber) → IsPlain text.now x → most_places < length text.now) }
    {
        if text.len() > MOST_PLACES as usize {
            return None;
        }
        let (whole, rest) = split_digits(text);
        if !is_shortest(whole) {
            return None;
        }
        let fraction = fraction_of(rest)?;
        Some(PlainNumber { whole, fraction })
    }

    /// Returns whether a text writes a number of the same value. `None` if the text isn't that of a
    /// plain number without a fraction.
    #[inline]
    pub fn same_value(&self, written: &[u8]) -> Option<bool>
        ensures integer { IsSome result ↔ IsPlainInteger written.now }
        ensures same { IfSome result (λ same. IsTrue same ↔ EqualsWritten self.now written.now) }
    {
        let (number, behind) = split_digits(written);
        if !behind.is_empty() || !is_shortest(number) {
            return None;
        }
        Some(self.whole == number && are_zeros(self.fraction))
    }
}

// The digits of a fraction, behind its point, and none if nothing is written.
#[inline(always)]
fn fraction_of(text: &[u8]) -> Option<&[u8]>
    ensures digits { IfSome result (λ f. AllDigitBytes f.now) }
    ensures form { IfSome result (λ f. IsFraction text.now f.now) }
    ensures none { IfNone result ((f : List ℕ) → AllDigitBytes f → ¬ (IsFraction text.now f)) }
{
    let [point, after @ ..] = text else {
        return Some(text);
    };
    let (fraction, behind) = split_digits(after);
    if *point != b'.' || fraction.is_empty() || !behind.is_empty() {
        return None;
    }
    Some(fraction)
}

// The digits at the front, as many as there are, and the rest.
#[inline(always)]
fn split_digits(text: &[u8]) -> (&[u8], &[u8])
    ensures digits { AllDigitBytes result.0.now }
    ensures end { EndsDigits result.1.now }
    ensures whole { text.now ≡ result.0.now ++ result.1.now }
{
    text.split_at(run_end(text, 0))
}

// Whether there are digits, and 0 is the first only if it is the only one.
#[inline(always)]
fn is_shortest(digits: &[u8]) -> bool
    ensures { IsTrue result ↔ IsShortest digits.now }
{
    match digits {
        [] => false,
        [_] => true,
        [first, ..] => *first != b'0',
    }
}

// Whether each byte is the digit 0.
#[inline(always)]
fn are_zeros(text: &[u8]) -> bool
    ensures { result ≡ list_all is_zero text.now }
{
    text.iter().all(|byte| *byte == b'0')
}
