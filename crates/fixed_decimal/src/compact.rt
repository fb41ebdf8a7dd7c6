//! Decimals with a compact exponent.

ghost use Rattle.std.specs.Prelude.{◌≡◌, ◌≢◌, ◌≤◌, ◌↔◌, length, Err, IfOk};
ghost use Rattle.fixed_decimal.specs.Places.{IsWithinLimit};
ghost use Rattle.fixed_decimal.specs.Written.{CompactNumber, WritesCompact, IsCompactOverLimit};

use crate::decimal::parts_within;
use crate::exponent::split_exponent;
use crate::{Decimal, DecimalError, UnsignedDecimal};
use std::alloc::Global;
use std::marker::Model;

/// A decimal and a compact exponent: the power of ten after the `c` of its text (UTS 35 Part 3,
/// Language Plural Rules, operands c and e).
///
/// <!-- snippet crates/example_calls/src/calls/numbers.rt: body of fn print_compact -->
/// ```
/// let number = CompactDecimal::from_str(alloc, "1.2c6")?;
/// let digit = number.significand().absolute.digit_at(-1);
/// println!(rt; "exponent {}, tenths {digit}", number.exponent())?;
/// ```
///
/// This prints
///
/// <!-- snippet crates/example_calls/stdout: section a compact decimal -->
/// ```text
/// exponent 6, tenths 2
/// ```
#[derive(Debug, Drop)]
pub struct CompactDecimal {
    significand: Decimal,
    exponent: u8,
}

impl Model for CompactDecimal {
    ghost Value = { CompactNumber };

    ghost view = { λ a. record { significand = a.significand; exponent = a.exponent } };
}

impl CompactDecimal {
    /// Returns the number that a text writes: a decimal, then nothing, or `c` and one to three
    /// digits. The whole text is judged before anything is allocated: `Syntax` if it isn't of this
    /// form, `Limit` if it has more than 32767 places on a side or an exponent above 255, and
    /// `Memory` if the digits can't be allocated, never of a text of at most 16 bytes.
    pub fn from_str(alloc: Global, text: &str) -> Result<CompactDecimal, DecimalError>
        ensures number { IfOk result (λ x.
            WritesCompact text.now x
            × IsWithinLimit x.significand.absolute × (x.exponent ≤ 255)) }
        ensures syntax { (result ≡ Err DecimalError.Syntax)
            ↔ ((x : CompactNumber) → ¬ (WritesCompact text.now x)) }
        ensures limit { (result ≡ Err DecimalError.Limit)
            ↔ ((x : CompactNumber) × WritesCompact text.now x × IsCompactOverLimit x) }
        ensures inline { length text.now ≤ 16 → result ≢ Err DecimalError.Memory }
    {
        let Some((front, exponent)) = split_exponent(text.as_bytes()) else {
            return Err(DecimalError::Syntax);
        };
        let (sign, digits, point) = parts_within(front)?;
        let Ok(exponent) = u8::try_from(exponent) else {
            return Err(DecimalError::Limit);
        };
        let absolute = UnsignedDecimal::from_point(alloc, digits, point)?;
        Ok(CompactDecimal {
            significand: Decimal { sign, absolute },
            exponent,
        })
    }

    /// Returns the number of the two parts.
    pub fn from_parts(significand: Decimal, exponent: u8) -> CompactDecimal
        ensures { result ≡ record { significand = significand; exponent = exponent } }
    {
        CompactDecimal {
            significand,
            exponent,
        }
    }

    /// Returns the decimal before the `c`, not yet multiplied by the power of ten.
    #[inline]
    pub fn significand(&self) -> &Decimal
        ensures { result.now ≡ self.now.significand }
    {
        &self.significand
    }

    /// Returns the power of ten after the `c`, and 0 if none is written.
    #[inline]
    pub fn exponent(&self) -> u8
        ensures { result ≡ self.now.exponent }
    {
        self.exponent
    }
}
