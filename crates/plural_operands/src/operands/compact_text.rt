//! The operands of the number that a text writes.

ghost use Rattle.std.specs.Prelude.{◌≡◌, ◌≢◌, ◌≤◌, ◌↔◌, length, Err, IfOk};
ghost use Rattle.fixed_decimal.specs.Places.{IsWithinLimit};
ghost use Rattle.fixed_decimal.specs.Written.{CompactNumber, WritesCompact, IsCompactOverLimit};
ghost use Rattle.plural_operands.specs.Operands.{AreKept};

use crate::operands::PluralOperands;
use crate::operands::short_text::short_operands;
use fixed_decimal::laws::texts_write_one_number;
use fixed_decimal::{CompactDecimal, DecimalError};
use std::alloc::Global;

impl PluralOperands {
    /// Returns the operands of the number that a text writes, as those of the
    /// [`CompactDecimal`] that [`CompactDecimal::from_str`] reads, and its errors: `Syntax` if the
    /// text isn't of this form, `Limit` if it has more than 32767 places on a side or an exponent
    /// above 255, and `Memory` if the digits can't be allocated, never of a text of at most 16
    /// bytes. A text of at most 18 digits on each side of the point allocates nothing if it has no
    /// exponent, or one of at most two digits that leaves at most 18 integer places.
    #[inline(always)]
    pub fn from_compact_text(alloc: Global, text: &str) -> Result<PluralOperands, DecimalError>
        ensures kept { IfOk result (λ o. (x : CompactNumber) × WritesCompact text.now x
            × IsWithinLimit x.significand.absolute × (x.exponent ≤ 255)
            × AreKept x.significand.absolute x.exponent o) }
        ensures syntax { (result ≡ Err DecimalError.Syntax)
            ↔ ((x : CompactNumber) → ¬ (WritesCompact text.now x)) }
        ensures limit { (result ≡ Err DecimalError.Limit)
            ↔ ((x : CompactNumber) × WritesCompact text.now x × IsCompactOverLimit x) }
        ensures inline { length text.now ≤ 16 → result ≢ Err DecimalError.Memory }
    {
        texts_write_one_number();
        match short_operands(text.as_bytes()) {
            Some(operands) => Ok(operands),
            None => long_operands(alloc, text),
        }
    }
}

// The same by the number itself.
#[inline(never)]
fn long_operands(alloc: Global, text: &str) -> Result<PluralOperands, DecimalError>
    ensures kept { IfOk result (λ o. (x : CompactNumber) × WritesCompact text.now x
        × IsWithinLimit x.significand.absolute × (x.exponent ≤ 255)
        × AreKept x.significand.absolute x.exponent o) }
    ensures syntax { (result ≡ Err DecimalError.Syntax)
        ↔ ((x : CompactNumber) → ¬ (WritesCompact text.now x)) }
    ensures limit { (result ≡ Err DecimalError.Limit)
        ↔ ((x : CompactNumber) × WritesCompact text.now x × IsCompactOverLimit x) }
    ensures inline { length text.now ≤ 16 → result ≢ Err DecimalError.Memory }
{
    match CompactDecimal::from_str(alloc, text) {
        Ok(number) => Ok(PluralOperands::from(&number)),
        Err(error) => Err(error),
    }
}
