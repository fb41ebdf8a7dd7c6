//! The integer that a text of digits writes.

ghost use Rattle.std.specs.Prelude.{◌≤◌, ℕ, IfNone, IfSome};
ghost use Rattle.fixed_decimal.specs.Places.{IsWithinLimit};
ghost use Rattle.fixed_decimal.specs.Written.{CompactNumber, WritesCompact, IsCompactOverLimit};
ghost use Rattle.plural_operands.specs.OperandText.{WritesInteger};
ghost use Rattle.plural_operands.specs.Operands.{AreKept, of_whole};

use crate::operands::short_text::short_front;
use fixed_decimal::laws::texts_write_one_number;

/// Returns the integer that a text of 1 to 18 digits writes, and `None` for every other text. Its
/// operands are those that [`PluralOperands::from_compact_text`](crate::PluralOperands::from_compact_text)
/// returns.
#[inline(always)]
pub fn integer_of_text(text: &str) -> Option<u64>
    ensures some { IfSome result (λ n. WritesInteger text.now n) }
    ensures none { IfNone result ((n : ℕ) → ¬ (WritesInteger text.now n)) }
    ensures kept { IfSome result (λ n. (x : CompactNumber) × WritesCompact text.now x
        × IsWithinLimit x.significand.absolute × (x.exponent ≤ 255)
        × AreKept x.significand.absolute x.exponent (of_whole n)) }
    ensures limit { IfSome result (λ n.
        ¬ ((x : CompactNumber) × WritesCompact text.now x × IsCompactOverLimit x)) }
{
    texts_write_one_number();
    let (number, rest) = short_front(text.as_bytes());
    if text.is_empty() || !rest.is_empty() {
        return None;
    }
    Some(number)
}
