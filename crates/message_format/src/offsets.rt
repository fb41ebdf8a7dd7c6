//! A plural with an offset.

ghost use Rattle.std.specs.Prelude.{◌≡◌, IfOk, Err};
ghost use Rattle.fixed_decimal.specs.Places.{Places, IsWithinLimit, IsOverLimit};
ghost use Rattle.fixed_decimal.specs.Written.{WritesUnsigned};
ghost use Rattle.fixed_decimal.specs.declared.decimal.Decimal.{Decimal as SignedNumber};
ghost use Rattle.message_format.specs.FormatParts.{branches_at};
ghost use Rattle.message_format.specs.FormatOffsets.{IsDifference};
ghost use Rattle.message_format.specs.FormatSteps.{IsCountedBy, IsLess, IsCountedLess};
ghost use Rattle.message_format.specs.Inner.FormatViews.{GivesStep, ChoosesWithin};

use crate::branches::branch_of_number;
use crate::difference::difference;
use crate::error::{ArgumentFault, FormatError};
use crate::numbers::number_of_text;
use crate::shown::Shown;
use crate::source::{Found, MessageParts};
use crate::text_rules::TextRules;
use fixed_decimal::laws::{numbers_are_read_again, texts_write_one_number};
use fixed_decimal::{CompactDecimal, DecimalError, UnsignedDecimal};
use std::alloc::Global;

// The offset that digits write.
fn offset_of(alloc: Global, digits: &[u8]) -> Result<UnsignedDecimal, DecimalError>
    ensures number { IfOk result (λ o. WritesUnsigned digits.now o × IsWithinLimit o) }
    ensures syntax { (result ≡ Err DecimalError.Syntax) → ((o : Places) → ¬ (WritesUnsigned digits.now o)) }
    ensures limit { (result ≡ Err DecimalError.Limit) → ((o : Places) × WritesUnsigned digits.now o × IsOverLimit o) }
{
    match std::str::from_utf8(digits) {
        Ok(text) => UnsignedDecimal::from_str(alloc, text),
        Err(_) => Err(DecimalError::Syntax),
    }
}

// A plural of a number, by the number less an offset.
fn counted_by<'s, 'p, R: TextRules, P: MessageParts<'p>>(
    alloc: Global,
    rules: &R,
    name: &'p [u8],
    offset: &UnsignedDecimal,
    argument: P,
    number: &CompactDecimal,
) -> Result<(Shown<'s>, Found<P>), FormatError<'p>>
    requires number { IsWithinLimit number.now.significand.absolute }
    requires offset { IsWithinLimit offset.now }
    ensures step { GivesStep P.parts (λ step. (less : SignedNumber) × IsDifference number.now.significand offset.now less
        × IsCountedBy (R.rules rules.now) name.now (branches_at (P.parts argument)) number.now less step) result }
    ensures within { ChoosesWithin P.parts (P.parts argument) result }
{
    numbers_are_read_again();
    texts_write_one_number();
    let text = difference(alloc, number.significand(), offset)?;
    match number_of_text(alloc, &text) {
        Ok(less) => {
            let found = branch_of_number(alloc, rules, number, &less, argument)?;
            Ok((Shown::Less(text), found))
        }
        Err(error) => Err(FormatError::of_number(name, error)),
    }
}

// A plural of a number, with the digits of an offset.
fn less<'s, 'p, R: TextRules, P: MessageParts<'p>>(
    alloc: Global,
    rules: &R,
    name: &'p [u8],
    digits: &[u8],
    argument: P,
    number: &CompactDecimal,
) -> Result<(Shown<'s>, Found<P>), FormatError<'p>>
    requires { IsWithinLimit number.now.significand.absolute }
    ensures step { GivesStep P.parts (λ step. IsLess (R.rules rules.now) name.now (branches_at (P.parts argument)) digits.now number.now step) result }
    ensures within { ChoosesWithin P.parts (P.parts argument) result }
{
    if number.exponent() != 0 {
        return Err(FormatError::Argument(ArgumentFault::CompactOffset, name));
    }
    match offset_of(alloc, digits) {
        Ok(offset) => counted_by(alloc, rules, name, &offset, argument, number),
        Err(error) => Err(FormatError::of_number(name, error)),
    }
}

// A plural with an offset, of the text of a number.
#[inline(never)]
pub(crate) fn counted_less<'s, 'p, R: TextRules, P: MessageParts<'p>>(
    alloc: Global,
    rules: &R,
    name: &'p [u8],
    digits: &[u8],
    argument: P,
    text: &str,
) -> Result<(Shown<'s>, Found<P>), FormatError<'p>>
    ensures step { GivesStep P.parts (λ step. IsCountedLess (R.rules rules.now) name.now (branches_at (P.parts argument)) digits.now text.now step) result }
    ensures within { ChoosesWithin P.parts (P.parts argument) result }
{
    match CompactDecimal::from_str(alloc, text) {
        Ok(number) => less(alloc, rules, name, digits, argument, &number),
        Err(error) => Err(FormatError::of_number(name, error)),
    }
}
