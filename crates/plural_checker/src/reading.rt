//! Samples read as numbers.

ghost use Rattle.std.specs.Prelude.{◌≡◌, ◌+◌, ◌++◌, ◌≤◌, codes, length, None, Some, if◌then◌else◌, IfOk, MatchOption, OnOk, string_bytes};
ghost use Rattle.icu_plurals.specs.Operands.{all_digits_value};
ghost use Rattle.plural_checker.specs.SampleNumbers.{GivesSampleNumber, text_with_c, has_many_digits, parts_of, fraction_places};

use icu_plurals::provider::rules::reference::ast::DecimalValue;
use icu_plurals::{CompactDecimal, DecimalError, UnsignedDecimal};
use std::alloc::{AllocError, Global};

// The most digits that an end of a range may have.
pub(crate) const MOST_DIGITS: usize = 18;

// The number that a sample writes, or why it writes none.
pub(crate) fn read_sample(
    alloc: Global,
    sample: &DecimalValue,
) -> Result<Result<CompactDecimal, DecimalError>, AllocError>
    ensures { IfOk result (λ answer. GivesSampleNumber (text_with_c sample.now) answer) }
{
    let text = compact_text(alloc, sample)?;
    read_number(alloc, text.0.as_str())
}

// The sample's text, with `c` in place of an `e`.
pub(crate) fn compact_text(alloc: Global, sample: &DecimalValue) -> Result<DecimalValue, AllocError>
    ensures { IfOk result (λ text. text ≡ text_with_c sample.now) }
{
    let Some((before, after)) = split_at_e(sample) else {
        return sample.try_clone();
    };
    let mut compact = String::new(alloc);
    push_compact(before, after, &mut compact).and(Ok(DecimalValue(compact)))
}

// What stands before and behind the sample's `e`, if it has one.
pub(crate) fn split_at_e(sample: &DecimalValue) -> Option<(&str, &str)>
    ensures { MatchOption result (text_with_c sample.now ≡ sample.now)
        (λ parts. text_with_c sample.now ≡ parts.0.now ++ codes "c" ++ parts.1.now) }
{
    // Few samples have one, and bytes are looked through faster than characters.
    let text = sample.0.as_str();
    if !text.as_bytes().contains(&b'e') {
        return None;
    }
    text.split_once('e')
}

// Appends what stands before an `e`, `c`, and what stands behind it.
fn push_compact(before: &str, after: &str, compact: &mut String) -> Result<(), AllocError>
    ensures { OnOk result (string_bytes compact.new ≡ string_bytes compact.old ++ before.now ++ codes "c" ++ after.now) }
{
    compact.push_str(before)?;
    compact.push_str("c")?;
    compact.push_str(after)
}

// The number that a text writes, or why it writes none.
pub(crate) fn read_number(
    alloc: Global,
    text: &str,
) -> Result<Result<CompactDecimal, DecimalError>, AllocError>
    ensures { IfOk result (λ answer. GivesSampleNumber text.now answer) }
{
    match CompactDecimal::from_str(alloc, text) {
        Ok(number) => Ok(Ok(number)),
        Err(DecimalError::Syntax) => Ok(Err(DecimalError::Syntax)),
        Err(DecimalError::Limit) => Ok(Err(DecimalError::Limit)),
        Err(DecimalError::Memory) => Err(AllocError),
    }
}

// How many fraction digits a number shows.
pub(crate) fn places_of(number: &CompactDecimal) -> usize
    ensures { result ≡ fraction_places number.now }
{
    number.significand().absolute.places_after(0).1
}

// The number that all digits write, if there are at most 18.
pub(crate) fn parts_of(number: &CompactDecimal) -> Option<u64>
    ensures { result ≡ (if has_many_digits number.now then None else Some (parts_of number.now)) }
{
    let digits = &number.significand().absolute;
    let (whole, fraction) = digits.places_after(0);
    if whole > MOST_DIGITS || fraction > MOST_DIGITS - whole {
        return None;
    }
    Some(value_of_all(digits, whole + fraction))
}

// The number that all digits write, given their count.
fn value_of_all(digits: &UnsignedDecimal, count: usize) -> u64
    requires all { count ≡ length digits.now.whole + length digits.now.fraction }
    requires few { count ≤ MOST_DIGITS }
    ensures { result ≡ all_digits_value digits.now }
{
    let (kept, zeros) = digits.number_from(0, count);
    kept * 10_u64.pow(zeros as u32)
}
