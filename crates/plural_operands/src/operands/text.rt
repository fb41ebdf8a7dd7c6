//! The operands that texts name.

ghost use Rattle.std.specs.Prelude.{◌≡◌, ◌+◌, ◌*◌, ◌^◌, ◌<◌, ◌≤◌, ℕ, List, length, IfSome, IfNone};
ghost use Rattle.fixed_decimal.specs.Digits.{value_of};
ghost use Rattle.plural_operands.specs.OperandText.{WritesCount, WritesExponent, WritesUnsignedOperands, ReadsOperands};
ghost use Rattle.plural_operands.specs.Inner.OperandReader.{IsReading, HasCount, HasWord, WritesBehindPoint, without_sign};

use crate::operands::{OperandsError, PluralOperands};
use std::str::FromStr;

/// Reads an optional `-`, an integer, optionally `.` and a fraction, and optionally `e` and an
/// exponent.
///
/// The integer and the exponent are digits, which may follow a `+`; the fraction is digits. Each is
/// at most 18446744073709551615 as a number. The sign has no effect, all of the integer is kept,
/// and nothing is moved by the exponent. `Empty` for the empty text, `Invalid` for every other text
/// that isn't of this form. It allocates nothing.
///
/// <!-- snippet crates/tests_libraries/src/tests/plural_reference_examples.rt:
/// example "holds!(rt; """ to "holds!(rt; """ of fn an_empty_text_names_none -->
/// ```
/// assert!(rt; "".parse::<PluralOperands>() == Err(OperandsError::Empty));
/// ```
impl FromStr for PluralOperands {
    type Err = OperandsError;

    ghost from_str_gives = { ReadsOperands };

    fn from_str(text: &str) -> Result<PluralOperands, OperandsError> {
        let text = text.as_bytes();
        if text.is_empty() {
            return Err(OperandsError::Empty);
        }
        match read_unsigned(behind_sign(b'-', text)) {
            Some(operands) => Ok(operands),
            None => Err(OperandsError::Invalid),
        }
    }
}

// What a text without `-` names.
fn read_unsigned(text: &[u8]) -> Option<PluralOperands>
    ensures { IsReading (WritesUnsignedOperands text.now) result }
{
    let (i, rest) = read_count(text)?;
    match rest {
        [b'.', rest @ ..] => read_fraction(i, rest),
        _ => Some(PluralOperands::from_parts(i, 0, 0, read_exponent(rest)?)),
    }
}

// As `read_unsigned`, after an integer and its point.
#[inline]
fn read_fraction(i: u64, text: &[u8]) -> Option<PluralOperands>
    ensures { IsReading (WritesBehindPoint i text.now) result }
{
    let (f, v, rest) = read_digits(text)?;
    Some(PluralOperands::from_parts(i, v, f, read_exponent(rest)?))
}

// Nothing, for 0, or `e` and a count.
#[inline]
fn read_exponent(text: &[u8]) -> Option<usize>
    ensures { IsReading (WritesExponent text.now) result }
{
    match text {
        [] => Some(0),
        [b'e', rest @ ..] => read_last_count(rest),
        _ => None,
    }
}

// A count that ends the text.
fn read_last_count(text: &[u8]) -> Option<usize>
    ensures { IsReading (WritesCount text.now) result }
{
    let (count, rest) = read_count(text)?;
    if rest.is_empty() {
        Some(count as usize)
    } else {
        None
    }
}

// The count at the front, digits that may follow a `+`, and the rest.
#[inline]
fn read_count(text: &[u8]) -> Option<(u64, &[u8])>
    ensures found { IfSome result (λ r. HasCount text.now r.0 r.1.now) }
    ensures none { IfNone result ((n : ℕ) (rest : List ℕ) → ¬ (HasCount text.now n rest)) }
{
    let (number, _, rest) = read_digits(behind_sign(b'+', text))?;
    Some((number, rest))
}

// The text after a sign, or the whole text if it hasn't that sign.
#[inline]
fn behind_sign(sign: u8, text: &[u8]) -> &[u8]
    ensures { result.now ≡ without_sign sign text.now }
{
    match text {
        [first, rest @ ..] if *first == sign => rest,
        _ => text,
    }
}

// The number that all digits at the front write, how many they are, and the rest.
#[inline]
fn read_digits(text: &[u8]) -> Option<(u64, usize, &[u8])>
    ensures found { IfSome result (λ r.
        (ds : List ℕ) × HasWord text.now ds r.2.now × (r.0 ≡ value_of ds) × (r.1 ≡ length ds)) }
    ensures none { IfNone result ((ds rest : List ℕ) → ¬ (HasWord text.now ds rest)) }
{
    let mut number = 0;
    let mut rest = text;
    while let [digit, after @ ..] = rest {
        if !digit.is_ascii_digit() {
            break;
        }
        number = with_digit(number, *digit - b'0')?;
        rest = after;
    }
    let count = text.len() - rest.len();
    if count == 0 {
        return None;
    }
    Some((number, count, rest))
}

// A number with one more digit, if it fits 64 bits.
#[inline]
fn with_digit(number: u64, digit: u8) -> Option<u64>
    ensures some { IfSome result (λ n. n ≡ number * 10 + digit) }
    ensures none { IfNone result (2 ^ 64 ≤ number * 10 + digit) }
{
    number.checked_mul(10)?.checked_add(u64::from(digit))
}
