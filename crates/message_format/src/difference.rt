//! A number less an offset.

ghost use Rattle.std.specs.Prelude.{◌≡◌, ◌↔◌, ◌+◌, ◌-◌, ◌*◌, ◌<◌, ◌≤◌, ◌++◌, length, slice_index, IsTrue, IfOk, OnOk};
ghost use Rattle.fixed_decimal.specs.Digits.{AreDigits, value_of, text_of};
ghost use Rattle.fixed_decimal.specs.Places.{IsWithinLimit};
ghost use Rattle.fixed_decimal.specs.Shown.{fraction_text, decimal_text};
ghost use Rattle.fixed_decimal.specs.Written.{sign_text};
ghost use Rattle.fixed_decimal.specs.declared.decimal.Decimal.{Decimal as SignedNumber};
ghost use Rattle.message_format.specs.FormatOffsets.{IsDifference};
ghost use Rattle.message_format.specs.Inner.FormatColumns.{behind_zeros, lined, IsBorrowed, IsSum, IsDistance, sign_when, decimal_of_digits};

use fixed_decimal::{Decimal, Sign, UnsignedDecimal};
use std::alloc::{AllocError, Global};

// A number, and how many zeros stand before its digits.
#[derive(Clone, Copy)]
struct Aligned<'a> {
    number: &'a UnsignedDecimal,
    before: usize,
}

// The digit in a column, from the highest, and 0 behind the last.
fn digit_in(aligned: Aligned<'_>, column: usize) -> u8
    ensures digit { result ≡ slice_index (behind_zeros aligned.entry) column }
    ensures below { result < 10 }
{
    if column < aligned.before {
        return 0;
    }
    let (digit, _) = aligned.number.number_from(column - aligned.before, 1);
    digit as u8
}

// The digit of a difference, and what is borrowed for it.
fn borrowed(high: u8, low: u8) -> (u8, u8)
    requires high { high < 10 }
    requires low { low ≤ 10 }
    ensures digit { result.0 + low ≡ high + 10 * result.1 }
    ensures below { result.0 < 10 }
    ensures borrow { result.1 ≤ 1 }
{
    if high < low {
        (high + 10 - low, 1)
    } else {
        (high - low, 0)
    }
}

// The last digit of a sum, and what is carried.
fn carried(sum: u8) -> (u8, u8)
    requires { sum < 20 }
    ensures digit { result.0 + 10 * result.1 ≡ sum }
    ensures below { result.0 < 10 }
    ensures carry { result.1 ≤ 1 }
{
    if sum < 10 { (sum, 0) } else { (sum - 10, 1) }
}

// The digits of a difference, and what is borrowed before the first: 1 if it is below 0.
fn digits_less(
    alloc: Global,
    high: Aligned<'_>,
    low: Aligned<'_>,
    columns: usize,
) -> Result<(Vec<u8>, u8), AllocError>
    requires high { length (behind_zeros high) ≤ columns }
    requires low { length (behind_zeros low) ≤ columns }
    ensures { IfOk result (λ r. IsBorrowed (lined columns high.entry) (lined columns low.entry) r.0.items r.1) }
{
    let mut digits = Vec::new(alloc);
    let mut borrow = 0u8;
    let mut left = columns;
    'columns: while left > 0 {
        left -= 1;
        let upper = digit_in(high, left);
        let lower = digit_in(low, left);
        let (digit, next) = borrowed(upper, lower + borrow);
        digits.push(digit)?;
        borrow = next;
    }
    digits.reverse();
    Ok((digits, borrow))
}

// The digits of a sum, of which the first is what is carried.
fn digits_more(
    alloc: Global,
    first: Aligned<'_>,
    second: Aligned<'_>,
    columns: usize,
) -> Result<Vec<u8>, AllocError>
    requires first { length (behind_zeros first) ≤ columns }
    requires second { length (behind_zeros second) ≤ columns }
    ensures { IfOk result (λ r. IsSum (lined columns first.entry) (lined columns second.entry) r.items) }
{
    let mut digits = Vec::new(alloc);
    let mut carry = 0u8;
    let mut left = columns;
    'columns: while left > 0 {
        left -= 1;
        let upper = digit_in(first, left);
        let lower = digit_in(second, left);
        let (digit, next) = carried(upper + lower + carry);
        digits.push(digit)?;
        carry = next;
    }
    digits.push(carry)?;
    digits.reverse();
    Ok(digits)
}

// Whether the difference is below 0 or may be -0, and the digits of its absolute value.
fn distance(
    alloc: Global,
    number: &Decimal,
    offset: &UnsignedDecimal,
) -> Result<(bool, Vec<u8>), AllocError>
    requires number { IsWithinLimit number.now.absolute }
    requires offset { IsWithinLimit offset.now }
    ensures { IfOk result (λ r. IsDistance number.now offset.now r.0 r.1.items) }
{
    let (whole, fraction) = number.absolute.places_after(0);
    let (offset_whole, offset_fraction) = offset.places_after(0);
    let most = whole.max(offset_whole);
    let columns = most + fraction.max(offset_fraction);
    let high = Aligned {
        number: &number.absolute,
        before: most - whole,
    };
    let low = Aligned {
        number: offset,
        before: most - offset_whole,
    };
    if number.sign == Sign::Negative {
        return Ok((true, digits_more(alloc, high, low, columns)?));
    }
    let (digits, borrow) = digits_less(alloc, high, low, columns)?;
    if borrow == 0 {
        return Ok((false, digits));
    }
    let (digits, _) = digits_less(alloc, low, high, columns)?;
    Ok((true, digits))
}

// The digits without zeros before them, but at least this many.
fn without_zeros(digits: &[u8], least: usize) -> &[u8]
    requires digits { AreDigits digits.now }
    requires least { least ≤ length digits.now }
    ensures value { value_of result.now ≡ value_of digits.now }
    ensures digits { AreDigits result.now }
    ensures least { least ≤ length result.now }
    ensures shortest { slice_index result.now 0 ≡ 0 → length result.now ≡ least }
{
    let mut left = digits;
    'zeros: while let [first, rest @ ..] = left {
        if *first != 0 || rest.len() < least {
            return left;
        }
        left = rest;
    }
    left
}

// Whether a digit isn't 0.
fn is_above_zero(digits: &[u8]) -> bool
    ensures { IsTrue result ↔ (0 < value_of digits.now) }
{
    let mut left = digits;
    'zeros: while let [first, rest @ ..] = left {
        if *first != 0 {
            return true;
        }
        left = rest;
    }
    false
}

// Whether a minus stands before the digits.
fn is_negative(below: bool, digits: &[u8]) -> bool
    ensures { IsTrue result ↔ (IsTrue below × (0 < value_of digits.now)) }
{
    below && is_above_zero(digits)
}

// Adds a minus, if there is one.
fn push_sign(text: &mut Vec<u8>, negative: bool) -> Result<(), AllocError>
    ensures { OnOk result (text.new.items ≡ text.old.items ++ sign_text (sign_when negative)) }
{
    if negative {
        text.push(b'-')?;
    }
    Ok(())
}

// Adds the text of digits.
fn push_digits(text: &mut Vec<u8>, digits: &[u8]) -> Result<(), AllocError>
    requires { AreDigits digits.now }
    ensures { OnOk result (text.new.items ≡ text.old.items ++ text_of digits.now) }
{
    let mut left = digits;
    'digits: while let [first, rest @ ..] = left {
        text.push(b'0' + *first)?;
        left = rest;
    }
    Ok(())
}

// Adds a point and the text of the digits behind it, if there are any.
fn push_fraction(text: &mut Vec<u8>, digits: &[u8]) -> Result<(), AllocError>
    requires { AreDigits digits.now }
    ensures { OnOk result (text.new.items ≡ text.old.items ++ fraction_text digits.now) }
{
    if digits.is_empty() {
        return Ok(());
    }
    text.push(b'.')?;
    push_digits(text, digits)
}

// The text of a number with these digits, of which the last are those of the fraction.
fn text_of_number(
    alloc: Global,
    negative: bool,
    digits: &[u8],
    fraction: usize,
) -> Result<Vec<u8>, AllocError>
    requires digits { AreDigits digits.now }
    requires fraction { fraction ≤ length digits.now }
    ensures { IfOk result (λ text. text.items ≡ decimal_text (decimal_of_digits negative fraction digits.now)) }
{
    let (whole, rest) = digits.split_at(digits.len() - fraction);
    let mut text = Vec::new(alloc);
    push_sign(&mut text, negative)?;
    push_digits(&mut text, whole)?;
    push_fraction(&mut text, rest)?;
    Ok(text)
}

// The text of a number less an offset. It allocates the text, and digits of it twice or three
// times.
pub(crate) fn difference(
    alloc: Global,
    number: &Decimal,
    offset: &UnsignedDecimal,
) -> Result<Vec<u8>, AllocError>
    requires number { IsWithinLimit number.now.absolute }
    requires offset { IsWithinLimit offset.now }
    ensures { IfOk result (λ text. (d : SignedNumber) × IsDifference number.now offset.now d × (text.items ≡ decimal_text d)) }
{
    let (below, digits) = distance(alloc, number, offset)?;
    let (_, places) = number.absolute.places_after(0);
    let (_, offset_places) = offset.places_after(0);
    let fraction = places.max(offset_places);
    let shortest = without_zeros(&digits, fraction + 1);
    let negative = is_negative(below, shortest);
    text_of_number(alloc, negative, shortest, fraction)
}
