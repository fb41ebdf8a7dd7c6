//! The digits that a text writes before and after its point, and the span of those that are stored.

ghost use Rattle.std.specs.Prelude.{◌≡◌, ◌≢◌, ◌+◌, ◌-◌, ◌<◌, ◌≤◌, ◌++◌, length, take, drop, slice_index, IfOk, IsOk};
ghost use Rattle.smallvec.specs.SmallVec.{small_vec_len, HasRoomFor};
ghost use Rattle.fixed_decimal.specs.Inner.TextParts.{AllDigitBytes, AreZeroBytes, AreZeros, written_digits, digits_in};

use smallvec::SmallVec;
use std::alloc::{AllocError, Global};

// The most digits that are stored in the number itself, without an allocation.
pub(crate) const INLINE_DIGITS: usize = 16;

// How many zeros are before the first other digit, counting the one that is written for no integer
// digits.
pub(crate) fn zeros_before(whole: &[u8], fraction: &[u8]) -> usize
    requires whole { AllDigitBytes whole.now }
    requires fraction { AllDigitBytes fraction.now }
    ensures most { result ≤ length (written_digits whole.now fraction.now) }
    ensures zeros { AreZeros (written_digits whole.now fraction.now) 0 result }
    ensures other { result < length (written_digits whole.now fraction.now)
        → slice_index (written_digits whole.now fraction.now) result ≢ 0 }
    ensures no_digit { length whole.now ≡ 0 → 0 < result }
{
    let zeros = zeros_at_front(whole);
    if zeros < whole.len() {
        zeros
    } else {
        whole.len().max(1) + zeros_at_front(fraction)
    }
}

// The end of what is before the last zeros, from an index on.
pub(crate) fn end_before_zeros(whole: &[u8], fraction: &[u8], from: usize) -> usize
    requires whole { AllDigitBytes whole.now }
    requires fraction { AllDigitBytes fraction.now }
    requires inside { from ≤ length (written_digits whole.now fraction.now) }
    ensures least { from ≤ result }
    ensures most { result ≤ length (written_digits whole.now fraction.now) }
    ensures zeros { AreZeros (written_digits whole.now fraction.now) result
        (length (written_digits whole.now fraction.now)) }
    ensures other { from < result → slice_index (written_digits whole.now fraction.now) (result - 1) ≢ 0 }
{
    let end = end_before_last_zeros(fraction);
    let end = if end > 0 {
        whole.len().max(1) + end
    } else {
        end_before_last_zeros(whole)
    };
    end.max(from)
}

// The digits between two indices.
#[inline(always)]
pub(crate) fn digits_between(
    alloc: Global,
    whole: &[u8],
    fraction: &[u8],
    from: usize,
    end: usize,
) -> Result<SmallVec<u8, INLINE_DIGITS>, AllocError>
    requires whole { AllDigitBytes whole.now }
    requires fraction { AllDigitBytes fraction.now }
    requires order { from ≤ end }
    requires inside { end ≤ length (written_digits whole.now fraction.now) }
    requires no_digit { length whole.now ≡ 0 → 0 < from }
    ensures digits { IfOk result (λ v. v.items ≡ drop from (take end (written_digits whole.now fraction.now))) }
    ensures inline { end - from ≤ INLINE_DIGITS → IsOk result }
{
    let mut digits = SmallVec::with_capacity(alloc, end - from)?;
    let places = whole.len();
    push_digits(&mut digits, &whole[from.min(places)..end.min(places)]);
    let places = places.max(1);
    push_digits(
        &mut digits,
        &fraction[from.saturating_sub(places)..end.saturating_sub(places)],
    );
    Ok(digits)
}

// Appends the digits of a text, for which there is room.
fn push_digits(digits: &mut SmallVec<u8, INLINE_DIGITS>, text: &[u8])
    requires text { AllDigitBytes text.now }
    requires room { HasRoomFor digits.old (length text.now) }
    ensures items { digits.new.items ≡ digits.old.items ++ digits_in text.now }
    ensures capacity { digits.new.capacity ≡ digits.old.capacity }
{
    for byte in text {
        digits.push_reserved(*byte - b'0');
    }
}

// How many bytes at the front are zeros.
fn zeros_at_front(text: &[u8]) -> usize
    ensures most { result ≤ length text.now }
    ensures zeros { AreZeroBytes text.now 0 result }
    ensures other { result < length text.now → slice_index text.now result ≢ 48 }
{
    let mut at = 0;
    while at < text.len() && text[at] == b'0' {
        at += 1;
    }
    at
}

// The end of what is before the last bytes that are zeros.
fn end_before_last_zeros(text: &[u8]) -> usize
    ensures most { result ≤ length text.now }
    ensures zeros { AreZeroBytes text.now result (length text.now) }
    ensures other { 0 < result → slice_index text.now (result - 1) ≢ 48 }
{
    let mut end = text.len();
    while end > 0 && text[end - 1] == b'0' {
        end -= 1;
    }
    end
}
