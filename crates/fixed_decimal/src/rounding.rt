//! Rounding to a place: the modes, and what becomes of the stored digits.

ghost use Rattle.std.specs.Prelude.{◌≡◌, ◌≢◌, ◌+◌, ◌-◌, ◌^◌, ◌<◌, ◌≤◌, IsTrue, true, length, take, drop, slice_index};
ghost use Rattle.smallvec.specs.SmallVec.{small_vec_len};
ghost use Rattle.fixed_decimal.specs.Digits.{AreDigits, value_of};
ghost use Rattle.fixed_decimal.specs.Rounding.{mode_of_absolute as absolute_mode};
ghost use Rattle.fixed_decimal.specs.Inner.RoundingSteps.{IsRest, is_some_rest, is_large_rest, goes_up as does_go_up, IsOdd, IsEndBefore, IsRoundedEnd, rounded_digits, rounded_places as places_of_rounded};

use crate::Sign;
use crate::span::INLINE_DIGITS;
use smallvec::SmallVec;

/// To which of the two nearest multiples of a power of ten a number is rounded. A multiple stays as
/// it is.
#[derive(Clone, Copy, Debug, PartialEq, Eq)]
pub enum RoundingMode {
    /// To the nearer one, and from halfway to the even one: 2.5 to 2, and 3.5 to 4.
    HalfEven,
    /// To the nearer one, and from halfway away from zero: 2.5 to 3, and -2.5 to -3.
    HalfExpand,
    /// Towards zero: 2.9 to 2, and -2.9 to -2.
    Trunc,
    /// Away from zero: 2.1 to 3, and -2.1 to -3.
    Expand,
    /// Up: 2.1 to 3, and -2.9 to -2.
    Ceil,
    /// Down: 2.9 to 2, and -2.1 to -3.
    Floor,
}

// What is cut, beside half a unit of the place.
#[derive(Clone, Copy)]
pub(crate) enum Rest {
    Nothing,
    BelowHalf,
    Half,
    AboveHalf,
}

// The mode for what follows a sign.
pub(crate) fn mode_of_absolute(sign: Sign, mode: RoundingMode) -> RoundingMode
    ensures { result ≡ absolute_mode sign mode }
{
    match (sign, mode) {
        (Sign::Negative, RoundingMode::Ceil) => RoundingMode::Trunc,
        (Sign::Negative, RoundingMode::Floor) => RoundingMode::Expand,
        _ => mode,
    }
}

// Which digits stay, and whether the last of them is one more, or 1 is before them if none stays.
pub(crate) fn rounded_end(
    digits: &[u8],
    kept: usize,
    gap: usize,
    mode: RoundingMode,
) -> (usize, bool)
    requires digits { AreDigits digits.now }
    requires last { 0 < length digits.now → slice_index digits.now (length digits.now - 1) ≢ 0 }
    requires gap { 0 < gap → kept ≡ 0 }
    ensures { IsRoundedEnd mode digits.now kept gap result.0 result.1 }
{
    let rest = rest_after(digits, kept, gap);
    let held = &digits[..kept.min(digits.len())];
    let up = goes_up(mode, rest, is_odd(held));
    (end_before(held, if up { 9 } else { 0 }), up)
}

// What is cut of digits, of which so many are at the place or above.
fn rest_after(digits: &[u8], kept: usize, gap: usize) -> Rest
    requires digits { AreDigits digits.now }
    requires last { 0 < length digits.now → slice_index digits.now (length digits.now - 1) ≢ 0 }
    requires gap { 0 < gap → kept ≡ 0 }
    ensures { IsRest result (value_of (drop kept digits.now)) (10 ^ (length digits.now - kept + gap)) }
{
    if kept >= digits.len() {
        return Rest::Nothing;
    }
    if gap > 0 {
        return Rest::BelowHalf;
    }
    let first = digits[kept];
    if first < 5 {
        Rest::BelowHalf
    } else if first == 5 && kept + 1 == digits.len() {
        Rest::Half
    } else {
        Rest::AboveHalf
    }
}

// Whether the number that digits write is odd.
fn is_odd(digits: &[u8]) -> bool
    requires { AreDigits digits.now }
    ensures { IsOdd digits.now result }
{
    match digits {
        [.., last] => last % 2 == 1,
        [] => false,
    }
}

// Whether a mode takes the multiple above.
fn goes_up(mode: RoundingMode, rest: Rest, odd: bool) -> bool
    ensures { result ≡ does_go_up mode rest odd }
{
    match mode {
        RoundingMode::HalfEven => is_large(rest, odd),
        RoundingMode::HalfExpand => is_large(rest, true),
        RoundingMode::Expand | RoundingMode::Ceil => is_some(rest),
        RoundingMode::Trunc | RoundingMode::Floor => false,
    }
}

// Whether half a unit or more is cut; half a unit counts as more if `tie`.
fn is_large(rest: Rest, tie: bool) -> bool
    ensures { result ≡ is_large_rest tie rest }
{
    match rest {
        Rest::Nothing | Rest::BelowHalf => false,
        Rest::Half => tie,
        Rest::AboveHalf => true,
    }
}

// Whether something is cut.
fn is_some(rest: Rest) -> bool
    ensures { result ≡ is_some_rest rest }
{
    match rest {
        Rest::Nothing => false,
        Rest::BelowHalf | Rest::Half | Rest::AboveHalf => true,
    }
}

// The end of what is before the last digits that are all this one.
fn end_before(digits: &[u8], digit: u8) -> usize
    ensures { IsEndBefore digits.now digit result }
{
    let mut end = digits.len();
    while end > 0 && digits[end - 1] == digit {
        end -= 1;
    }
    end
}

// How many places there are from the first of the rounded digits on.
pub(crate) fn rounded_places(up: bool, end: usize, kept: usize, zeros: usize) -> usize
    requires { kept + zeros < 1_000_000 }
    ensures { result ≡ places_of_rounded up end kept zeros }
{
    if end > 0 {
        kept + zeros
    } else if up {
        kept + 1 + zeros
    } else {
        0
    }
}

// Leaves the rounded digits.
pub(crate) fn leave_rounded(digits: &mut SmallVec<u8, INLINE_DIGITS>, end: usize, up: bool)
    requires some { IsTrue up → 0 < small_vec_len digits.old }
    requires inside { IsTrue up → end ≤ small_vec_len digits.old }
    requires digit { IsTrue up → 0 < end → slice_index digits.old.items (end - 1) < 9 }
    ensures { digits.new.items ≡ rounded_digits up end digits.old.items }
{
    if !up {
        digits.truncate(end);
        return;
    }
    let stay = digits.len().min(end.saturating_sub(1));
    let last = if end == 0 {
        1
    } else {
        digits.as_slice()[end - 1] + 1
    };
    digits.truncate(stay);
    digits.push_reserved(last);
}
