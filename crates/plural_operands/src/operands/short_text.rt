//! The operands of texts of at most 18 digits on each side of the point, in one walk.

ghost use Rattle.std.specs.Prelude.{◌≡◌, ℕ, ◌+◌, ◌<◌, ◌≤◌, List, ◌++◌, IfSome, length};
ghost use Rattle.fixed_decimal.specs.Places.{Places};
ghost use Rattle.fixed_decimal.specs.Written.{sign_text};
ghost use Rattle.fixed_decimal.specs.declared.sign.Sign.{Sign};
ghost use Rattle.plural_operands.specs.Inner.ShortTexts.{AreDigitsAlone, HasFront, HasFractionFront, ArePlain, HasPlain, IsShortExponent, WritesShort, WritesShortSigned};

use crate::operands::PluralOperands;
use crate::operands::fraction::without_zeros;
use crate::operands::kept::KEPT_PLACES;
use crate::operands::shifted::shifted;

// The operands of a short text. `None` says nothing.
#[inline(always)]
pub(crate) fn short_operands(text: &[u8]) -> Option<PluralOperands>
    ensures { IfSome result (λ o. WritesShortSigned text.now o) }
{
    short_unsigned(behind_any_sign(text))
}

// The text after its sign, if it has one.
#[inline(always)]
fn behind_any_sign(text: &[u8]) -> &[u8]
    ensures { (sign : Sign) × (text.now ≡ sign_text sign ++ result.now) }
{
    match text {
        [b'+', rest @ ..] => rest,
        [b'-', rest @ ..] => rest,
        _ => text,
    }
}

// The operands of a short text without a sign.
#[inline(always)]
fn short_unsigned(text: &[u8]) -> Option<PluralOperands>
    ensures { IfSome result (λ o. WritesShort text.now o) }
{
    let (i, rest) = short_front(text);
    let whole = text.len() - rest.len();
    match rest {
        [b'.', after @ ..] => {
            let (digits, rest) = with_fraction(i, after);
            if digits.v == 0 {
                return None;
            }
            with_exponent(digits, whole.max(1), rest)
        }
        _ if whole == 0 => None,
        _ => with_exponent(PluralOperands::from(i), whole, rest),
    }
}

// The operands of digits with so many integer places, and of the exponent behind them, if any.
#[inline(always)]
fn with_exponent(digits: PluralOperands, whole: usize, rest: &[u8]) -> Option<PluralOperands>
    requires { (x : Places) × ArePlain x whole digits }
    ensures { (text : List ℕ) → HasPlain text digits whole rest.now
        → IfSome result (λ o. WritesShort text o) }
{
    match rest {
        [] => Some(digits),
        [b'c', exponent @ ..] => shifted(digits, whole, short_exponent(exponent)?),
        _ => None,
    }
}

// The number that at most 18 digits at the front write, and the rest. For each length below nine the
// walk has a bound that is known, and is compiled without a loop.
#[inline(always)]
pub(crate) fn short_front(text: &[u8]) -> (u64, &[u8])
    ensures front { HasFront text.now result.0 result.1.now }
    ensures all { AreDigitsAlone text.now → length text.now ≤ 18 → length result.1.now ≡ 0 }
{
    match text.len() {
        1 => front_of(text, 1),
        2 => front_of(text, 2),
        3 => front_of(text, 3),
        4 => front_of(text, 4),
        5 => front_of(text, 5),
        6 => front_of(text, 6),
        7 => front_of(text, 7),
        8 => front_of(text, 8),
        length => front_of(text, length.min(KEPT_PLACES)),
    }
}

// The number that digits at the front write, at most so many, and the rest.
#[inline(always)]
fn front_of(text: &[u8], most: usize) -> (u64, &[u8])
    requires within { most ≤ length text.now }
    requires few { most ≤ 18 }
    ensures front { HasFront text.now result.0 result.1.now }
    ensures all { AreDigitsAlone text.now → length text.now ≤ most → length result.1.now ≡ 0 }
{
    let mut number = 0;
    let mut at = 0;
    while at < most && text[at].is_ascii_digit() {
        number = number * 10 + u64::from(text[at] - b'0');
        at += 1;
    }
    (number, &text[at..])
}

// The operands of an integer part and of at most 18 digits after its point, and the rest.
#[inline(always)]
fn with_fraction(i: u64, text: &[u8]) -> (PluralOperands, &[u8])
    ensures integer { result.0.i ≡ i }
    ensures fraction { HasFractionFront text.now result.0 result.1.now }
    ensures exponent { result.0.c ≡ 0 }
{
    let (f, rest) = short_front(text);
    let v = text.len() - rest.len();
    let (w, t) = without_zeros(v, f, 0);
    let operands = PluralOperands {
        i,
        v,
        w,
        f,
        t,
        c: 0,
    };
    (operands, rest)
}

// The exponent that one or two digits write.
#[inline(always)]
fn short_exponent(text: &[u8]) -> Option<usize>
    ensures { IfSome result (λ e. IsShortExponent text.now e) }
{
    match text {
        [unit] => digit(*unit),
        [tens, unit] => Some(digit(*tens)? * 10 + digit(*unit)?),
        _ => None,
    }
}

// The number of a digit.
#[inline(always)]
fn digit(byte: u8) -> Option<usize>
    ensures { IfSome result (λ d. (byte ≡ 48 + d) × (d < 10)) }
{
    if byte.is_ascii_digit() {
        Some(usize::from(byte - b'0'))
    } else {
        None
    }
}
