//! Lines of digits, which are read as they are cut off.

ghost use Rattle.std.specs.Prelude.{◌≡◌, ◌≤◌, IfSome, length, take};
ghost use Rattle.plural_operands.specs.Inner.ShortTexts.{AreDigitsOf, IsTrimmedAt};
ghost use Rattle.number_lines.specs.Inner.LineSteps.{BeginsWithLine, HasFractionLine};

use icu_plurals::{AskedRules, PluralCategory, PluralOperands, RawPluralOperands};
use plural_base::laws::kept_choice_is_exact;
use plural_operands::KEPT_PLACES;

// The most bytes of a plain line: digits, a point, digits and a newline.
const MOST_PLAIN_BYTES: usize = 2 * KEPT_PLACES + 2;

// The category of a plain line at the front, and the bytes behind its newline. Plain are 1 to 18
// digits, and these with a point and 1 to 18 digits. `None` says nothing.
#[inline(always)]
pub(crate) fn plain_line<'b>(
    rules: &AskedRules<'_>,
    bytes: &'b [u8],
) -> Option<(PluralCategory, &'b [u8])>
    ensures { IfSome result (λ r. BeginsWithLine rules.now bytes.now r.0 r.1.now) }
{
    if bytes.len() < MOST_PLAIN_BYTES {
        return None;
    }
    kept_choice_is_exact();
    let (number, whole) = front_digits(bytes);
    let behind = &bytes[whole + 1..];
    match bytes[whole] {
        b'\n' if whole > 0 => Some((rules.category_for_integer(number), behind)),
        b'.' if whole > 0 => plain_fraction(rules, number, behind),
        _ => None,
    }
}

// The category of an integer part with the digits of a fraction at the front, and the bytes behind
// their newline. `None` says nothing.
#[inline(always)]
fn plain_fraction<'b>(
    rules: &AskedRules<'_>,
    i: u64,
    bytes: &'b [u8],
) -> Option<(PluralCategory, &'b [u8])>
    requires { 19 ≤ length bytes.now }
    ensures { IfSome result (λ r. HasFractionLine rules.now i bytes.now r.0 r.1.now) }
{
    let (f, shown) = front_digits(bytes);
    if shown == 0 || bytes[shown] != b'\n' {
        return None;
    }
    let (w, t) = trimmed(shown, f);
    let operands = PluralOperands::from(RawPluralOperands {
        i,
        v: shown,
        w,
        f,
        t,
        c: 0,
    });
    Some((rules.category_for(operands), &bytes[shown + 1..]))
}

// How many of a fraction's digits are left without the zeros at their end, and what these write.
#[inline(always)]
fn trimmed(shown: usize, f: u64) -> (usize, u64)
    ensures { IsTrimmedAt shown f result.0 result.1 }
{
    let mut left = shown;
    let mut rest = f;
    while left > 0 && rest % 10 == 0 {
        left -= 1;
        rest /= 10;
    }
    (left, rest)
}

// The number that the digits at the front write, at most 18 of them, and how many these are. The walk
// has a bound that is known, and is compiled without a loop.
#[inline(always)]
fn front_digits(bytes: &[u8]) -> (u64, usize)
    requires { 18 ≤ length bytes.now }
    ensures digits { AreDigitsOf (take result.1 bytes.now) result.0 }
    ensures few { result.1 ≤ 18 }
{
    let mut number = 0;
    let mut at = 0;
    while at < KEPT_PLACES && bytes[at].is_ascii_digit() {
        number = number * 10 + u64::from(bytes[at] - b'0');
        at += 1;
    }
    (number, at)
}
