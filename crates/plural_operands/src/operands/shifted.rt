//! The operands of a short text's digits, shifted by an exponent.

ghost use Rattle.std.specs.Prelude.{ℕ, ◌-◌, ◌%◌, ◌^◌, ◌<◌, ◌≤◌, IfSome};
ghost use Rattle.fixed_decimal.specs.Places.{Places};
ghost use Rattle.plural_operands.specs.Operands.{AreKept};
ghost use Rattle.plural_operands.specs.Inner.ShortTexts.{ArePlain, IsTrimmedAt};

use crate::operands::PluralOperands;
use crate::operands::kept::{KEPT_PLACES, power_of_ten};

// The operands of digits with so many integer places after the point has moved to the right by an
// exponent. `None` if more than 18 integer places are left of it then.
#[inline]
pub(crate) fn shifted(
    digits: PluralOperands,
    whole: usize,
    exponent: usize,
) -> Option<PluralOperands>
    requires { (x : Places) × ArePlain x whole digits }
    ensures { IfSome result (λ o. (x : Places) → ArePlain x whole digits → AreKept x exponent o) }
{
    if exponent > KEPT_PLACES - whole {
        return None;
    }
    let i = digits.i * power_of_ten(exponent);
    if exponent >= digits.v {
        return Some(PluralOperands {
            i: i + digits.f * power_of_ten(exponent - digits.v),
            v: 0,
            w: 0,
            f: 0,
            t: 0,
            c: exponent,
        });
    }
    let v = digits.v - exponent;
    let unit = power_of_ten(v);
    let (w, t) = left_of_trimmed(digits.w, digits.t, exponent);
    Some(PluralOperands {
        i: i + digits.f / unit,
        v,
        w,
        f: digits.f % unit,
        t,
        c: exponent,
    })
}

// How many of a fraction's w digits, which write t, aren't moved over the point, and what these
// write. It has no zeros at its end.
#[inline]
fn left_of_trimmed(w: usize, t: u64, exponent: usize) -> (usize, u64)
    requires { w ≤ 18 }
    ensures { (places f : ℕ) → IsTrimmedAt places f w t → exponent < places
        → IsTrimmedAt (places - exponent) (f % 10 ^ (places - exponent)) result.0 result.1 }
{
    if w <= exponent {
        return (0, 0);
    }
    let left = w - exponent;
    (left, t % power_of_ten(left))
}
