//! The operands of a fraction.

ghost use Rattle.std.specs.Prelude.{◌≡◌, ℕ, ◌-◌, ◌*◌, ◌/◌, ◌^◌, ◌<◌, ◌≤◌};
ghost use Rattle.std.specs.Int.{◌∣◌};
ghost use Rattle.plural_operands.specs.Operands.{HasFraction};

use crate::operands::PluralOperands;
use crate::operands::kept::power_of_ten;

impl PluralOperands {
    // Those of an integer part, a count of fraction digits, the number that they write, and an
    // exponent.
    pub(crate) fn from_parts(i: u64, shown: usize, written: u64, c: usize) -> PluralOperands
        ensures integer { result.i ≡ i }
        ensures fraction { HasFraction result shown written }
        ensures exponent { result.c ≡ c }
    {
        PluralOperands::from_scaled_parts(i, shown, written, 0, c)
    }

    // Those of fraction digits that end in a count of zeros: they write the number times 10 to the
    // power of that count.
    pub(crate) fn from_scaled_parts(
        i: u64,
        shown: usize,
        number: u64,
        zeros: usize,
        c: usize,
    ) -> PluralOperands
        requires few { zeros ≤ 18 }
        requires inside { zeros ≤ shown }
        requires below { number * 10 ^ zeros < 2 ^ 64 }
        ensures integer { result.i ≡ i }
        ensures fraction { HasFraction result shown (number * 10 ^ zeros) }
        ensures exponent { result.c ≡ c }
    {
        let (w, t) = without_zeros(shown, number, zeros);
        PluralOperands {
            i,
            v: shown,
            w,
            f: number * power_of_ten(zeros),
            t,
            c,
        }
    }
}

// The fraction that a number and a count of zeros after it write, without its trailing zeros: how
// many digits are left, and what they write.
#[inline]
pub(crate) fn without_zeros(shown: usize, number: u64, zeros: usize) -> (usize, u64)
    requires { zeros ≤ shown }
    ensures divides { 10 ^ (shown - result.0) ∣ number * 10 ^ zeros }
    ensures least { (k : ℕ) → 10 ^ (shown - k) ∣ number * 10 ^ zeros → result.0 ≤ k }
    ensures number { result.1 ≡ number * 10 ^ zeros / 10 ^ (shown - result.0) }
{
    if number == 0 {
        return (0, 0);
    }
    let mut left = shown - zeros;
    let mut rest = number;
    while left > 0 && rest % 10 == 0 {
        left -= 1;
        rest /= 10;
    }
    (left, rest)
}
