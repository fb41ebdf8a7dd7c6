//! The operands of a number as plain numbers.

ghost use Rattle.std.specs.Prelude.{◌≡◌};

use crate::operands::PluralOperands;

/// The operands of a number (UTS 35 Part 3, Plural Operand Meanings), each to be set by hand: any
/// values are allowed, also those of no number.
///
/// <!-- snippet crates/tests_libraries/src/tests/plural_reference_examples.rt:
/// "let half" to "});" of fn knows_no_whole_number_at_a_fraction -->
/// ```
/// let half = PluralOperands::from(RawPluralOperands {
///     i: 1,
///     v: 1,
///     w: 1,
///     f: 5,
///     t: 5,
///     c: 0,
/// });
/// ```
#[derive(Debug, Drop)]
pub struct RawPluralOperands {
    /// The integer part.
    pub i: u64,
    /// How many fraction digits are shown.
    pub v: usize,
    /// How many fraction digits are shown, without the trailing zeros.
    pub w: usize,
    /// The fraction digits as a number.
    pub f: u64,
    /// The fraction digits without the trailing zeros as a number.
    pub t: u64,
    /// The compact exponent.
    pub c: usize,
}

/// The six numbers as they are.
impl From<RawPluralOperands> for PluralOperands {
    ghost from_gives = { λ r o.
        o ≡ record { i = r.i; v = r.v; w = r.w; f = r.f; t = r.t; c = r.c } };

    #[inline]
    fn from(raw: RawPluralOperands) -> PluralOperands {
        PluralOperands {
            i: raw.i,
            v: raw.v,
            w: raw.w,
            f: raw.f,
            t: raw.t,
            c: raw.c,
        }
    }
}

/// The six numbers, each to be read.
impl From<PluralOperands> for RawPluralOperands {
    ghost from_gives = { λ o r.
        r ≡ record { i = o.i; v = o.v; w = o.w; f = o.f; t = o.t; c = o.c } };

    #[inline]
    fn from(operands: PluralOperands) -> RawPluralOperands {
        RawPluralOperands {
            i: operands.i,
            v: operands.v,
            w: operands.w,
            f: operands.f,
            t: operands.t,
            c: operands.c,
        }
    }
}
