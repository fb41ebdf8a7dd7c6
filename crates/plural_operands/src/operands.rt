//! The operands of a number.

ghost use Rattle.std.specs.Prelude.{◌≡◌, ◌≢◌, ◌↔◌, ℕ, IsTrue, IfSome, IfNone};
ghost use Rattle.plural_operands.specs.Operands.{of_whole};

mod compact_text;
mod decimals;
mod error;
mod fraction;
mod integer_text;
mod integers;
mod kept;
mod shifted;
mod short_text;
mod text;

pub use error::OperandsError;
pub use integer_text::integer_of_text;
pub use kept::{KEPT_LIMIT, KEPT_PLACES};
use std::marker::Model;

/// The operands of a number (UTS 35 Part 3, Plural Operand Meanings): `i`, its integer part; `v`
/// and `w`, how many fraction digits it shows, with and without the trailing zeros; `f` and `t`,
/// those digits as a number, with and without the trailing zeros; and `c`, the compact exponent.
///
/// They come from integers, from decimals, from texts and from [`RawPluralOperands`]. No conversion
/// allocates. Of a decimal at most 18 places on each side of the point are kept, as described at
/// [`PluralOperands::from_significand_and_exponent`]. `==` compares all six; the default is 0 for
/// each, the operands of the number 0.
///
/// <!-- snippet crates/tests_libraries/src/tests/plural_reference_examples.rt:
/// example "holds!(rt; PluralOperands" to "holds!(rt; PluralOperands" of fn a_whole_number_is_its_operand_n -->
/// ```
/// assert!(rt; PluralOperands::from(7u32).value(Operand::N) == Some(7));
/// ```
///
/// [`RawPluralOperands`]: crate::RawPluralOperands
#[derive(Clone, Copy, Debug, PartialEq, Default)]
pub struct PluralOperands {
    pub(crate) i: u64,
    pub(crate) v: usize,
    pub(crate) w: usize,
    pub(crate) f: u64,
    pub(crate) t: u64,
    pub(crate) c: usize,
}

impl Model for PluralOperands {
    ghost use Rattle.plural_operands.specs.Operands.{Operands};

    ghost Value = { Operands };

    ghost view = { λ a. record { i = a.i; v = a.v; w = a.w; f = a.f; t = a.t; c = a.c } };

    ghost inverse = { λ o. record { i = o.i; v = o.v; w = o.w; f = o.f; t = o.t; c = o.c } };
}

impl PluralOperands {
    /// Returns whether they are those of the whole number 0: no fraction digit is shown, and there
    /// is no exponent.
    #[inline]
    pub fn is_exactly_zero(self) -> bool
        ensures { IsTrue result ↔ (self ≡ of_whole 0) }
    {
        self == PluralOperands::from(0u64)
    }

    /// Returns whether they are those of the whole number 1: no fraction digit is shown, and there
    /// is no exponent.
    #[inline]
    pub fn is_exactly_one(self) -> bool
        ensures { IsTrue result ↔ (self ≡ of_whole 1) }
    {
        self == PluralOperands::from(1u64)
    }

    /// Returns the whole number whose operands they are: no fraction digit is shown, and there is
    /// no exponent; and `None` if they aren't those of a whole number.
    #[inline]
    pub fn as_integer(self) -> Option<u64>
        ensures whole { IfSome result (λ n. self ≡ of_whole n) }
        ensures none { IfNone result ((n : ℕ) → self ≢ of_whole n) }
    {
        if self == PluralOperands::from(self.i) {
            Some(self.i)
        } else {
            None
        }
    }
}
