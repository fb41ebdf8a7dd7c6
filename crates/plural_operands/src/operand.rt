//! The names of the operands.

ghost use Rattle.std.specs.Prelude.{◌≡◌};
ghost use Rattle.plural_operands.specs.Operands.{operand_text};

/// An operand of a number (UTS 35 Part 3, Plural Operand Meanings).
#[derive(Clone, Copy, Debug, PartialEq)]
pub enum Operand {
    /// The absolute value of the number.
    N,
    /// Its integer part.
    I,
    /// How many fraction digits are visible, with trailing zeros.
    V,
    /// How many fraction digits are visible, without trailing zeros.
    W,
    /// The visible fraction digits as an integer, with trailing zeros.
    F,
    /// The visible fraction digits as an integer, without trailing zeros.
    T,
    /// The exponent of the power of ten of a compact number.
    C,
    /// A synonym of [`Operand::C`].
    E,
}

impl Operand {
    /// Returns the letter as it is written: `n`, `i`, `v`, `w`, `f`, `t`, `c` or `e`.
    #[inline]
    pub fn as_str(self) -> &'static str
        ensures { result.now ≡ operand_text self }
    {
        match self {
            Operand::N => "n",
            Operand::I => "i",
            Operand::V => "v",
            Operand::W => "w",
            Operand::F => "f",
            Operand::T => "t",
            Operand::C => "c",
            Operand::E => "e",
        }
    }
}
