//! The value of an operand.

ghost use Rattle.std.specs.Prelude.{◌≡◌};
ghost use Rattle.plural_operands.specs.Operands.{operand_value};

use crate::operand::Operand;
use crate::operands::PluralOperands;

impl PluralOperands {
    /// Returns the value of an operand (UTS 35 Part 3, Plural Operand Meanings), or `None` for `n`
    /// if the fraction isn't zero. It allocates nothing.
    #[inline]
    pub fn value(&self, operand: Operand) -> Option<u64>
        ensures { result ≡ operand_value operand self.now }
    {
        match operand {
            Operand::N if self.w != 0 => None,
            Operand::N | Operand::I => Some(self.i),
            Operand::V => Some(self.v as u64),
            Operand::W => Some(self.w as u64),
            Operand::F => Some(self.f),
            Operand::T => Some(self.t),
            Operand::C | Operand::E => Some(self.c as u64),
        }
    }
}
