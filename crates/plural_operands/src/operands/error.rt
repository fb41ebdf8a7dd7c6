//! Why a text names no operands.

ghost use Rattle.std.specs.Prelude.{◌≡◌, Some};
ghost use Rattle.plural_operands.specs.OperandText.{operands_error_text};
ghost use Rattle.plural_operands.specs.declared.operands.error.OperandsError.TheVariants.{Invalid};

use std::error::Error;
use std::fmt;
use std::num::ParseIntError;

/// Why a text names no operands.
#[derive(Clone, Copy, Debug, PartialEq, Eq)]
pub enum OperandsError {
    /// The text is empty.
    Empty,
    /// The text isn't one of operands, or one of its numbers is above 18446744073709551615.
    Invalid,
}

impl fmt::Display for OperandsError {
    ghost output = { λ e. Some (operands_error_text e) };

    fn fmt<W: fmt::Write>(&self, f: &mut fmt::Formatter<W>) -> fmt::Result {
        f.write_str(match self {
            OperandsError::Empty => "Input to the Operands parsing was empty",
            OperandsError::Invalid => "Input to the Operands parsing was invalid",
        })
    }
}

impl Error for OperandsError {}

/// `Invalid`: a part of the text isn't a number of 64 bits.
impl From<ParseIntError> for OperandsError {
    ghost from_gives = { λ _ e. e ≡ Invalid };

    fn from(_error: ParseIntError) -> OperandsError {
        Self::Invalid
    }
}
