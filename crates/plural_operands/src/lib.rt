//! The operands of numbers: of integers, of decimals and of texts.
#![tactic(auto)]

pub mod laws;
mod operand;
mod operand_value;
mod operands;
mod raw_operands;

pub use operand::Operand;
pub use operands::{KEPT_LIMIT, KEPT_PLACES, OperandsError, PluralOperands, integer_of_text};
pub use raw_operands::RawPluralOperands;
