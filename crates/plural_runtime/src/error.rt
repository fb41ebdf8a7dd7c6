//! Why bytes are refused as a rule, and trees or texts as too large.

use packed_list::ListError;
use plural_reference::ParseError;
use std::error::Error;
use std::fmt;

/// Why bytes aren't a rule.
#[derive(Clone, Copy, Debug, PartialEq, Eq)]
pub enum RuleBytesError {
    /// They aren't a packed list.
    List(ListError),
    /// The length of the item at this place isn't 5 plus a multiple of 8.
    ItemLength(usize),
    /// The first byte of the item at this place names no operand.
    Operand(usize),
}

impl fmt::Display for RuleBytesError {
    ghost use Rattle.std.specs.Prelude.{Some};
    ghost use Rattle.plural_runtime.specs.PackedRelations.{rule_bytes_error_text};

    ghost output = { λ error. Some (rule_bytes_error_text error) };

    fn fmt<W: fmt::Write>(&self, f: &mut fmt::Formatter<W>) -> fmt::Result {
        match self {
            RuleBytesError::List(fault) => write!(f, "{fault}"),
            RuleBytesError::ItemLength(place) => write!(f, "bad length of relation {place}"),
            RuleBytesError::Operand(place) => write!(f, "bad operand of relation {place}"),
        }
    }
}

impl Error for RuleBytesError {}

/// Why a tree or a text can't be packed.
#[derive(Clone, Copy, Debug, PartialEq, Eq)]
pub enum RuleError {
    /// The text isn't a rule, or a value of the tree is above 4294967295
    /// (`ParseError::ValueTooLarge`).
    Parse(ParseError),
    /// A relation would start after place 65535 of the data.
    StartLimit,
    /// The bytes can't be allocated.
    Memory,
}

impl fmt::Display for RuleError {
    ghost use Rattle.std.specs.Prelude.{Some};
    ghost use Rattle.plural_runtime.specs.RuleOfText.{rule_error_text};

    ghost output = { λ error. Some (rule_error_text error) };

    fn fmt<W: fmt::Write>(&self, f: &mut fmt::Formatter<W>) -> fmt::Result {
        match self {
            RuleError::Parse(fault) => write!(f, "{fault}"),
            RuleError::StartLimit => f.write_str("rule too long"),
            RuleError::Memory => f.write_str("out of memory"),
        }
    }
}

impl Error for RuleError {}
