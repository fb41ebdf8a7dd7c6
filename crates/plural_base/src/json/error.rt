//! Why JSON values are refused.

use crate::category::PluralCategory;
use crate::category::raw::RawPluralCategory;
use crate::elements_pack_error::ElementsPackError;
use plural_runtime::RuleError;
use std::alloc::AllocError;
use std::error::Error;
use std::fmt;

/// Why a JSON value is refused, or can't be written.
#[derive(Clone, Copy, Debug, PartialEq, Eq)]
pub enum JsonError {
    /// The value holds a number that isn't an integer of 64 bits.
    Float,
    /// A part of the value is of another kind than its form requires.
    Shape,
    /// A text gives no rule, for this reason; with the category, if the text is under one. The
    /// reason is never out of memory.
    Rule(Option<PluralCategory>, RuleError),
    /// A text or a byte names no range of two categories.
    RangeKey,
    /// The text of a range's category names none.
    RangeValue,
    /// The elements can't be packed, for this reason, which is never out of memory.
    Pack(ElementsPackError),
    /// Out of memory, for what is read or written.
    Memory,
}

impl fmt::Display for JsonError {
    ghost use Rattle.std.specs.Prelude.{Some};
    ghost use Rattle.plural_base.specs.PluralBaseErrors.{json_error_text};

    ghost output = { λ error. Some (json_error_text error) };

    fn fmt<W: fmt::Write>(&self, f: &mut fmt::Formatter<W>) -> fmt::Result {
        match self {
            JsonError::Float => f.write_str("float"),
            JsonError::Shape => f.write_str("shape"),
            JsonError::Rule(Some(category), fault) => {
                let name = RawPluralCategory::from(*category).as_str();
                write!(f, "rule {}: {}", name, *fault)
            }
            JsonError::Rule(None, fault) => write!(f, "rule: {fault}"),
            JsonError::RangeKey => f.write_str("range key"),
            JsonError::RangeValue => f.write_str("range value"),
            JsonError::Pack(fault) => fault.fmt(f),
            JsonError::Memory => f.write_str("out of memory"),
        }
    }
}

impl Error for JsonError {}

impl From<AllocError> for JsonError {
    ghost use Rattle.std.specs.Prelude.{◌≡◌};
    ghost use Rattle.plural_base.specs.declared.json.error.JsonError.TheVariants.{Memory};

    ghost from_gives = { λ _ error. error ≡ Memory };

    fn from(_error: AllocError) -> JsonError {
        JsonError::Memory
    }
}
