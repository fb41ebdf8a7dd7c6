//! Why elements can't be packed.

use std::error::Error;
use std::fmt;

/// Why elements can't be packed.
#[derive(Clone, Copy, Debug, PartialEq, Eq)]
pub enum ElementsPackError {
    /// The default's text has more than 255 bytes, and isn't the only element.
    DefaultLimit,
    /// An element would start after place 65535 of the data.
    StartLimit,
    /// Out of memory.
    Memory,
}

impl fmt::Display for ElementsPackError {
    ghost use Rattle.std.specs.Prelude.{Some};
    ghost use Rattle.plural_base.specs.PluralBaseErrors.{elements_pack_error_text};

    ghost output = { λ error. Some (elements_pack_error_text error) };

    fn fmt<W: fmt::Write>(&self, f: &mut fmt::Formatter<W>) -> fmt::Result {
        match self {
            ElementsPackError::DefaultLimit => f.write_str("default too long"),
            ElementsPackError::StartLimit => f.write_str("elements too long"),
            ElementsPackError::Memory => f.write_str("out of memory"),
        }
    }
}

impl Error for ElementsPackError {}
