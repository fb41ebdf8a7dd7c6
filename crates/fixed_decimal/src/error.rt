//! Why a decimal is refused.

ghost use Rattle.std.specs.Prelude.{◌≡◌, Some};
ghost use Rattle.fixed_decimal.specs.Written.{error_text};
ghost use Rattle.fixed_decimal.specs.declared.error.DecimalError.TheVariants.{Memory};

use std::alloc::{AllocError, AllocFailed};
use std::error::Error;
use std::fmt;

/// Why a text isn't a decimal, or no decimal is made.
#[derive(Clone, Copy, Debug, PartialEq, Eq)]
pub enum DecimalError {
    /// The text isn't that of a decimal.
    Syntax,
    /// More than 32767 integer places, more than 32767 fraction places, or an exponent above 255.
    Limit,
    /// Memory ran out.
    Memory,
}

impl fmt::Display for DecimalError {
    ghost output = { λ e. Some (error_text e) };

    fn fmt<W: fmt::Write>(&self, f: &mut fmt::Formatter<W>) -> fmt::Result {
        f.write_str(match self {
            DecimalError::Syntax => "bad number",
            DecimalError::Limit => "number out of limits",
            DecimalError::Memory => "out of memory",
        })
    }
}

impl Error for DecimalError {}

/// `Memory`: an allocation failed.
impl From<AllocError> for DecimalError {
    ghost from_gives = { λ _ e. e ≡ Memory };

    fn from(_error: AllocError) -> DecimalError {
        DecimalError::Memory
    }
}

/// `Memory`: an allocation failed, and gave a value back.
impl<T: Drop> From<AllocFailed<T>> for DecimalError {
    ghost from_gives = { λ _ e. e ≡ Memory };

    fn from(_error: AllocFailed<T>) -> DecimalError {
        DecimalError::Memory
    }
}
