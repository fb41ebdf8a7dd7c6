//! Why a pattern says nothing.

use fixed_decimal::DecimalError;
use std::alloc::{AllocError, AllocFailed};
use std::error::Error;
use std::fmt;

/// What is wrong with an argument.
#[derive(Clone, Copy, Debug, PartialEq, Eq)]
pub enum ArgumentFault {
    /// No argument has the name.
    Missing,
    /// A text where a number is counted, or a number where a text is compared.
    WrongKind,
    /// The text of a number doesn't write one.
    NotANumber,
    /// The text of a number writes one over a limit, or a number less its offset is over it.
    OverLimit,
    /// A number with a compact exponent, where there is an offset.
    CompactOffset,
}

impl fmt::Display for ArgumentFault {
    ghost use Rattle.std.specs.Prelude.{Some};
    ghost use Rattle.message_format.specs.FormatMeaning.{argument_fault_text};

    ghost output = { λ fault. Some (argument_fault_text fault) };

    fn fmt<W: fmt::Write>(&self, f: &mut fmt::Formatter<W>) -> fmt::Result {
        f.write_str(match self {
            ArgumentFault::Missing => "no argument has the name",
            ArgumentFault::WrongKind => "the argument is of the wrong kind",
            ArgumentFault::NotANumber => "bad number",
            ArgumentFault::OverLimit => "number out of limits",
            ArgumentFault::CompactOffset => "an offset from a compact number",
        })
    }
}

/// Why [`format`](crate::format) returns no text.
#[derive(Clone, Copy, Debug)]
pub enum FormatError<'p> {
    /// What is wrong with an argument, and its name in the pattern: the first fault, in the order
    /// of the parts that are formatted.
    Argument(ArgumentFault, &'p [u8]),
    /// Out of memory.
    Memory,
}

impl<'p> FormatError<'p> {
    ghost use Rattle.std.specs.Prelude.{◌≡◌};
    ghost use Rattle.message_format.specs.Inner.FormatViews.{fault_step, number_step};

    // The error of an argument whose text is read as a number.
    pub(crate) fn of_number(name: &'p [u8], error: DecimalError) -> Self
        ensures { fault_step result ≡ number_step name.now error }
    {
        match error {
            DecimalError::Syntax => FormatError::Argument(ArgumentFault::NotANumber, name),
            DecimalError::Limit => FormatError::Argument(ArgumentFault::OverLimit, name),
            DecimalError::Memory => FormatError::Memory,
        }
    }
}

impl<'p> fmt::Display for FormatError<'p> {
    ghost use Rattle.std.specs.Prelude.{Some};
    ghost use Rattle.message_format.specs.FormatMeaning.{format_error_text};

    ghost output = { λ error. Some (format_error_text error) };

    fn fmt<W: fmt::Write>(&self, f: &mut fmt::Formatter<W>) -> fmt::Result {
        match self {
            FormatError::Argument(fault, _) => write!(f, "{fault}"),
            FormatError::Memory => f.write_str("out of memory"),
        }
    }
}

impl<'p> Error for FormatError<'p> {}

impl<'p> From<AllocError> for FormatError<'p> {
    ghost use Rattle.std.specs.Prelude.{◌≡◌};
    ghost use Rattle.message_format.specs.declared.error.FormatError.TheVariants.{Memory};

    ghost from_gives = { λ _ error. error ≡ Memory };

    fn from(_error: AllocError) -> Self {
        FormatError::Memory
    }
}
