//! Why a text isn't a `Plural-Forms`, and why a number has no index.

use std::alloc::{AllocError, AllocFailed};
use std::error::Error;
use std::fmt;

/// What is wrong at the first place where a text doesn't continue as a `Plural-Forms`.
#[derive(Clone, Copy, Debug, PartialEq, Eq)]
pub enum FaultKind {
    /// The text has more than [`SIZE_LIMIT`](crate::SIZE_LIMIT) bytes.
    TooLong,
    /// It has no `nplurals=`.
    NoCount,
    /// No number from 1 to [`FORMS_LIMIT`](crate::FORMS_LIMIT) after `nplurals=`.
    BadCount,
    /// It has no `plural=`.
    NoExpression,
    /// Neither a number, `n`, `!` nor `(` where an operand begins. A number above 4294967295 is
    /// none.
    ExpectedOperand,
    /// Something else than an operator after an operand, a `)` without its `(`, or a `:` without its
    /// `?`.
    ExpectedOperator,
    /// The expression ends before the `)` of a `(` or the `:` of a `?`.
    Unfinished,
}

impl fmt::Display for FaultKind {
    ghost use Rattle.std.specs.Prelude.{Some};
    ghost use Rattle.gettext_plural.specs.PluralErrors.{fault_kind_text};

    ghost output = { λ kind. Some (fault_kind_text kind) };

    fn fmt<W: fmt::Write>(&self, f: &mut fmt::Formatter<W>) -> fmt::Result {
        f.write_str(match self {
            FaultKind::TooLong => "the text has more than 1000 bytes",
            FaultKind::NoCount => "no 'nplurals='",
            FaultKind::BadCount => "expected a number of forms from 1 to 100",
            FaultKind::NoExpression => "no 'plural='",
            FaultKind::ExpectedOperand => "expected a number, 'n', '!' or '('",
            FaultKind::ExpectedOperator => "expected an operator",
            FaultKind::Unfinished => "a '(' or a '?' isn't closed",
        })
    }
}

/// Why [`PluralForms::parse`](crate::PluralForms::parse) returns nothing.
#[derive(Clone, Copy, Debug, PartialEq, Eq)]
pub enum PluralFormsError {
    /// The text isn't a `Plural-Forms`: the kind of its first fault, and the byte where it is.
    Fault(FaultKind, usize),
    /// Out of memory.
    Memory,
}

impl fmt::Display for PluralFormsError {
    ghost use Rattle.std.specs.Prelude.{Some};
    ghost use Rattle.gettext_plural.specs.PluralErrors.{plural_forms_error_text};

    ghost output = { λ error. Some (plural_forms_error_text error) };

    fn fmt<W: fmt::Write>(&self, f: &mut fmt::Formatter<W>) -> fmt::Result {
        match self {
            PluralFormsError::Fault(kind, place) => write!(f, "{kind} at byte {place}"),
            PluralFormsError::Memory => f.write_str("out of memory"),
        }
    }
}

impl Error for PluralFormsError {}

/// Why a number has no index.
#[derive(Clone, Copy, Debug, PartialEq, Eq)]
pub enum IndexError {
    /// The expression divides by 0.
    DividesByZero,
    /// The expression has this value, which isn't below the number of forms.
    TooLarge(u64),
}

impl fmt::Display for IndexError {
    ghost use Rattle.std.specs.Prelude.{Some};
    ghost use Rattle.gettext_plural.specs.PluralErrors.{index_error_text};

    ghost output = { λ error. Some (index_error_text error) };

    fn fmt<W: fmt::Write>(&self, f: &mut fmt::Formatter<W>) -> fmt::Result {
        match self {
            IndexError::DividesByZero => f.write_str("the expression divides by 0"),
            IndexError::TooLarge(value) => {
                write!(f, "the index {value} isn't below the number of forms")
            }
        }
    }
}

impl Error for IndexError {}

// A fault, and how many bytes of the text are left where it is.
#[derive(Drop)]
pub(crate) struct Fault {
    pub(crate) kind: FaultKind,
    pub(crate) left: usize,
}

// Why a reading stops.
#[derive(Drop)]
pub(crate) enum ReadError {
    Fault(Fault),
    Memory,
}

impl From<Fault> for ReadError {
    ghost use Rattle.std.specs.Prelude.{◌≡◌};
    ghost use Rattle.gettext_plural.specs.declared.error.ReadError.TheVariants as read;

    ghost from_gives = { λ fault error. error ≡ read.Fault fault };

    fn from(fault: Fault) -> Self {
        ReadError::Fault(fault)
    }
}

impl From<AllocError> for ReadError {
    ghost use Rattle.std.specs.Prelude.{◌≡◌};
    ghost use Rattle.gettext_plural.specs.declared.error.ReadError.TheVariants as read;

    ghost from_gives = { λ _ error. error ≡ read.Memory };

    fn from(_error: AllocError) -> Self {
        ReadError::Memory
    }
}

impl<T: Drop> From<AllocFailed<T>> for ReadError {
    ghost use Rattle.std.specs.Prelude.{◌≡◌};
    ghost use Rattle.gettext_plural.specs.declared.error.ReadError.TheVariants as read;

    ghost from_gives = { λ _ error. error ≡ read.Memory };

    fn from(_error: AllocFailed<T>) -> Self {
        ReadError::Memory
    }
}
