//! Why a text isn't a pattern.

use std::alloc::{AllocError, AllocFailed};
use std::error::Error;
use std::fmt;

/// What is wrong at the first place where a text doesn't continue as a pattern.
#[derive(Clone, Copy, Debug, PartialEq, Eq)]
pub enum FaultKind {
    /// The text ends in an argument or in a branch.
    Unclosed,
    /// No name after `{`.
    ExpectedName,
    /// A number of an argument that begins with a zero, as `{01}`.
    BadNumber,
    /// Neither `,` nor `}` after the name.
    ExpectedEnd,
    /// No letters after the comma.
    ExpectedType,
    /// A type other than `plural`, `selectordinal` and `select`: a simple format as `number`, which
    /// [`StyledPattern`](crate::StyledPattern) reads, or `choice`.
    UnsupportedType,
    /// No comma after the type.
    ExpectedStyle,
    /// No digits after `offset:`.
    ExpectedOffset,
    /// Neither a selector nor `}`.
    ExpectedSelector,
    /// No number after `=`.
    ExpectedValue,
    /// No `{` after a selector.
    ExpectedBranch,
    /// The argument ends without a branch `other`.
    MissingOther,
    /// A branch more than [`DEPTH_LIMIT`](crate::DEPTH_LIMIT) deep.
    TooDeep,
}

impl fmt::Display for FaultKind {
    ghost use Rattle.std.specs.Prelude.{Some};
    ghost use Rattle.message_pattern.specs.PatternAnswers.{pattern_fault_text};

    ghost output = { λ kind. Some (pattern_fault_text kind) };

    fn fmt<W: fmt::Write>(&self, f: &mut fmt::Formatter<W>) -> fmt::Result {
        f.write_str(match self {
            FaultKind::Unclosed => "a brace isn't closed",
            FaultKind::ExpectedName => "expected the name of an argument",
            FaultKind::BadNumber => "the number of an argument begins with a zero",
            FaultKind::ExpectedEnd => "expected ',' or '}'",
            FaultKind::ExpectedType => "expected the type of an argument",
            FaultKind::UnsupportedType => "the type is none of plural, selectordinal and select",
            FaultKind::ExpectedStyle => "expected ',' before the branches",
            FaultKind::ExpectedOffset => "expected digits of an offset",
            FaultKind::ExpectedSelector => "expected a selector",
            FaultKind::ExpectedValue => "expected a number after '='",
            FaultKind::ExpectedBranch => "expected '{' after a selector",
            FaultKind::MissingOther => "no branch for 'other'",
            FaultKind::TooDeep => "branches are nested too deep",
        })
    }
}

/// Why [`Pattern::parse`](crate::Pattern::parse) returns no pattern.
#[derive(Clone, Copy, Debug, PartialEq, Eq)]
pub enum PatternError {
    /// The text isn't a pattern: the kind of its first fault, and the byte where it is.
    Fault(FaultKind, usize),
    /// Out of memory.
    Memory,
}

impl fmt::Display for PatternError {
    ghost use Rattle.std.specs.Prelude.{Some};
    ghost use Rattle.message_pattern.specs.PatternAnswers.{pattern_error_text};

    ghost output = { λ error. Some (pattern_error_text error) };

    fn fmt<W: fmt::Write>(&self, f: &mut fmt::Formatter<W>) -> fmt::Result {
        match self {
            PatternError::Fault(kind, place) => write!(f, "{kind} at byte {place}"),
            PatternError::Memory => f.write_str("out of memory"),
        }
    }
}

impl Error for PatternError {}

// A fault, and how many bytes of the text are left where it is.
#[derive(Clone, Copy)]
pub(crate) struct Fault {
    pub(crate) kind: FaultKind,
    pub(crate) left: usize,
}

// Why a reading stops.
#[derive(Clone, Copy)]
pub(crate) enum ReadError {
    Fault(Fault),
    Memory,
}

impl From<Fault> for ReadError {
    ghost use Rattle.std.specs.Prelude.{◌≡◌};
    ghost use Rattle.message_pattern.specs.declared.error.ReadError.TheVariants as read;

    ghost from_gives = { λ fault error. error ≡ read.Fault fault };

    fn from(fault: Fault) -> Self {
        ReadError::Fault(fault)
    }
}

impl From<AllocError> for ReadError {
    ghost use Rattle.std.specs.Prelude.{◌≡◌};
    ghost use Rattle.message_pattern.specs.declared.error.ReadError.TheVariants as read;

    ghost from_gives = { λ _ error. error ≡ read.Memory };

    fn from(_error: AllocError) -> Self {
        ReadError::Memory
    }
}

impl<T: Drop> From<AllocFailed<T>> for ReadError {
    ghost use Rattle.std.specs.Prelude.{◌≡◌};
    ghost use Rattle.message_pattern.specs.declared.error.ReadError.TheVariants as read;

    ghost from_gives = { λ _ error. error ≡ read.Memory };

    fn from(_error: AllocFailed<T>) -> Self {
        ReadError::Memory
    }
}
