//! Why the program fails.

ghost use Rattle.plural_queries.specs.CallAnswers.{status_of, input_fault};
ghost use Rattle.std.specs.Prelude.{◌≡◌};

use icu_plurals::provider::rules::reference::ParseError;
use icu_plurals::{DecimalError, JsonError};
use plural_documents::InputError;
use thiserror::Error;

const USAGE: &str =
    "usage: test CONDITION INTEGER; category LOCALE TYPE NUMBER; range LOCALE TYPE START END; print LOCALE TYPE; select LOCALE TYPE NUMBER; message LOCALE TYPE NUMBER";

/// Why the program fails. The program checks for these in this order.
#[derive(Debug, Drop, Error)]
pub enum RunError {
    /// The words are no command, are too few or too many for it, or name no type.
    #[error("{}", USAGE)]
    Usage,
    /// The condition can't be read.
    #[error("{0}")]
    Condition(ParseError),
    /// The number is out of form, or over its limit.
    #[error("{0}")]
    Number(DecimalError),
    /// The reader failed.
    #[error("cannot read input")]
    Read,
    /// The input has more than 4194304 bytes.
    #[error("input too long")]
    TooLong,
    /// The input is no JSON text.
    #[error("input is not JSON")]
    Json,
    /// The input is no document, or lacks the elements that the command needs.
    #[error("bad document: {0}")]
    Document(JsonError),
    /// The document lacks the rules of the type for the locale, or the ranges that the command
    /// needs.
    #[error("locale not found")]
    Locale,
    /// The writer failed; it took a beginning of the answer.
    #[error("cannot write output")]
    Write,
    /// Out of memory. Nothing was written.
    #[error("out of memory")]
    Memory,
}

impl From<InputError> for RunError {
    ghost from_gives = { λ error fault. fault ≡ input_fault error };

    fn from(error: InputError) -> RunError {
        match error {
            InputError::Read => RunError::Read,
            InputError::TooLong => RunError::TooLong,
            InputError::Memory => RunError::Memory,
        }
    }
}

impl RunError {
    /// Returns the exit status of the program: 2 for words that are no command, otherwise 1.
    pub fn status(&self) -> u8
        ensures { result ≡ status_of self.now }
    {
        match self {
            RunError::Usage => 2,
            RunError::Condition(_)
            | RunError::Number(_)
            | RunError::Read
            | RunError::TooLong
            | RunError::Json
            | RunError::Document(_)
            | RunError::Locale
            | RunError::Write
            | RunError::Memory => 1,
        }
    }
}
