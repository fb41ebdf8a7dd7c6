//! Why there is no report.

ghost use Rattle.document_report.specs.CheckAnswer.{check_status};
ghost use Rattle.document_report.specs.Inner.CheckCalls.{check_input_fault};
ghost use Rattle.std.specs.Prelude.{◌≡◌};

use crate::place::Place;
use plural_documents::InputError;
use thiserror::Error;

const USAGE: &str = "usage: plurals_check [--format text|json|sarif|github] < DOCUMENT";

/// Why there is no report. The program checks for these in this order.
#[derive(Debug, Drop, Error)]
pub enum CheckError {
    /// There are command-line arguments that the program doesn't take.
    #[error("{}", USAGE)]
    Usage,
    /// The reader failed.
    #[error("cannot read input")]
    Read,
    /// The input has more than 4194304 bytes.
    #[error("input too long")]
    TooLong,
    /// The input is no JSON text.
    #[error("input is not JSON")]
    Json,
    /// The document contains a number that is no 64-bit integer.
    #[error("document: float")]
    Float,
    /// There is no object at this place, where one is expected; it is the first such place.
    #[error("{0}: no object")]
    NoObject(Place),
    /// The writer failed; it took a beginning of the report.
    #[error("cannot write output")]
    Write,
    /// Memory ran out. Nothing was written.
    #[error("out of memory")]
    Memory,
}

impl From<InputError> for CheckError {
    ghost from_gives = { λ error fault. fault ≡ check_input_fault error };

    fn from(error: InputError) -> CheckError {
        match error {
            InputError::Read => CheckError::Read,
            InputError::TooLong => CheckError::TooLong,
            InputError::Memory => CheckError::Memory,
        }
    }
}

impl CheckError {
    /// Returns the exit status of the program without a report, which is 2. With one it is that of
    /// the [`Verdict`](crate::Verdict).
    pub fn status(&self) -> u8
        ensures { result ≡ check_status self.now }
    {
        2
    }
}
