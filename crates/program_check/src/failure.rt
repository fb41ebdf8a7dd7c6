//! Why there is no report, and how the program is used.

use document_report::CheckError;
use thiserror::Error;

// How the program is used.
pub(crate) const USAGE: &str =
    "usage: plurals_check [--strict] [--format text|json|sarif|github] [FILE..]
       plurals_check --help | --version";

// What a document is, and examples.
pub(crate) const EXAMPLES: &str = "
Checks documents of plural rules and ranges, as plurals_cldr_document makes them of CLDR's files.
Without a FILE the document is in standard input; - is standard input.
The status is 0 without faults, 1 with some (behind --strict notes are faults), and 2 if there is
no report of a document.

Examples:
  plurals_check cldr.json
  plurals_check --format github rules/*.json
  plurals_cldr_document common/supplemental | plurals_check
";

// Which version it is.
pub(crate) const VERSION: &str = "plurals_check 0.1.0\n";

// What is wrong with words that aren't UTF-8.
pub(crate) const NOT_TEXT: &str = "a word is not UTF-8";

// Why there is no report.
#[derive(Debug, Drop, Error)]
pub(crate) enum Failure {
    // The file can't be opened.
    #[error("cannot open")]
    Open,
    // The input is no JSON text, from this line and column on.
    #[error("input is not JSON: line {0} column {1}")]
    Json(usize, usize),
    // Something else.
    #[error("{0}")]
    Other(CheckError),
}

impl From<CheckError> for Failure {
    fn from(error: CheckError) -> Failure {
        Failure::Other(error)
    }
}
