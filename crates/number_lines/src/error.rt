//! Why the lines of an input aren't all answered.

use std::error::Error;
use std::fmt;

/// Why the lines of an input aren't all answered.
#[derive(Clone, Copy, Debug, PartialEq, Eq)]
pub enum LinesError {
    /// The reader failed. The lines before were answered.
    Read,
    /// The writer failed; it took a beginning of the answers.
    Write,
    /// Out of memory. Of the answers at most a beginning was written.
    Memory,
}

impl fmt::Display for LinesError {
    ghost use Rattle.std.specs.Prelude.{Some};
    ghost use Rattle.number_lines.specs.AnsweredInputs.{lines_error_text};

    ghost output = { λ error. Some (lines_error_text error) };

    fn fmt<W: fmt::Write>(&self, f: &mut fmt::Formatter<W>) -> fmt::Result {
        f.write_str(match self {
            LinesError::Read => "cannot read numbers",
            LinesError::Write => "cannot write output",
            LinesError::Memory => "out of memory",
        })
    }
}

impl Error for LinesError {}
