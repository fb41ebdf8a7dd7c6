//! Which word of a command line is wrong, and why.

use std::error::Error;
use std::fmt;

/// Which word of a command line is wrong, and why.
#[derive(Clone, Copy, Debug)]
pub enum WordFault<'w> {
    /// After `--format` there is no word.
    NoFormat,
    /// The word after `--format` names no format.
    Format(&'w str),
    /// The word begins as an option does, and is none that can stand there.
    Option(&'w str),
}

impl<'w> fmt::Display for WordFault<'w> {
    ghost use Rattle.std.specs.Prelude.{Some};
    ghost use Rattle.document_formats.specs.CheckWords.{word_fault_text};
    ghost use Rattle.document_formats.specs.Inner.WordViews.{word_fault_view};

    ghost output = { λ fault. Some (word_fault_text (word_fault_view fault)) };

    fn fmt<W: fmt::Write>(&self, f: &mut fmt::Formatter<W>) -> fmt::Result {
        match self {
            WordFault::NoFormat => f.write_str("--format: no format is named"),
            WordFault::Format(word) => write!(f, "--format {word}: not a format"),
            WordFault::Option(word) => write!(f, "{word}: not an option here"),
        }
    }
}

impl<'w> Error for WordFault<'w> {}
