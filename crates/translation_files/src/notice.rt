//! What is told of a file besides the findings of its messages.

use crate::code::NoticeCode;
use message_report::Severity;

/// What is told of a file, or of one of its messages.
#[derive(Debug, Drop)]
pub struct FileNotice {
    /// The line where it is, from 1 on, if it is of one.
    pub line: Option<u64>,
    /// How grave it is.
    pub severity: Severity,
    /// What it is, in a word.
    pub code: NoticeCode,
    /// What is wrong, left out or taken otherwise, in a translator's words, and what to do.
    pub text: String,
}
