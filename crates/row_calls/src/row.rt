//! A row: a line of a file.

use crate::fault::RowFault;

/// The three parts of a row.
#[derive(Clone, Copy)]
pub struct Row<'a> {
    /// The kind, the first word.
    pub kind: &'a str,
    /// The text of the arguments.
    pub arguments: &'a str,
    /// The wanted result.
    pub wanted: &'a str,
}

impl<'a> Row<'a> {
    /// Returns the parts of a line: the kind ends at the first blank, and the arguments at the
    /// first ` => `.
    pub fn read(line: &'a str) -> Result<Row<'a>, RowFault> {
        let Some((call, wanted)) = line.split_once(" => ") else {
            return Err(RowFault::NoArrow);
        };
        let (kind, arguments) = call.split_once(' ').unwrap_or((call, ""));
        Ok(Row {
            kind,
            arguments,
            wanted,
        })
    }
}

/// Returns whether the line isn't a row: it is empty or a comment.
pub fn is_skipped(line: &str) -> bool {
    line.is_empty() || line.starts_with('#')
}
