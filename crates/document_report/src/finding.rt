//! What is found in a document.

ghost use Rattle.std.specs.Prelude.{◌≡◌, IfOk, Some, string_bytes};
ghost use Rattle.document_report.specs.DocumentFindings.{finding_line, finding_view};

use crate::cause::Cause;
use crate::finding_place::FindingPlace;
use std::alloc::{AllocError, Global};
use std::fmt;

/// What is found in a document.
#[derive(Debug, Drop)]
pub struct Finding<'a> {
    /// Where it is.
    pub place: FindingPlace<'a>,
    /// What is wrong there.
    pub cause: Cause,
}

/// The line that is printed, without a newline: `cardinal ru few: expected value`.
impl fmt::Display for Finding<'_> {
    ghost output = { λ finding. Some (finding_line (finding_view finding)) };

    fn fmt<W: fmt::Write>(&self, f: &mut fmt::Formatter<W>) -> fmt::Result {
        write!(f, "{}: {}", self.place, self.cause)
    }
}

impl Finding<'_> {
    /// Returns the line that is printed: the place, and what is wrong. It allocates; the only error
    /// is out of memory.
    pub fn line(&self, alloc: Global) -> Result<String, AllocError>
        ensures { IfOk result (λ line. string_bytes line ≡ finding_line (finding_view self.now)) }
    {
        self.to_string(alloc)
    }
}
