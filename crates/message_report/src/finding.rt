//! What is found in a file of messages.

ghost use Rattle.std.specs.Prelude.{◌≡◌, IfOk, Some, string_bytes};
ghost use Rattle.message_report.specs.MessageFindings.{message_finding_line, message_finding_view};

use crate::cause::Cause;
use crate::place::Place;
use std::alloc::{AllocError, Global};
use std::fmt;

/// What is found in a file of messages.
#[derive(Clone, Copy, Debug)]
pub struct Finding<'a> {
    /// Where it is.
    pub place: Place<'a>,
    /// What is wrong there.
    pub cause: Cause,
}

impl Finding<'_> {
    /// Returns the line that is printed: the file, the place, and what is wrong. It allocates; the
    /// only error is out of memory.
    pub fn line(&self, alloc: Global) -> Result<String, AllocError>
        ensures { IfOk result (λ line. string_bytes line ≡ message_finding_line (message_finding_view self.now)) }
    {
        self.to_string(alloc)
    }
}

/// The line that is printed, without a newline: `ru.json: ru files two: no number is two`.
impl fmt::Display for Finding<'_> {
    ghost output = { λ finding. Some (message_finding_line (message_finding_view finding)) };

    fn fmt<W: fmt::Write>(&self, f: &mut fmt::Formatter<W>) -> fmt::Result {
        write!(f, "{}: {}: {}", self.place.file(), self.place, self.cause)
    }
}
