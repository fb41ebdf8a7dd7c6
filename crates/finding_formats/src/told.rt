//! What is told of a file.

ghost use Rattle.std.specs.Prelude.{◌≡◌};
ghost use Rattle.finding_formats.specs.LocatedFindings.{code_told, file_told, severity_told, told_view};

use crate::code::Code;
use crate::notice::Notice;
use message_report::{Finding, Severity};

/// What is told of a file.
#[derive(Clone, Copy, Debug)]
pub enum Told<'a> {
    /// What is found in its messages.
    Finding(Finding<'a>),
    /// Something else.
    Notice(Notice<'a>),
}

impl<'a> Told<'a> {
    /// Returns the name of the file.
    pub fn file(&self) -> &'a str
        ensures { result.now ≡ file_told (told_view self.now) }
    {
        match *self {
            Told::Finding(finding) => finding.place.file(),
            Told::Notice(notice) => notice.file,
        }
    }

    /// Returns how grave it is.
    pub fn severity(&self) -> Severity
        ensures { result ≡ severity_told (told_view self.now) }
    {
        match *self {
            Told::Finding(finding) => finding.cause.severity(),
            Told::Notice(notice) => notice.severity,
        }
    }

    /// Returns its code: that of the cause ([`Code`]), or of the notice.
    pub fn code(&self) -> &'a str
        ensures { result.now ≡ code_told (told_view self.now) }
    {
        match *self {
            Told::Finding(finding) => Code::of(finding.cause).as_str(),
            Told::Notice(notice) => notice.code,
        }
    }
}
