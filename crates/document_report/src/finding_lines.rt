//! The lines of findings.

ghost use Rattle.std.specs.Prelude.{◌≡◌, ◌++◌, codes, OnOk, string_bytes};
ghost use Rattle.document_report.specs.DocumentFindings.{document_cause_text, finding_view};
ghost use Rattle.document_report.specs.DocumentFindings as listed;
ghost use Rattle.document_report.specs.ReportText.{printed_finding};
ghost use Rattle.plural_documents.specs.PrintedKeys.{ended_line};

use crate::cause::Cause;
use crate::finding::Finding;
use crate::finding_place::FindingPlace;
use plural_documents::{KeptPlace, LinePrinter};
use std::alloc::{AllocError, Global};
use std::fmt::Write;

// Lines of findings, with what is printed for the place of the last one.
#[derive(Drop)]
pub(crate) struct FindingLines<'a> {
    pub(crate) place: KeptPlace<FindingPlace<'a>>,
}

impl<'a> LinePrinter<Finding<'a>> for FindingLines<'a> {
    ghost Seen = { listed.Finding };

    ghost seen = { finding_view };

    ghost line_of = { λ lines. printed_finding };

    fn push(
        &mut self,
        _alloc: Global,
        finding: &Finding<'a>,
        text: &mut String,
    ) -> Result<(), AllocError> {
        let place = self.place.text(finding.place)?;
        push_line(text, place, &finding.cause)
    }
}

// Appends the line of a cause, given what is printed for the place, and a newline.
fn push_line(text: &mut String, place: &str, cause: &Cause) -> Result<(), AllocError>
    ensures { OnOk result (string_bytes text.new ≡ string_bytes text.old ++ ended_line (place.now ++ (codes ": " ++ document_cause_text cause.now))) }
{
    match write!(text, "{place}: {cause}\n") {
        Ok(()) => Ok(()),
        Err(_) => Err(AllocError),
    }
}
