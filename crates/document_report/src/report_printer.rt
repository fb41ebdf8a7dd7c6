//! Ways to print the report of a document.

use crate::report::Report;
use std::alloc::{AllocError, Global};

/// A way to print the report of a document.
pub trait ReportPrinter {
    ghost use Rattle.std.specs.Prelude.{◌≡◌, IfOk, List, ℕ, string_bytes};
    ghost use Rattle.document_report.specs.declared.report.Report as reports;

    // The text of a report.
    ghost text_of: { Self → reports.Report → List ℕ };

    /// Returns the text. It allocates; the only error is out of memory.
    fn print(&self, alloc: Global, report: &Report<'_>) -> Result<String, AllocError>
        ensures { IfOk result (λ text. string_bytes text ≡ text_of self.now report.now) };
}

/// Prints a line for each finding, and one with the counts ([`Report::text`]).
#[derive(Clone, Copy, Debug)]
pub struct ReportLines;

impl ReportPrinter for ReportLines {
    ghost use Rattle.document_report.specs.ReportText.{report_text};

    ghost text_of = { λ lines. report_text };

    fn print(&self, alloc: Global, report: &Report<'_>) -> Result<String, AllocError> {
        report.text(alloc)
    }
}
