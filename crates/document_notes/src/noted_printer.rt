//! Ways to print a report with notes.

use crate::document_note::DocumentNotes;
use crate::noted_lines::noted_text;
use document_report::Report;
use std::alloc::{AllocError, Global};

/// A way to print the report of a document with its notes.
pub trait NotedPrinter {
    ghost use Rattle.std.specs.Prelude.{◌≡◌, IfOk, List, ℕ, string_bytes};
    ghost use Rattle.document_notes.specs.DocumentNotes as noted;
    ghost use Rattle.document_report.specs.declared.report.Report as reports;

    // The text of a report and of notes.
    ghost text_of: { Self → reports.Report → List noted.NoteAt → List ℕ };

    /// Returns the text. It allocates; the only error is out of memory.
    fn print(
        &self,
        alloc: Global,
        report: &Report<'_>,
        notes: &DocumentNotes<'_>,
    ) -> Result<String, AllocError>
        ensures { IfOk result (λ text. string_bytes text ≡ text_of self.now report.now notes.now) };
}

/// Prints lines ([`noted_text`]), after the name of a file if there is one.
#[derive(Clone, Copy, Debug)]
pub struct NotedLines<'f> {
    /// The name.
    pub file: Option<&'f str>,
}

impl<'f> NotedPrinter for NotedLines<'f> {
    ghost use Rattle.std.specs.Prelude.{option_map};
    ghost use Rattle.document_notes.specs.NotedText.{noted_text};

    ghost text_of = { λ lines. noted_text (option_map (λ name. name.now) lines.file) };

    fn print(
        &self,
        alloc: Global,
        report: &Report<'_>,
        notes: &DocumentNotes<'_>,
    ) -> Result<String, AllocError> {
        noted_text(alloc, self.file, report, notes)
    }
}
