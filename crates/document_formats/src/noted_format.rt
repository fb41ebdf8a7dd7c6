//! The report of a document with its notes, in a format.

use crate::noted_commands::noted_commands;
use crate::noted_log::noted_log;
use crate::noted_objects::{file_name, noted_json};
use document_notes::{DocumentNotes, NotedPrinter, noted_text};
use document_report::Report;
use finding_formats::Format;
use std::alloc::{AllocError, Global};

/// Prints the report of a document with its notes in a format, of a file if there is one.
#[derive(Clone, Copy, Debug)]
pub struct NotedFormat<'a> {
    /// The file's name.
    pub file: Option<&'a str>,
    /// The format.
    pub format: Format,
    /// Whether notes are faults, which a log of SARIF tells by their level.
    pub is_strict: bool,
}

impl<'a> NotedPrinter for NotedFormat<'a> {
    ghost use Rattle.std.specs.Prelude.{option_map};
    ghost use Rattle.document_formats.specs.NotedFormats.{noted_as};

    ghost text_of = { λ printer. noted_as (option_map (λ name. name.now) printer.file) printer.format printer.is_strict };

    fn print(
        &self,
        alloc: Global,
        report: &Report<'_>,
        notes: &DocumentNotes<'_>,
    ) -> Result<String, AllocError> {
        let name = file_name(self.file);
        match self.format {
            Format::Text => noted_text(alloc, self.file, report, notes),
            Format::Json => noted_json(alloc, self.file, report, notes),
            Format::Sarif => noted_log(alloc, name, self.is_strict, report, notes),
            Format::GitHub => noted_commands(alloc, name, report, notes),
        }
    }
}
