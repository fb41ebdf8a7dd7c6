//! The report of a document, or of a file, in a format.

ghost use Rattle.std.specs.Prelude.{◌≡◌, IfOk, string_bytes};
ghost use Rattle.document_formats.specs.NotedFormats.{file_report_as, report_as};

use crate::commands::{file_commands, report_commands};
use crate::file_text::file_text;
use crate::json_lines::{file_lines, json_lines};
use crate::log::{file_log, report_log};
use document_report::{Report, ReportPrinter};
use finding_formats::Format;
use std::alloc::{AllocError, Global};

/// Returns the report of a document as text in a format. It allocates; the only error is out of
/// memory.
pub fn print(alloc: Global, format: Format, report: &Report<'_>) -> Result<String, AllocError>
    ensures { IfOk result (λ text. string_bytes text ≡ report_as format report.now) }
{
    match format {
        Format::Text => report.text(alloc),
        Format::Json => json_lines(alloc, report),
        Format::Sarif => report_log(alloc, report),
        Format::GitHub => report_commands(alloc, report),
    }
}

/// Prints the report of a document in a format.
#[derive(Clone, Copy, Debug)]
pub struct DocumentFormat(pub Format);

impl ReportPrinter for DocumentFormat {
    ghost use Rattle.document_formats.specs.NotedFormats.{report_as};

    ghost text_of = { λ printer. report_as printer.0 };

    fn print(&self, alloc: Global, report: &Report<'_>) -> Result<String, AllocError> {
        print(alloc, self.0, report)
    }
}

/// Returns the report of the document in a file of this name as text in a format: its lines begin
/// with the name, and the objects, results and commands name it in the place of `-`. It allocates;
/// the only error is out of memory.
pub fn print_file(
    alloc: Global,
    format: Format,
    file: &str,
    report: &Report<'_>,
) -> Result<String, AllocError>
    ensures { IfOk result (λ text. string_bytes text ≡ file_report_as file.now format report.now) }
{
    match format {
        Format::Text => file_text(alloc, file, report),
        Format::Json => file_lines(alloc, file, report),
        Format::Sarif => file_log(alloc, file, report),
        Format::GitHub => file_commands(alloc, file, report),
    }
}

/// Prints the report of the document in a file in a format ([`print_file`]).
#[derive(Clone, Copy, Debug)]
pub struct FileFormat<'a> {
    /// The file's name.
    pub file: &'a str,
    /// The format.
    pub format: Format,
}

impl<'a> ReportPrinter for FileFormat<'a> {
    ghost use Rattle.document_formats.specs.NotedFormats.{file_report_as};

    ghost text_of = { λ printer. file_report_as printer.file.now printer.format };

    fn print(&self, alloc: Global, report: &Report<'_>) -> Result<String, AllocError> {
        print_file(alloc, self.format, self.file, report)
    }
}
