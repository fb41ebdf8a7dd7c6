//! What is printed for what is found.

ghost use Rattle.std.specs.Prelude.{◌≡◌, IfOk, string_bytes};
ghost use Rattle.finding_formats.specs.FindingFormats.{printed_as};

use crate::format::Format;
use crate::json_lines::json_lines;
use crate::sarif::sarif_text;
use crate::workflow::workflow_text;
use message_report::{Found, ReportError, ReportLines, ReportPrinter, report_text, write_text};
use std::alloc::{AllocError, Global};
use std::io::Write;

/// Returns what is found, as text in a format. It allocates; the only error is out of memory.
pub fn print(alloc: Global, format: Format, found: &Found<'_>) -> Result<String, AllocError>
    ensures { IfOk result (λ text. string_bytes text ≡ printed_as format found.now) }
{
    match format {
        Format::Text => report_text(alloc, found),
        Format::Json => json_lines(alloc, found),
        Format::Sarif => sarif_text(alloc, found),
        Format::GitHub => workflow_text(alloc, found),
    }
}

impl ReportPrinter for Format {
    ghost use Rattle.finding_formats.specs.FindingFormats.{printed_as};

    ghost text_of = { printed_as };

    fn print(&self, alloc: Global, found: &Found<'_>) -> Result<String, AllocError> {
        print(alloc, *self, found)
    }

    fn write<W: Write>(
        &self,
        alloc: Global,
        found: &Found<'_>,
        writer: &mut W,
    ) -> Result<(), ReportError> {
        if *self == Format::Text {
            return ReportLines.write(alloc, found, writer);
        }
        match print(alloc, *self, found) {
            Ok(text) => write_text(text.as_str(), writer),
            Err(_) => Err(ReportError::Memory),
        }
    }
}
