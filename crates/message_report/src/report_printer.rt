//! Ways to print what is found in files of messages.

ghost use Rattle.std.specs.Prelude.{◌≡◌, IfErr};
ghost use Rattle.message_report.specs.MessagesRun.{IsPrintedText};

use crate::error::ReportError;
use crate::found::Found;
use crate::report::{counts_line, report_text};
use plural_documents::{OutputError, WaitingBytes, write_lines, write_output};
use std::alloc::{AllocError, Global};
use std::io::Write;

/// A way to print what is found in files of messages.
pub trait ReportPrinter {
    ghost use Rattle.std.specs.Prelude.{◌≡◌, ◌≢◌, IfErr, IfOk, List, ℕ, string_bytes};
    ghost use Rattle.message_report.specs.FoundInMessages as seen;
    ghost use Rattle.message_report.specs.MessagesRun.{IsPrintedText};

    // The text of what is found.
    ghost text_of: { Self → seen.MessageFound → List ℕ };

    /// Returns the text. It allocates; the only error is out of memory.
    fn print(&self, alloc: Global, found: &Found<'_>) -> Result<String, AllocError>
        ensures { IfOk result (λ text. string_bytes text ≡ text_of self.now found.now) };

    /// Writes the text, and nothing else.
    ///
    /// The errors: [`ReportError::Write`] if the writer failed, which then took a beginning of the
    /// text, and [`ReportError::Memory`] if memory ran out, and then nothing was written. It
    /// allocates: the text, unless the printer writes it line by line.
    fn write<W: Write>(
        &self,
        alloc: Global,
        found: &Found<'_>,
        writer: &mut W,
    ) -> Result<(), ReportError>
        ensures text { IsPrintedText (text_of self.now found.now) (W.contents writer.old) (W.contents writer.new) result }
        ensures writes_nothing { IfErr result (λ e. e ≢ ReportError.Write → writer.new ≡ writer.old) }
    {
        match self.print(alloc, found) {
            Ok(text) => write_text(text.as_str(), writer),
            Err(_) => Err(ReportError::Memory),
        }
    }
}

/// Writes a text, and nothing else.
///
/// The error is [`ReportError::Write`]: the writer failed, and took a beginning of the text.
pub fn write_text<W: Write>(text: &str, writer: &mut W) -> Result<(), ReportError>
    ensures text { IsPrintedText text.now (W.contents writer.old) (W.contents writer.new) result }
    ensures only { IfErr result (λ e. e ≡ ReportError.Write) }
{
    match write_output(writer, text.as_bytes()) {
        Ok(()) => Ok(()),
        Err(_) => Err(ReportError::Write),
    }
}

/// Prints a line for each finding, and one with the counts ([`report_text`]). They are written as
/// they are printed.
#[derive(Clone, Copy, Debug)]
pub struct ReportLines;

impl ReportPrinter for ReportLines {
    ghost use Rattle.message_report.specs.MessagesReportText.{messages_report_text};

    ghost text_of = { λ lines. messages_report_text };

    fn print(&self, alloc: Global, found: &Found<'_>) -> Result<String, AllocError> {
        report_text(alloc, found)
    }

    fn write<W: Write>(
        &self,
        alloc: Global,
        found: &Found<'_>,
        writer: &mut W,
    ) -> Result<(), ReportError> {
        let Ok(counts) = counts_line(alloc, found.counts()) else {
            return Err(ReportError::Memory);
        };
        let Ok(waiting) = WaitingBytes::new(alloc) else {
            return Err(ReportError::Memory);
        };
        match write_lines(waiting, found.findings(), counts.as_str(), writer) {
            Ok(()) => Ok(()),
            Err(OutputError) => Err(ReportError::Write),
        }
    }
}
