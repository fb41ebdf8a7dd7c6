//! Writes the report of files of messages.

ghost use Rattle.std.specs.Prelude.{◌≡◌, ◌≢◌, IfErr};
ghost use Rattle.message_report.specs.MessagesRun.{IsReported, IsReportedAs};

use crate::counts::Counts;
use crate::error::ReportError;
use crate::file::{MessageFile, found_in_files};
use crate::report_printer::{ReportLines, ReportPrinter};
use crate::source::RulesOfLocales;
use std::alloc::Global;
use std::io::Write;

/// Writes the report of files of messages, and nothing else, and returns its counts.
///
/// The errors: [`ReportError::Write`] if the writer failed, which then took a beginning of the
/// report, and [`ReportError::Memory`] if memory ran out, and then nothing was written. It
/// allocates.
pub fn run<S: RulesOfLocales, W: Write>(
    alloc: Global,
    source: &S,
    files: &[MessageFile<'_>],
    writer: &mut W,
) -> Result<Counts, ReportError>
    ensures reports { IsReported (S.source source.now) files.now (W.contents writer.old) (W.contents writer.new) result }
    ensures writes_nothing { IfErr result (λ e. e ≢ ReportError.Write → writer.new ≡ writer.old) }
{
    run_as(alloc, source, files, &ReportLines, writer)
}

/// The same with the report as a printer prints it.
pub fn run_as<S: RulesOfLocales, P: ReportPrinter, W: Write>(
    alloc: Global,
    source: &S,
    files: &[MessageFile<'_>],
    printer: &P,
    writer: &mut W,
) -> Result<Counts, ReportError>
    ensures reports { IsReportedAs (P.text_of printer.now) (S.source source.now) files.now (W.contents writer.old) (W.contents writer.new) result }
    ensures writes_nothing { IfErr result (λ e. e ≢ ReportError.Write → writer.new ≡ writer.old) }
{
    let Ok(found) = found_in_files(alloc, source, files) else {
        return Err(ReportError::Memory);
    };
    match printer.write(alloc, &found, writer) {
        Ok(()) => Ok(found.counts()),
        Err(error) => Err(error),
    }
}
