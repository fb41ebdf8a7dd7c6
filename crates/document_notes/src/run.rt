//! Writes the report of a document with its notes.

ghost use Rattle.std.specs.Prelude.{◌≡◌, ◌≢◌, Err, IfErr, IfOk};
ghost use Rattle.document_notes.specs.DocumentNotes.{AreNotesOfBytes};
ghost use Rattle.document_notes.specs.NotedAnswer.{AnswersNoted, IsNotedAnswer, noted_verdict, noted_view};
ghost use Rattle.document_report.specs.CheckAnswer.{IsCheckAnswered, check_origin};
ghost use Rattle.document_report.specs.CheckedDocument.{document_of_bytes};
ghost use Rattle.plural_documents.specs.Inputs.{GivesBy};
ghost use Rattle.serde_json.specs.View.{view};

use crate::document_note::{DocumentNotes, notes_in};
use crate::key_notes::key_notes_of;
use crate::noted_printer::NotedPrinter;
use document_report::{CheckError, Report, Verdict, report_of, value_of};
use plural_documents::{Scratch, write_output};
use serde_json::Value;
use std::alloc::{AllocError, Global};
use std::io::Write;

// The text that is written for a document, and its verdict.
#[derive(Drop)]
struct Noted {
    text: String,
    verdict: Verdict,
}

/// Writes the report of the document that bytes write, with its notes, as a printer prints them, and
/// nothing else. It allocates. If notes are faults (`is_strict`), the verdict on them is
/// [`Verdict::Faults`].
///
/// The errors are those of [`run`](document_report::run::run) from [`CheckError::Json`] on; after
/// one nothing was written, except by a failed write, which took a beginning of the report.
pub fn write_noted<P: NotedPrinter, W: Write>(
    alloc: Global,
    printer: &P,
    is_strict: bool,
    bytes: &[u8],
    writer: &mut W,
) -> Result<Verdict, CheckError>
    ensures answers { IsCheckAnswered (AnswersNoted (P.text_of printer.now) is_strict bytes.now (document_of_bytes bytes.now))
        (W.contents writer.old) (W.contents writer.new) result }
    ensures reads_nothing { result ≢ Err CheckError.Read }
    ensures writes_nothing { IfErr result (λ e. e ≢ CheckError.Write → writer.new ≡ writer.old) }
{
    let noted = noted_of_bytes(alloc, printer, is_strict, bytes)?;
    match write_output(writer, noted.text.as_str().as_bytes()) {
        Ok(()) => Ok(noted.verdict),
        Err(_) => Err(CheckError::Write),
    }
}

// The answer to bytes.
fn noted_of_bytes<P: NotedPrinter>(
    alloc: Global,
    printer: &P,
    is_strict: bool,
    bytes: &[u8],
) -> Result<Noted, CheckError>
    ensures { GivesBy check_origin noted_view
        (AnswersNoted (P.text_of printer.now) is_strict bytes.now (document_of_bytes bytes.now)) result }
{
    let document = value_of(alloc, bytes)?;
    match noted_of(alloc, printer, is_strict, bytes, &document) {
        Ok(noted) => Ok(noted),
        Err(_) => Err(CheckError::Memory),
    }
}

// The answer to the document that bytes write.
fn noted_of<P: NotedPrinter>(
    alloc: Global,
    printer: &P,
    is_strict: bool,
    bytes: &[u8],
    document: &Value,
) -> Result<Noted, AllocError>
    ensures { IfOk result (λ noted. IsNotedAnswer (P.text_of printer.now) is_strict bytes.now (view document.now) (noted_view noted)) }
{
    let report = report_of(alloc, document)?;
    let mut scratch = Scratch::new(alloc);
    let notes = notes_of(alloc, bytes, document, &mut scratch)?;
    let text = printer.print(alloc, &report, &notes)?;
    Ok(Noted {
        text,
        verdict: verdict_of(is_strict, &report, &notes),
    })
}

// The notes of the document that bytes write, on its keys and then on its rules. That they write
// none was found before.
fn notes_of<'a>(
    alloc: Global,
    bytes: &'a [u8],
    document: &'a Value,
    scratch: &'a mut Scratch,
) -> Result<DocumentNotes<'a>, AllocError>
    ensures { IfOk result (λ notes. AreNotesOfBytes bytes.now (view document.now) notes) }
{
    match key_notes_of(alloc, bytes, scratch) {
        Ok(mut notes) => {
            notes.append(notes_in(alloc, document)?)?;
            Ok(notes)
        }
        Err(_) => Err(AllocError),
    }
}

// The verdict on a report and its notes.
fn verdict_of(is_strict: bool, report: &Report<'_>, notes: &DocumentNotes<'_>) -> Verdict
    ensures { result ≡ noted_verdict is_strict report.now notes.now }
{
    if is_strict && !notes.as_slice().is_empty() {
        Verdict::Faults
    } else {
        report.verdict()
    }
}
