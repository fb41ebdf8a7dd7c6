//! Reads an input and writes the answer to it.

ghost use Rattle.std.specs.Prelude.{◌≡◌, ◌≢◌, Ok, Err, IfErr, List, ℕ, IsFalse, IsTrue};
ghost use Rattle.document_report.specs.CheckAnswer.{AnswersDocument, AnswersInputAsText, AnswersInputAs, IsCheckAnswered, answer_with, check_origin};
ghost use Rattle.document_report.specs.CheckedDocument.{document_of_input, document_of_bytes};
ghost use Rattle.document_report.specs.Inner.CheckCalls.{Gives, GivesAfterReading, GivesOnly, answer_view};
ghost use Rattle.document_report.specs.declared.error.CheckError.TheVariants.{Usage};
ghost use Rattle.plural_documents.specs.Inputs.{IsInput, IsReadAfterResult};
ghost use Rattle.serde_json.specs.View.{view};

use crate::document::value_of;
use crate::error::CheckError;
use crate::report::{Report, Verdict, report_of};
use crate::report_printer::{ReportLines, ReportPrinter};
use plural_documents::{read_input, write_output};
use serde_json::Value;
use std::alloc::Global;
use std::io::{Read, Write};

// The text that is written for a document, and whether the document has a fault.
#[derive(Drop)]
pub(crate) struct Answer {
    pub(crate) text: String,
    pub(crate) verdict: Verdict,
}

/// Writes the report of a document, and nothing else.
///
/// The input is read to its end, or to the first byte past the limit, as a JSON document: rules of
/// locales for cardinal and for ordinal numbers, and categories of ranges (UTS 35 Part 3, Language
/// Plural Rules). The report has a line for each fault: in the texts of rules and in their samples,
/// as reported by `plural_checker`, and in the entries of ranges; and then a line with the counts
/// of locales, rule texts, numbers and faults. It allocates.
///
/// The errors, in the order in which they are checked: [`CheckError::Usage`] if there are
/// arguments; [`CheckError::Read`] if the reader failed, [`CheckError::TooLong`] above 4194304
/// bytes, [`CheckError::Json`] if the input is no JSON text, [`CheckError::Float`] if it has a
/// float, and [`CheckError::NoObject`] if the document, one of its parts or the value of a locale
/// is no object; [`CheckError::Write`] if the writer failed; [`CheckError::Memory`] if memory ran
/// out. After an error nothing was written, except by a failed write, which took a beginning of the
/// report.
pub fn run<R: Read, W: Write>(
    alloc: Global,
    has_words: bool,
    reader: &mut R,
    writer: &mut W,
) -> Result<Verdict, CheckError>
    // The answer is that of some input: what remained in the reader, if that is known.
    ensures answers { (input : List ℕ) × IsInput (R.remaining reader.old) input
        × IsCheckAnswered (AnswersInputAsText has_words input) (W.contents writer.old) (W.contents writer.new) result }
    ensures reads { IsFalse has_words → IsReadAfterResult check_origin (R.remaining reader.old) (R.remaining reader.new) result }
    ensures reads_nothing { IsTrue has_words → (reader.new ≡ reader.old) × (result ≡ Err Usage) }
    ensures writes_nothing { IfErr result (λ e. e ≢ CheckError.Write → writer.new ≡ writer.old) }
{
    run_as(alloc, has_words, &ReportLines, reader, writer)
}

/// The same with the report as a printer prints it.
pub fn run_as<P: ReportPrinter, R: Read, W: Write>(
    alloc: Global,
    has_words: bool,
    printer: &P,
    reader: &mut R,
    writer: &mut W,
) -> Result<Verdict, CheckError>
    ensures answers { (input : List ℕ) × IsInput (R.remaining reader.old) input
        × IsCheckAnswered (AnswersInputAs (P.text_of printer.now) has_words input) (W.contents writer.old) (W.contents writer.new) result }
    ensures reads { IsFalse has_words → IsReadAfterResult check_origin (R.remaining reader.old) (R.remaining reader.new) result }
    ensures reads_nothing { IsTrue has_words → (reader.new ≡ reader.old) × (result ≡ Err Usage) }
    ensures writes_nothing { IfErr result (λ e. e ≢ CheckError.Write → writer.new ≡ writer.old) }
{
    if has_words {
        return Err(CheckError::Usage);
    }
    let answer = answer_to_reader(alloc, printer, reader)?;
    match write_output(writer, answer.text.as_str().as_bytes()) {
        Ok(()) => Ok(answer.verdict),
        Err(_) => Err(CheckError::Write),
    }
}

// The answer to the input of a reader.
fn answer_to_reader<P: ReportPrinter, R: Read>(
    alloc: Global,
    printer: &P,
    reader: &mut R,
) -> Result<Answer, CheckError>
    ensures answers { (input : List ℕ) × IsInput (R.remaining reader.old) input
        × GivesAfterReading (AnswersDocument (P.text_of printer.now) (document_of_input input)) result }
    ensures reads { IsReadAfterResult check_origin (R.remaining reader.old) (R.remaining reader.new) result }
{
    let input = read_input(alloc, reader)?;
    answer_to(alloc, printer, input.as_slice())
}

// The answer to the bytes of an input.
fn answer_to<P: ReportPrinter>(
    alloc: Global,
    printer: &P,
    bytes: &[u8],
) -> Result<Answer, CheckError>
    ensures { Gives answer_view (AnswersDocument (P.text_of printer.now) (document_of_bytes bytes.now)) result }
{
    match value_of(alloc, bytes) {
        Ok(document) => {
            let answer = answer_of(alloc, printer, &document);
            drop(document);
            answer
        }
        Err(error) => Err(error),
    }
}

// The answer to a document.
fn answer_of<P: ReportPrinter>(
    alloc: Global,
    printer: &P,
    document: &Value,
) -> Result<Answer, CheckError>
    ensures { Gives answer_view (AnswersDocument (P.text_of printer.now) (Ok (view document.now))) result }
{
    match report_of(alloc, document) {
        Ok(report) => {
            let answer = answer_with(alloc, printer, &report);
            drop(report);
            answer
        }
        Err(_) => Err(CheckError::Memory),
    }
}

// The answer with a report.
fn answer_with<P: ReportPrinter>(
    alloc: Global,
    printer: &P,
    report: &Report<'_>,
) -> Result<Answer, CheckError>
    ensures { GivesOnly answer_view (Ok (answer_with (P.text_of printer.now) report.now)) result }
{
    match printer.print(alloc, report) {
        Ok(text) => Ok(Answer {
            text,
            verdict: report.verdict(),
        }),
        Err(_) => Err(CheckError::Memory),
    }
}
