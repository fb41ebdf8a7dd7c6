//! The text of a report.

ghost use Rattle.std.specs.Prelude.{◌≡◌, IfOk, string_bytes};
ghost use Rattle.message_report.specs.MessageFindings.{message_finding_view};
ghost use Rattle.message_report.specs.MessageFindings as listed;
ghost use Rattle.message_report.specs.MessagesReportText.{counts_line_with, message_counts_line, messages_report_text, message_notes_text, printed_message_finding};

use crate::counts::Counts;
use crate::finding::Finding;
use crate::found::Found;
use plural_documents::{LinePrinter, push_lines};
use std::alloc::{AllocError, Global};
use std::fmt::Write;

/// Returns the text of a report: a line for each finding, and one with the counts. It allocates; the
/// only error is out of memory.
pub fn report_text(alloc: Global, found: &Found<'_>) -> Result<String, AllocError>
    ensures { IfOk result (λ text. string_bytes text ≡ messages_report_text found.now) }
{
    let mut text = String::new(alloc);
    push_lines(alloc, &mut FindingLines, found.findings(), &mut text)?;
    text.push_str(counts_line(alloc, found.counts())?.as_str())?;
    Ok(text)
}

// The lines of findings.
#[derive(Drop)]
struct FindingLines;

impl<'a> LinePrinter<Finding<'a>> for FindingLines {
    ghost Seen = { listed.MessageFinding };

    ghost seen = { message_finding_view };

    ghost line_of = { λ lines. printed_message_finding };

    fn push(
        &mut self,
        _alloc: Global,
        finding: &Finding<'a>,
        text: &mut String,
    ) -> Result<(), AllocError> {
        match write!(text, "{finding}\n") {
            Ok(()) => Ok(()),
            Err(_) => Err(AllocError),
        }
    }
}

// The line with the counts.
pub(crate) fn counts_line(alloc: Global, counts: Counts) -> Result<String, AllocError>
    ensures { IfOk result (λ line. string_bytes line ≡ message_counts_line counts) }
{
    let notes = notes_text(alloc, counts.notes)?;
    counts_line_with(alloc, counts, notes.as_str())
}

// The line with the counts, given what is printed of the notes.
fn counts_line_with(alloc: Global, counts: Counts, notes: &str) -> Result<String, AllocError>
    ensures { IfOk result (λ line. string_bytes line ≡ counts_line_with counts notes.now) }
{
    let (messages, forms, faults) = (counts.messages, counts.forms, counts.faults);
    format!(in alloc;
        "messages: {messages}, forms: {forms}, faults: {faults}{notes}, numbers tried: 0 to 9999\n"
    )
}

// How many notes there are, behind a comma, if there are some.
fn notes_text(alloc: Global, notes: u64) -> Result<String, AllocError>
    ensures { IfOk result (λ text. string_bytes text ≡ message_notes_text notes) }
{
    if notes == 0 {
        return Ok(String::new(alloc));
    }
    format!(in alloc; ", notes: {notes}")
}
