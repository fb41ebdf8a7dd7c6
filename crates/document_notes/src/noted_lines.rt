//! The text of a report with notes.

ghost use Rattle.std.specs.Prelude.{◌≡◌, ◌++◌, codes, IfOk, OnOk, option_map, string_bytes};
ghost use Rattle.document_notes.specs.DocumentNotes as noted;
ghost use Rattle.document_notes.specs.DocumentNotes.{note_view};
ghost use Rattle.document_notes.specs.NotedText.{counts_with, line_in, name_in, note_line, noted_counts, noted_text, notes_text};
ghost use Rattle.document_report.specs.DocumentFindings.{document_cause_text, finding_line, finding_view};
ghost use Rattle.document_report.specs.DocumentFindings as listed;
ghost use Rattle.plural_documents.specs.PrintedKeys.{ended_line};

use crate::document_note::{DocumentNote, DocumentNotes};
use document_report::{Cause, Counts, Finding, FindingPlace, Report};
use plural_documents::{KeptPlace, LinePrinter, push_lines};
use std::alloc::{AllocError, Global};
use std::fmt::Write;

/// Returns the text of a report with notes: a line for each finding, then one for each note, and one
/// with the counts, which tells the notes if there are any. With the name of a file each line begins
/// with it. It allocates; the only error is out of memory.
pub fn noted_text(
    alloc: Global,
    file: Option<&str>,
    report: &Report<'_>,
    notes: &DocumentNotes<'_>,
) -> Result<String, AllocError>
    ensures { IfOk result (λ text. string_bytes text ≡ noted_text (option_map (λ name. name.now) file.entry) report.now notes.now) }
{
    let mut text = String::new(alloc);
    let mut found = NamedFindings {
        file,
        place: KeptPlace::new(alloc),
    };
    push_lines(alloc, &mut found, report.findings(), &mut text)?;
    push_lines(alloc, &mut NamedNotes { file }, notes.as_slice(), &mut text)?;
    let counts = counts_text(alloc, report.counts(), notes.as_slice().len())?;
    push_line(file, counts.as_str(), &mut text)?;
    Ok(text)
}

// Lines of findings after the name of a file, if there is one, with what is printed for the place of
// the last one.
#[derive(Drop)]
struct NamedFindings<'f, 'a> {
    file: Option<&'f str>,
    place: KeptPlace<FindingPlace<'a>>,
}

impl<'f, 'a> LinePrinter<Finding<'a>> for NamedFindings<'f, 'a> {
    ghost Seen = { listed.Finding };

    ghost seen = { finding_view };

    ghost line_of = { λ lines f. line_in (option_map (λ name. name.now) lines.file) (finding_line f) };

    fn push(
        &mut self,
        _alloc: Global,
        finding: &Finding<'a>,
        text: &mut String,
    ) -> Result<(), AllocError> {
        push_name(self.file, text)?;
        let place = self.place.text(finding.place)?;
        push_cause(place, &finding.cause, text)
    }
}

// Appends what is wrong, behind what is printed for the place, and a newline.
fn push_cause(place: &str, cause: &Cause, text: &mut String) -> Result<(), AllocError>
    ensures { OnOk result (string_bytes text.new ≡ string_bytes text.old ++ ended_line (place.now ++ (codes ": " ++ document_cause_text cause.now))) }
{
    match write!(text, "{place}: {cause}\n") {
        Ok(()) => Ok(()),
        Err(_) => Err(AllocError),
    }
}

// Lines of notes after the name of a file, if there is one.
#[derive(Drop)]
struct NamedNotes<'f> {
    file: Option<&'f str>,
}

impl<'f, 'a> LinePrinter<DocumentNote<'a>> for NamedNotes<'f> {
    ghost Seen = { noted.NoteAt };

    ghost seen = { note_view };

    ghost line_of = { λ lines n. line_in (option_map (λ name. name.now) lines.file) (note_line n) };

    fn push(
        &mut self,
        alloc: Global,
        note: &DocumentNote<'a>,
        text: &mut String,
    ) -> Result<(), AllocError> {
        let line = note.line(alloc)?;
        push_line(self.file, line.as_str(), text)
    }
}

// Appends a line after the name of a file, if there is one, and a newline.
fn push_line(file: Option<&str>, line: &str, text: &mut String) -> Result<(), AllocError>
    ensures { OnOk result (string_bytes text.new ≡ string_bytes text.old ++ line_in (option_map (λ name. name.now) file.entry) line.now) }
{
    push_name(file, text)?;
    text.push_str(line)?;
    text.push_str("\n")
}

// Appends what stands before the lines of a file, if there is one.
fn push_name(file: Option<&str>, text: &mut String) -> Result<(), AllocError>
    ensures { OnOk result (string_bytes text.new ≡ string_bytes text.old ++ name_in (option_map (λ name. name.now) file.entry)) }
{
    let Some(name) = file else {
        return Ok(());
    };
    text.push_str(name)?;
    text.push_str(": ")
}

// The counts of a report, and of its notes.
fn counts_text(alloc: Global, counts: Counts, notes: usize) -> Result<String, AllocError>
    ensures { IfOk result (λ text. string_bytes text ≡ noted_counts counts notes) }
{
    let notes = notes_text(alloc, notes)?;
    counts_with(alloc, counts, notes.as_str())
}

// The counts, and what is printed of the notes.
fn counts_with(alloc: Global, counts: Counts, notes: &str) -> Result<String, AllocError>
    ensures { IfOk result (λ text. string_bytes text ≡ counts_with counts notes.now) }
{
    let (locales, rules, numbers, faults) = (
        counts.locales,
        counts.rules,
        counts.numbers,
        counts.faults,
    );
    format!(in alloc;
        "locales: {locales}, rules: {rules}, numbers: {numbers}, faults: {faults}{notes}"
    )
}

// How many notes there are, behind a comma, if there are some.
fn notes_text(alloc: Global, notes: usize) -> Result<String, AllocError>
    ensures { IfOk result (λ text. string_bytes text ≡ notes_text notes) }
{
    if notes == 0 {
        return Ok(String::new(alloc));
    }
    format!(in alloc; ", notes: {notes}")
}
