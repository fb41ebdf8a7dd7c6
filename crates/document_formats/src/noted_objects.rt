//! Notes as lines of JSON.

ghost use Rattle.std.specs.Prelude.{◌≡◌, IfOk, option_map, string_bytes};
ghost use Rattle.document_formats.specs.NotedFormats.{file_name, last_data, note_cause_data, note_data_in, noted_json, noted_numbers_data};
ghost use Rattle.document_notes.specs.DocumentNotes as noted;
ghost use Rattle.document_notes.specs.DocumentNotes.{note_view};
ghost use Rattle.finding_formats.specs.JsonLines.{json_line};
ghost use Rattle.serde_json.specs.View.{view};

use crate::finding_object::INPUT_NAME;
use crate::json_lines::FileObjects;
use crate::note_code::NoteCode;
use crate::note_place::note_place_value;
use document_notes::{DocumentNote, DocumentNotes};
use document_report::{Counts, Report};
use finding_formats::push_value;
use plural_documents::{LinePrinter, push_lines};
use serde_json::{Value, json};
use std::alloc::{AllocError, Global};

// A line for each finding, one for each note, and one with the counts.
pub(crate) fn noted_json(
    alloc: Global,
    file: Option<&str>,
    report: &Report<'_>,
    notes: &DocumentNotes<'_>,
) -> Result<String, AllocError>
    ensures { IfOk result (λ text. string_bytes text ≡ noted_json (option_map (λ name. name.now) file.entry) report.now notes.now) }
{
    let mut text = String::new(alloc);
    let name = file_name(file);
    let findings = report.findings();
    push_lines(alloc, &mut FileObjects { file: name }, findings, &mut text)?;
    let noted = notes.as_slice();
    push_lines(alloc, &mut NoteObjects { file: name }, noted, &mut text)?;
    let last = last_value(alloc, file, report.counts(), noted.len())?;
    push_value(alloc, &mut text, &last)?;
    Ok(text)
}

// The name of a file, or `-`.
pub(crate) fn file_name<'f>(file: Option<&'f str>) -> &'f str
    ensures { result.now ≡ file_name (option_map (λ name. name.now) file.entry) }
{
    match file {
        Some(name) => name,
        None => INPUT_NAME,
    }
}

// The objects of notes in a file.
#[derive(Drop)]
struct NoteObjects<'f> {
    file: &'f str,
}

impl<'f, 'a> LinePrinter<DocumentNote<'a>> for NoteObjects<'f> {
    ghost Seen = { noted.NoteAt };

    ghost seen = { note_view };

    ghost line_of = { λ objects n. json_line (note_data_in objects.file.now n) };

    fn push(
        &mut self,
        alloc: Global,
        note: &DocumentNote<'a>,
        text: &mut String,
    ) -> Result<(), AllocError> {
        let value = note_value(alloc, self.file, note)?;
        push_value(alloc, text, &value)
    }
}

// The object of a note in a file.
fn note_value(alloc: Global, file: &str, note: &DocumentNote<'_>) -> Result<Value, AllocError>
    ensures { IfOk result (λ value. view value ≡ note_data_in file.now (note_view note.now)) }
{
    let cause = cause_value(alloc, note)?;
    let place = note_place_value(alloc, note)?;
    let text = note.line(alloc)?;
    json!(in alloc; {
        "cause": cause,
        "file": file,
        "place": place,
        "severity": "note",
        "text": &text
    })
}

// The object of what is noted.
fn cause_value(alloc: Global, note: &DocumentNote<'_>) -> Result<Value, AllocError>
    ensures { IfOk result (λ value. view value ≡ note_cause_data (note_view note.now)) }
{
    let text = note.text(alloc)?;
    json!(in alloc; {"code": NoteCode::of(note).as_str(), "text": &text})
}

// The object of the line with the counts, of a file if there is one.
fn last_value(
    alloc: Global,
    file: Option<&str>,
    counts: Counts,
    notes: usize,
) -> Result<Value, AllocError>
    ensures { IfOk result (λ value. view value ≡ last_data (option_map (λ name. name.now) file.entry) counts notes) }
{
    let counts = numbers_value(alloc, counts, notes)?;
    match file {
        Some(name) => json!(in alloc; {"counts": counts, "file": name}),
        None => json!(in alloc; {"counts": counts}),
    }
}

// The object of counts, with that of the notes.
fn numbers_value(alloc: Global, counts: Counts, notes: usize) -> Result<Value, AllocError>
    ensures { IfOk result (λ value. view value ≡ noted_numbers_data counts notes) }
{
    json!(in alloc; {
        "faults": counts.faults,
        "locales": counts.locales,
        "notes": notes as u64,
        "numbers": counts.numbers,
        "rules": counts.rules
    })
}
