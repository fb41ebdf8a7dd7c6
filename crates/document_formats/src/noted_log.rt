//! Logs of SARIF with notes.

ghost use Rattle.std.specs.Prelude.{◌≡◌, ◌++◌, false, IfOk, map, string_bytes};
ghost use Rattle.document_formats.specs.NoteCodes.{note_code_meaning, note_code_name};
ghost use Rattle.document_formats.specs.NotedLog.{note_level, note_result_in, noted_log, noted_results, noted_rules};
ghost use Rattle.document_formats.specs.declared.note_code.NoteCode as of_notes;
ghost use Rattle.document_notes.specs.DocumentNotes as noted;
ghost use Rattle.document_notes.specs.DocumentNotes.{note_view};
ghost use Rattle.finding_formats.specs.Logs.{rule_data};
ghost use Rattle.serde_json.specs.View.{items_of, view};
ghost use Rattle.serde_json.specs.Written.{items_have_float};

use crate::code::ALL_CODES;
use crate::log::{CodeRules, FileResults};
use crate::note_code::{ALL_NOTE_CODES, NoteCode};
use document_notes::{DocumentNote, DocumentNotes};
use document_report::Report;
use finding_formats::log::{
    ValueMaker, location_value, log_text, result_value, rule_value, values_of,
};
use serde_json::Value;
use std::alloc::{AllocError, Global};

// The log of a file, with notes, which may be faults.
pub(crate) fn noted_log(
    alloc: Global,
    file: &str,
    is_strict: bool,
    report: &Report<'_>,
    notes: &DocumentNotes<'_>,
) -> Result<String, AllocError>
    ensures { IfOk result (λ text. string_bytes text ≡ noted_log file.now is_strict report.now notes.now) }
{
    let results = noted_results(alloc, file, is_strict, report, notes)?;
    let rules = noted_rules(alloc)?;
    log_text(alloc, "plurals_check", rules, results)
}

// The results of findings and of notes.
fn noted_results(
    alloc: Global,
    file: &str,
    is_strict: bool,
    report: &Report<'_>,
    notes: &DocumentNotes<'_>,
) -> Result<Vec<Value>, AllocError>
    ensures values { IfOk result (λ results. map view results.items ≡ noted_results file.now is_strict report.now notes.now) }
    ensures without { IfOk result (λ results. items_have_float (items_of (map view results.items)) ≡ false) }
{
    let found = values_of(alloc, &FileResults { file }, report.findings())?;
    let noted = values_of(alloc, &NoteResults { file, is_strict }, notes.as_slice())?;
    joined(found, noted)
}

// The rules of the codes of findings and of notes.
fn noted_rules(alloc: Global) -> Result<Vec<Value>, AllocError>
    ensures values { IfOk result (λ rules. map view rules.items ≡ noted_rules) }
    ensures without { IfOk result (λ rules. items_have_float (items_of (map view rules.items)) ≡ false) }
{
    let found = values_of(alloc, &CodeRules, ALL_CODES)?;
    let noted = values_of(alloc, &NoteRules, ALL_NOTE_CODES)?;
    joined(found, noted)
}

// Two lists of values, one behind the other.
fn joined(first: Vec<Value>, second: Vec<Value>) -> Result<Vec<Value>, AllocError>
    requires first { items_have_float (items_of (map view first.items)) ≡ false }
    requires second { items_have_float (items_of (map view second.items)) ≡ false }
    ensures values { IfOk result (λ all. map view all.items ≡ map view first.items ++ map view second.items) }
    ensures without { IfOk result (λ all. items_have_float (items_of (map view all.items)) ≡ false) }
{
    let (mut all, mut others) = (first, second);
    all.append(&mut others)?;
    Ok(all)
}

// The rules of codes.
#[derive(Drop)]
struct NoteRules;

impl ValueMaker<NoteCode> for NoteRules {
    ghost Seen = { of_notes.NoteCode };

    ghost seen = { λ code. code };

    ghost data_of = { λ rules code. rule_data (note_code_name code) (note_code_meaning code) };

    fn value(&self, alloc: Global, code: &NoteCode) -> Result<Value, AllocError> {
        rule_value(alloc, code.as_str(), code.meaning())
    }
}

// The results of notes in a file, which may be faults.
#[derive(Drop)]
struct NoteResults<'f> {
    file: &'f str,
    is_strict: bool,
}

impl<'f, 'a> ValueMaker<DocumentNote<'a>> for NoteResults<'f> {
    ghost Seen = { noted.NoteAt };

    ghost seen = { note_view };

    ghost data_of = { λ results. note_result_in results.file.now results.is_strict };

    fn value(&self, alloc: Global, note: &DocumentNote<'a>) -> Result<Value, AllocError> {
        let name = note.place_text(alloc)?;
        let location = location_value(alloc, self.file, None, name.as_str())?;
        let text = note.line(alloc)?;
        let code = NoteCode::of(note);
        result_value(
            alloc,
            note_level(self.is_strict),
            location,
            text.as_str(),
            code.as_str(),
            code.place(),
        )
    }
}

// The level of a note.
fn note_level(is_strict: bool) -> &'static str
    ensures { result.now ≡ note_level is_strict }
{
    if is_strict { "error" } else { "note" }
}
