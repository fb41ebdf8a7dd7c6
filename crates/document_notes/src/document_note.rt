//! The notes of a document.

ghost use Rattle.std.specs.Prelude.{◌≡◌, ◌++◌, ◌∷◌, [], codes, IfOk, OnOk, map, string_bytes};
ghost use Rattle.document_notes.specs.DocumentNotes.{AreNotesIn, Gathers, IsNotedInPart, note_view};
ghost use Rattle.document_notes.specs.NotedText.{note_line, note_place_text, document_note_text};
ghost use Rattle.rule_notes.specs.RuleNotes.{note_cause_text};
ghost use Rattle.serde_json.specs.View.{view};

use crate::key_notes::key_place_text;
use crate::language_notes::add_languages;
use document_report::{FindingPlace, LocalePlace, members_of};
use plural_documents::{Findings, RepeatedKey};
use plural_fallback::Part;
use rule_notes::{Cause, Note};
use serde_json::Value;
use std::alloc::{AllocError, Global};
use std::marker::Model;

/// A note on a document.
#[derive(Debug, Drop)]
pub enum DocumentNote<'a> {
    /// On a rule: the locale, in its part, and the note, with its category.
    Rule(LocalePlace<'a>, Note),
    /// On a key that stands more than once in an object, of whose values the last one is read.
    Key(RepeatedKey<'a>),
}

impl DocumentNote<'_> {
    /// Returns the line that is printed: `cardinal ru few: note: range 4..2 is upside down`. It
    /// allocates; the only error is out of memory.
    pub fn line(&self, alloc: Global) -> Result<String, AllocError>
        ensures { IfOk result (λ line. string_bytes line ≡ note_line (note_view self.now)) }
    {
        let place = self.place_text(alloc)?;
        let text = self.text(alloc)?;
        line_of(alloc, place.as_str(), text.as_str())
    }

    /// Returns what is printed for the place: `cardinal ru few`. It allocates; the only error is out
    /// of memory.
    pub fn place_text(&self, alloc: Global) -> Result<String, AllocError>
        ensures { IfOk result (λ text. string_bytes text ≡ note_place_text (note_view self.now)) }
    {
        match self {
            DocumentNote::Rule(place, note) => {
                FindingPlace::Text(*place, note.category).text(alloc)
            }
            DocumentNote::Key(repeated) => key_place_text(alloc, *repeated),
        }
    }

    /// Returns what is printed of what is noted: `range 4..2 is upside down`. It allocates; the only
    /// error is out of memory.
    pub fn text(&self, alloc: Global) -> Result<String, AllocError>
        ensures { IfOk result (λ text. string_bytes text ≡ document_note_text (note_view self.now)) }
    {
        match self {
            DocumentNote::Rule(_, note) => cause_text(alloc, &note.cause),
            DocumentNote::Key(_) => String::from_str(alloc, "key stands more than once"),
        }
    }
}

// What is printed for what is noted of a rule.
fn cause_text(alloc: Global, cause: &Cause) -> Result<String, AllocError>
    ensures { IfOk result (λ text. string_bytes text ≡ note_cause_text cause.now) }
{
    format!(in alloc; "{cause}")
}

// The line of a text, given what is printed for the place.
fn line_of(alloc: Global, place: &str, text: &str) -> Result<String, AllocError>
    ensures { IfOk result (λ line. string_bytes line ≡ place.now ++ (codes ": note: " ++ text.now)) }
{
    format!(in alloc; "{place}: note: {text}")
}

/// The notes of a document, in their order.
#[derive(Debug, Drop)]
pub struct DocumentNotes<'a> {
    notes: Vec<DocumentNote<'a>>,
}

impl<'a> Model for DocumentNotes<'a> {
    ghost use Rattle.std.specs.Prelude.{List, map};
    ghost use Rattle.document_notes.specs.DocumentNotes as seen;

    ghost Value = { List seen.NoteAt };

    ghost view = { λ notes. map seen.note_view notes.notes.items };
}

impl<'a> Findings for DocumentNotes<'a> {
    ghost use Rattle.std.specs.Prelude.{◌++◌, []};
    ghost use Rattle.std.proofs.Common.{append_assoc};
    ghost use Rattle.std.proofs.lemmas.List.{append-nil};

    ghost nothing = { [] };

    ghost together = { λ first second. first ++ second };

    fn nothing(alloc: Global) -> DocumentNotes<'a> {
        DocumentNotes {
            notes: Vec::new(alloc),
        }
    }

    ghost ends = { append-nil };

    ghost joins = { append_assoc };
}

impl<'a> DocumentNotes<'a> {
    /// Returns the notes.
    pub fn as_slice(&self) -> &[DocumentNote<'a>]
        ensures { map note_view result.now ≡ self.now }
    {
        self.notes.as_slice()
    }

    // Adds a note.
    pub(crate) fn add(&mut self, note: DocumentNote<'a>) -> Result<(), AllocError>
        ensures { OnOk result (self.new ≡ self.old ++ note_view note.entry ∷ []) }
    {
        self.notes.push(note)?;
        Ok(())
    }

    // Adds notes behind these.
    pub(crate) fn append(&mut self, others: DocumentNotes<'a>) -> Result<(), AllocError>
        ensures { OnOk result (self.new ≡ self.old ++ others.entry) }
    {
        let mut notes = others.notes;
        self.notes.append(&mut notes)?;
        Ok(())
    }
}

/// Returns the notes of a document's rules, of those for cardinal and then of those for ordinal
/// numbers, in the order of the locales' bytes, each as by [`notes_of`](rule_notes::notes_of). It
/// allocates; the only error is out of memory.
pub fn notes_in<'a>(alloc: Global, document: &'a Value) -> Result<DocumentNotes<'a>, AllocError>
    ensures { IfOk result (λ notes. AreNotesIn (view document.now) notes) }
{
    let mut notes = DocumentNotes::nothing(alloc);
    add_part(alloc, document, Part::Cardinal, &mut notes)?;
    add_part(alloc, document, Part::Ordinal, &mut notes)?;
    Ok(notes)
}

// Adds the notes of a part.
fn add_part<'a>(
    alloc: Global,
    document: &'a Value,
    part: Part,
    notes: &mut DocumentNotes<'a>,
) -> Result<(), AllocError>
    ensures { OnOk result (Gathers (IsNotedInPart (view document.now) part) notes.old notes.new) }
{
    match members_of(document, part) {
        Some(members) => add_languages(alloc, part, members, notes),
        None => Ok(()),
    }
}
