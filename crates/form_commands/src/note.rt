//! The notes of the keys under which rules are found.

ghost use Rattle.std.specs.Prelude.{◌≡◌, ◌≢◌, ◌++◌, IfErr, IfOk, OnOk, codes, option_map, string_bytes};
ghost use Rattle.std.specs.Option.{option_and_then};
ghost use Rattle.form_commands.specs.Inner.NoteSteps.{IsKeptNote, Notes};
ghost use Rattle.form_commands.specs.Inner.ConditionSteps.{Grows};
ghost use Rattle.form_commands.specs.KeyNotes.{AreFileNotes, AreLocaleNotes, AreMemberNotes, IsFileNote, IsNote, IsNoteIf, has_some, is_asked, key_note_text};
ghost use Rattle.serde_json.specs.Find.{as_object, get};
ghost use Rattle.serde_json.specs.View.{members_view, view};

use crate::error::{FormsError, Verdict};
use crate::unknown_language::is_unknown_by;
use message_report::MessageFile;
use plural_documents::write_output;
use plural_fallback::{Part, find_first};
use rules_outline::KeptRules;
use serde_json::{Map, Value};
use std::alloc::{AllocError, Global};
use std::io::Write;

// The note of the key of the rules that are kept for a locale.
pub(crate) fn note_of(
    alloc: Global,
    kept: &KeptRules,
    part: Part,
    locale: &str,
) -> Result<String, AllocError>
    ensures { IfOk result (λ note. IsKeptNote kept.now part locale.now (string_bytes note)) }
{
    match &kept.key {
        Ok(key) => note_text(alloc, "", part, locale, key.as_str()),
        Err(_) => Ok(String::new(alloc)),
    }
}

// The notes of the locales of files.
pub(crate) fn notes_of(
    alloc: Global,
    document: &Value,
    files: &[MessageFile<'_>],
) -> Result<String, AllocError>
    ensures { IfOk result (λ notes. AreFileNotes (view document.now) files.now (string_bytes notes)) }
{
    let mut notes = String::new(alloc);
    push_files(alloc, document, files, &mut notes)?;
    Ok(notes)
}

// Writes notes after an answer.
pub(crate) fn write_notes<E: Write>(
    answer: Result<Verdict, FormsError>,
    text: &str,
    notes: &mut E,
) -> Result<Verdict, FormsError>
    ensures written { Notes answer text.now (E.contents notes.old) (E.contents notes.new) result }
    ensures writes_nothing { IfErr result (λ e. e ≢ FormsError.Write → notes.new ≡ notes.old) }
{
    match answer {
        Ok(verdict) => match write_output(notes, text.as_bytes()) {
            Ok(()) => Ok(verdict),
            Err(_) => Err(FormsError::Write),
        },
        Err(error) => Err(error),
    }
}

// Appends the notes of files.
fn push_files(
    alloc: Global,
    document: &Value,
    files: &[MessageFile<'_>],
    notes: &mut String,
) -> Result<(), AllocError>
    ensures { OnOk result (Grows (AreFileNotes (view document.now) files.now) (string_bytes notes.old) (string_bytes notes.new)) }
{
    for file in files {
        push_file(alloc, document, file, notes)?;
    }
    Ok(())
}

// Appends the notes of a file.
fn push_file(
    alloc: Global,
    document: &Value,
    file: &MessageFile<'_>,
    notes: &mut String,
) -> Result<(), AllocError>
    ensures { OnOk result (Grows (IsFileNote (view document.now) file.now) (string_bytes notes.old) (string_bytes notes.new)) }
{
    match file.document.as_object() {
        Some(locales) => {
            let place = place_of(alloc, file.name)?;
            push_members(alloc, document, place.as_str(), locales, notes)
        }
        None => Ok(()),
    }
}

// The place before the locales of a file.
pub(crate) fn place_of(alloc: Global, name: &str) -> Result<String, AllocError>
    ensures { IfOk result (λ place. string_bytes place ≡ name.now ++ codes ": ") }
{
    format!(in alloc; "{name}: ")
}

// Appends the notes of the locales of a document of messages.
fn push_members(
    alloc: Global,
    document: &Value,
    place: &str,
    locales: &Map<String, Value>,
    notes: &mut String,
) -> Result<(), AllocError>
    ensures { OnOk result (Grows (AreMemberNotes (view document.now) place.now (members_view locales.now.entries))
        (string_bytes notes.old) (string_bytes notes.new)) }
{
    for (locale, value) in locales.iter() {
        push_locale(alloc, document, place, locale.as_str(), value, notes)?;
    }
    Ok(())
}

// Appends the notes of a locale with its messages.
fn push_locale(
    alloc: Global,
    document: &Value,
    place: &str,
    locale: &str,
    value: &Value,
    notes: &mut String,
) -> Result<(), AllocError>
    ensures { OnOk result (Grows (AreLocaleNotes (view document.now) place.now locale.now (view value.now))
        (string_bytes notes.old) (string_bytes notes.new)) }
{
    let cardinal = is_asked(Part::Cardinal, value);
    push_if(
        alloc,
        cardinal,
        document,
        place,
        Part::Cardinal,
        locale,
        notes,
    )?;
    let ordinal = is_asked(Part::Ordinal, value);
    push_if(
        alloc,
        ordinal,
        document,
        place,
        Part::Ordinal,
        locale,
        notes,
    )
}

// Whether a locale has messages of a part, or patterns.
fn is_asked(part: Part, value: &Value) -> bool
    ensures { result ≡ is_asked part (view value.now) }
{
    has_some(part.as_str(), value) || has_some("patterns", value)
}

// Whether there is something under a key.
pub(crate) fn has_some(name: &str, value: &Value) -> bool
    ensures { result ≡ has_some name.now (view value.now) }
{
    match members_under(name, value) {
        Some(members) => !members.is_empty(),
        None => false,
    }
}

// The members of what is under a key.
fn members_under<'a>(name: &str, value: &'a Value) -> Option<&'a Map<String, Value>>
    ensures { option_map (λ m. members_view m.now.entries) result ≡ option_and_then as_object (get name.now (view value.now)) }
{
    value.get(name)?.as_object()
}

// Appends the note of a locale, if it is asked for.
pub(crate) fn push_if(
    alloc: Global,
    asked: bool,
    document: &Value,
    place: &str,
    part: Part,
    locale: &str,
    notes: &mut String,
) -> Result<(), AllocError>
    ensures { OnOk result (Grows (IsNoteIf asked (IsNote (view document.now) place.now part locale.now))
        (string_bytes notes.old) (string_bytes notes.new)) }
{
    if asked {
        push_note(alloc, document, place, part, locale, notes)
    } else {
        Ok(())
    }
}

// Appends the note of a locale, unless its language is unknown.
fn push_note(
    alloc: Global,
    document: &Value,
    place: &str,
    part: Part,
    locale: &str,
    notes: &mut String,
) -> Result<(), AllocError>
    ensures { OnOk result (Grows (IsNote (view document.now) place.now part locale.now) (string_bytes notes.old) (string_bytes notes.new)) }
{
    match find_first(document, part, locale) {
        Ok(key) if is_unknown_by(document, locale, key) => Ok(()),
        Ok(key) => push_key(alloc, place, part, locale, key, notes),
        Err(_) => Ok(()),
    }
}

// Appends the note of a key.
fn push_key(
    alloc: Global,
    place: &str,
    part: Part,
    locale: &str,
    key: &str,
    notes: &mut String,
) -> Result<(), AllocError>
    ensures { OnOk result (string_bytes notes.new ≡ string_bytes notes.old ++ key_note_text place.now part locale.now key.now) }
{
    let note = note_text(alloc, place, part, locale, key)?;
    notes.push_str(note.as_str())
}

// The note of a key.
fn note_text(
    alloc: Global,
    place: &str,
    part: Part,
    locale: &str,
    key: &str,
) -> Result<String, AllocError>
    ensures { IfOk result (λ note. string_bytes note ≡ key_note_text place.now part locale.now key.now) }
{
    if key == locale {
        return Ok(String::new(alloc));
    }
    let name = part.as_str();
    format!(in alloc; "plural_forms: {place}{locale}: {name} rules of {key}\n")
}
