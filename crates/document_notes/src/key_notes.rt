//! The notes on keys that stand more than once in an object.

ghost use Rattle.std.specs.Prelude.{◌≡◌, IfOk, map, string_bytes};
ghost use Rattle.document_notes.specs.DocumentNotes.{GivesKeyNotes, on_key};
ghost use Rattle.document_notes.specs.NotedText.{keys_text};
ghost use Rattle.plural_documents.specs.RepeatedKeys.{path_view, repeated_view};

use crate::document_note::{DocumentNote, DocumentNotes};
use plural_documents::{
    Findings, JsonTextError, KeyPath, RepeatedKey, Scratch, printed_name, repeated_keys,
};
use std::alloc::{AllocError, Global};

/// Returns the notes on the keys that stand more than once in an object of the document that bytes
/// write, in the order of [`repeated_keys`]. It allocates; some keys are held in `scratch`. The
/// errors are those of [`repeated_keys`].
pub fn key_notes_of<'a>(
    alloc: Global,
    bytes: &'a [u8],
    scratch: &'a mut Scratch,
) -> Result<DocumentNotes<'a>, JsonTextError>
    ensures { GivesKeyNotes bytes.now result }
{
    let found = repeated_keys(alloc, bytes, scratch)?;
    match notes_on(alloc, found) {
        Ok(notes) => Ok(notes),
        Err(_) => Err(JsonTextError::Memory),
    }
}

// A note on each of these keys.
fn notes_on<'a>(alloc: Global, found: Vec<RepeatedKey<'a>>) -> Result<DocumentNotes<'a>, AllocError>
    ensures { IfOk result (λ notes. notes ≡ map on_key (map repeated_view found.entry.items)) }
{
    let mut notes = DocumentNotes::nothing(alloc);
    for repeated in found {
        notes.add(DocumentNote::Key(repeated))?;
    }
    Ok(notes)
}

// What is printed for a key: those that lead to its object, and then the key.
pub(crate) fn key_place_text(alloc: Global, repeated: RepeatedKey<'_>) -> Result<String, AllocError>
    ensures { IfOk result (λ text. string_bytes text ≡ keys_text (path_view repeated.entry.path) repeated.entry.key.now) }
{
    let key = printed_name(repeated.key);
    match repeated.path {
        KeyPath::Outermost => format!(in alloc; "{key}"),
        KeyPath::One(first) => format!(in alloc; "{} {key}", printed_name(first)),
        KeyPath::Two(first, second) => {
            let (first, second) = (printed_name(first), printed_name(second));
            format!(in alloc; "{first} {second} {key}")
        }
        KeyPath::Three(first, second, third) => {
            let (first, second) = (printed_name(first), printed_name(second));
            format!(in alloc; "{first} {second} {} {key}", printed_name(third))
        }
    }
}
