//! Places of notes as JSON objects.

ghost use Rattle.std.specs.Prelude.{◌≡◌, IfOk, map};
ghost use Rattle.document_formats.specs.NotedFormats.{member_data, note_place_data};
ghost use Rattle.document_notes.specs.DocumentNotes.{note_view};
ghost use Rattle.plural_documents.specs.RepeatedKeys.{path_view, repeated_view};
ghost use Rattle.serde_json.specs.Data.{array, string};
ghost use Rattle.serde_json.specs.View.{items_of, view};

use crate::place_object::place_value;
use document_notes::DocumentNote;
use document_report::FindingPlace;
use plural_documents::{KeyPath, RepeatedKey};
use serde_json::{Value, json};
use std::alloc::{AllocError, Global};

// The object of the place of a note.
pub(crate) fn note_place_value(alloc: Global, note: &DocumentNote<'_>) -> Result<Value, AllocError>
    ensures { IfOk result (λ value. view value ≡ note_place_data (note_view note.now)) }
{
    match note {
        DocumentNote::Rule(place, note) => {
            place_value(alloc, FindingPlace::Text(*place, note.category))
        }
        DocumentNote::Key(repeated) => member_value(alloc, *repeated),
    }
}

// The object of a key.
fn member_value(alloc: Global, repeated: RepeatedKey<'_>) -> Result<Value, AllocError>
    ensures { IfOk result (λ value. view value ≡ member_data (repeated_view repeated.entry)) }
{
    let path = path_value(alloc, repeated.path)?;
    json!(in alloc; {"key": repeated.key, "kind": "member", "path": path})
}

// The list of the keys that lead to an object.
fn path_value(alloc: Global, path: KeyPath<'_>) -> Result<Value, AllocError>
    ensures { IfOk result (λ value. view value ≡ array (items_of (map string (path_view path.entry)))) }
{
    match path {
        KeyPath::Outermost => json!(in alloc; []),
        KeyPath::One(first) => json!(in alloc; [first]),
        KeyPath::Two(first, second) => json!(in alloc; [first, second]),
        KeyPath::Three(first, second, third) => json!(in alloc; [first, second, third]),
    }
}
