//! Catalogues that are packed from documents of messages.

ghost use Rattle.std.specs.Option.{option_copied};
ghost use Rattle.serde_json.specs.View.{view};
ghost use Rattle.plural_exports.specs.Inner.GivenResults.{GivesSeen};
ghost use Rattle.plural_exports.specs.PackedDocuments.{IsCatalogPacked, PacksDocument, PacksMessages};
ghost use Rattle.plural_exports.specs.Results.{Written};

use crate::buffer::put;
use crate::document::value_in;
use crate::fault::Fault;
use crate::rules::given;
use catalog_commands::{messages_in, pack_patterns, patterns_in};
use serde_json::Value;
use std::alloc::Global;

/// Writes the catalogue of the patterns that a JSON document of messages has for a locale, which is
/// compared byte by byte, or if the locale's text is empty, for its only one. The result is how many
/// bytes the catalogue has; if the buffer is shorter, nothing is written.
///
/// A fault is negative, and then nothing is written. Faults are looked for in this order: the
/// locale's text isn't UTF-8, no JSON text, no such locale, messages given as forms, no patterns,
/// one that isn't a text, the first text that isn't a pattern or can't be packed, and a catalogue
/// that is too long. It allocates.
pub fn catalog_pack(alloc: Global, json: &[u8], locale: &[u8], out: &mut [u8]) -> i64
    ensures { Written (IsCatalogPacked json.now locale.now) out.old out.new result }
{
    match packed(alloc, json, locale) {
        Ok(catalog) => put(&catalog, out),
        Err(fault) => i64::from(fault.number()),
    }
}

// The catalogue of a JSON text.
fn packed(alloc: Global, json: &[u8], locale: &[u8]) -> Result<Vec<u8>, Fault>
    ensures { GivesSeen (λ catalog. catalog.items) (IsCatalogPacked json.now locale.now) result }
{
    let named = given(locale)?;
    match value_in(alloc, json) {
        Ok(document) => packed_document(alloc, &document, named),
        Err(fault) => Err(fault),
    }
}

// The catalogue of a document.
fn packed_document(alloc: Global, document: &Value, named: Option<&str>) -> Result<Vec<u8>, Fault>
    ensures { GivesSeen (λ catalog. catalog.items) (PacksDocument (option_copied named.entry) (view document.now)) result }
{
    let of_locale = messages_in(document, named)?;
    packed_messages(alloc, of_locale.messages)
}

// The catalogue of the messages of a locale.
fn packed_messages(alloc: Global, messages: &Value) -> Result<Vec<u8>, Fault>
    ensures { GivesSeen (λ catalog. catalog.items) (PacksMessages (view messages.now)) result }
{
    let patterns = patterns_in(messages)?;
    Ok(pack_patterns(alloc, patterns)?)
}
