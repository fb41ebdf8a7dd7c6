//! Packs the patterns of a document.

ghost use Rattle.std.specs.Prelude.{◌≡◌, ◌↔◌, Err, IfErr, IfOk, None, map};
ghost use Rattle.message_catalog.specs.MessagePacking.{PacksTo, TellsFault, texts_view};
ghost use Rattle.catalog_commands.specs.DocumentPatterns.{IsPacked, TellsPatternsFault};
ghost use Rattle.catalog_commands.specs.Inner.KeyedViews.{TellsPacking, keyed_view};
ghost use Rattle.serde_json.specs.Find.{as_object};
ghost use Rattle.serde_json.specs.View.{view};

use crate::fault::PatternsFault;
use crate::texts::{Keyed, texts_of};
use message_catalog::{MessageText, PackMessagesError, pack};
use serde_json::Value;
use std::alloc::{AllocError, Global};

/// Returns the catalogue of the patterns of a document, which are an object of texts. It allocates.
///
/// The errors, in the order in which they are looked for: it is no object
/// ([`PatternsFault::NoObject`]); the first value that isn't a text ([`PatternsFault::NoText`]);
/// the first text that isn't a pattern, or can't be packed ([`PatternsFault::Message`]); a catalogue
/// that is too long ([`PatternsFault::Catalog`]). Each but the first may be out of memory instead.
pub fn pack_patterns<'a>(alloc: Global, patterns: &'a Value) -> Result<Vec<u8>, PatternsFault<'a>>
    ensures packed { IfOk result (λ bytes. IsPacked (view patterns.now) bytes.items) }
    ensures refused { IfErr result (TellsPatternsFault (view patterns.now)) }
    ensures no_object { (result ≡ Err PatternsFault.NoObject) ↔ (as_object (view patterns.now) ≡ None) }
{
    let Some(members) = patterns.as_object() else {
        return Err(PatternsFault::NoObject);
    };
    let texts = match texts_of(alloc, members) {
        Ok(texts) => texts,
        Err(fault) => return Err(fault),
    };
    packed(alloc, &texts)
}

// The catalogue of texts.
fn packed<'a>(alloc: Global, texts: &[Keyed<'a>]) -> Result<Vec<u8>, PatternsFault<'a>>
    ensures packed { IfOk result (λ bytes. PacksTo (map keyed_view texts.now) bytes.items) }
    ensures refused { IfErr result (TellsPacking (map keyed_view texts.now)) }
{
    let Ok(messages) = messages_of(alloc, texts) else {
        return Err(PatternsFault::Memory);
    };
    match pack(alloc, messages.as_slice()) {
        Ok(bytes) => Ok(bytes),
        Err(error) => Err(fault_of(texts, error)),
    }
}

// The texts as messages that are packed.
fn messages_of<'a>(alloc: Global, texts: &[Keyed<'a>]) -> Result<Vec<MessageText<'a>>, AllocError>
    ensures { IfOk result (λ messages. texts_view messages.items ≡ map keyed_view texts.now) }
{
    let mut messages = Vec::with_capacity(alloc, texts.len())?;
    for keyed in texts {
        messages.push(MessageText {
            key: keyed.key.as_bytes(),
            text: keyed.text.as_bytes(),
        })?;
    }
    Ok(messages)
}

// The fault of an error, with the key.
fn fault_of<'a>(texts: &[Keyed<'a>], error: PackMessagesError) -> PatternsFault<'a>
    ensures { TellsFault (map keyed_view texts.now) error → TellsPacking (map keyed_view texts.now) result }
{
    match error {
        PackMessagesError::Message(index, fault) => match texts.get(index) {
            Some(keyed) => PatternsFault::Message(keyed.key, fault),
            None => PatternsFault::Memory,
        },
        PackMessagesError::Catalog(error) => PatternsFault::Catalog(error),
        PackMessagesError::Memory => PatternsFault::Memory,
    }
}
