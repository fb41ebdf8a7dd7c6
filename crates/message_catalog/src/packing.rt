//! Packs messages.

ghost use Rattle.std.specs.Prelude.{◌≡◌, IfErr, IfOk};
ghost use Rattle.packed_catalog.specs.CatalogBytes.{lent_entries};
ghost use Rattle.message_catalog.specs.MessagePacking.{ArePacked, AreWithoutFault, HasPackingFault, HasTextFault, IsErrUnlessMemory, IsPackedText, PacksTo, TellsFault, texts_view};
ghost use Rattle.message_catalog.specs.Inner.PackedViews.{IsThis, TellsFirst, TellsText, catalog_error, packed_view, parts_error, text_error};

use crate::error::{PackMessagesError, TextFault};
use crate::text::MessageText;
use message_pattern::laws::one_reading;
use message_pattern::{Pattern, PatternError};
use packed_catalog::{CatalogEntry, PackCatalogError};
use packed_pattern::PackPatternError;
use packed_pattern::laws::one_encoding;
use std::alloc::{AllocError, Global};

// A key, and the block of the pattern under it.
#[derive(Drop)]
struct PackedMessage<'a> {
    key: &'a [u8],
    block: Vec<u8>,
}

/// Returns the bytes of a catalogue of messages in the order of their keys. It allocates the blocks
/// of their patterns, and the list of parts of one at a time.
///
/// The errors, in the order in which they are looked for: the first message whose text isn't a
/// pattern or can't be packed ([`PackMessagesError::Message`]); keys and patterns that
/// [`packed_catalog::pack`] refuses, as keys that don't rise ([`PackMessagesError::Catalog`]). Each
/// may be out of memory instead ([`PackMessagesError::Memory`]).
pub fn pack(alloc: Global, messages: &[MessageText<'_>]) -> Result<Vec<u8>, PackMessagesError>
    ensures ok { IfOk result (λ bytes. PacksTo (texts_view messages.now) bytes.items) }
    ensures refused { IfErr result (λ error. TellsFault (texts_view messages.now) error) }
    ensures exact { (error : PackMessagesError) → HasPackingFault (texts_view messages.now) error → IsErrUnlessMemory result error }
{
    one_encoding();
    one_reading();
    let packed = match packed_messages(alloc, messages) {
        Ok(packed) => packed,
        Err(error) => return Err(error),
    };
    let entries = entries_of(alloc, &packed)?;
    match packed_catalog::pack(alloc, &entries) {
        Ok(bytes) => Ok(bytes),
        Err(error) => Err(catalog_error(error)),
    }
}

// The messages with the blocks of their patterns, or the first one whose text has a fault.
fn packed_messages<'a>(
    alloc: Global,
    messages: &[MessageText<'a>],
) -> Result<Vec<PackedMessage<'a>>, PackMessagesError>
    ensures packed { IfOk result (λ list. ArePacked (texts_view messages.now) (packed_view list.items)) }
    ensures good { IfOk result (λ list. AreWithoutFault (texts_view messages.now)) }
    ensures refused { IfErr result (λ error. TellsFirst (texts_view messages.now) error) }
    ensures exact { IfErr result (λ error. (other : PackMessagesError) → HasPackingFault (texts_view messages.now) other → IsThis error other) }
{
    let mut packed = Vec::with_capacity(alloc, messages.len())?;
    for index in 0..messages.len() {
        let message = messages[index];
        let block = match block_of(alloc, index, message.text) {
            Ok(block) => block,
            Err(error) => return Err(error),
        };
        let key = message.key;
        packed.push(PackedMessage { key, block })?;
    }
    Ok(packed)
}

// The block of the pattern of a text, which is that of the message at this place.
fn block_of(alloc: Global, index: usize, text: &[u8]) -> Result<Vec<u8>, PackMessagesError>
    ensures packed { IfOk result (λ block. IsPackedText text.now block.items) }
    ensures good { IfOk result (λ block. (fault : TextFault) → HasTextFault text.now fault → ⊥) }
    ensures refused { IfErr result (λ error. TellsText index text.now error) }
    ensures exact { IfErr result (λ error. (fault : TextFault) → HasTextFault text.now fault → IsThis error (PackMessagesError.Message index fault)) }
{
    one_reading();
    let pattern = match Pattern::parse(alloc, text) {
        Ok(pattern) => pattern,
        Err(error) => return Err(text_error(index, error)),
    };
    match packed_pattern::pack(alloc, &pattern) {
        Ok(block) => Ok(block),
        Err(error) => Err(parts_error(index, error)),
    }
}

// The error of a message whose text isn't a pattern.
fn text_error(index: usize, error: PatternError) -> PackMessagesError
    ensures { result ≡ text_error index error }
{
    match error {
        PatternError::Fault(kind, place) => {
            PackMessagesError::Message(index, TextFault::Text(kind, place))
        }
        PatternError::Memory => PackMessagesError::Memory,
    }
}

// The error of a message whose pattern isn't packed.
fn parts_error(index: usize, error: PackPatternError) -> PackMessagesError
    ensures { result ≡ parts_error index error }
{
    match error {
        PackPatternError::Memory => PackMessagesError::Memory,
        other => PackMessagesError::Message(index, TextFault::Pattern(other)),
    }
}

// The error of messages that aren't packed as a catalogue.
fn catalog_error(error: PackCatalogError) -> PackMessagesError
    ensures { result ≡ catalog_error error }
{
    match error {
        PackCatalogError::Memory => PackMessagesError::Memory,
        other => PackMessagesError::Catalog(other),
    }
}

// The entries of a catalogue.
fn entries_of<'s>(
    alloc: Global,
    packed: &'s [PackedMessage<'s>],
) -> Result<Vec<CatalogEntry<'s>>, AllocError>
    ensures { IfOk result (λ entries. lent_entries entries.items ≡ packed_view packed.now) }
{
    let mut entries = Vec::with_capacity(alloc, packed.len())?;
    for message in packed {
        entries.push(CatalogEntry {
            key: message.key,
            value: message.block.as_slice(),
        })?;
    }
    Ok(entries)
}
