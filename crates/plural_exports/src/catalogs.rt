//! Catalogues of messages, and what they say.

ghost use Rattle.std.specs.Prelude.{pos};
ghost use Rattle.plural_exports.specs.FormattedPatterns.{IsCatalogSaid};
ghost use Rattle.plural_exports.specs.GivenPatterns.{FindsBlock, ReadsCatalogBytes};
ghost use Rattle.plural_exports.specs.Inner.GivenResults.{GivesSeen, GivesWritten};
ghost use Rattle.plural_exports.specs.Results.{Answered, Written};

use crate::arguments::GivenArgument;
use crate::fault::Fault;
use crate::packed_patterns::write_formatted;
use message_catalog::MessageCatalog;
use packed_catalog::find_value;
use std::alloc::Global;

/// Returns 0 if the bytes are a catalogue of messages, else their fault. It allocates nothing.
pub fn catalog_check(catalog: &[u8]) -> i32
    ensures { Answered (ReadsCatalogBytes catalog.now) (λ _. pos 0) result }
{
    match catalog_in(catalog) {
        Ok(_) => 0,
        Err(fault) => fault.number(),
    }
}

/// Writes what the message under a key of a catalogue says with its arguments under the rules of a
/// language, as [`packed_format`](crate::packed_format) does of its block. Of the catalogue only
/// what the key is looked up by is read, and isn't checked: [`catalog_check`] is called once before.
/// With any other bytes it is the same of some block in them, or there is none.
///
/// A fault is negative, and then nothing is written: no message has the key, else one of
/// [`packed_format`](crate::packed_format). It allocates.
pub fn catalog_say(
    alloc: Global,
    cardinal: &[u8],
    ordinal: &[u8],
    catalog: &[u8],
    key: &[u8],
    arguments: &[GivenArgument<'_>],
    out: &mut [u8],
) -> i64
    ensures { Written (IsCatalogSaid cardinal.now ordinal.now catalog.now key.now arguments.now) out.old out.new result }
{
    match write_said(alloc, cardinal, ordinal, catalog, key, arguments, out) {
        Ok(length) => length,
        Err(fault) => i64::from(fault.number()),
    }
}

// The messages of a catalogue, borrowed from it.
fn catalog_in(bytes: &[u8]) -> Result<MessageCatalog<'_>, Fault>
    ensures { ReadsCatalogBytes bytes.now result }
{
    Ok(MessageCatalog::parse_bytes(bytes)?)
}

// The block under a key, borrowed from the catalogue.
fn block_under<'a>(catalog: &'a [u8], key: &[u8]) -> Result<&'a [u8], Fault>
    ensures { GivesSeen (λ block. block.now) (FindsBlock catalog.now key.now) result }
{
    match find_value(catalog, key) {
        Some(block) => Ok(block),
        None => Err(Fault::NoKey),
    }
}

// Writes what the message under a key says, if it fits, and returns its length.
fn write_said(
    alloc: Global,
    cardinal: &[u8],
    ordinal: &[u8],
    catalog: &[u8],
    key: &[u8],
    arguments: &[GivenArgument<'_>],
    out: &mut [u8],
) -> Result<i64, Fault>
    ensures { GivesWritten (IsCatalogSaid cardinal.now ordinal.now catalog.now key.now arguments.now) out.old out.new result }
{
    let block = block_under(catalog, key)?;
    write_formatted(alloc, cardinal, ordinal, block, arguments, out)
}
