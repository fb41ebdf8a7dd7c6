//! Catalogues of messages, and what they say.

ghost use Rattle.std.specs.Prelude.{pos};
ghost use Rattle.plural_exports.specs.FormattedPatterns.{IsCatalogSaid};
ghost use Rattle.plural_exports.specs.GivenPatterns.{ReadsCatalogBytes};
ghost use Rattle.plural_exports.specs.PackedDocuments.{IsCatalogPacked};
ghost use Rattle.plural_exports.specs.Results.{Answered, Written};

use plural_exports::GivenArgument;
use std::alloc::Global;

/// Writes the catalogue of the patterns that a JSON document of messages has for a locale, which is
/// compared byte by byte, or if the locale's text is empty, for its only one. The result is how many
/// bytes the catalogue has; if the buffer is shorter, nothing is written.
///
/// A fault is negative, and then nothing is written. Faults are looked for in this order: the
/// locale's text isn't UTF-8, no JSON text, no such locale, messages given as forms, no patterns,
/// one that isn't a text, the first text that isn't a pattern or can't be packed, and a catalogue
/// that is too long. It allocates.
#[unsafe(no_mangle)]
pub extern "C" fn plurals_catalog_pack(
    alloc: Global,
    json: &[u8],
    locale: &[u8],
    out: &mut [u8],
) -> i64
    ensures { Written (IsCatalogPacked json.now locale.now) out.old out.new result }
{
    plural_exports::catalog_pack(alloc, json, locale, out)
}

/// Returns 0 if the bytes are a catalogue of messages, else their fault. It allocates nothing.
#[unsafe(no_mangle)]
pub extern "C" fn plurals_catalog_check(catalog: &[u8]) -> i32
    ensures { Answered (ReadsCatalogBytes catalog.now) (λ _. pos 0) result }
{
    plural_exports::catalog_check(catalog)
}

/// Writes what the message under a key of a catalogue says with its arguments under the rules of a
/// language, as [`plurals_packed_format`](crate::patterns::plurals_packed_format) does of its block.
/// Of the catalogue only what the key is looked up by is read, and isn't checked:
/// [`plurals_catalog_check`] is called once before. With any other bytes it is the same of some
/// block in them, or there is none.
///
/// A fault is negative, and then nothing is written: no message has the key, else one of
/// [`plurals_packed_format`](crate::patterns::plurals_packed_format). It allocates.
#[unsafe(no_mangle)]
pub extern "C" fn plurals_catalog_say(
    alloc: Global,
    cardinal: &[u8],
    ordinal: &[u8],
    catalog: &[u8],
    key: &[u8],
    arguments: &[GivenArgument<'_>],
    out: &mut [u8],
) -> i64
    ensures { Written (IsCatalogSaid cardinal.now ordinal.now catalog.now key.now arguments.now) out.old out.new result }
{
    plural_exports::catalog_say(alloc, cardinal, ordinal, catalog, key, arguments, out)
}
