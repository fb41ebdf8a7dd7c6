//! The key by which a document has a locale.

ghost use Rattle.std.specs.Prelude.{◌≡◌};
ghost use Rattle.serde_json.specs.View.{view};
ghost use Rattle.plural_exports.specs.FoundLocales.{HasKeyAt, IsKeyIn, part_numbered};
ghost use Rattle.plural_exports.specs.Inner.GivenResults.{GivesSeen, GivesWritten};
ghost use Rattle.plural_exports.specs.Results.{Written};

use crate::buffer::put;
use crate::document::value_in;
use crate::fault::Fault;
use crate::given::text_in;
use plural_fallback::{Part, find_first};
use serde_json::Value;
use std::alloc::Global;

/// Writes the key by which a JSON document has a locale: the first of the locale's chain that has
/// one in a part, which is 0 for cardinal rules, 1 for ordinal rules and 2 for ranges. The result is
/// how many bytes the key has; if the buffer is shorter, nothing is written.
///
/// [`rules_from_document`](crate::rules_from_document) and
/// [`ranges_from_document`](crate::ranges_from_document) take the key as their locale. It is `root`
/// for an unknown language too, if the document has that.
///
/// A fault is negative, and then nothing is written. Faults are looked for in this order: the part,
/// the locale's text isn't UTF-8, no JSON text, no key among the first
/// [`MOST_LOCALES`](plural_fallback::MOST_LOCALES) of the chain, as in a value that is no document.
/// It allocates.
pub fn find_locale(alloc: Global, json: &[u8], locale: &[u8], part: u8, out: &mut [u8]) -> i64
    ensures { Written (IsKeyIn json.now locale.now part) out.old out.new result }
{
    match write_key(alloc, json, locale, part, out) {
        Ok(length) => length,
        Err(fault) => i64::from(fault.number()),
    }
}

// Writes the key, if it fits, and returns its length.
fn write_key(
    alloc: Global,
    json: &[u8],
    locale: &[u8],
    part: u8,
    out: &mut [u8],
) -> Result<i64, Fault>
    ensures { GivesWritten (IsKeyIn json.now locale.now part) out.old out.new result }
{
    let part = part_of(part)?;
    let locale = text_in(locale)?;
    let value = value_in(alloc, json)?;
    let key = key_in(&value, part, locale)?;
    Ok(put(key.as_bytes(), out))
}

// The part of a number.
fn part_of(number: u8) -> Result<Part, Fault>
    ensures { result ≡ part_numbered number }
{
    match number {
        0 => Ok(Part::Cardinal),
        1 => Ok(Part::Ordinal),
        2 => Ok(Part::Ranges),
        _ => Err(Fault::RuleType),
    }
}

// The first key of a locale's chain.
fn key_in<'a>(value: &'a Value, part: Part, locale: &str) -> Result<&'a str, Fault>
    ensures { GivesSeen (λ key. key.now) (HasKeyAt part locale.now (view value.now)) result }
{
    match find_first(value, part, locale) {
        Ok(key) => Ok(key),
        Err(_) => Err(Fault::Locale),
    }
}
