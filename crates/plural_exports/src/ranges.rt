//! The categories of ranges: a table of bytes.

ghost use Rattle.std.specs.Prelude.{◌≡◌, ◌++◌, IfOk, OnOk};
ghost use Rattle.icu_plurals.specs.Categories.{place_of};
ghost use Rattle.plural_exports.specs.GivenRanges.{AreRangesIn, HasRangesAt, HasRangesFor, IsRangeTable, range_number, table_bytes, table_row};
ghost use Rattle.plural_exports.specs.Inner.GivenResults.{GivesSeen};
ghost use Rattle.plural_exports.specs.Results.{Written};

use crate::buffer::put;
use crate::document::maps_in;
use crate::fault::Fault;
use crate::given::text_in;
use icu_plurals::provider::{PluralRanges, RawPluralCategory};
use icu_plurals::{JsonProvider, PluralCategory, PluralsProvider};
use plural_base::for_five;
use std::alloc::{AllocError, Global};

/// Writes the categories of ranges that a JSON document has for a locale (UTS 35 Part 3, Plural
/// Ranges), as 36 bytes: at 6 times the number of the start's category plus that of the end's is
/// the number of the range's. The result is 36; if the buffer is shorter, nothing is written.
///
/// A fault is negative, and then nothing is written. Faults are looked for in this order: the
/// locale's text isn't UTF-8, no JSON text, no document, the document has no ranges for the locale.
/// It allocates.
pub fn ranges_from_document(alloc: Global, json: &[u8], locale: &[u8], out: &mut [u8]) -> i64
    ensures { Written (AreRangesIn json.now locale.now) out.old out.new result }
{
    match ranges_of_document(alloc, json, locale) {
        Ok(table) => put(table.as_slice(), out),
        Err(fault) => i64::from(fault.number()),
    }
}

// The table of the ranges that a document has.
fn ranges_of_document(alloc: Global, json: &[u8], locale: &[u8]) -> Result<Vec<u8>, Fault>
    ensures { GivesSeen (λ table. table.items) (AreRangesIn json.now locale.now) result }
{
    let locale = text_in(locale)?;
    let ranges = ranges_in(alloc, json, locale)?;
    table_of(alloc, &ranges)
}

// The ranges that a document has.
fn ranges_in(alloc: Global, json: &[u8], locale: &str) -> Result<PluralRanges, Fault>
    ensures { HasRangesFor json.now locale.now result }
{
    let maps = maps_in(alloc, json, locale)?;
    ranges_for(&maps, locale)
}

// The ranges that the maps have for a locale.
fn ranges_for(maps: &JsonProvider, locale: &str) -> Result<PluralRanges, Fault>
    ensures { HasRangesAt locale.now maps.now.ranges result }
{
    match maps.load_ranges(locale) {
        Ok(ranges) => Ok(ranges),
        Err(_) => Err(Fault::Locale),
    }
}

// The table of ranges.
fn table_of(alloc: Global, ranges: &PluralRanges) -> Result<Vec<u8>, Fault>
    ensures { GivesSeen (λ table. table.items) (IsRangeTable ranges.now) result }
{
    match rows_of(alloc, ranges) {
        Ok(table) => Ok(table),
        Err(_) => Err(Fault::Memory),
    }
}

// The rows of all starts, one after another.
fn rows_of(alloc: Global, ranges: &PluralRanges) -> Result<Vec<u8>, AllocError>
    ensures { IfOk result (λ table. table.items ≡ table_bytes ranges.now) }
{
    let mut table = Vec::new(alloc);
    for_five!(|start| push_row(ranges, start, &mut table)?);
    push_row(ranges, PluralCategory::Other, &mut table)?;
    Ok(table)
}

// Appends the numbers of the categories of a start's ranges.
fn push_row(
    ranges: &PluralRanges,
    start: PluralCategory,
    table: &mut Vec<u8>,
) -> Result<(), AllocError>
    ensures { OnOk result (table.new.items ≡ table.old.items ++ table_row ranges.now start) }
{
    for_five!(|end| table.push(number_of_range(ranges, start, end))?);
    table.push(number_of_range(ranges, start, PluralCategory::Other))?;
    Ok(())
}

// The number of a range's category: the pair's, if it has one, else the end's.
fn number_of_range(ranges: &PluralRanges, start: PluralCategory, end: PluralCategory) -> u8
    ensures { result ≡ range_number ranges.now start end }
{
    let found = ranges.get(RawPluralCategory::from(start), RawPluralCategory::from(end));
    match found {
        Some(category) => number_of(PluralCategory::from(category)),
        None => number_of(end),
    }
}

// The number of a category.
pub(crate) fn number_of(category: PluralCategory) -> u8
    ensures { result ≡ place_of category }
{
    category as u8
}
