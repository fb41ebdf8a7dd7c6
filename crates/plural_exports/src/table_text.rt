//! What a table of categories tells of a text.

ghost use Rattle.plural_documents.specs.Steps.{Then};
ghost use Rattle.plural_exports.specs.GivenBytes.{ReadsTextBytes};
ghost use Rattle.plural_exports.specs.Results.{Answered};
ghost use Rattle.plural_exports.specs.TableAnswers.{IsTextToldByTable, IsToldOfText, told_number};

use crate::fault::Fault;
use crate::given::text_in;
use crate::table::told_number;
use icu_plurals::{CategoryTable, PluralCategory};

/// Returns the category that a table has for the whole number that a text writes in digits, with a
/// plus in front or none, as [`category_by_table`](crate::category_by_table) returns it; 6 also of
/// any other text. It allocates nothing.
///
/// A fault is negative: the table isn't of 236 bytes, else the text isn't UTF-8.
pub fn text_category_by_table(table: &[u8], text: &[u8]) -> i32
    ensures { Answered (IsTextToldByTable table.now text.now) told_number result }
{
    match told_of_given(table, text) {
        Ok(told) => told_number(told),
        Err(fault) => fault.number(),
    }
}

// What the table tells of the number that a text writes.
fn told_of_given(table: &[u8], text: &[u8]) -> Result<Option<PluralCategory>, Fault>
    ensures { IsTextToldByTable table.now text.now result }
{
    match CategoryTable::from_bytes(table) {
        Some(table) => told_of_text(&table, text),
        None => Err(Fault::TableLength),
    }
}

// The same of a table.
#[inline(always)]
fn told_of_text(table: &CategoryTable, text: &[u8]) -> Result<Option<PluralCategory>, Fault>
    ensures { Then (ReadsTextBytes text.now) (IsToldOfText table.now) result }
{
    let text = text_in(text)?;
    match text.parse::<u64>() {
        Ok(number) => Ok(table.category_for_integer(number)),
        Err(_) => Ok(None),
    }
}
