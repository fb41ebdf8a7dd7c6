//! How many locales a document has.

ghost use Rattle.std.specs.Prelude.{◌≡◌, IfOk, count_by};
ghost use Rattle.icu_plurals.specs.RangesJson.{keys_in};
ghost use Rattle.document_report.specs.DocumentReport.{first_count, has_locale, is_first_in, locale_count};
ghost use Rattle.serde_json.specs.View.{members_view, view};

use crate::document::{members_of, value_at};
use plural_documents::sum;
use plural_fallback::Part;
use serde_json::{Map, Value};
use std::alloc::AllocError;

// How many locales there are. A count that is too large is reported as out of memory.
pub(crate) fn locale_count(document: &Value) -> Result<u64, AllocError>
    ensures { IfOk result (λ count. count ≡ locale_count (view document.now)) }
{
    let cardinal = first_count(document, Part::Cardinal)?;
    let ordinal = first_count(document, Part::Ordinal)?;
    let ranges = first_count(document, Part::Ranges)?;
    sum(sum(cardinal, ordinal)?, ranges)
}

// How many locales are in a part but in no earlier part.
fn first_count(document: &Value, part: Part) -> Result<u64, AllocError>
    ensures { IfOk result (λ count. count ≡ first_count part (view document.now)) }
{
    match members_of(document, part) {
        Some(members) => count_first(document, part, members),
        None => Ok(0),
    }
}

// How many of these locales are in no earlier part.
fn count_first(
    document: &Value,
    part: Part,
    members: &Map<String, Value>,
) -> Result<u64, AllocError>
    ensures { IfOk result (λ count. count
        ≡ count_by (is_first_in part (view document.now)) (keys_in (members_view members.now.entries))) }
{
    let mut count = 0;
    for (locale, _) in members.iter() {
        if is_first_in(document, part, locale.as_str()) {
            count = sum(count, 1)?;
        }
    }
    Ok(count)
}

// Whether a locale is in no earlier part.
fn is_first_in(document: &Value, part: Part, locale: &str) -> bool
    ensures { result ≡ is_first_in part (view document.now) locale.now }
{
    match part {
        Part::Cardinal => true,
        Part::Ordinal => !has_locale(document, Part::Cardinal, locale),
        Part::Ranges => {
            !has_locale(document, Part::Cardinal, locale)
                && !has_locale(document, Part::Ordinal, locale)
        }
    }
}

// Whether a part has a locale.
fn has_locale(document: &Value, part: Part, locale: &str) -> bool
    ensures { result ≡ has_locale part (view document.now) locale.now }
{
    value_at(document, part, locale).is_some()
}
