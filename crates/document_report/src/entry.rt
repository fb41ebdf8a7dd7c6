//! The entries of a locale's ranges.

ghost use Rattle.std.specs.Prelude.{◌≡◌, ◌/◌, ◌%◌, Some};
ghost use Rattle.plural_checker.specs.LanguageTexts.{six_texts};
ghost use Rattle.document_report.specs.DocumentFindings.{entry_fault_text};
ghost use Rattle.document_report.specs.DocumentReport.{HasEntryFault, HasRangeFault, HasValueFault};
ghost use Rattle.document_report.specs.Inner.CheckCalls.{category_numbered};
ghost use Rattle.serde_json.specs.View.{view};

use icu_plurals::PluralCategory;
use icu_plurals::provider::UnvalidatedPluralRange;
use plural_checker::LanguageTexts;
use serde_json::Value;
use std::fmt;

/// What is wrong with an entry.
#[derive(Clone, Copy, Debug, PartialEq, Eq)]
pub enum EntryFault {
    /// The key names no range.
    RangeKey,
    /// The value is no text.
    NoText,
    /// The text names no category.
    RangeValue,
    /// This category of the key or of the value isn't other, and has no cardinal rule.
    NoRule(PluralCategory),
}

impl fmt::Display for EntryFault {
    ghost output = { λ fault. Some (entry_fault_text fault) };

    fn fmt<W: fmt::Write>(&self, f: &mut fmt::Formatter<W>) -> fmt::Result {
        match self {
            EntryFault::RangeKey => f.write_str("range key"),
            EntryFault::NoText => f.write_str("no text"),
            EntryFault::RangeValue => f.write_str("range value"),
            EntryFault::NoRule(category) => write!(f, "{category} has no rule"),
        }
    }
}

// The fault of an entry under these cardinal rules, if it has one.
pub(crate) fn entry_fault(texts: &LanguageTexts<'_>, key: &str, value: &Value) -> Option<EntryFault>
    ensures { HasEntryFault (six_texts texts.now) key.now (view value.now) result }
{
    match UnvalidatedPluralRange::from_text(key) {
        Some(range) => range_fault(texts, start_of(range), end_of(range), value),
        None => Some(EntryFault::RangeKey),
    }
}

// The category of a range's start.
fn start_of(range: UnvalidatedPluralRange) -> PluralCategory
    ensures { result ≡ category_numbered (range.0 / 16) }
{
    category_numbered(range.0 / 16)
}

// The category of a range's end.
fn end_of(range: UnvalidatedPluralRange) -> PluralCategory
    ensures { result ≡ category_numbered (range.0 % 16) }
{
    category_numbered(range.0 % 16)
}

// The category of a number in a range's byte.
fn category_numbered(number: u8) -> PluralCategory
    ensures { result ≡ category_numbered number }
{
    match number {
        1 => PluralCategory::Zero,
        2 => PluralCategory::One,
        3 => PluralCategory::Two,
        4 => PluralCategory::Few,
        5 => PluralCategory::Many,
        _ => PluralCategory::Other,
    }
}

// The fault of a range and its value, if there is one.
fn range_fault(
    texts: &LanguageTexts<'_>,
    start: PluralCategory,
    end: PluralCategory,
    value: &Value,
) -> Option<EntryFault>
    ensures { HasRangeFault (six_texts texts.now) start end (view value.now) result }
{
    if !texts.has_rule(start) {
        return Some(EntryFault::NoRule(start));
    }
    if !texts.has_rule(end) {
        return Some(EntryFault::NoRule(end));
    }
    value_fault(texts, value)
}

// The fault of an entry's value, if it has one.
fn value_fault(texts: &LanguageTexts<'_>, value: &Value) -> Option<EntryFault>
    ensures { HasValueFault (six_texts texts.now) (view value.now) result }
{
    let Some(name) = value.as_str() else {
        return Some(EntryFault::NoText);
    };
    let Some(category) = PluralCategory::get_for_cldr_string(name) else {
        return Some(EntryFault::RangeValue);
    };
    if texts.has_rule(category) {
        None
    } else {
        Some(EntryFault::NoRule(category))
    }
}
