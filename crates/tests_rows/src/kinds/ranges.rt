//! Ranges of categories, and tables of them.

use plural_base::{PluralCategory, PluralRanges, RawPluralCategory, UnvalidatedPluralRange};
use row_calls::arguments::items_of;
use row_calls::call::Call;
use serde_json::Value;
use std::fmt::Write;

/// Makes the call of a kind of this file. Returns whether there is such a kind.
pub fn make(kind: &str, call: &mut Call) -> bool {
    match kind {
        "range_key" => range_key(call),
        "range_of_text" => range_of_text(call),
        "range_of_byte" => range_of_byte(call),
        "range_order" => range_order(call),
        "range_json" => range_json(call),
        "range_table" => range_table(call),
        "ranges_json" => ranges_json(call),
        _ => return false,
    }
    true
}

// The raw category that a value names.
fn raw_category(call: &mut Call, value: &Value) -> RawPluralCategory {
    let name = call.text_of(value);
    match PluralCategory::get_for_cldr_string(name.as_str()) {
        Some(category) => RawPluralCategory::from(category),
        None => {
            call.not("a category");
            RawPluralCategory::Other
        }
    }
}

// The byte and the text of a range, from which it is read again.
fn range_key(call: &mut Call) {
    let (start, end) = (call.value(), call.value());
    let start = raw_category(call, &start);
    let end = raw_category(call, &end);
    let range = UnvalidatedPluralRange::from_range(start, end);
    match range.to_json(call.alloc) {
        Ok(written) if is_read(range, &written) => {
            let text = written.as_str().unwrap_or("no text");
            let _ = write!(call, "{} {text}", range.0);
        }
        Ok(_) => call.print("another range is read"),
        Err(error) => call.print_error(&error),
    }
}

// Whether a range is read from what was written for it.
fn is_read(range: UnvalidatedPluralRange, written: &Value) -> bool {
    let text = written.as_str().unwrap_or("");
    UnvalidatedPluralRange::from_text(text) == Some(range)
        && UnvalidatedPluralRange::from_json(written) == Ok(range)
}

// The byte of the range that a text names.
fn range_of_text(call: &mut Call) {
    let text = call.text();
    match UnvalidatedPluralRange::from_text(text.as_str()) {
        Some(range) => call.print_value(&range.0),
        None => call.print("none"),
    }
}

// The text of a byte, as JSON.
fn range_of_byte(call: &mut Call) {
    match UnvalidatedPluralRange(call.byte()).to_json(call.alloc) {
        Ok(value) => call.print_json(&value),
        Err(error) => call.print_error(&error),
    }
}

// How one range stands to another.
fn range_order(call: &mut Call) {
    let first = UnvalidatedPluralRange(call.byte());
    let second = UnvalidatedPluralRange(call.byte());
    call.print_name(&first.cmp(&second));
}

// The byte of the range that JSON names.
fn range_json(call: &mut Call) {
    match UnvalidatedPluralRange::from_json(&call.value()) {
        Ok(range) => call.print_value(&range.0),
        Err(error) => call.print_error(&error),
    }
}

// What each step finds in a table that was empty, and then the table.
fn range_table(call: &mut Call) {
    let mut table = PluralRanges::new();
    if table != PluralRanges::default() || !table.is_empty() {
        return call.print("another table at first");
    }
    for step in &call.list() {
        let found = take_step(call, &mut table, step);
        call.separate(" ");
        match found {
            Some(category) => call.print(category.as_str()),
            None => call.print("none"),
        }
    }
    call.separate(", ");
    print_table(call, &table);
}

// Puts a category or looks one up, and returns what was found.
fn take_step(call: &mut Call, table: &mut PluralRanges, step: &Value) -> Option<RawPluralCategory> {
    match items_of(step) {
        [start, end] => {
            let (start, end) = (raw_category(call, start), raw_category(call, end));
            table.get(start, end)
        }
        [start, end, category] => {
            let (start, end) = (raw_category(call, start), raw_category(call, end));
            table.insert(start, end, raw_category(call, category))
        }
        _ => {
            call.not("a step");
            None
        }
    }
}

// Prints how many pairs a table has, and the table as JSON, from which it is read again.
fn print_table(call: &mut Call, table: &PluralRanges) {
    let Ok(value) = table.to_json(call.alloc) else {
        return call.out_of_memory();
    };
    let copy = *table;
    if PluralRanges::from_json(&value) != Ok(copy)
        || copy.is_empty() != (copy == PluralRanges::new())
    {
        return call.print("another table is read");
    }
    let _ = write!(call, "{} ", table.len());
    call.print_json(&value);
}

// The table that JSON holds, as JSON again.
fn ranges_json(call: &mut Call) {
    match PluralRanges::from_json(&call.value()) {
        Ok(table) => match table.to_json(call.alloc) {
            Ok(value) => call.print_json(&value),
            Err(error) => call.print_error(&error),
        },
        Err(error) => call.print_error(&error),
    }
}
