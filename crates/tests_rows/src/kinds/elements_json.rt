//! Packed elements from JSON values and back.

use crate::kinds::packed_texts::Source;
use crate::kinds::rules_json::value_of_text;
use icu_plurals::provider::PluralElementsPackedCow;
use row_calls::call::Call;
use serde_json::Value;

/// Makes the call of a kind of this file. Returns whether there is such a kind.
pub fn make(kind: &str, call: &mut Call) -> bool {
    match kind {
        "elements_json" => elements_json(call),
        "elements_json_text" => elements_json_text(call),
        "elements_through_json" => elements_through_json(call),
        _ => return false,
    }
    true
}

// The bytes of the elements of a JSON value, and the value that is written for them.
fn elements_json(call: &mut Call) {
    let value = call.value();
    print_through_packed(call, &value);
}

// The same of the text of a JSON value.
fn elements_json_text(call: &mut Call) {
    let text = call.text();
    let value = value_of_text(call, text.as_str());
    print_through_packed(call, &value);
}

// Prints the bytes of the elements of a value, and what is written for them.
fn print_through_packed(call: &mut Call, value: &Value) {
    match PluralElementsPackedCow::from_json(call.alloc, value) {
        Ok(packed) => {
            call.print_bytes(packed.as_packed().as_bytes());
            call.print(" ");
            print_written(call, &packed);
        }
        Err(fault) => call.print_error(&fault),
    }
}

// Prints the value that is written for elements.
fn print_written(call: &mut Call, packed: &PluralElementsPackedCow<'_>) {
    match packed.to_json(call.alloc) {
        Ok(written) => call.print_json(&written),
        Err(_) => call.out_of_memory(),
    }
}

// Whether the elements that are read from what was written are the same.
fn elements_through_json(call: &mut Call) {
    let source = Source::next(call);
    if let Some(packed) = source.packed(call) {
        print_through_json(call, &packed);
    }
}

// Prints whether what is read from the value that is written for elements equals them.
fn print_through_json(call: &mut Call, packed: &PluralElementsPackedCow<'_>) {
    let Ok(value) = packed.to_json(call.alloc) else {
        return call.out_of_memory();
    };
    match PluralElementsPackedCow::from_json(call.alloc, &value) {
        Ok(again) => call.print_truth(again == *packed),
        Err(fault) => call.print_error(&fault),
    }
}
