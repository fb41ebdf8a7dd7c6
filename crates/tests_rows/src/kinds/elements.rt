//! Elements by category in packed bytes.

use crate::kinds::rule_truths::operands_of;
use icu_plurals::provider::{FourBitMetadata, PluralElementsPackedULE};
use icu_plurals::{PluralElements, PluralRules};
use row_calls::call::Call;
use row_calls::elements::{print_element, print_optional};
use std::fmt::Write;

/// Makes the call of a kind of this file. Returns whether there is such a kind.
pub fn make(kind: &str, call: &mut Call) -> bool {
    match kind {
        "metadata" => metadata(call),
        "element_for" => element_for(call),
        "elements" => elements(call),
        "default_element" => default_element(call),
        "only_element" => only_element(call),
        "are_equal_elements" => are_equal_elements(call),
        _ => return false,
    }
    true
}

// The metadata of a number, and whether it is zero.
fn metadata(call: &mut Call) {
    match FourBitMetadata::try_from_byte(call.byte()) {
        Some(metadata) => {
            call.print_value(&metadata.get());
            if metadata == FourBitMetadata::zero() {
                call.print(", zero");
            }
        }
        None => call.print("none"),
    }
}

// The value of each number.
fn element_for(call: &mut Call) {
    let bytes = call.bytes();
    let rules = call.plural_rules();
    print_elements_for(call, bytes.as_slice(), &rules);
}

// Prints the value of each number in the bytes of elements.
fn print_elements_for(call: &mut Call, bytes: &[u8], rules: &PluralRules<'_>) {
    let numbers = call.texts();
    match PluralElementsPackedULE::parse_bytes(bytes) {
        Ok(elements) => {
            for number in &numbers {
                let operands = operands_of(call, number.as_str());
                call.separate(", ");
                print_element(call, elements.get(operands, rules));
            }
        }
        Err(fault) => call.print_error(&fault),
    }
}

// All values of the elements in bytes, which have to be the bytes of these elements.
fn elements(call: &mut Call) {
    let bytes = call.bytes();
    match PluralElementsPackedULE::parse_bytes(bytes.as_slice()) {
        Ok(elements) if elements.as_bytes() == bytes.as_slice() => {
            print_all(call, &elements.decode());
        }
        Ok(_) => call.print("other bytes"),
        Err(fault) => call.print_error(&fault),
    }
}

// Prints the value of each category, and those of exactly 0 and 1.
fn print_all(call: &mut Call, elements: &PluralElements<(FourBitMetadata, &str)>) {
    let values = [
        ("other", Some(*elements.other())),
        ("zero", Some(*elements.zero())),
        ("one", Some(*elements.one())),
        ("two", Some(*elements.two())),
        ("few", Some(*elements.few())),
        ("many", Some(*elements.many())),
        ("explicit_zero", elements.explicit_zero().copied()),
        ("explicit_one", elements.explicit_one().copied()),
    ];
    for (name, value) in values {
        call.separate(", ");
        call.print(name);
        call.print(" ");
        print_optional(call, value);
    }
}

// The value of other.
fn default_element(call: &mut Call) {
    let bytes = call.bytes();
    match PluralElementsPackedULE::parse_bytes(bytes.as_slice()) {
        Ok(elements) => print_element(call, elements.get_default()),
        Err(fault) => call.print_error(&fault),
    }
}

// The value of other, if there is no other value.
fn only_element(call: &mut Call) {
    let bytes = call.bytes();
    match PluralElementsPackedULE::parse_bytes(bytes.as_slice()) {
        Ok(elements) => print_optional(call, elements.decode().try_into_other()),
        Err(fault) => call.print_error(&fault),
    }
}

// Whether two elements are equal.
fn are_equal_elements(call: &mut Call) {
    let bytes = call.bytes();
    let others = call.bytes();
    let elements = PluralElementsPackedULE::parse_bytes(bytes.as_slice());
    match (
        elements,
        PluralElementsPackedULE::parse_bytes(others.as_slice()),
    ) {
        (Ok(elements), Ok(other)) => call.print_truth(elements == other),
        _ => call.not("packed elements"),
    }
}
