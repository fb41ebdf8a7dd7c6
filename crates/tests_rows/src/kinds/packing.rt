//! Elements by category, chosen from and packed.

use crate::kinds::rule_truths::operands_of;
use icu_plurals::provider::{FourBitMetadata, PluralElementsPackedULE};
use icu_plurals::{ElementsPackError, PluralCategory, PluralElements, PluralRules};
use row_calls::call::Call;
use row_calls::elements::{Elements, print_element};

/// Makes the call of a kind of this file. Returns whether there is such a kind.
pub fn make(kind: &str, call: &mut Call) -> bool {
    match kind {
        "packed_elements" => packed_elements(call),
        "packed_elements_size" => packed_elements_size(call),
        "packed_elements_for" => packed_elements_for(call),
        "repacked_elements" => repacked_elements(call),
        "chosen_text" => chosen_text(call),
        "present_texts" => present_texts(call),
        "only_text" => only_text(call),
        "are_equal_texts" => are_equal_texts(call),
        "cloned_texts" => cloned_texts(call),
        _ => return false,
    }
    true
}

// Prints the bytes that elements were packed as, or why they weren't.
fn print_packed(call: &mut Call, packed: Result<Vec<u8>, ElementsPackError>) {
    match packed {
        Ok(bytes) => call.print_bytes(bytes.as_slice()),
        Err(fault) => call.print_error(&fault),
    }
}

// The bytes that elements are packed as.
fn packed_elements(call: &mut Call) {
    let elements = Elements::next_values(call);
    let packed = PluralElementsPackedULE::encode(call.alloc, &elements.values());
    print_packed(call, packed);
}

// How many bytes elements are packed as.
fn packed_elements_size(call: &mut Call) {
    let elements = Elements::next_values(call);
    match PluralElementsPackedULE::encode(call.alloc, &elements.values()) {
        Ok(bytes) => call.print_value(&bytes.len()),
        Err(fault) => call.print_error(&fault),
    }
}

// The value of each number after packing, which has to be the same as before.
fn packed_elements_for(call: &mut Call) {
    let elements = Elements::next_values(call);
    let rules = call.plural_rules();
    print_packed_values(call, &elements.values(), &rules);
}

// Prints the value of each number after packing.
fn print_packed_values(
    call: &mut Call,
    elements: &PluralElements<(FourBitMetadata, &str)>,
    rules: &PluralRules<'_>,
) {
    match PluralElementsPackedULE::encode(call.alloc, elements) {
        Ok(bytes) => print_values(call, bytes.as_slice(), elements, rules),
        Err(fault) => call.print_error(&fault),
    }
}

// Prints the value of each number in the bytes of elements.
fn print_values(
    call: &mut Call,
    bytes: &[u8],
    elements: &PluralElements<(FourBitMetadata, &str)>,
    rules: &PluralRules<'_>,
) {
    match PluralElementsPackedULE::parse_bytes(bytes) {
        Ok(packed) => print_both(call, packed, elements, rules),
        Err(_) => call.print("refused"),
    }
}

// Prints the value of each number of the next argument in packed elements, and whether it is
// another than before.
fn print_both(
    call: &mut Call,
    packed: PluralElementsPackedULE<'_>,
    elements: &PluralElements<(FourBitMetadata, &str)>,
    rules: &PluralRules<'_>,
) {
    for number in &call.texts() {
        let operands = operands_of(call, number.as_str());
        let value = packed.get(operands, rules);
        call.separate(", ");
        print_element(call, value);
        if value != *elements.get(operands, rules) {
            call.print(", another before packing");
        }
    }
}

// The bytes that decoded elements are packed as.
fn repacked_elements(call: &mut Call) {
    let bytes = call.bytes();
    match PluralElementsPackedULE::parse_bytes(bytes.as_slice()) {
        Ok(elements) => {
            let packed = PluralElementsPackedULE::encode(call.alloc, &elements.decode());
            print_packed(call, packed);
        }
        Err(fault) => call.print_error(&fault),
    }
}

// The categories whose texts are present.
fn present_texts(call: &mut Call) {
    let owned = Elements::next_texts(call);
    let texts = owned.texts();
    for category in PluralCategory::all() {
        if texts.has_value_of(category) {
            call.separate(", ");
            call.print(category.as_str());
        }
    }
}

// The text of each number.
fn chosen_text(call: &mut Call) {
    let elements = Elements::next_texts(call);
    let rules = call.plural_rules();
    print_chosen(call, &elements.texts(), &rules);
}

// Prints the text of each number of the next argument.
fn print_chosen(call: &mut Call, elements: &PluralElements<&str>, rules: &PluralRules<'_>) {
    for number in &call.texts() {
        let operands = operands_of(call, number.as_str());
        call.separate(", ");
        call.print_quoted(*elements.get(operands, rules));
    }
}

// The text of other, if there is no other text.
fn only_text(call: &mut Call) {
    let elements = Elements::next_texts(call);
    match elements.texts().try_into_other() {
        Some(text) => call.print_quoted(text),
        None => call.print("none"),
    }
}

// Whether two elements are equal.
fn are_equal_texts(call: &mut Call) {
    let elements = Elements::next_texts(call);
    let others = Elements::next_texts(call);
    call.print_truth(elements.texts() == others.texts());
}

// Whether the clone of elements that own their texts is equal to them.
fn cloned_texts(call: &mut Call) {
    let elements = Elements::next_texts(call);
    let alloc = call.alloc;
    let Ok(owned) = elements
        .texts()
        .try_map(|text| String::from_str(alloc, text))
    else {
        return call.out_of_memory();
    };
    match owned.try_clone() {
        Ok(clone) => call.print_truth(clone == owned),
        Err(_) => call.out_of_memory(),
    }
}
