//! Packed elements that own or borrow their bytes.

use crate::kinds::rule_truths::operands_of;
use icu_plurals::PluralRules;
use icu_plurals::provider::PluralElementsPackedCow;
use row_calls::call::Call;
use row_calls::elements::Elements;
use serde_json::Value;
use std::fmt::Debug;

/// Makes the call of a kind of this file. Returns whether there is such a kind.
pub fn make(kind: &str, call: &mut Call) -> bool {
    match kind {
        "packed_texts" => packed_texts(call),
        "packed_texts_size" => packed_texts_size(call),
        "lent_elements" => lent_elements(call),
        "text_for" => text_for(call),
        "cloned_elements" => cloned_elements(call),
        "are_equal_packed" => are_equal_packed(call),
        _ => return false,
    }
    true
}

/// What packed elements are made from.
#[derive(Drop)]
pub enum Source {
    /// Bytes.
    Bytes(Vec<u8>),
    /// Texts by category.
    Texts(Elements),
}

impl Source {
    /// Returns the source in the next argument: an object of texts, or bytes.
    pub fn next(call: &mut Call) -> Source {
        let value = call.value();
        match &value {
            Value::Object(_) => Source::Texts(Elements::of(call, &value, false)),
            _ => Source::Bytes(call.bytes_of(&value)),
        }
    }

    /// Returns the packed elements: of texts they are owned, of bytes they are borrowed.
    pub fn packed(&self, call: &mut Call) -> Option<PluralElementsPackedCow<'_>> {
        match self {
            Source::Bytes(bytes) => {
                let packed = PluralElementsPackedCow::from_bytes(bytes.as_slice());
                packed_or_refused(call, packed)
            }
            Source::Texts(elements) => {
                let packed = PluralElementsPackedCow::from_elements(call.alloc, &elements.texts());
                packed_or_refused(call, packed)
            }
        }
    }
}

// The packed elements, or none, if they are refused.
fn packed_or_refused<'a, E: Debug + Drop>(
    call: &mut Call,
    packed: Result<PluralElementsPackedCow<'a>, E>,
) -> Option<PluralElementsPackedCow<'a>> {
    match packed {
        Ok(packed) => Some(packed),
        Err(error) => {
            call.refused("packed elements", &error);
            None
        }
    }
}

// The bytes that texts are packed as.
fn packed_texts(call: &mut Call) {
    let elements = Elements::next_texts(call);
    match PluralElementsPackedCow::from_elements(call.alloc, &elements.texts()) {
        Ok(packed) => call.print_bytes(packed.as_packed().as_bytes()),
        Err(fault) => call.print_error(&fault),
    }
}

// How many bytes texts are packed as.
fn packed_texts_size(call: &mut Call) {
    let elements = Elements::next_texts(call);
    match PluralElementsPackedCow::from_elements(call.alloc, &elements.texts()) {
        Ok(packed) => call.print_value(&packed.as_packed().as_bytes().len()),
        Err(fault) => call.print_error(&fault),
    }
}

// The bytes of borrowed elements.
fn lent_elements(call: &mut Call) {
    let bytes = call.bytes();
    match PluralElementsPackedCow::from_bytes(bytes.as_slice()) {
        Ok(packed) => call.print_bytes(packed.as_packed().as_bytes()),
        Err(fault) => call.print_error(&fault),
    }
}

// The text of each number.
fn text_for(call: &mut Call) {
    let source = Source::next(call);
    let rules = call.plural_rules();
    print_texts(call, &source, &rules);
}

// Prints the text of each number by rules.
fn print_texts(call: &mut Call, source: &Source, rules: &PluralRules<'_>) {
    let numbers = call.texts();
    if let Some(packed) = source.packed(call) {
        print_each(call, &packed, rules, numbers.as_slice());
    }
}

// Prints the text of each of these numbers.
fn print_each(
    call: &mut Call,
    packed: &PluralElementsPackedCow<'_>,
    rules: &PluralRules<'_>,
    numbers: &[String],
) {
    for number in numbers {
        let operands = operands_of(call, number.as_str());
        call.separate(", ");
        call.print_quoted(packed.get(operands, rules));
    }
}

// Whether a clone equals its source and has the same bytes.
fn cloned_elements(call: &mut Call) {
    let source = Source::next(call);
    let Some(packed) = source.packed(call) else {
        return;
    };
    match packed.try_clone() {
        Ok(clone) => {
            let is_same = clone.as_packed().as_bytes() == packed.as_packed().as_bytes();
            call.print_truth(is_same && clone == packed);
            drop(clone);
        }
        Err(_) => call.out_of_memory(),
    }
    drop(packed);
}

// Whether two packed elements are equal.
fn are_equal_packed(call: &mut Call) {
    let source = Source::next(call);
    let other = Source::next(call);
    let first = source.packed(call);
    let second = other.packed(call);
    call.print_truth(first == second);
}
