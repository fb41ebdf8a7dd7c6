//! Arguments and results with elements by category.

use crate::arguments::{has_names, items_of};
use crate::call::Call;
use icu_plurals::PluralElements;
use icu_plurals::provider::{FourBitMetadata, PluralElementsPackedCow};
use serde_json::Value;
use std::fmt::Write;

// The names of elements.
const NAMES: [&str; 8] = [
    "other",
    "zero",
    "one",
    "two",
    "few",
    "many",
    "explicit_zero",
    "explicit_one",
];

/// Elements by category: all but that of other may be absent.
pub struct Elements {
    other: Element,
    zero: Option<Element>,
    one: Option<Element>,
    two: Option<Element>,
    few: Option<Element>,
    many: Option<Element>,
    explicit_zero: Option<Element>,
    explicit_one: Option<Element>,
}

// Written out, so that each end of a value is one call.
impl Drop for Elements {
    fn drop(self) {
        let Elements {
            other: _,
            zero: _,
            one: _,
            two: _,
            few: _,
            many: _,
            explicit_zero: _,
            explicit_one: _,
        } = self;
    }
}

// A text with metadata.
#[derive(Drop)]
struct Element {
    metadata: FourBitMetadata,
    text: String,
}

impl Elements {
    /// Returns the elements in the next argument, an object of texts.
    pub fn next_texts(call: &mut Call) -> Elements {
        let value = call.value();
        Elements::of(call, &value, false)
    }

    /// Returns the elements in the next argument, an object of lists of metadata and a text.
    pub fn next_values(call: &mut Call) -> Elements {
        let value = call.value();
        Elements::of(call, &value, true)
    }

    /// Returns the elements of an object of texts, or of lists of metadata and a text.
    pub fn of(call: &mut Call, value: &Value, has_metadata: bool) -> Elements {
        if !has_names(value, &NAMES) || value.get("other").is_none() {
            call.not("elements");
        }
        Elements {
            other: Element::of(call, value.get("other").unwrap_or(value), has_metadata),
            zero: Element::under(call, value, "zero", has_metadata),
            one: Element::under(call, value, "one", has_metadata),
            two: Element::under(call, value, "two", has_metadata),
            few: Element::under(call, value, "few", has_metadata),
            many: Element::under(call, value, "many", has_metadata),
            explicit_zero: Element::under(call, value, "explicit_zero", has_metadata),
            explicit_one: Element::under(call, value, "explicit_one", has_metadata),
        }
    }

    /// Returns the texts.
    pub fn texts(&self) -> PluralElements<&str> {
        PluralElements::new(self.other.text.as_str())
            .with_zero_value(text_of(&self.zero))
            .with_one_value(text_of(&self.one))
            .with_two_value(text_of(&self.two))
            .with_few_value(text_of(&self.few))
            .with_many_value(text_of(&self.many))
            .with_explicit_zero_value(text_of(&self.explicit_zero))
            .with_explicit_one_value(text_of(&self.explicit_one))
    }

    /// Returns the texts with their metadata.
    pub fn values(&self) -> PluralElements<(FourBitMetadata, &str)> {
        PluralElements::new((self.other.metadata, self.other.text.as_str()))
            .with_zero_value(value_of(&self.zero))
            .with_one_value(value_of(&self.one))
            .with_two_value(value_of(&self.two))
            .with_few_value(value_of(&self.few))
            .with_many_value(value_of(&self.many))
            .with_explicit_zero_value(value_of(&self.explicit_zero))
            .with_explicit_one_value(value_of(&self.explicit_one))
    }
}

impl Element {
    // The element under a name, if it is present.
    fn under(call: &mut Call, value: &Value, name: &str, has_metadata: bool) -> Option<Element> {
        match value.get(name) {
            Some(value) => Some(Element::of(call, value, has_metadata)),
            None => None,
        }
    }

    // The element of a text, or of a list of metadata and a text.
    fn of(call: &mut Call, value: &Value, has_metadata: bool) -> Element {
        let mut metadata = FourBitMetadata::zero();
        let mut text = value;
        if has_metadata {
            match items_of(value) {
                [number, part] => {
                    metadata = metadata_of(call, number);
                    text = part;
                }
                _ => call.not("elements"),
            }
        }
        let text = call.text_of(text);
        Element { metadata, text }
    }
}

// The metadata of a number.
fn metadata_of(call: &mut Call, value: &Value) -> FourBitMetadata {
    let number = call.number_of(value).min(16);
    if let Some(metadata) = FourBitMetadata::try_from_byte(number as u8) {
        return metadata;
    }
    call.not("elements");
    FourBitMetadata::zero()
}

// The text of an element that is present.
fn text_of(element: &Option<Element>) -> Option<&str> {
    match element {
        Some(element) => Some(element.text.as_str()),
        None => None,
    }
}

// The metadata and the text of an element that is present.
fn value_of(element: &Option<Element>) -> Option<(FourBitMetadata, &str)> {
    match element {
        Some(element) => Some((element.metadata, element.text.as_str())),
        None => None,
    }
}

impl Call {
    /// Returns the next argument as packed texts.
    pub fn packed(&mut self) -> Option<PluralElementsPackedCow<'static>> {
        let elements = Elements::next_texts(self);
        match PluralElementsPackedCow::from_elements(self.alloc, &elements.texts()) {
            Ok(packed) => Some(packed),
            Err(error) => {
                self.refused("texts that are packed", &error);
                None
            }
        }
    }
}

/// Prints the metadata and the text of a value.
pub fn print_element(call: &mut Call, value: (FourBitMetadata, &str)) {
    let _ = write!(call, "{} ", value.0.get());
    call.print_quoted(value.1);
}

/// Prints the metadata and the text of a value that may be absent.
pub fn print_optional(call: &mut Call, value: Option<(FourBitMetadata, &str)>) {
    match value {
        Some(value) => print_element(call, value),
        None => call.print("none"),
    }
}
