//! The notes of the keys under which the rules of translators' files are found.

use crate::note::{has_some, place_of, push_if};
use message_report::MessageFile;
use plural_fallback::Part;
use serde_json::{Map, Value};
use std::alloc::{AllocError, Global};

// The notes of the locales of translators' files. Patterns ask for ordinal rules only if one has an
// ordinal argument.
pub(crate) fn translation_notes(
    alloc: Global,
    document: &Value,
    files: &[MessageFile<'_>],
) -> Result<String, AllocError> {
    let mut notes = String::new(alloc);
    for file in files {
        if let Some(locales) = file.document.as_object() {
            let place = place_of(alloc, file.name)?;
            push_locales(alloc, document, place.as_str(), locales, &mut notes)?;
        }
    }
    Ok(notes)
}

// Appends the notes of the locales of a file.
fn push_locales(
    alloc: Global,
    document: &Value,
    place: &str,
    locales: &Map<String, Value>,
    notes: &mut String,
) -> Result<(), AllocError> {
    for (key, value) in locales.iter() {
        let (locale, cardinal) = (key.as_str(), Part::Cardinal);
        let has_patterns = has_some("patterns", value);
        let asked = has_some(cardinal.as_str(), value) || has_patterns;
        push_if(alloc, asked, document, place, cardinal, locale, notes)?;
        let ordinal = Part::Ordinal;
        let asked = has_some(ordinal.as_str(), value) || has_patterns && has_ordinal(value);
        push_if(alloc, asked, document, place, ordinal, locale, notes)?;
    }
    Ok(())
}

// Whether one of a locale's patterns may have an ordinal argument.
fn has_ordinal(value: &Value) -> bool {
    let Some(Value::Object(patterns)) = value.get("patterns") else {
        return false;
    };
    for (_, pattern) in patterns.iter() {
        if may_be_ordinal(pattern) {
            return true;
        }
    }
    false
}

// Whether a pattern may have an ordinal argument, whose type is read in letters of any case.
fn may_be_ordinal(pattern: &Value) -> bool {
    match pattern.as_str() {
        Some(text) => ["ordinal", "Ordinal", "ORDINAL"]
            .iter()
            .any(|it| text.contains(*it)),
        None => false,
    }
}
