//! CLDR's document, and documents like it.

use crate::random::Source;
use anyhow::{Result, bail};
use plural_documents::{json_value, read_input};
use serde_json::Value;
use std::alloc::{AllocError, Global};
use std::io::Read;

// A locale, the JSON text of its rules, and the names of the forms that have one.
#[derive(Drop)]
pub(crate) struct Entry {
    pub(crate) locale: String,
    pub(crate) rules: String,
    pub(crate) forms: Vec<String>,
}

// CLDR's document, whole and in its parts.
#[derive(Drop)]
pub(crate) struct Documents {
    pub(crate) text: Vec<u8>,
    pub(crate) cardinal: Vec<Entry>,
    pub(crate) ordinal: Vec<Entry>,
    ranges: String,
    parents: String,
}

// The forms of a locale.
fn forms_of(alloc: Global, rules: &Value) -> Result<Vec<String>> {
    let mut forms = Vec::new(alloc);
    let Some(members) = rules.as_object() else {
        bail!("a locale is no object");
    };
    for (form, _) in members {
        forms.push(form.clone()?)?;
    }
    Ok(forms)
}

// The locales of a part.
fn entries_of(alloc: Global, document: &Value, part: &str) -> Result<Vec<Entry>> {
    let mut entries = Vec::new(alloc);
    let Some(members) = document.get(part).and_then(Value::as_object) else {
        bail!("a part is missing");
    };
    for (locale, rules) in members {
        entries.push(Entry {
            locale: locale.clone()?,
            rules: rules.to_string(alloc)?,
            forms: forms_of(alloc, rules)?,
        })?;
    }
    Ok(entries)
}

// The JSON text of a part.
fn text_of(alloc: Global, document: &Value, part: &str) -> Result<String> {
    match document.get(part) {
        Some(value) => Ok(value.to_string(alloc)?),
        None => bail!("a part is missing"),
    }
}

impl Documents {
    // The document in a reader.
    pub(crate) fn read<R: Read>(alloc: Global, reader: &mut R) -> Result<Documents> {
        let Ok(text) = read_input(alloc, reader) else {
            bail!("the document can't be read");
        };
        let Ok(document) = json_value(alloc, text.as_slice()) else {
            bail!("the document is no JSON text");
        };
        Ok(Documents {
            cardinal: entries_of(alloc, &document, "cardinal")?,
            ordinal: entries_of(alloc, &document, "ordinal")?,
            ranges: text_of(alloc, &document, "ranges")?,
            parents: text_of(alloc, &document, "parents")?,
            text,
        })
    }

    // A document of the same locales, each with the rules of another one.
    pub(crate) fn moved(&self, alloc: Global, source: &mut Source) -> Result<String, AllocError> {
        let mut text = String::new(alloc);
        text.push_str("{\n \"cardinal\": {")?;
        push_moved(&mut text, source, self.cardinal.as_slice())?;
        text.push_str("\n },\n \"ordinal\": {")?;
        push_moved(&mut text, source, self.ordinal.as_slice())?;
        text.push_str("\n },\n \"ranges\": ")?;
        text.push_str(self.ranges.as_str())?;
        text.push_str(",\n \"parents\": ")?;
        text.push_str(self.parents.as_str())?;
        text.push_str("\n}\n")?;
        Ok(text)
    }
}

// Appends the locales, each with the rules of the one so many places after it.
fn push_moved(text: &mut String, source: &mut Source, entries: &[Entry]) -> Result<(), AllocError> {
    let first = source.place(entries.len());
    let others = entries.iter().skip(first).chain(entries.iter().take(first));
    let mut is_first = true;
    for (entry, other) in entries.iter().zip(others) {
        text.push_str(if is_first { "\n  \"" } else { ",\n  \"" })?;
        text.push_str(entry.locale.as_str())?;
        text.push_str("\": ")?;
        text.push_str(other.rules.as_str())?;
        is_first = false;
    }
    Ok(())
}
