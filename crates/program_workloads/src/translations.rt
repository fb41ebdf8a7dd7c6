//! Translations checked, as at each commit.

use crate::digest::Digest;
use crate::documents::{Documents, Entry};
use crate::messages::{push_pattern, push_words};
use crate::names::push_name;
use crate::random::Source;
use anyhow::{Result, bail};
use form_commands::check_files;
use message_report::MessageFile;
use plural_documents::json_value;
use std::alloc::{AllocError, Global};

// The sizes of a file: how many locales it has, and how many messages each has.
const SIZES: [(u64, u64); 4] = [(100, 40), (60, 100), (30, 250), (3, 2_000)];

// Appends the text of a form: one in fifty is without its number.
fn push_form(text: &mut String, source: &mut Source, name: &str) -> Result<(), AllocError> {
    text.push_str("\"")?;
    text.push_str(name)?;
    text.push_str("\": \"")?;
    if !source.one_in(50) {
        text.push_str("{}")?;
    }
    let count = source.between(1, 6);
    push_words(text, source, count)?;
    text.push_str("\"")
}

// Appends messages: of one in fifty a form is missing.
fn push_messages(
    text: &mut String,
    source: &mut Source,
    entry: &Entry,
    count: u64,
) -> Result<(), AllocError> {
    for number in 0..count {
        text.push_str(if number == 0 { "\n   \"" } else { ",\n   \"" })?;
        push_name(text, source, number)?;
        text.push_str("\": {")?;
        let missing = if source.one_in(50) {
            source.place(entry.forms.len())
        } else {
            usize::MAX
        };
        let mut separator = "";
        for (place, form) in entry.forms.iter().enumerate() {
            if place != missing {
                text.push_str(separator)?;
                push_form(text, source, form.as_str())?;
                separator = ", ";
            }
        }
        text.push_str("}")?;
    }
    Ok(())
}

// Appends patterns: of one in fifty a branch is missing.
fn push_patterns(
    alloc: Global,
    text: &mut String,
    source: &mut Source,
    entry: &Entry,
    count: u64,
) -> Result<(), AllocError> {
    for number in 0..count {
        text.push_str(if number == 0 { "\n   \"" } else { ",\n   \"" })?;
        push_name(text, source, number)?;
        text.push_str("\": \"")?;
        let missing = if source.one_in(50) {
            source.place(entry.forms.len())
        } else {
            usize::MAX
        };
        let mut forms = Vec::new(alloc);
        for (place, form) in entry.forms.iter().enumerate() {
            if place != missing {
                forms.push(form.as_str())?;
            }
        }
        push_pattern(text, source, "plural", forms.as_slice())?;
        text.push_str("\"")?;
    }
    Ok(())
}

// A document of messages: four of five of a locale have forms, the others are patterns.
fn document(
    alloc: Global,
    source: &mut Source,
    documents: &Documents,
    locales: u64,
    count: u64,
) -> Result<String, AllocError> {
    let all = documents.cardinal.as_slice();
    let first = source.place(all.len());
    let mut text = String::from_str(alloc, "{")?;
    let mut is_first = true;
    let mut left = locales;
    for entry in all.iter().skip(first).chain(all.iter().take(first)) {
        if left == 0 {
            break;
        }
        left -= 1;
        text.push_str(if is_first { "\n \"" } else { ",\n \"" })?;
        text.push_str(entry.locale.as_str())?;
        text.push_str("\": {\"cardinal\": {")?;
        push_messages(&mut text, source, entry, count - count / 5)?;
        text.push_str("},\n  \"ordinal\": {},\n  \"patterns\": {")?;
        push_patterns(alloc, &mut text, source, entry, count / 5)?;
        text.push_str("}}")?;
        is_first = false;
    }
    text.push_str("\n}\n")?;
    Ok(text)
}

pub(crate) fn translations_round(
    alloc: Global,
    source: &mut Source,
    documents: &Documents,
    digest: &mut Digest,
) -> Result<()> {
    for (locales, count) in SIZES {
        let text = document(
            alloc,
            source,
            documents,
            source.some_of(locales),
            source.some_of(count),
        )?;
        let Ok(value) = json_value(alloc, text.as_str().as_bytes()) else {
            bail!("no JSON text");
        };
        let files = [MessageFile {
            name: "messages.json",
            document: &value,
        }];
        let (mut written, mut notes) = (Vec::new(alloc), Vec::new(alloc));
        let mut rules = documents.text.as_slice();
        let Ok(verdict) = check_files(alloc, &files, &mut rules, &mut written, &mut notes) else {
            bail!("no report");
        };
        digest.take_number(u64::from(verdict.status()));
        digest.take(written.as_slice());
        digest.take(notes.as_slice());
    }
    Ok(())
}
