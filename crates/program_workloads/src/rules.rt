//! Documents of rules checked, as by whoever makes or changes them.

use crate::digest::Digest;
use crate::documents::{Documents, Entry};
use crate::names::push_name;
use crate::random::Source;
use anyhow::{Result, bail};
use document_report::run::run;
use std::alloc::{AllocError, Global};

// How many documents of CLDR's size are checked, and how many locales a larger one has.
const SMALL: u64 = 2;

const LOCALES: u64 = 2_400;

// Checks a document, and takes its report.
pub(crate) fn check(alloc: Global, text: &[u8], digest: &mut Digest) -> Result<()> {
    let mut written = Vec::new(alloc);
    let mut rest = text;
    match run(alloc, false, &mut rest, &mut written) {
        Ok(verdict) => digest.take_number(u64::from(verdict.status())),
        Err(_) => bail!("no report"),
    }
    digest.take(written.as_slice());
    Ok(())
}

// Appends the rules of a locale: of one in a hundred its last text has a sample more.
fn push_rules(text: &mut String, source: &mut Source, entry: &Entry) -> Result<(), AllocError> {
    match entry.rules.as_str().strip_suffix("\"}") {
        Some(front) if source.one_in(100) => {
            text.push_str(front)?;
            text.push_str(source.one_of(&[", 1", ", 7", ", 21", ", 1.5", ", 4~2"]))?;
            text.push_str("\"}")
        }
        _ => text.push_str(entry.rules.as_str()),
    }
}

// Appends rules under other names.
fn push_part(
    text: &mut String,
    source: &mut Source,
    entries: &[Entry],
    count: u64,
) -> Result<(), AllocError> {
    for number in 0..count {
        let place = source.place(entries.len());
        if let Some(entry) = entries.get(place) {
            text.push_str(if number == 0 { "\n  \"" } else { ",\n  \"" })?;
            text.push_str("und-")?;
            push_name(text, source, number)?;
            text.push_str("\": ")?;
            push_rules(text, source, entry)?;
        }
    }
    Ok(())
}

// A document of CLDR's rules under other names.
fn renamed(
    alloc: Global,
    source: &mut Source,
    documents: &Documents,
) -> Result<String, AllocError> {
    let locales = source.some_of(LOCALES);
    let mut text = String::from_str(alloc, "{\"cardinal\": {")?;
    push_part(&mut text, source, documents.cardinal.as_slice(), locales)?;
    text.push_str("},\n \"ordinal\": {")?;
    push_part(&mut text, source, documents.ordinal.as_slice(), locales / 2)?;
    text.push_str("}}\n")?;
    Ok(text)
}

pub(crate) fn rules_round(
    alloc: Global,
    source: &mut Source,
    documents: &Documents,
    digest: &mut Digest,
) -> Result<()> {
    for _ in 0..source.some_of(SMALL) {
        let text = documents.moved(alloc, source)?;
        check(alloc, text.as_str().as_bytes(), digest)?;
    }
    let text = renamed(alloc, source, documents)?;
    check(alloc, text.as_str().as_bytes(), digest)
}
