//! Rules loaded at a start.

use crate::digest::Digest;
use crate::documents::{Documents, Entry};
use crate::random::Source;
use anyhow::{Result, bail};
use form_commands::{FormsError, Verdict, answer_numbers, list_forms};
use icu_plurals::{JsonProvider, PluralRules, PreparedRules};
use plural_documents::json_value;
use plural_fallback::Part;
use std::alloc::Global;

// How many locales are asked for, each with a document of its own.
const ANSWERS: u64 = 4;

// Takes what was written.
fn take(written: &[u8], answer: Result<Verdict, FormsError>, digest: &mut Digest) -> Result<()> {
    match answer {
        Ok(verdict) => digest.take_number(u64::from(verdict.status())),
        Err(FormsError::Memory) => bail!("out of memory"),
        Err(error) => digest.take_number(u64::from(error.status())),
    }
    digest.take(written);
    Ok(())
}

// The name of one of the locales.
fn one_of<'a>(source: &mut Source, entries: &'a [Entry]) -> &'a str {
    let place = source.place(entries.len());
    match entries.get(place) {
        Some(entry) => entry.locale.as_str(),
        None => "",
    }
}

// One locale's rules are loaded for a number and for its forms, as by a call of a script.
fn answers(
    alloc: Global,
    source: &mut Source,
    documents: &Documents,
    digest: &mut Digest,
) -> Result<()> {
    for _ in 0..source.some_of(ANSWERS) {
        let text = documents.moved(alloc, source)?;
        let locale = one_of(source, documents.cardinal.as_slice());
        let number = source.one_of(&["0", "1", "2", "5", "1.5", "21", "100", "1.2c6"]);
        let (mut written, mut notes) = (Vec::new(alloc), Vec::new(alloc));
        let mut rules = text.as_str().as_bytes();
        let answer = answer_numbers(
            alloc,
            Part::Cardinal,
            locale,
            &[number],
            &mut rules,
            &mut written,
            &mut notes,
        );
        take(written.as_slice(), answer, digest)?;
        digest.take(notes.as_slice());
        let text = documents.moved(alloc, source)?;
        let locale = one_of(source, documents.ordinal.as_slice());
        let mut written = Vec::new(alloc);
        let mut rules = text.as_str().as_bytes();
        let answer = list_forms(alloc, Part::Ordinal, locale, &mut rules, &mut written);
        take(written.as_slice(), answer, digest)?;
    }
    Ok(())
}

// All locales are loaded, each with its prepared rules, as by a server.
fn tables(
    alloc: Global,
    source: &mut Source,
    documents: &Documents,
    digest: &mut Digest,
) -> Result<()> {
    let text = documents.moved(alloc, source)?;
    let Ok(value) = json_value(alloc, text.as_str().as_bytes()) else {
        bail!("no JSON text");
    };
    let provider = JsonProvider::from_value(alloc, &value)?;
    for entry in documents.cardinal.iter() {
        let rules = PluralRules::try_new_cardinal_unstable(&provider, entry.locale.as_str())?;
        digest.take(&PreparedRules::from_rules(rules).to_table());
    }
    for entry in documents.ordinal.iter() {
        let rules = PluralRules::try_new_ordinal_unstable(&provider, entry.locale.as_str())?;
        digest.take(&PreparedRules::from_rules(rules).to_table());
    }
    Ok(())
}

pub(crate) fn load_round(
    alloc: Global,
    source: &mut Source,
    documents: &Documents,
    digest: &mut Digest,
) -> Result<()> {
    answers(alloc, source, documents, digest)?;
    tables(alloc, source, documents, digest)
}
