//! The command `pack`: the catalogue of a locale's patterns.

use crate::answers::print_bytes;
use crate::catalog_faults::fault_of_words;
use crate::failure::{Failure, of_word, told};
use crate::opened::messages_in as document_in;
use catalog_commands::{
    MessagesFault, PackWords, PatternsFault, messages_in, pack_patterns, pack_words, patterns_in,
};
use form_commands::Verdict;
use plural_documents::printed_name;
use serde_json::Value;
use std::alloc::Global;

// Writes the catalogue of the patterns that words name.
pub(crate) fn pack(rt: &HostRuntime, words: &[&str]) -> Result<Verdict, Failure> {
    match pack_words(words) {
        Some(said) => pack_file(rt, said),
        None => Err(of_word(rt.alloc(), fault_of_words("pack", words))),
    }
}

// Writes the catalogue of the patterns of a file.
fn pack_file(rt: &HostRuntime, said: PackWords<'_>) -> Result<Verdict, Failure> {
    let document = document_in(rt, said.file)?;
    let packed = packed_in(rt.alloc(), said, &document);
    drop(document);
    print_bytes(&mut rt.stdout(), packed?.as_slice())
}

// The catalogue of the patterns of a document.
fn packed_in(alloc: Global, said: PackWords<'_>, document: &Value) -> Result<Vec<u8>, Failure> {
    let file = said.file;
    let of_locale = match messages_in(document, said.locale) {
        Ok(of_locale) => of_locale,
        Err(fault) => return Err(of_messages(alloc, file, said.locale.unwrap_or(""), fault)),
    };
    let locale = of_locale.locale;
    let patterns = match patterns_in(of_locale.messages) {
        Ok(patterns) => patterns,
        Err(fault) => return Err(of_messages(alloc, file, locale, fault)),
    };
    match pack_patterns(alloc, patterns) {
        Ok(bytes) => Ok(bytes),
        Err(fault) => Err(of_patterns(alloc, file, locale, fault)),
    }
}

// Why a file has no patterns of a locale for a catalogue.
fn of_messages(alloc: Global, file: &str, locale: &str, fault: MessagesFault) -> Failure {
    let locale = printed_name(locale);
    told(match fault {
        MessagesFault::NoLocale => format!(in alloc; "{file}: messages of no locale"),
        MessagesFault::SeveralLocales => {
            format!(in alloc; "{file}: messages of several locales: name one by --locale")
        }
        MessagesFault::AbsentLocale => format!(in alloc; "{file}: no messages of {locale}"),
        MessagesFault::CardinalForms => {
            format!(in alloc; "{file}: {locale} cardinal: forms can't be packed: write patterns")
        }
        MessagesFault::OrdinalForms => {
            format!(in alloc; "{file}: {locale} ordinal: forms can't be packed: write patterns")
        }
        MessagesFault::NoPatterns => format!(in alloc; "{file}: {locale}: no patterns"),
    })
}

// Why the patterns of a file are no catalogue.
fn of_patterns(alloc: Global, file: &str, locale: &str, fault: PatternsFault<'_>) -> Failure {
    let locale = printed_name(locale);
    told(match fault {
        PatternsFault::NoObject => format!(in alloc; "{file}: {locale} patterns: not an object"),
        PatternsFault::NoText(key) => {
            let key = printed_name(key);
            format!(in alloc; "{file}: {locale} pattern {key}: not a text")
        }
        PatternsFault::Message(key, reason) => {
            let key = printed_name(key);
            format!(in alloc; "{file}: {locale} pattern {key}: {reason}")
        }
        PatternsFault::Catalog(reason) => {
            format!(in alloc; "{file}: {locale} patterns: {reason}")
        }
        PatternsFault::Memory => return Failure::Memory,
    })
}
