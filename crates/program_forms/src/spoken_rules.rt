//! The rules that a message takes.

use crate::failure::{Failure, told};
use crate::rules::{open, rules_name};
use crate::rules_text::{RulesFault, fault_in};
use catalog_commands::SayWords;
use form_commands::{FormsError, answer_numbers};
use icu_plurals::provider::PluralRulesData;
use icu_plurals::{JsonError, PluralRules};
use message_pattern::{ArgumentKind, Piece};
use packed_pattern::PackedPattern;
use plural_documents::{JsonTextError, json_value, read_input};
use plural_fallback::{Part, find_first};
use serde_json::Value;
use std::alloc::Global;
use std::io::Read;
use std::mem;

// Which rules a pattern takes.
#[derive(Clone, Copy)]
pub(crate) struct Taken {
    cardinal: bool,
    ordinal: bool,
}

impl Taken {
    // Those of its plurals and ordinals.
    pub(crate) fn by(pattern: &PackedPattern<'_>) -> Taken {
        let mut taken = Taken {
            cardinal: false,
            ordinal: false,
        };
        for index in 0..pattern.len() {
            if let Some(part) = pattern.get(index) {
                match part.piece {
                    Piece::Begin(ArgumentKind::Plural, _, _) => taken.cardinal = true,
                    Piece::Begin(ArgumentKind::Ordinal, _, _) => taken.ordinal = true,
                    _ => {}
                }
            }
        }
        taken
    }
}

// The rules of a locale, those that aren't taken without any; and the notes of their keys.
#[derive(Drop)]
pub(crate) struct Spoken {
    pub(crate) cardinal: PluralRules<'static>,
    pub(crate) ordinal: PluralRules<'static>,
    pub(crate) notes: Vec<u8>,
}

impl Spoken {
    // No rules.
    fn new(alloc: Global) -> Spoken {
        Spoken {
            cardinal: PluralRules::from_data(PluralRulesData::default()),
            ordinal: PluralRules::from_data(PluralRulesData::default()),
            notes: Vec::new(alloc),
        }
    }
}

// The rules that are taken of the locale that words or the name of the catalogue name. Where none
// are taken, none are read.
pub(crate) fn spoken_rules(
    rt: &HostRuntime,
    said: &SayWords<'_>,
    taken: Taken,
) -> Result<Spoken, Failure> {
    if !taken.cardinal && !taken.ordinal {
        return Ok(Spoken::new(rt.alloc()));
    }
    let Some(locale) = said.locale.or(named_locale(said.catalog)) else {
        let (alloc, file) = (rt.alloc(), said.catalog);
        return Err(told(format!(in alloc; "{file}: no locale: name it by --locale")));
    };
    let Some(name) = rules_name(rt, said.rules)? else {
        let found = rules_by(rt.alloc(), taken, locale, &mut rt.stdin());
        return Failure::of_rules(None, found);
    };
    let mut rules = open(rt, &name)?;
    let found = rules_by(rt.alloc(), taken, locale, &mut rules);
    Failure::of_rules(Some(name), found)
}

// The locale that a file's name names, up to its first dot.
fn named_locale(file: &str) -> Option<&str> {
    let name = match file.rsplit_once('/') {
        Some((_, name)) => name,
        None => file,
    };
    let stem = match name.split_once('.') {
        Some((stem, _)) => stem,
        None => name,
    };
    if stem.is_empty() || stem == "-" {
        None
    } else {
        Some(stem)
    }
}

// The rules that are taken of those in a reader.
fn rules_by<R: Read>(
    alloc: Global,
    taken: Taken,
    locale: &str,
    reader: &mut R,
) -> Result<Spoken, RulesFault> {
    let bytes = match read_input(alloc, reader) {
        Ok(bytes) => bytes,
        Err(fault) => return Err(RulesFault::Other(FormsError::from(fault))),
    };
    match rules_in(alloc, taken, locale, bytes.as_slice()) {
        Ok(spoken) => Ok(spoken),
        Err(error) => Err(fault_in(alloc, bytes.as_slice(), error)),
    }
}

// The rules that are taken of those in bytes.
fn rules_in(alloc: Global, taken: Taken, locale: &str, bytes: &[u8]) -> Result<Spoken, FormsError> {
    let mut spoken = Spoken::new(alloc);
    put_rules(alloc, taken, locale, bytes, &mut spoken).and(Ok(spoken))
}

// Puts the rules that are taken in their places.
fn put_rules(
    alloc: Global,
    taken: Taken,
    locale: &str,
    bytes: &[u8],
    spoken: &mut Spoken,
) -> Result<(), FormsError> {
    let notes = &mut spoken.notes;
    if taken.cardinal {
        let rules = rules_of(alloc, Part::Cardinal, locale, bytes, notes)?;
        drop(mem::replace(&mut spoken.cardinal, rules));
    }
    if taken.ordinal {
        let rules = rules_of(alloc, Part::Ordinal, locale, bytes, notes)?;
        drop(mem::replace(&mut spoken.ordinal, rules));
    }
    Ok(())
}

// The rules of a part for a locale. Why there are none, and the note of their key, is that of an
// answer to no numbers.
fn rules_of(
    alloc: Global,
    part: Part,
    locale: &str,
    bytes: &[u8],
    notes: &mut Vec<u8>,
) -> Result<PluralRules<'static>, FormsError> {
    let mut rest = bytes;
    let mut lines = Vec::new(alloc);
    answer_numbers(alloc, part, locale, &[], &mut rest, &mut lines, notes)?;
    match json_value(alloc, bytes) {
        Ok(document) => rules_under(alloc, part, locale, &document),
        Err(JsonTextError::Json) => Err(FormsError::Json),
        Err(JsonTextError::Memory) => Err(FormsError::Memory),
    }
}

// The rules under the first key of a locale's chain.
fn rules_under(
    alloc: Global,
    part: Part,
    locale: &str,
    document: &Value,
) -> Result<PluralRules<'static>, FormsError> {
    let Some(value) = value_of(part, locale, document) else {
        return Err(FormsError::Refused(JsonError::Shape));
    };
    match PluralRulesData::from_json(alloc, value) {
        Ok(data) => Ok(PluralRules::from_data(data)),
        Err(JsonError::Memory) => Err(FormsError::Memory),
        Err(error) => Err(FormsError::Refused(error)),
    }
}

// What stands under that key.
fn value_of<'a>(part: Part, locale: &str, document: &'a Value) -> Option<&'a Value> {
    let key = find_first(document, part, locale).ok()?;
    document.get(part.as_str())?.get(key)
}
