//! The languages that are asked for.

use crate::documents::{Documents, Entry};
use anyhow::{Result, bail};
use icu_plurals::PluralRules;
use icu_plurals::provider::PluralRulesData;
use plural_fallback::Part;
use serde_json::Value;
use std::alloc::Global;

// A language, the type of its rules, and the forms that it has.
#[derive(Clone, Copy)]
pub(crate) struct Language {
    pub(crate) part: Part,
    pub(crate) locale: &'static str,
    pub(crate) forms: &'static [&'static str],
}

// The languages whose numbers are asked for.
pub(crate) const LANGUAGES: [Language; 7] = [
    Language {
        part: Part::Cardinal,
        locale: "en",
        forms: &["one", "other"],
    },
    Language {
        part: Part::Cardinal,
        locale: "ru",
        forms: &["one", "few", "many", "other"],
    },
    Language {
        part: Part::Cardinal,
        locale: "ar",
        forms: &["zero", "one", "two", "few", "many", "other"],
    },
    Language {
        part: Part::Cardinal,
        locale: "fr",
        forms: &["one", "many", "other"],
    },
    Language {
        part: Part::Cardinal,
        locale: "pl",
        forms: &["one", "few", "many", "other"],
    },
    Language {
        part: Part::Ordinal,
        locale: "en",
        forms: &["one", "two", "few", "other"],
    },
    Language {
        part: Part::Ordinal,
        locale: "it",
        forms: &["many", "other"],
    },
];

// The rules of a language.
pub(crate) fn rules_of(
    alloc: Global,
    documents: &Documents,
    language: Language,
) -> Result<PluralRules<'static>> {
    let entries: &[Entry] = match language.part {
        Part::Cardinal => documents.cardinal.as_slice(),
        _ => documents.ordinal.as_slice(),
    };
    for entry in entries {
        if entry.locale.as_str() == language.locale {
            let value = Value::from_str(alloc, entry.rules.as_str())?;
            return Ok(PluralRules::from_data(PluralRulesData::from_json(alloc, &value)?));
        }
    }
    bail!("a language is missing")
}
