//! The document that an input writes, and the rules and ranges that it has for a locale.

ghost use Rattle.icu_plurals.specs.DocumentJson as of_json;
ghost use Rattle.icu_plurals.specs.FiveRules.{rules_of as data_of};
ghost use Rattle.plural_queries.specs.Input.{document_of_value, or_bad, ranged_for, rules_for};
ghost use Rattle.plural_queries.specs.CallAnswers.{GivesValue};
ghost use Rattle.plural_queries.specs.KeptDocuments.{GivesElements, GivesJsonText, GivesServing};
ghost use Rattle.plural_queries.specs.QueryViews.{document_view, lookup_view};
ghost use Rattle.plural_documents.specs.Outlines.{IsHeld};
ghost use Rattle.serde_json.specs.Data.{Data};

use crate::error::RunError;
use crate::query::Lookup;
use icu_plurals::provider::PluralRulesData;
use icu_plurals::{
    JsonError, JsonProvider, PluralRuleType, PluralRules, PluralRulesOptions,
    PluralRulesWithRanges, PluralsProvider,
};
use plural_documents::{JsonTextError, JsonTokens, Portion, Scratch, Sieve, provider_of_locale};
use serde_json::Value;
use std::alloc::Global;

/// What a query asks for of a document: its elements, and what the maps of rules and of ranges in it
/// have for a locale.
#[derive(Drop)]
pub struct Document {
    pub(crate) value: Value,
    maps: JsonProvider,
}

// Of a document the elements.
#[derive(Clone, Copy)]
struct ElementsSieve;

impl Sieve for ElementsSieve {
    ghost use Rattle.plural_queries.specs.KeptDocuments.{keeps_elements};

    ghost keeps = { keeps_elements };

    fn kept(&self, key: &str) -> Portion<ElementsSieve> {
        if key == "elements" {
            Portion::Whole
        } else {
            Portion::Nothing
        }
    }
}

/// Returns the JSON text of the bytes, of which all is held. It allocates.
///
/// The errors: [`RunError::Json`] if they aren't a JSON text, as `serde_json` reads it;
/// [`RunError::Memory`] if memory ran out.
pub fn json_text<'a>(
    alloc: Global,
    bytes: &'a [u8],
    scratch: &'a mut Scratch,
) -> Result<JsonTokens<'a>, RunError>
    ensures { GivesJsonText bytes.now result }
{
    match JsonTokens::read(alloc, bytes, scratch) {
        Ok(text) => Ok(text),
        Err(JsonTextError::Json) => Err(RunError::Json),
        Err(JsonTextError::Memory) => Err(RunError::Memory),
    }
}

/// Returns what a query asks for of the document that a text writes. It allocates.
///
/// The errors: [`RunError::Document`] if it is no document; [`RunError::Memory`] if memory ran out.
pub fn document_for(
    alloc: Global,
    text: &JsonTokens<'_>,
    lookup: &Lookup<'_>,
) -> Result<Document, RunError>
    ensures { (held : Data) → IsHeld text.now held → GivesServing (lookup_view lookup.now) (document_of_value held) result }
{
    let maps = maps_of(alloc, text, lookup.locale())?;
    match value_for(alloc, text, lookup) {
        Ok(value) => Ok(Document { value, maps }),
        Err(fault) => {
            drop(maps);
            Err(fault)
        }
    }
}

// What the maps of a document have for a locale.
fn maps_of(alloc: Global, text: &JsonTokens<'_>, locale: &str) -> Result<JsonProvider, RunError>
    ensures { (held : Data) → IsHeld text.now held → GivesValue (λ maps. maps) (or_bad (of_json.document_for locale.now held)) result }
{
    match provider_of_locale(alloc, text, locale) {
        Ok(maps) => Ok(maps),
        Err(JsonError::Memory) => Err(RunError::Memory),
        Err(refusal) => Err(RunError::Document(refusal)),
    }
}

// A value with the elements of a document, if they are asked for.
fn value_for(alloc: Global, text: &JsonTokens<'_>, lookup: &Lookup<'_>) -> Result<Value, RunError>
    ensures { GivesElements (lookup_view lookup.now) text.now result }
{
    match lookup {
        Lookup::Select(_, _, _) | Lookup::Message(_, _, _, _) => {
            match text.outline(alloc, ElementsSieve) {
                Ok(value) => Ok(value),
                Err(_) => Err(RunError::Memory),
            }
        }
        _ => Ok(Value::Null),
    }
}

// The rules of a type that the document has for a locale.
pub(crate) fn rules_for<'a>(
    document: &'a Document,
    locale: &str,
    rule_type: PluralRuleType,
) -> Result<PluralRulesData<'a>, RunError>
    ensures { GivesValue data_of (rules_for rule_type locale.now (document_view document.now)) result }
{
    let found = match rule_type {
        PluralRuleType::Cardinal => document.maps.load_cardinal(locale),
        PluralRuleType::Ordinal => document.maps.load_ordinal(locale),
    };
    match found {
        Ok(rules) => Ok(rules),
        Err(_) => Err(RunError::Locale),
    }
}

// The rules of a type and the ranges that the document has for a locale.
pub(crate) fn ranged_for<'a>(
    document: &'a Document,
    locale: &str,
    rule_type: PluralRuleType,
) -> Result<PluralRulesWithRanges<PluralRules<'a>>, RunError>
    ensures { GivesValue (λ ranged. ranged) (ranged_for rule_type locale.now (document_view document.now)) result }
{
    let options = PluralRulesOptions::from(rule_type);
    let Ok(ranged) = PluralRulesWithRanges::try_new_unstable(&document.maps, locale, options) else {
        return Err(RunError::Locale);
    };
    Ok(ranged)
}
