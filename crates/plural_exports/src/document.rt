//! JSON texts, and the rules that a document has for a locale.

ghost use Rattle.std.specs.Prelude.{◌≡◌};
ghost use Rattle.serde_json.specs.View.{view};
ghost use Rattle.icu_plurals.specs.FiveRules.{rules_of};
ghost use Rattle.icu_plurals.specs.DocumentJson.{rows_for};
ghost use Rattle.plural_exports.specs.GivenDocuments.{HasRulesAt, ReadsJson, type_numbered};
ghost use Rattle.plural_exports.specs.Inner.GivenResults.{HasMapsFor, GivesSeen};

use crate::fault::Fault;
use icu_plurals::provider::PluralRulesData;
use icu_plurals::{JsonProvider, PluralRuleType, PluralsProvider};
use plural_documents::{JsonTokens, Scratch, json_value, provider_of_locale};
use serde_json::Value;
use std::alloc::Global;

// The type of a number.
pub(crate) fn rule_type_of(number: u8) -> Result<PluralRuleType, Fault>
    ensures { result ≡ type_numbered number }
{
    match number {
        0 => Ok(PluralRuleType::Cardinal),
        1 => Ok(PluralRuleType::Ordinal),
        _ => Err(Fault::RuleType),
    }
}

// The JSON value that the bytes write.
pub(crate) fn value_in(alloc: Global, bytes: &[u8]) -> Result<Value, Fault>
    ensures { GivesSeen view (ReadsJson bytes.now) result }
{
    Ok(json_value(alloc, bytes)?)
}

// What the maps of the document that the bytes write have for a locale.
pub(crate) fn maps_in(alloc: Global, bytes: &[u8], locale: &str) -> Result<JsonProvider, Fault>
    ensures { HasMapsFor bytes.now locale.now result }
{
    let mut scratch = Scratch::new(alloc);
    let text = JsonTokens::read(alloc, bytes, &mut scratch)?;
    Ok(provider_of_locale(alloc, &text, locale)?)
}

// The rules of a type that the maps have for a locale.
pub(crate) fn rules_for<'a>(
    maps: &'a JsonProvider,
    locale: &str,
    rule_type: PluralRuleType,
) -> Result<PluralRulesData<'a>, Fault>
    ensures { GivesSeen rules_of (HasRulesAt locale.now (rows_for rule_type maps.now)) result }
{
    let found = match rule_type {
        PluralRuleType::Cardinal => maps.load_cardinal(locale),
        PluralRuleType::Ordinal => maps.load_ordinal(locale),
    };
    match found {
        Ok(rules) => Ok(rules),
        Err(_) => Err(Fault::Locale),
    }
}
