//! The rules that a document has for a locale.

ghost use Rattle.std.specs.Prelude.{◌≡◌, Err, IfOk, option_map};
ghost use Rattle.form_commands.specs.Inner.RunSteps.{IsFoundBy};
ghost use Rattle.form_commands.specs.Languages.{IsFoundAt};
ghost use Rattle.rules_outline.specs.LocaleKeys.{value_at_key};
ghost use Rattle.serde_json.specs.View.{view};

use crate::error::LanguageError;
use crate::fault_byte::fault_byte;
use crate::name::Name;
use icu_plurals::provider::PluralRulesData;
use icu_plurals::{JsonError, PluralRules};
use plural_fallback::Part;
use rules_outline::KeptRules;
use serde_json::Value;
use std::alloc::{AllocError, Global};

// A key of a document, what stands under it, and the rules of that.
#[derive(Drop)]
pub(crate) struct LanguageRules<'a> {
    pub(crate) key: &'a str,
    pub(crate) value: &'a Value,
    pub(crate) rules: PluralRules<'static>,
}

// The rules that are kept for a locale, or why there are none.
pub(crate) fn language_of<'a>(
    alloc: Global,
    kept: &'a KeptRules,
    part: Part,
    locale: &str,
) -> Result<Result<LanguageRules<'a>, LanguageError>, AllocError>
    ensures { IfOk result (IsFoundBy kept.now part locale.now) }
{
    match &kept.key {
        Ok(key) => at_key(alloc, &kept.document, part, key.as_str()),
        Err(reason) => {
            let locale = Name::from_str(alloc, locale)?;
            Ok(Err(LanguageError::NotFound(part, locale, *reason)))
        }
    }
}

// The rules of a key, or why there are none.
fn at_key<'a>(
    alloc: Global,
    document: &'a Value,
    part: Part,
    key: &'a str,
) -> Result<Result<LanguageRules<'a>, LanguageError>, AllocError>
    ensures { IfOk result (λ answer. IsFoundAt (view document.now) part key.now answer) }
{
    let Some(value) = value_at(document, part, key) else {
        return refused(alloc, part, key, JsonError::Shape, None);
    };
    match PluralRulesData::from_json(alloc, value) {
        Ok(data) => Ok(Ok(LanguageRules {
            key,
            value,
            rules: PluralRules::from_data(data),
        })),
        Err(JsonError::Memory) => Err(AllocError),
        Err(reason) => {
            let byte = fault_byte(alloc, value, reason)?;
            refused(alloc, part, key, reason, byte)
        }
    }
}

// What stands under a key of a part.
fn value_at<'a>(document: &'a Value, part: Part, key: &str) -> Option<&'a Value>
    ensures { option_map (λ v. view v.now) result ≡ value_at_key (view document.now) part key.now }
{
    document.get(part.as_str())?.get(key)
}

// The refusal of what stands under a key.
fn refused<'a>(
    alloc: Global,
    part: Part,
    key: &str,
    reason: JsonError,
    byte: Option<usize>,
) -> Result<Result<LanguageRules<'a>, LanguageError>, AllocError>
    ensures { IfOk result (λ answer. answer ≡ Err (LanguageError.Refused part key.now reason byte)) }
{
    let key = Name::from_str(alloc, key)?;
    Ok(Err(LanguageError::Refused(part, key, reason, byte)))
}
