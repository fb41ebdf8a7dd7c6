//! Whether a language is known, and the error of an unknown one.

ghost use Rattle.std.specs.Prelude.{◌≡◌, ◌⊎◌, MatchBool, IfOk, false, option_map, true};
ghost use Rattle.std.specs.Option.{option_and_then};
ghost use Rattle.form_commands.specs.Inner.RunSteps.{GivesKnownIn, TellsKnown, has_roots_key};
ghost use Rattle.form_commands.specs.Languages.{IsKnownIn, IsUnknownIn, unknown_error};
ghost use Rattle.form_commands.specs.SimilarKeys.{similar_keys};
ghost use Rattle.plural_fallback.specs.LocalesJson.{keys_under, part_name};
ghost use Rattle.plural_fallback.specs.UnknownLanguages.{is_unknown};
ghost use Rattle.serde_json.specs.Find.{as_object, get};
ghost use Rattle.serde_json.specs.View.{members_view, view};

use crate::error::{FormsError, LanguageError};
use crate::name::Name;
use crate::similar_keys::{SimilarKeys, similar_keys};
use plural_documents::{JsonTextError, json_value};
use plural_fallback::{Part, is_known, is_unknown, language};
use rules_outline::KeptRules;
use serde_json::{Map, Value};
use std::alloc::{AllocError, Global};

// Whether the key of the rules that are kept for a locale is `root`, which wasn't asked for.
pub(crate) fn has_roots_key(kept: &KeptRules, locale: &str) -> bool
    ensures { result ≡ has_roots_key locale.now kept.now }
{
    match &kept.key {
        Ok(key) => is_unknown(locale, key.as_str()),
        Err(_) => false,
    }
}

// Whether the language of a locale with this first key is unknown by a document.
pub(crate) fn is_unknown_by(document: &Value, locale: &str, key: &str) -> bool
    ensures { MatchBool result
        ((is_unknown locale.now key.now ≡ true) × IsUnknownIn (view document.now) locale.now)
        ((is_unknown locale.now key.now ≡ false) ⊎ IsKnownIn (view document.now) locale.now) }
{
    is_unknown(locale, key) && !is_known(document, locale)
}

// The error of an unknown language, if it is unknown by the JSON value of bytes.
pub(crate) fn known_in(
    alloc: Global,
    part: Part,
    locale: &str,
    bytes: &[u8],
) -> Result<(), FormsError>
    ensures { GivesKnownIn part locale.now bytes.now result }
{
    match json_value(alloc, bytes) {
        Ok(document) => known_by(alloc, part, locale, &document),
        Err(JsonTextError::Json) => Err(FormsError::Json),
        Err(JsonTextError::Memory) => Err(FormsError::Memory),
    }
}

// The same by a document.
fn known_by(alloc: Global, part: Part, locale: &str, document: &Value) -> Result<(), FormsError>
    ensures { TellsKnown part locale.now (view document.now) result }
{
    if is_known(document, locale) {
        return Ok(());
    }
    match unknown_error(alloc, part, locale, document) {
        Ok(error) => Err(FormsError::Language(error)),
        Err(_) => Err(FormsError::Memory),
    }
}

// The error with the keys of the part of a document.
fn unknown_error(
    alloc: Global,
    part: Part,
    locale: &str,
    document: &Value,
) -> Result<LanguageError, AllocError>
    ensures { IfOk result (λ error. error ≡ unknown_error (view document.now) part locale.now) }
{
    let similar = similar_in(alloc, part, language(locale.as_bytes()), document)?;
    let locale = Name::from_str(alloc, locale)?;
    Ok(LanguageError::Unknown(part, locale, similar))
}

// The keys of the part of a document that are similar to a language.
fn similar_in(
    alloc: Global,
    part: Part,
    language: &[u8],
    document: &Value,
) -> Result<SimilarKeys, AllocError>
    ensures { IfOk result (λ similar. similar ≡ similar_keys language.now (keys_under (part_name part) (view document.now))) }
{
    match members_of(part, document) {
        Some(members) => similar_keys(alloc, language, members),
        None => Ok(SimilarKeys::Nothing),
    }
}

// The members of a part of a document, if it is an object.
fn members_of(part: Part, document: &Value) -> Option<&Map<String, Value>>
    ensures { option_map (λ m. members_view m.now.entries) result ≡ option_and_then as_object (get (part_name part) (view document.now)) }
{
    document.get(part.as_str())?.as_object()
}
