//! The rules and ranges of one locale of a document.

ghost use Rattle.std.specs.Prelude.{◌≡◌, ◌≢◌, Err, IfOk, Option, if◌then◌else◌};
ghost use Rattle.plural_base.specs.DocumentJson.{document_for};
ghost use Rattle.plural_base.specs.Json.{GivesMeaning};
ghost use Rattle.plural_base.specs.declared.category.PluralCategory.{PluralCategory};
ghost use Rattle.plural_documents.specs.Inner.RulesPlaces.{ServesLocale};
ghost use Rattle.plural_documents.specs.Outlines.{IsHeld};
ghost use Rattle.serde_json.specs.Data.{Data};
ghost use Rattle.serde_json.specs.View.{view};

use crate::json_tokens::JsonTokens;
use crate::outline::{Portion, Sieve};
use crate::rules_check::is_faultless;
use plural_base::{JsonError, JsonProvider};
use plural_runtime::RuleError;
use serde_json::Value;
use std::alloc::{AllocError, Global};

// What is kept of a document.
#[derive(Clone, Copy)]
enum LocaleSieve<'a> {
    // Of a document what is of this locale.
    Document(&'a str),
    // Of a map of it the member of this locale.
    Map(&'a str),
    // All.
    All,
}

impl<'a> Sieve for LocaleSieve<'a> {
    ghost use Rattle.plural_documents.specs.Inner.RulesPlaces.{keeps};

    ghost keeps = { keeps };

    fn kept(&self, key: &str) -> Portion<LocaleSieve<'a>> {
        match *self {
            LocaleSieve::Document(locale) => match key {
                "cardinal" | "ordinal" | "ranges" => Portion::Members(LocaleSieve::Map(locale)),
                _ => Portion::Nothing,
            },
            LocaleSieve::Map(locale) => if locale == key {
                Portion::Whole
            } else {
                Portion::Nothing
            },
            LocaleSieve::All => Portion::Whole,
        }
    }
}

/// Returns the provider of one locale of the document that is held of a text: what
/// [`JsonProvider::of_locale`] returns for its value, with the same refusals. Only what is of the
/// locale is built. It allocates; out of memory is [`JsonError::Memory`].
pub fn provider_of_locale(
    alloc: Global,
    text: &JsonTokens<'_>,
    locale: &str,
) -> Result<JsonProvider, JsonError>
    ensures answers { (held : Data) → IsHeld text.now held → GivesMeaning (λ provider. provider) result (document_for locale.now held) }
    ensures memory { (category : Option PluralCategory) → result ≢ Err (JsonError.Rule category RuleError.Memory) }
{
    let value = value_of_locale(alloc, text, locale)?;
    JsonProvider::of_locale(alloc, &value, locale)
}

// A value that has for the locale what all that is held has: what is of the locale, if nothing is
// wrong with the document.
fn value_of_locale(alloc: Global, text: &JsonTokens<'_>, locale: &str) -> Result<Value, AllocError>
    ensures { IfOk result (λ value. ServesLocale locale.now text.now (view value)) }
{
    let sieve = sieve_for(is_faultless(alloc, text)?, locale);
    text.outline(alloc, sieve)
}

// What is kept of a document for a locale.
fn sieve_for(is_faultless: bool, locale: &str) -> LocaleSieve<'_>
    ensures { result ≡ (if is_faultless then LocaleSieve.Document locale.entry else LocaleSieve.All) }
{
    if is_faultless {
        LocaleSieve::Document(locale)
    } else {
        LocaleSieve::All
    }
}
