//! Rules and ranges by locale from a JSON document.

ghost use Rattle.std.specs.Prelude.{◌≡◌, ◌≢◌, ◌↔◌, Option, None, Err, IfOk, IsTrue, IsFalse, List, ℕ, codes};
ghost use Rattle.plural_base.specs.declared.category.PluralCategory.{PluralCategory};
ghost use Rattle.plural_base.specs.DocumentJson.{document_meant, found};
ghost use Rattle.plural_base.specs.Inner.JsonSteps.{range_rows_of, rows_of};
ghost use Rattle.plural_base.specs.Providers.{Loads, LoadsRanges};
ghost use Rattle.plural_base.specs.Json.{GivesMeaning};
ghost use Rattle.serde_json.specs.Find.{as_object};
ghost use Rattle.serde_json.specs.View.{view};
ghost use Rattle.serde_json.specs.Written.{has_float};

use crate::json::error::JsonError;
use crate::json::float::holds_float;
use crate::json::known_rules::KnownRules;
use crate::json::rows::read_map;
use crate::json::sorted_rows::SortedRows;
use crate::provider::{DataError, PluralsProvider};
use crate::ranges::PluralRanges;
use crate::rules::data::PluralRulesData;
use plural_runtime::RuleError;
use plural_runtime::laws::texts_give_one_answer;
use serde_json::Value;
use std::alloc::Global;
use std::marker::Model;

/// Rules and ranges by locale that were read from a JSON document. It owns them.
#[derive(Debug)]
pub struct JsonProvider {
    pub(crate) cardinal: SortedRows<PluralRulesData<'static>>,
    pub(crate) ordinal: SortedRows<PluralRulesData<'static>>,
    pub(crate) ranges: SortedRows<PluralRanges>,
}

// Written out, so that each end of a value is one call.
impl Drop for JsonProvider {
    fn drop(self) {
        let JsonProvider {
            cardinal: _,
            ordinal: _,
            ranges: _,
        } = self;
    }
}

impl Model for JsonProvider {
    ghost use Rattle.plural_base.specs.DocumentJson.{Document};
    ghost use Rattle.plural_base.specs.Inner.JsonSteps.{range_rows_of, rows_of};

    ghost Value = { Document };

    ghost view = { λ p. record {
      cardinal = rows_of p.cardinal;
      ordinal = rows_of p.ordinal;
      ranges = range_rows_of p.ranges;
    } };
}

impl JsonProvider {
    ghost use Rattle.plural_base.specs.DocumentJson.{found, document_of_json, value_of_locale, AreRangesAt, AreRulesAt};

    /// Returns the provider of a document: an object with an object from locales to rules, as
    /// [`PluralRulesData::from_json`] reads them, under each of `cardinal` and `ordinal`, and one
    /// to ranges, as [`PluralRanges::from_json`] reads them, under `ranges`. Each of the three may
    /// be null or absent. Other keys aren't read.
    ///
    /// <!-- snippet crates/example_calls/src/json.rt: const DOCUMENT; fn provider -->
    /// ```
    /// const DOCUMENT: &str = r#"{
    ///     "cardinal": {"en": {"one": "i = 1 and v = 0"}},
    ///     "ordinal": {"en": {
    ///         "one": "n % 10 = 1 and n % 100 != 11",
    ///         "two": "n % 10 = 2 and n % 100 != 12",
    ///         "few": "n % 10 = 3 and n % 100 != 13"
    ///     }},
    ///     "ranges": {"en": {"ranges": {"other--one": "other"}}}
    /// }"#;
    ///
    /// pub(crate) fn provider(alloc: Global) -> anyhow::Result<JsonProvider> {
    ///     let value = Value::from_str(alloc, DOCUMENT)?;
    ///     Ok(JsonProvider::from_value(alloc, &value)?)
    /// }
    /// ```
    ///
    /// [`JsonError::Float`] if the document holds a float, else [`JsonError::Shape`] if it isn't an
    /// object; else the first refusal: cardinal before ordinal before ranges, in each first
    /// [`JsonError::Shape`] if it is neither null nor an object, then its locales in the order of
    /// their bytes, each as [`PluralRulesData::from_json`] or [`PluralRanges::from_json`] refuses
    /// it. It allocates; out of memory is [`JsonError::Memory`].
    pub fn from_value(alloc: Global, value: &Value) -> Result<JsonProvider, JsonError>
        ensures answers { GivesMeaning (λ provider. provider) result (document_of_json (view value.now)) }
        // A locale has rules if and only if its key is present, and they are those of the texts
        // under it.
        ensures cardinal { IfOk result (λ provider. (locale : List ℕ)
            → AreRulesAt (value_of_locale (codes "cardinal") locale (view value.now)) (found locale provider.cardinal)) }
        ensures ordinal { IfOk result (λ provider. (locale : List ℕ)
            → AreRulesAt (value_of_locale (codes "ordinal") locale (view value.now)) (found locale provider.ordinal)) }
        // A locale has ranges if and only if its key is present, and they are those that the value
        // under it means.
        ensures ranges { IfOk result (λ provider. (locale : List ℕ)
            → AreRangesAt (value_of_locale (codes "ranges") locale (view value.now)) (found locale provider.ranges)) }
        // Both are checked before anything is allocated.
        ensures float { (result ≡ Err JsonError.Float) ↔ IsTrue (has_float (view value.now)) }
        ensures shape { IsFalse (has_float (view value.now)) → as_object (view value.now) ≡ None → result ≡ Err JsonError.Shape }
        ensures memory { (category : Option PluralCategory) → result ≢ Err (JsonError.Rule category RuleError.Memory) }
    {
        texts_give_one_answer();
        if holds_float(value) {
            return Err(JsonError::Float);
        }
        read_document(alloc, value)
    }
}

impl PluralsProvider for JsonProvider {
    ghost use Rattle.plural_base.specs.DocumentJson.{found};

    ghost cardinal = { λ p locale. found locale p.cardinal };

    ghost ordinal = { λ p locale. found locale p.ordinal };

    ghost ranges = { λ p locale. found locale p.ranges };

    fn load_cardinal(&self, locale: &str) -> Result<PluralRulesData<'_>, DataError> {
        load(&self.cardinal, locale)
    }

    fn load_ordinal(&self, locale: &str) -> Result<PluralRulesData<'_>, DataError> {
        load(&self.ordinal, locale)
    }

    fn load_ranges(&self, locale: &str) -> Result<PluralRanges, DataError> {
        load_copied(&self.ranges, locale)
    }
}

// The locale's rules of a map.
fn load<'a>(
    rows: &'a SortedRows<PluralRulesData<'static>>,
    locale: &str,
) -> Result<PluralRulesData<'a>, DataError>
    ensures { Loads (found locale.now (rows_of rows.now)) result }
{
    match rows.get(locale) {
        Some(rules) => Ok(rules.as_borrowed()),
        None => Err(DataError::NotFound),
    }
}

// The locale's ranges of a map.
fn load_copied(tables: &SortedRows<PluralRanges>, locale: &str) -> Result<PluralRanges, DataError>
    ensures { LoadsRanges (found locale.now (range_rows_of tables.now)) result }
{
    match tables.get(locale) {
        Some(ranges) => Ok(*ranges),
        None => Err(DataError::NotFound),
    }
}

// The provider of a document without floats.
fn read_document(alloc: Global, value: &Value) -> Result<JsonProvider, JsonError>
    ensures answers { GivesMeaning (λ provider. provider) result (document_meant (view value.now)) }
    ensures float { result ≢ Err JsonError.Float }
    ensures shape { as_object (view value.now) ≡ None → result ≡ Err JsonError.Shape }
    ensures memory { (category : Option PluralCategory) → result ≢ Err (JsonError.Rule category RuleError.Memory) }
{
    if !value.is_object() {
        return Err(JsonError::Shape);
    }
    let mut known = KnownRules::new(alloc);
    Ok(JsonProvider {
        cardinal: read_map(alloc, value.get("cardinal"), &mut known)?,
        ordinal: read_map(alloc, value.get("ordinal"), &mut known)?,
        ranges: read_map(alloc, value.get("ranges"), &mut known)?,
    })
}
