//! The rules and ranges of one locale of a JSON document.

ghost use Rattle.std.specs.Prelude.{◌≡◌, ◌≢◌, ◌↔◌, Option, Some, None, Err, IsTrue, IsFalse, option_map};
ghost use Rattle.plural_base.specs.declared.category.PluralCategory.{PluralCategory};
ghost use Rattle.plural_base.specs.DocumentJson.{document_for, document_meant, map_meant, rows_meant, with_locale};
ghost use Rattle.plural_base.specs.Inner.JsonSteps.{Passes, row_alone, row_meant, rows_by};
ghost use Rattle.plural_base.specs.Json.{GivesMeaning};
ghost use Rattle.serde_json.specs.Find.{as_object, get_member};
ghost use Rattle.serde_json.specs.View.{view, members_view};
ghost use Rattle.serde_json.specs.Written.{has_float};

use crate::json::error::JsonError;
use crate::json::float::holds_float;
use crate::json::known_rules::KnownRules;
use crate::json::provider::JsonProvider;
use crate::json::rows::{FromJson, put_row};
use crate::json::sorted_rows::SortedRows;
use plural_runtime::RuleError;
use serde_json::{Map, Value};
use std::alloc::Global;

impl JsonProvider {
    /// Returns the provider of one locale of a document: it has what [`JsonProvider::from_value`]
    /// has for this locale, and nothing for any other.
    ///
    /// The rest of the document is read too, but not kept: it is refused as by
    /// [`JsonProvider::from_value`], whichever locale the refusal is of. It allocates; out of
    /// memory is [`JsonError::Memory`].
    pub fn of_locale(alloc: Global, value: &Value, locale: &str) -> Result<JsonProvider, JsonError>
        ensures answers { GivesMeaning (λ provider. provider) result (document_for locale.now (view value.now)) }
        // Both are checked before anything is allocated.
        ensures float { (result ≡ Err JsonError.Float) ↔ IsTrue (has_float (view value.now)) }
        ensures shape { IsFalse (has_float (view value.now)) → as_object (view value.now) ≡ None → result ≡ Err JsonError.Shape }
        ensures memory { (category : Option PluralCategory) → result ≢ Err (JsonError.Rule category RuleError.Memory) }
    {
        if holds_float(value) {
            return Err(JsonError::Float);
        }
        read_locale(alloc, value, locale)
    }
}

// What a document without floats has for a locale.
fn read_locale(alloc: Global, value: &Value, locale: &str) -> Result<JsonProvider, JsonError>
    ensures answers { GivesMeaning (λ provider. provider) result
        (with_locale locale.now (document_meant (view value.now))) }
    ensures float { result ≢ Err JsonError.Float }
    ensures shape { as_object (view value.now) ≡ None → result ≡ Err JsonError.Shape }
    ensures memory { (category : Option PluralCategory) → result ≢ Err (JsonError.Rule category RuleError.Memory) }
{
    if !value.is_object() {
        return Err(JsonError::Shape);
    }
    let mut known = KnownRules::new(alloc);
    Ok(JsonProvider {
        cardinal: read_row(alloc, value.get("cardinal"), locale, &mut known)?,
        ordinal: read_row(alloc, value.get("ordinal"), locale, &mut known)?,
        ranges: read_row(alloc, value.get("ranges"), locale, &mut known)?,
    })
}

// What a locale has in the map of a value that may be absent or null.
fn read_row<'v, T: FromJson>(
    alloc: Global,
    value: Option<&'v Value>,
    locale: &str,
    known: &mut KnownRules<'v>,
) -> Result<SortedRows<T>, JsonError>
    ensures answers { GivesMeaning (λ rows. rows_by T.seen rows) result
        (row_alone locale.now (map_meant T.meant (option_map (λ v. view v.now) value.entry))) }
    ensures float { result ≢ Err JsonError.Float }
    ensures memory { (category : Option PluralCategory) → result ≢ Err (JsonError.Rule category RuleError.Memory) }
{
    let Some(value) = value else {
        return Ok(SortedRows::new(alloc));
    };
    if value.is_null() {
        return Ok(SortedRows::new(alloc));
    }
    match value.as_object() {
        Some(members) => read_alone(alloc, members, locale, known),
        None => Err(JsonError::Shape),
    }
}

// What the member of a locale means; all members are checked.
fn read_alone<'v, T: FromJson>(
    alloc: Global,
    members: &'v Map<String, Value>,
    locale: &str,
    known: &mut KnownRules<'v>,
) -> Result<SortedRows<T>, JsonError>
    ensures answers { GivesMeaning (λ rows. rows_by T.seen rows) result
        (row_alone locale.now (rows_meant T.meant (members_view members.now.entries))) }
    ensures float { result ≢ Err JsonError.Float }
    ensures memory { (category : Option PluralCategory) → result ≢ Err (JsonError.Rule category RuleError.Memory) }
{
    check_rows::<T>(alloc, members, known)?;
    keep_row(alloc, members, locale, known)
}

// Returns the first refusal of a member.
fn check_rows<'v, T: FromJson>(
    alloc: Global,
    members: &'v Map<String, Value>,
    known: &mut KnownRules<'v>,
) -> Result<(), JsonError>
    ensures answers { Passes result (rows_meant T.meant (members_view members.now.entries)) }
    ensures float { result ≢ Err JsonError.Float }
    ensures memory { (category : Option PluralCategory) → result ≢ Err (JsonError.Rule category RuleError.Memory) }
{
    for (_, value) in members.iter() {
        T::check(alloc, value, known)?;
    }
    Ok(())
}

// The row of a locale, if it has a member.
fn keep_row<'v, T: FromJson>(
    alloc: Global,
    members: &'v Map<String, Value>,
    locale: &str,
    known: &mut KnownRules<'v>,
) -> Result<SortedRows<T>, JsonError>
    ensures answers { GivesMeaning (λ rows. rows_by T.seen rows) result
        (row_meant T.meant locale.now (get_member locale.now (members_view members.now.entries))) }
    ensures float { result ≢ Err JsonError.Float }
    ensures memory { (category : Option PluralCategory) → result ≢ Err (JsonError.Rule category RuleError.Memory) }
{
    match members.get(locale) {
        Some(value) => row_with(alloc, locale, value, known),
        None => Ok(SortedRows::new(alloc)),
    }
}

// The row of a locale with this value.
fn row_with<'v, T: FromJson>(
    alloc: Global,
    locale: &str,
    value: &'v Value,
    known: &mut KnownRules<'v>,
) -> Result<SortedRows<T>, JsonError>
    ensures answers { GivesMeaning (λ rows. rows_by T.seen rows) result (row_meant T.meant locale.now (Some (view value.now))) }
    ensures float { result ≢ Err JsonError.Float }
    ensures memory { (category : Option PluralCategory) → result ≢ Err (JsonError.Rule category RuleError.Memory) }
{
    let mut rows = SortedRows::with_capacity(alloc, 1)?;
    match put_row(alloc, locale, value, known, &mut rows) {
        Ok(()) => Ok(rows),
        Err(refusal) => {
            drop(rows);
            Err(refusal)
        }
    }
}
