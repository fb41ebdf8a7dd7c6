//! Maps from locales to rules or ranges, as JSON has them.

ghost use Rattle.std.specs.Prelude.{◌≢◌, ◌++◌, [], ◌∷◌, Option, Err, option_map};
ghost use Rattle.std.specs.Map.{keys_of};
ghost use Rattle.plural_base.specs.declared.category.PluralCategory.{PluralCategory};
ghost use Rattle.plural_base.specs.DocumentJson.{map_meant, rows_meant};
ghost use Rattle.plural_base.specs.Inner.JsonSteps.{rows_by, Ascend, Passes, PutsRow};
ghost use Rattle.plural_base.specs.Json.{GivesMeaning, Stands};
ghost use Rattle.serde_json.specs.Data.{Data};
ghost use Rattle.serde_json.specs.View.{view, members_view};

use crate::json::error::JsonError;
use crate::json::known_rules::KnownRules;
use crate::json::sorted_rows::SortedRows;
use plural_runtime::RuleError;
use serde_json::{Map, Value};
use std::alloc::Global;

// What a locale has in a document, read from a value without floats.
pub(crate) trait FromJson: Drop {
    // What contracts see it as.
    ghost Seen: { Type 0 };

    ghost seen: { Self → Seen };

    // What a value means as one, or its refusal.
    ghost meant: { Data → Stands Seen };

    fn read<'v>(
        alloc: Global,
        value: &'v Value,
        known: &mut KnownRules<'v>,
    ) -> Result<Self, JsonError>
        ensures answers { GivesMeaning seen result (meant (view value.now)) }
        ensures float { result ≢ Err JsonError.Float }
        ensures memory { (category : Option PluralCategory) → result ≢ Err (JsonError.Rule category RuleError.Memory) };

    // Returns the refusal of a value.
    fn check<'v>(
        alloc: Global,
        value: &'v Value,
        known: &mut KnownRules<'v>,
    ) -> Result<(), JsonError>
        ensures answers { Passes result (meant (view value.now)) }
        ensures float { result ≢ Err JsonError.Float }
        ensures memory { (category : Option PluralCategory) → result ≢ Err (JsonError.Rule category RuleError.Memory) };
}

// The map of a value that may be absent or null.
pub(crate) fn read_map<'v, T: FromJson>(
    alloc: Global,
    value: Option<&'v Value>,
    known: &mut KnownRules<'v>,
) -> Result<SortedRows<T>, JsonError>
    ensures answers { GivesMeaning (λ rows. rows_by T.seen rows) result
        (map_meant T.meant (option_map (λ v. view v.now) value.entry)) }
    ensures float { result ≢ Err JsonError.Float }
    ensures memory { (category : Option PluralCategory) → result ≢ Err (JsonError.Rule category RuleError.Memory) }
{
    let Some(value) = value else {
        return Ok(SortedRows::new(alloc));
    };
    if value.is_null() {
        return Ok(SortedRows::new(alloc));
    }
    match value.as_object() {
        Some(members) => read_rows(alloc, members, known),
        None => Err(JsonError::Shape),
    }
}

// What is read from each member, under its key.
fn read_rows<'v, T: FromJson>(
    alloc: Global,
    members: &'v Map<String, Value>,
    known: &mut KnownRules<'v>,
) -> Result<SortedRows<T>, JsonError>
    ensures answers { GivesMeaning (λ rows. rows_by T.seen rows) result (rows_meant T.meant (members_view members.now.entries)) }
    ensures float { result ≢ Err JsonError.Float }
    ensures memory { (category : Option PluralCategory) → result ≢ Err (JsonError.Rule category RuleError.Memory) }
{
    let mut rows = SortedRows::with_capacity(alloc, members.len())?;
    for (locale, value) in members.iter() {
        put_row(alloc, locale.as_str(), value, known, &mut rows)?;
    }
    Ok(rows)
}

// Puts what a value means as what a locale has, behind the other rows.
pub(crate) fn put_row<'v, T: FromJson>(
    alloc: Global,
    locale: &str,
    value: &'v Value,
    known: &mut KnownRules<'v>,
    rows: &mut SortedRows<T>,
) -> Result<(), JsonError>
    requires { Ascend (keys_of (rows_by T.seen rows.old) ++ locale.now ∷ []) }
    ensures answers { PutsRow locale.now (T.meant (view value.now)) (rows_by T.seen rows.old) (rows_by T.seen rows.new) result }
    ensures float { result ≢ Err JsonError.Float }
    ensures memory { (category : Option PluralCategory) → result ≢ Err (JsonError.Rule category RuleError.Memory) }
{
    match T::read(alloc, value, known) {
        Ok(row) => Ok(rows.push(String::from_str(alloc, locale)?, row)?),
        Err(refusal) => Err(refusal),
    }
}
