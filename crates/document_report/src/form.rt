//! The form of a document: it has no float; it, its parts and the value of each locale in a part
//! are objects.

ghost use Rattle.std.specs.Prelude.{◌≡◌, is_some, option_map};
ghost use Rattle.std.specs.Option.{option_and_then};
ghost use Rattle.serde_json.specs.Find.{as_object, get};
ghost use Rattle.serde_json.specs.View.{members_view, view};
ghost use Rattle.document_report.specs.CheckedDocument.{document_formed, has_part_form, locales_formed, part_formed};
ghost use Rattle.document_report.specs.CheckedDocument.{parts_formed, table_in};
ghost use Rattle.document_report.specs.Inner.CheckCalls.{GivesCheckFault, GivesOnly};
ghost use Rattle.plural_documents.specs.PrintedKeys.{name_text};
ghost use Rattle.plural_fallback.specs.LocalesJson.{part_name};
ghost use Rattle.document_report.specs.declared.error.CheckError.TheVariants.{NoObject};
ghost use Rattle.document_report.specs.declared.place.Place.TheVariants as place;

use crate::error::CheckError;
use crate::place::{Locale, Place};
use plural_base::holds_float;
use plural_fallback::Part;
use serde_json::{Map, Value};
use std::alloc::Global;

// Checks the form of a document. The error names the first place that has another form.
pub(crate) fn check_document(alloc: Global, value: &Value) -> Result<(), CheckError>
    ensures { GivesOnly (λ done. done) (document_formed (view value.now)) result }
{
    if holds_float(value) {
        return Err(CheckError::Float);
    }
    if !value.is_object() {
        return Err(CheckError::NoObject(Place::Document));
    }
    check_parts(alloc, value)
}

// Checks its three parts.
fn check_parts(alloc: Global, value: &Value) -> Result<(), CheckError>
    ensures { GivesOnly (λ done. done) (parts_formed (view value.now)) result }
{
    check_part(alloc, Part::Cardinal, value)?;
    check_part(alloc, Part::Ordinal, value)?;
    check_part(alloc, Part::Ranges, value)
}

// Checks one part.
fn check_part(alloc: Global, part: Part, value: &Value) -> Result<(), CheckError>
    ensures { GivesOnly (λ done. done) (part_formed part (get (part_name part) (view value.now))) result }
{
    check_members(alloc, part, value.get(part.as_str()))
}

// Checks the value of a part, which may be absent or null.
fn check_members(alloc: Global, part: Part, value: Option<&Value>) -> Result<(), CheckError>
    ensures { GivesOnly (λ done. done) (part_formed part (option_map (λ v. view v.now) value.entry)) result }
{
    let Some(value) = value else {
        return Ok(());
    };
    if value.is_null() {
        return Ok(());
    }
    match value.as_object() {
        Some(members) => check_locales(alloc, part, members),
        None => Err(CheckError::NoObject(Place::Part(part))),
    }
}

// Checks the value of each locale in a part.
fn check_locales(alloc: Global, part: Part, members: &Map<String, Value>) -> Result<(), CheckError>
    ensures { GivesOnly (λ done. done) (locales_formed part (members_view members.now.entries)) result }
{
    for (locale, value) in members.iter() {
        if !has_form(part, value) {
            return Err(no_object(alloc, part, locale.as_str()));
        }
    }
    Ok(())
}

// Whether a locale's value has the form of the part.
fn has_form(part: Part, value: &Value) -> bool
    ensures { result ≡ has_part_form part (view value.now) }
{
    match part {
        Part::Cardinal | Part::Ordinal => value.is_object(),
        Part::Ranges => table_in(value).is_some(),
    }
}

// The value of `ranges` in a locale's value, if it is an object.
pub(crate) fn table_in(value: &Value) -> Option<&Map<String, Value>>
    ensures { option_map (λ m. members_view m.now.entries) result ≡ table_in (view value.now) }
{
    value.get("ranges")?.as_object()
}

// The error for a locale.
fn no_object(alloc: Global, part: Part, locale: &str) -> CheckError
    ensures { GivesCheckFault (λ fault. fault ≡ NoObject (place.Locale part (name_text locale.now))) result }
{
    match Locale::from_str(alloc, locale) {
        Ok(locale) => CheckError::NoObject(Place::Locale(part, locale)),
        Err(_) => CheckError::Memory,
    }
}
