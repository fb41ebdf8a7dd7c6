//! The keys of a document: of its parts, of locales, and of texts.

ghost use Rattle.std.specs.Prelude.{◌≡◌, OnOk, option_map};
ghost use Rattle.document_report.specs.CheckedDocument.{members_or_none};
ghost use Rattle.document_report.specs.DocumentPlaces.{locale_place_view};
ghost use Rattle.document_report.specs.DocumentReport.{found_of_key, found_of_length, found_of_underscore};
ghost use Rattle.document_report.specs.DocumentReport.{found_of_part, is_part_name, IsFoundInKey, IsFoundInPartKey};
ghost use Rattle.document_report.specs.FoundInDocuments.{together, HasGrownInDocument, IsFoundInDocumentMembers};
ghost use Rattle.serde_json.specs.View.{members_view};

use crate::cause::Cause;
use crate::document::add_members_of;
use crate::finding_place::{FindingPlace, LocalePlace};
use crate::found::Found;
use crate::names::has_underscore;
use document_members::is_long_name;
use icu_plurals::PluralCategory;
use plural_documents::MemberCheck;
use serde_json::{Map, Value};
use std::alloc::{AllocError, Global};

// Adds what is found in a locale's key.
pub(crate) fn add_key<'a>(place: LocalePlace<'a>, found: &mut Found<'a>) -> Result<(), AllocError>
    ensures { OnOk result (found.new ≡ together found.old (found_of_key (locale_place_view place.entry))) }
{
    add_length(place, found)?;
    add_underscore(place, found)
}

// Adds a fault if a locale's key is long.
fn add_length<'a>(place: LocalePlace<'a>, found: &mut Found<'a>) -> Result<(), AllocError>
    ensures { OnOk result (found.new ≡ together found.old (found_of_length (locale_place_view place.entry))) }
{
    if !is_long_name(place.locale) {
        return Ok(());
    }
    found.add_fault(FindingPlace::Locale(place), Cause::LongKey)
}

// Adds a fault if a locale's key has `_`.
fn add_underscore<'a>(place: LocalePlace<'a>, found: &mut Found<'a>) -> Result<(), AllocError>
    ensures { OnOk result (found.new ≡ together found.old (found_of_underscore (locale_place_view place.entry))) }
{
    if !has_underscore(place.locale) {
        return Ok(());
    }
    found.add_fault(FindingPlace::Locale(place), Cause::KeyWithUnderscore)
}

// Adds what is found in the keys of a locale's value, if it is an object.
pub(crate) fn add_categories<'a>(
    alloc: Global,
    place: LocalePlace<'a>,
    members: Option<&'a Map<String, Value>>,
    found: &mut Found<'a>,
) -> Result<(), AllocError>
    ensures { OnOk result (HasGrownInDocument (IsFoundInDocumentMembers (IsFoundInKey (locale_place_view place.entry))
        (members_or_none (option_map (λ m. members_view m.now.entries) members.entry))) found.old found.new) }
{
    add_members_of(alloc, &CategoryCheck { place }, members, found)
}

// Checks the keys of a locale's value.
#[derive(Clone, Copy)]
struct CategoryCheck<'a> {
    place: LocalePlace<'a>,
}

impl<'a> MemberCheck<'a, Found<'a>> for CategoryCheck<'a> {
    ghost finds = { λ check. IsFoundInKey (locale_place_view check.place) };

    fn add(
        &self,
        _alloc: Global,
        key: &'a str,
        _value: &'a Value,
        found: &mut Found<'a>,
    ) -> Result<(), AllocError> {
        match PluralCategory::get_for_cldr_string(key) {
            Some(_) => Ok(()),
            None => found.add_fault(FindingPlace::Key(self.place, key), Cause::NotACategory),
        }
    }
}

// Checks the keys of a document.
#[derive(Clone, Copy)]
pub(crate) struct PartCheck;

impl<'a> MemberCheck<'a, Found<'a>> for PartCheck {
    ghost finds = { λ check. IsFoundInPartKey };

    fn add(
        &self,
        _alloc: Global,
        key: &'a str,
        _value: &'a Value,
        found: &mut Found<'a>,
    ) -> Result<(), AllocError> {
        add_part(key, found)
    }
}

// Adds a fault if a key of a document is no part.
fn add_part<'a>(key: &'a str, found: &mut Found<'a>) -> Result<(), AllocError>
    ensures { OnOk result (found.new ≡ together found.old (found_of_part key.now)) }
{
    if is_part_name(key) {
        return Ok(());
    }
    found.add_fault(FindingPlace::Part(key), Cause::NotAPart)
}

// Whether a key names a part that programs know.
fn is_part_name(key: &str) -> bool
    ensures { result ≡ is_part_name key.now }
{
    matches!(
        key,
        "cardinal" | "ordinal" | "ranges" | "elements" | "parents"
    )
}
