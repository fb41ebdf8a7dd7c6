//! What is found in the ranges of a document.

ghost use Rattle.std.specs.Prelude.{◌≡◌, OnOk, option_map};
ghost use Rattle.plural_checker.specs.LanguageTexts.{six_texts};
ghost use Rattle.document_report.specs.CheckedDocument.{members_or_none};
ghost use Rattle.document_report.specs.DocumentPlaces.{locale_place_view};
ghost use Rattle.document_report.specs.DocumentReport.{found_of_rules, texts_at, IsFoundInEntry, IsFoundInRanges, IsFoundInTable};
ghost use Rattle.document_report.specs.FoundInDocuments.{together, HasGrownInDocument, IsFoundInDocumentMembers};
ghost use Rattle.serde_json.specs.View.{members_view, view};

use crate::cause::Cause;
use crate::document::{add_members_of, value_at};
use crate::entry::entry_fault;
use crate::finding_place::{FindingPlace, LocalePlace};
use crate::form::table_in;
use crate::found::Found;
use crate::keys::add_key;
use crate::languages::texts_of;
use plural_checker::LanguageTexts;
use plural_documents::MemberCheck;
use plural_fallback::Part;
use serde_json::{Map, Value};
use std::alloc::{AllocError, Global};

// Checks a locale's ranges, in a document.
#[derive(Clone, Copy)]
pub(crate) struct TableCheck<'a> {
    pub(crate) document: &'a Value,
}

impl<'a> MemberCheck<'a, Found<'a>> for TableCheck<'a> {
    ghost finds = { λ check. IsFoundInRanges (view check.document.now) };

    fn add(
        &self,
        alloc: Global,
        locale: &'a str,
        value: &'a Value,
        found: &mut Found<'a>,
    ) -> Result<(), AllocError> {
        let rules = value_at(self.document, Part::Cardinal, locale);
        let place = LocalePlace {
            part: Part::Ranges,
            locale,
        };
        add_table(alloc, place, rules, value, found)
    }
}

// Adds what is found in the ranges of a locale, given its cardinal rules, if there are any.
fn add_table<'a>(
    alloc: Global,
    place: LocalePlace<'a>,
    rules: Option<&'a Value>,
    value: &'a Value,
    found: &mut Found<'a>,
) -> Result<(), AllocError>
    ensures { OnOk result (HasGrownInDocument (IsFoundInTable (locale_place_view place.entry) (option_map (λ v. view v.now) rules.entry)
        (view value.now)) found.old found.new) }
{
    add_key(place, found)?;
    add_rules(place, rules, found)?;
    add_entries(alloc, place, rules, table_in(value), found)
}

// Adds what is found in the entries of a locale's ranges.
fn add_entries<'a>(
    alloc: Global,
    place: LocalePlace<'a>,
    rules: Option<&'a Value>,
    members: Option<&'a Map<String, Value>>,
    found: &mut Found<'a>,
) -> Result<(), AllocError>
    ensures { OnOk result (HasGrownInDocument
        (IsFoundInDocumentMembers (IsFoundInEntry (texts_at (option_map (λ v. view v.now) rules.entry)) (locale_place_view place.entry))
        (members_or_none (option_map (λ m. members_view m.now.entries) members.entry))) found.old found.new) }
{
    let texts = texts_at(rules);
    add_members_of(alloc, &EntryCheck { texts, place }, members, found)
}

// Checks an entry of a locale's ranges, under the texts of its cardinal rules.
#[derive(Clone, Copy)]
struct EntryCheck<'a> {
    texts: LanguageTexts<'a>,
    place: LocalePlace<'a>,
}

impl<'a> MemberCheck<'a, Found<'a>> for EntryCheck<'a> {
    ghost finds = { λ check. IsFoundInEntry (six_texts check.texts) (locale_place_view check.place) };

    fn add(
        &self,
        _alloc: Global,
        key: &'a str,
        value: &'a Value,
        found: &mut Found<'a>,
    ) -> Result<(), AllocError> {
        match entry_fault(&self.texts, key, value) {
            Some(fault) => found.add_fault(FindingPlace::Key(self.place, key), Cause::Entry(fault)),
            None => Ok(()),
        }
    }
}

// The texts of cardinal rules, if there are any.
fn texts_at(rules: Option<&Value>) -> LanguageTexts<'_>
    ensures { six_texts result ≡ texts_at (option_map (λ v. view v.now) rules.entry) }
{
    match rules {
        Some(rules) => texts_of(rules),
        None => LanguageTexts::default(),
    }
}

// Adds a fault if a locale has no cardinal rules.
fn add_rules<'a>(
    place: LocalePlace<'a>,
    rules: Option<&Value>,
    found: &mut Found<'a>,
) -> Result<(), AllocError>
    ensures { OnOk result (found.new
        ≡ together found.old (found_of_rules (locale_place_view place.entry) (option_map (λ v. view v.now) rules.entry))) }
{
    if rules.is_some() {
        return Ok(());
    }
    found.add_fault(FindingPlace::Locale(place), Cause::NoCardinalRules)
}
