//! What is found in a document of messages.

ghost use Rattle.std.specs.Prelude.{◌≡◌, OnOk, Some};
ghost use Rattle.message_report.specs.FoundInMessages.{messages_together, HasGrownInMessages, IsFoundInMessageMembers};
ghost use Rattle.message_report.specs.Inner.ArgumentViews.{languages_view};
ghost use Rattle.message_report.specs.Inner.NeededRules.{IsFoundInBothBy};
ghost use Rattle.message_report.specs.MessagePlaces.{file_locale_place_view};
ghost use Rattle.message_report.specs.MessagesReport.{found_of_part_key, is_locale_part};
ghost use Rattle.message_report.specs.MessagesReport.{IsFoundInAll, IsFoundInMessagesDocument, IsFoundInLocale, IsFoundInLocaleKey, IsFoundInParts};
ghost use Rattle.serde_json.specs.View.{members_view, view};

use crate::cause::Cause;
use crate::found::Found;
use crate::languages::Languages;
use crate::part::add_part;
use crate::patterns::add_patterns;
use crate::place::{LocalePlace, Place};
use crate::source::RulesOfLocales;
use crate::source_part::add_source_part;
use icu_plurals::PluralRuleType;
use plural_documents::{MemberCheck, add_members};
use serde_json::{Map, Value};
use std::alloc::{AllocError, Global};

// Adds what is found in the document of a file, which should be an object.
pub(crate) fn add_document<'a, S: RulesOfLocales>(
    alloc: Global,
    source: &S,
    file: &'a str,
    document: &'a Value,
    found: &mut Found<'a>,
) -> Result<(), AllocError>
    ensures { OnOk result (HasGrownInMessages (IsFoundInMessagesDocument (S.source source.now) file.now (view document.now)) found.old found.new) }
{
    match document.as_object() {
        Some(locales) => add_members(alloc, &LocaleCheck { source, file }, locales, found),
        None => found.add_fault(Place::Document(file), Cause::NoObject),
    }
}

// Checks the messages of a locale of a file.
#[derive(Clone, Copy)]
struct LocaleCheck<'s, 'a, S> {
    source: &'s S,
    file: &'a str,
}

impl<'s, 'a, S: RulesOfLocales> MemberCheck<'a, Found<'a>> for LocaleCheck<'s, 'a, S> {
    ghost finds = { λ check. IsFoundInLocale (S.source check.source.now) check.file.now };

    fn add(
        &self,
        alloc: Global,
        locale: &'a str,
        value: &'a Value,
        found: &mut Found<'a>,
    ) -> Result<(), AllocError> {
        let place = LocalePlace {
            file: self.file,
            locale,
        };
        match value.as_object() {
            Some(members) => add_locale(alloc, self.source, place, value, members, found),
            None => found.add_fault(Place::Locale(place), Cause::NoObject),
        }
    }
}

// Adds what is found in a locale with these members.
fn add_locale<'a, S: RulesOfLocales>(
    alloc: Global,
    source: &S,
    locale: LocalePlace<'a>,
    value: &'a Value,
    members: &'a Map<String, Value>,
    found: &mut Found<'a>,
) -> Result<(), AllocError>
    ensures { OnOk result (HasGrownInMessages (IsFoundInParts (S.source source.now) (file_locale_place_view locale.entry) (view value.now)
        (Some (members_view members.now.entries))) found.old found.new) }
{
    add_part_keys(alloc, locale, members, found)?;
    add_source_part(alloc, locale, value.get("source"), found)?;
    add_all(alloc, source, locale, value, found)
}

// Adds what is found in all parts of a locale.
fn add_all<'a, S: RulesOfLocales>(
    alloc: Global,
    source: &S,
    locale: LocalePlace<'a>,
    value: &'a Value,
    found: &mut Found<'a>,
) -> Result<(), AllocError>
    ensures { OnOk result (HasGrownInMessages (IsFoundInAll (S.source source.now) (file_locale_place_view locale.entry) (view value.now)) found.old found.new) }
{
    let languages = Languages::needed(alloc, source, locale.locale, value);
    add_parts(alloc, &languages, locale, value, found)?;
    add_patterns(alloc, &languages, locale, value, found)
}

// Adds what is found in the messages of both types.
fn add_parts<'a>(
    alloc: Global,
    languages: &Languages,
    locale: LocalePlace<'a>,
    value: &'a Value,
    found: &mut Found<'a>,
) -> Result<(), AllocError>
    ensures { OnOk result (HasGrownInMessages
        (IsFoundInBothBy (languages_view languages.now) (file_locale_place_view locale.entry) (view value.now)) found.old found.new) }
{
    let (cardinal, ordinal) = (PluralRuleType::Cardinal, PluralRuleType::Ordinal);
    add_part(
        alloc,
        languages.of(cardinal),
        cardinal,
        locale,
        value,
        found,
    )?;
    add_part(alloc, languages.of(ordinal), ordinal, locale, value, found)
}

// Adds what is found in the keys of a locale.
fn add_part_keys<'a>(
    alloc: Global,
    locale: LocalePlace<'a>,
    members: &'a Map<String, Value>,
    found: &mut Found<'a>,
) -> Result<(), AllocError>
    ensures { OnOk result (HasGrownInMessages
        (IsFoundInMessageMembers (IsFoundInLocaleKey (file_locale_place_view locale.entry)) (members_view members.now.entries)) found.old found.new) }
{
    add_members(alloc, &PartKeyCheck { locale }, members, found)
}

// Checks the keys of a locale.
#[derive(Clone, Copy)]
struct PartKeyCheck<'a> {
    locale: LocalePlace<'a>,
}

impl<'a> MemberCheck<'a, Found<'a>> for PartKeyCheck<'a> {
    ghost finds = { λ check. IsFoundInLocaleKey (file_locale_place_view check.locale) };

    fn add(
        &self,
        _alloc: Global,
        key: &'a str,
        _value: &'a Value,
        found: &mut Found<'a>,
    ) -> Result<(), AllocError> {
        add_part_key(self.locale, key, found)
    }
}

// Adds a fault if a key of a locale is no part.
fn add_part_key<'a>(
    locale: LocalePlace<'a>,
    key: &'a str,
    found: &mut Found<'a>,
) -> Result<(), AllocError>
    ensures { OnOk result (found.new ≡ messages_together found.old (found_of_part_key (file_locale_place_view locale.entry) key.now)) }
{
    if is_part_name(key) {
        return Ok(());
    }
    found.add_fault(Place::Key(locale, key), Cause::NotAPart)
}

// Whether a key names a part.
fn is_part_name(key: &str) -> bool
    ensures { result ≡ is_locale_part key.now }
{
    key == "cardinal" || key == "ordinal" || key == "patterns" || key == "source"
}
