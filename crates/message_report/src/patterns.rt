//! What is found in the patterns of a locale.

ghost use Rattle.std.specs.Prelude.{OnOk};
ghost use Rattle.message_report.specs.FoundInMessages.{HasGrownInMessages};
ghost use Rattle.message_report.specs.Inner.ArgumentViews.{languages_view};
ghost use Rattle.message_report.specs.Inner.NeededRules.{IsFoundInPatternsBy, IsFoundInPatternsObjectBy, IsFoundInPatternsPartBy};
ghost use Rattle.message_report.specs.MessagePlaces.{file_locale_place_view};
ghost use Rattle.message_report.specs.MessagesReport.{patterns_name};
ghost use Rattle.serde_json.specs.Find.{as_object, get};
ghost use Rattle.serde_json.specs.View.{members_view, view};

use crate::cause::Cause;
use crate::found::Found;
use crate::languages::Languages;
use crate::pattern::PatternCheck;
use crate::place::{LocalePlace, Place};
use plural_documents::add_members;
use serde_json::{Map, Value};
use std::alloc::{AllocError, Global};

// Adds what is found in the patterns of a locale, given its value.
pub(crate) fn add_patterns<'a>(
    alloc: Global,
    languages: &Languages,
    locale: LocalePlace<'a>,
    value: &'a Value,
    found: &mut Found<'a>,
) -> Result<(), AllocError>
    ensures { OnOk result (HasGrownInMessages (IsFoundInPatternsPartBy (languages_view languages.now) (file_locale_place_view locale.entry)
        (get patterns_name (view value.now))) found.old found.new) }
{
    match value.get("patterns") {
        Some(part) => add_object(alloc, languages, locale, part, found),
        None => Ok(()),
    }
}

// Adds what is found in the patterns of a locale, which should be an object.
fn add_object<'a>(
    alloc: Global,
    languages: &Languages,
    locale: LocalePlace<'a>,
    part: &'a Value,
    found: &mut Found<'a>,
) -> Result<(), AllocError>
    ensures { OnOk result (HasGrownInMessages (IsFoundInPatternsObjectBy (languages_view languages.now) (file_locale_place_view locale.entry)
        (as_object (view part.now))) found.old found.new) }
{
    match part.as_object() {
        Some(members) => add_each(alloc, languages, locale, members, found),
        None => found.add_fault(Place::Patterns(locale), Cause::NoObject),
    }
}

// Adds what is found in each pattern.
fn add_each<'a>(
    alloc: Global,
    languages: &Languages,
    locale: LocalePlace<'a>,
    members: &'a Map<String, Value>,
    found: &mut Found<'a>,
) -> Result<(), AllocError>
    ensures { OnOk result (HasGrownInMessages (IsFoundInPatternsBy (languages_view languages.now) (file_locale_place_view locale.entry)
        (members_view members.now.entries)) found.old found.new) }
{
    let check = PatternCheck { languages, locale };
    add_members(alloc, &check, members, found)
}
