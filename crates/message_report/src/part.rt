//! What is found in the messages of a type.

ghost use Rattle.std.specs.Prelude.{◌≡◌, OnOk};
ghost use Rattle.message_report.specs.FoundInMessages.{messages_together, HasGrownInMessages};
ghost use Rattle.message_report.specs.Inner.FormSteps.{language_lent, value_lent};
ghost use Rattle.message_report.specs.Inner.NeededRules.{IsFoundInMessagesBy, IsFoundInObjectBy, IsFoundInPartBy};
ghost use Rattle.message_report.specs.MessagePlaces.{file_locale_place_view, type_name};
ghost use Rattle.message_report.specs.MessagesReport.{found_of_language, IsFoundUnder};
ghost use Rattle.message_report.specs.SourceArguments.{source_name};
ghost use Rattle.serde_json.specs.Find.{as_object, get};
ghost use Rattle.serde_json.specs.View.{members_view, view};

use crate::cause::Cause;
use crate::found::Found;
use crate::language::Language;
use crate::message::MessageCheck;
use crate::place::{LocalePlace, Place, type_name};
use icu_plurals::PluralRuleType;
use plural_documents::add_members;
use serde_json::{Map, Value};
use std::alloc::{AllocError, Global};

// Adds what is found in the messages of a type, given a locale's value and its language, if there
// is one.
pub(crate) fn add_part<'a>(
    alloc: Global,
    language: Option<&Language>,
    rule_type: PluralRuleType,
    locale: LocalePlace<'a>,
    value: &'a Value,
    found: &mut Found<'a>,
) -> Result<(), AllocError>
    ensures { OnOk result (HasGrownInMessages
        (IsFoundInPartBy (language_lent language.entry) (get source_name (view value.now)) rule_type (file_locale_place_view locale.entry)
        (get (type_name rule_type) (view value.now))) found.old found.new) }
{
    match value.get(type_name(rule_type)) {
        Some(part) => add_object(
            alloc,
            language,
            value.get("source"),
            rule_type,
            locale,
            part,
            found,
        ),
        None => Ok(()),
    }
}

// Adds what is found in the messages of a type, which should be an object, given what their sources
// have.
fn add_object<'a>(
    alloc: Global,
    language: Option<&Language>,
    arguments: Option<&Value>,
    rule_type: PluralRuleType,
    locale: LocalePlace<'a>,
    part: &'a Value,
    found: &mut Found<'a>,
) -> Result<(), AllocError>
    ensures { OnOk result (HasGrownInMessages
        (IsFoundInObjectBy (language_lent language.entry) (value_lent arguments.entry) rule_type (file_locale_place_view locale.entry)
        (as_object (view part.now))) found.old found.new) }
{
    match part.as_object() {
        Some(members) => add_messages(
            alloc, language, arguments, rule_type, locale, members, found,
        ),
        None => found.add_fault(Place::Messages(locale, rule_type), Cause::NoObject),
    }
}

// Adds what is found in the messages of a type. Without messages no rules are needed.
fn add_messages<'a>(
    alloc: Global,
    language: Option<&Language>,
    arguments: Option<&Value>,
    rule_type: PluralRuleType,
    locale: LocalePlace<'a>,
    members: &'a Map<String, Value>,
    found: &mut Found<'a>,
) -> Result<(), AllocError>
    ensures { OnOk result (HasGrownInMessages
        (IsFoundInMessagesBy (language_lent language.entry) (value_lent arguments.entry) rule_type (file_locale_place_view locale.entry)
        (members_view members.now.entries)) found.old found.new) }
{
    if members.is_empty() {
        return Ok(());
    }
    add_under(
        alloc, language, arguments, rule_type, locale, members, found,
    )
}

// Adds what is found in messages of a language, if it is known.
fn add_under<'a>(
    alloc: Global,
    language: Option<&Language>,
    arguments: Option<&Value>,
    rule_type: PluralRuleType,
    locale: LocalePlace<'a>,
    members: &'a Map<String, Value>,
    found: &mut Found<'a>,
) -> Result<(), AllocError>
    ensures { OnOk result (HasGrownInMessages
        (IsFoundUnder (language_lent language.entry) (value_lent arguments.entry) rule_type (file_locale_place_view locale.entry)
        (members_view members.now.entries)) found.old found.new) }
{
    add_no_rules(language, rule_type, locale, found)?;
    let check = MessageCheck {
        language,
        arguments,
        rule_type,
        locale,
    };
    add_members(alloc, &check, members, found)
}

// Adds a fault if there is no language, since there are no rules.
fn add_no_rules<'a>(
    language: Option<&Language>,
    rule_type: PluralRuleType,
    locale: LocalePlace<'a>,
    found: &mut Found<'a>,
) -> Result<(), AllocError>
    ensures { OnOk result (found.new
        ≡ messages_together found.old (found_of_language rule_type (file_locale_place_view locale.entry) (language_lent language.entry))) }
{
    if language.is_some() {
        return Ok(());
    }
    found.add_fault(Place::Locale(locale), Cause::NoRules(rule_type))
}
