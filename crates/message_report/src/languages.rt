//! The languages of a locale's rules of both types.

ghost use Rattle.std.specs.Prelude.{◌≡◌, IsTrue, option_map};
ghost use Rattle.message_report.specs.Inner.ArgumentViews.{languages_view};
ghost use Rattle.message_report.specs.Inner.FormSteps.{language_lent, value_lent};
ghost use Rattle.message_report.specs.Inner.LanguageViews.{language_view};
ghost use Rattle.message_report.specs.Inner.NeededRules.{has_members_in, is_filled, is_object_in, needs_rules, AreNeeded};
ghost use Rattle.message_report.specs.MessagesReport.{HasLanguage};
ghost use Rattle.message_report.specs.PatternFaults.{language_of};
ghost use Rattle.serde_json.specs.Find.{as_object};
ghost use Rattle.serde_json.specs.View.{view};

use crate::language::Language;
use crate::place::type_name;
use crate::source::RulesOfLocales;
use icu_plurals::PluralRuleType;
use serde_json::Value;
use std::alloc::Global;

// The languages of a locale, by both types of rules.
#[derive(Drop)]
pub(crate) struct Languages {
    cardinal: Option<Language>,
    ordinal: Option<Language>,
}

impl Languages {
    // Those of a locale, given its value: those of which rules are needed.
    pub(crate) fn needed<S: RulesOfLocales>(
        alloc: Global,
        source: &S,
        locale: &str,
        value: &Value,
    ) -> Languages
        ensures { AreNeeded (S.source source.now) locale.now (view value.now) (languages_view result) }
    {
        Languages {
            cardinal: needed_language(alloc, source, PluralRuleType::Cardinal, locale, value),
            ordinal: needed_language(alloc, source, PluralRuleType::Ordinal, locale, value),
        }
    }

    // The language of a type.
    pub(crate) fn of(&self, rule_type: PluralRuleType) -> Option<&Language>
        ensures { language_lent result ≡ language_of (languages_view self.now) rule_type }
    {
        match rule_type {
            PluralRuleType::Cardinal => self.cardinal.as_ref(),
            PluralRuleType::Ordinal => self.ordinal.as_ref(),
        }
    }
}

// The language of a locale's rules, if there are any and they are needed.
fn needed_language<S: RulesOfLocales>(
    alloc: Global,
    source: &S,
    rule_type: PluralRuleType,
    locale: &str,
    value: &Value,
) -> Option<Language>
    ensures { IsTrue (needs_rules rule_type (view value.now))
        → HasLanguage (S.source source.now) rule_type locale.now (option_map language_view result) }
{
    if needs_rules(rule_type, value) {
        language_at(alloc, source, rule_type, locale)
    } else {
        None
    }
}

// Whether a locale needs rules of a type: patterns need both, and messages those of their type.
fn needs_rules(rule_type: PluralRuleType, value: &Value) -> bool
    ensures { result ≡ needs_rules rule_type (view value.now) }
{
    is_object(value.get("patterns")) || has_members(value.get(type_name(rule_type)))
}

// Whether a part is there, and an object.
fn is_object(part: Option<&Value>) -> bool
    ensures { result ≡ is_object_in (value_lent part.entry) }
{
    match part {
        Some(part) => part.as_object().is_some(),
        None => false,
    }
}

// Whether a part is there, and an object with members.
fn has_members(part: Option<&Value>) -> bool
    ensures { result ≡ has_members_in (value_lent part.entry) }
{
    match part {
        Some(part) => is_filled(part),
        None => false,
    }
}

// Whether a value is an object with members.
fn is_filled(value: &Value) -> bool
    ensures { result ≡ is_filled (as_object (view value.now)) }
{
    match value.as_object() {
        Some(members) => !members.is_empty(),
        None => false,
    }
}

// The language of a locale's rules, if there are any.
fn language_at<S: RulesOfLocales>(
    alloc: Global,
    source: &S,
    rule_type: PluralRuleType,
    locale: &str,
) -> Option<Language>
    ensures { HasLanguage (S.source source.now) rule_type locale.now (option_map language_view result) }
{
    match source.rules_of(rule_type, locale) {
        Some(rules) => {
            let language = Language::of(alloc, source, rule_type, locale, &rules);
            drop(rules);
            Some(language)
        }
        None => None,
    }
}
