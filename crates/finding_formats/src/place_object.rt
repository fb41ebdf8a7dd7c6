//! Places as JSON objects.

ghost use Rattle.std.specs.Prelude.{◌≡◌, IfOk, OnOk};
ghost use Rattle.finding_formats.specs.FindingObjects.{place_data, place_kind, with_argument, with_locale_place, with_message, with_pattern};
ghost use Rattle.finding_formats.specs.FindingObjects.{with_place, with_selector, with_text_under};
ghost use Rattle.message_pattern.specs.PatternParts.{selector_view};
ghost use Rattle.message_report.specs.MessagePlaces.{argument_place_view, file_locale_place_view, message_place_view};
ghost use Rattle.message_report.specs.MessagePlaces.{pattern_place_view, place_view, type_name};
ghost use Rattle.serde_json.specs.View.{members_view, view};

use crate::members::{put_bytes, put_text};
use icu_plurals::PluralRuleType;
use message_pattern::Selector;
use message_report::{ArgumentPlace, LocalePlace, MessagePlace, PatternPlace, Place};
use serde_json::{Map, Value};
use std::alloc::{AllocError, Global};

// The object of a place.
pub(crate) fn place_value(alloc: Global, place: Place<'_>) -> Result<Value, AllocError>
    ensures { IfOk result (λ value. view value ≡ place_data (place_view place.entry)) }
{
    let mut members = Map::new(alloc);
    put_place(alloc, &mut members, place)?;
    put_text(alloc, &mut members, "kind", kind(place))?;
    Ok(Value::Object(members))
}

// The word of what is at a place.
fn kind(place: Place<'_>) -> &'static str
    ensures { result.now ≡ place_kind (place_view place.entry) }
{
    match place {
        Place::Document(_) => "document",
        Place::Locale(_) => "locale",
        Place::Key(..) => "key",
        Place::Sources(_) => "sources",
        Place::Source(..) => "source",
        Place::Messages(..) => "messages",
        Place::Message(_) => "message",
        Place::Form(..) => "form",
        Place::OtherKey(..) => "other-key",
        Place::Patterns(_) => "patterns",
        Place::Pattern(_) => "pattern",
        Place::Argument(_) => "argument",
        Place::Branch(..) => "branch",
    }
}

// Puts what a place has, but for its file.
fn put_place(
    alloc: Global,
    members: &mut Map<String, Value>,
    place: Place<'_>,
) -> Result<(), AllocError>
    ensures { OnOk result (members_view members.new.entries ≡ with_place (place_view place.entry) (members_view members.old.entries)) }
{
    match place {
        Place::Document(_) => Ok(()),
        Place::Locale(locale) => put_locale(alloc, members, locale),
        Place::Key(locale, key) => put_named(alloc, members, locale, "key", key),
        Place::Sources(locale) => put_locale(alloc, members, locale),
        Place::Source(locale, key) => put_named(alloc, members, locale, "message", key),
        Place::Messages(locale, rule_type) => {
            put_named(alloc, members, locale, "type", type_name(rule_type))
        }
        Place::Message(message) => put_message(alloc, members, message),
        Place::Form(message, form) => put_part(alloc, members, message, "form", form.as_str()),
        Place::OtherKey(message, key) => put_part(alloc, members, message, "key", key),
        Place::Patterns(locale) => put_locale(alloc, members, locale),
        Place::Pattern(pattern) => put_pattern(alloc, members, pattern),
        Place::Argument(argument) => put_argument(alloc, members, argument),
        Place::Branch(argument, selector) => put_branch(alloc, members, argument, selector),
    }
}

// Puts a locale.
fn put_locale(
    alloc: Global,
    members: &mut Map<String, Value>,
    locale: LocalePlace<'_>,
) -> Result<(), AllocError>
    ensures { OnOk result (members_view members.new.entries ≡ with_locale_place (file_locale_place_view locale.entry) (members_view members.old.entries)) }
{
    put_text(alloc, members, "locale", locale.locale)
}

// Puts what has a name in a locale.
fn put_named(
    alloc: Global,
    members: &mut Map<String, Value>,
    locale: LocalePlace<'_>,
    key: &str,
    name: &str,
) -> Result<(), AllocError>
    ensures { OnOk result (members_view members.new.entries
        ≡ with_text_under key.now name.now (with_locale_place (file_locale_place_view locale.entry) (members_view members.old.entries))) }
{
    put_locale(alloc, members, locale)?;
    put_text(alloc, members, key, name)
}

// Puts a message.
fn put_message(
    alloc: Global,
    members: &mut Map<String, Value>,
    message: MessagePlace<'_>,
) -> Result<(), AllocError>
    ensures { OnOk result (members_view members.new.entries ≡ with_message (message_place_view message.entry) (members_view members.old.entries)) }
{
    put_named(
        alloc,
        members,
        message.locale,
        "type",
        type_name(message.rule_type),
    )?;
    put_text(alloc, members, "message", message.key)
}

// Puts what has a name in a message.
fn put_part(
    alloc: Global,
    members: &mut Map<String, Value>,
    message: MessagePlace<'_>,
    key: &str,
    name: &str,
) -> Result<(), AllocError>
    ensures { OnOk result (members_view members.new.entries
        ≡ with_text_under key.now name.now (with_message (message_place_view message.entry) (members_view members.old.entries))) }
{
    put_message(alloc, members, message)?;
    put_text(alloc, members, key, name)
}

// Puts a pattern.
fn put_pattern(
    alloc: Global,
    members: &mut Map<String, Value>,
    pattern: PatternPlace<'_>,
) -> Result<(), AllocError>
    ensures { OnOk result (members_view members.new.entries ≡ with_pattern (pattern_place_view pattern.entry) (members_view members.old.entries)) }
{
    put_named(alloc, members, pattern.locale, "pattern", pattern.key)
}

// Puts an argument of a pattern.
fn put_argument(
    alloc: Global,
    members: &mut Map<String, Value>,
    argument: ArgumentPlace<'_>,
) -> Result<(), AllocError>
    ensures { OnOk result (members_view members.new.entries ≡ with_argument (argument_place_view argument.entry) (members_view members.old.entries)) }
{
    put_pattern(alloc, members, argument.pattern)?;
    put_bytes(alloc, members, "argument", argument.name)
}

// Puts a branch of an argument.
fn put_branch(
    alloc: Global,
    members: &mut Map<String, Value>,
    argument: ArgumentPlace<'_>,
    selector: Selector<'_>,
) -> Result<(), AllocError>
    ensures { OnOk result (members_view members.new.entries
        ≡ with_selector (selector_view selector.entry) (with_argument (argument_place_view argument.entry) (members_view members.old.entries))) }
{
    put_argument(alloc, members, argument)?;
    match selector {
        Selector::Exactly(number) => put_bytes(alloc, members, "exactly", number),
        Selector::Keyword(word) => put_bytes(alloc, members, "keyword", word),
    }
}

// The key of a type in a locale.
pub(crate) fn type_name(rule_type: PluralRuleType) -> &'static str
    ensures { result.now ≡ type_name rule_type }
{
    match rule_type {
        PluralRuleType::Cardinal => "cardinal",
        PluralRuleType::Ordinal => "ordinal",
    }
}
