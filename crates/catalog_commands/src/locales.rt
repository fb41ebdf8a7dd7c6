//! The messages of a locale in a document, and its patterns.

ghost use Rattle.std.specs.Prelude.{◌≡◌, option_map};
ghost use Rattle.std.specs.Option.{option_copied};
ghost use Rattle.std.specs.Result.{result_map_both};
ghost use Rattle.catalog_commands.specs.LocaleMessages.{has_members, has_messages, member_named, locale_messages_in, only_member, patterns_in};
ghost use Rattle.catalog_commands.specs.Inner.KeyedViews.{locale_view, json_value_view};
ghost use Rattle.serde_json.specs.Find.{as_object};
ghost use Rattle.serde_json.specs.View.{members_view, view};

use serde_json::{Map, Value};

/// The messages of a locale in a document.
#[derive(Clone, Copy, Debug)]
pub struct LocaleMessages<'a> {
    /// The key of the locale.
    pub locale: &'a str,
    /// What stands under it.
    pub messages: &'a Value,
}

/// Why a document has no patterns that are packed.
#[derive(Clone, Copy, Debug)]
pub enum MessagesFault {
    /// It isn't an object, or has no locale.
    NoLocale,
    /// It has several locales, and none is named.
    SeveralLocales,
    /// It hasn't the locale that is named.
    AbsentLocale,
    /// The locale has messages of cardinal numbers, given as forms.
    CardinalForms,
    /// The locale has messages of ordinal numbers, given as forms.
    OrdinalForms,
    /// The locale has no patterns.
    NoPatterns,
}

/// Returns the messages that a document has for a locale, or if none is named, those of its only
/// one. It allocates nothing.
pub fn messages_in<'a>(
    document: &'a Value,
    named: Option<&'a str>,
) -> Result<LocaleMessages<'a>, MessagesFault>
    ensures { result_map_both locale_view (λ f. f) result ≡ locale_messages_in (option_copied named.entry) (view document.now) }
{
    let Some(locales) = document.as_object() else {
        return Err(MessagesFault::NoLocale);
    };
    match named {
        Some(locale) => match document.get(locale) {
            Some(messages) => Ok(LocaleMessages { locale, messages }),
            None => Err(MessagesFault::AbsentLocale),
        },
        None => only_member(locales),
    }
}

/// Returns the patterns among the messages of a locale, if it has no others: those that are given as
/// forms aren't packed. It allocates nothing.
pub fn patterns_in(messages: &Value) -> Result<&Value, MessagesFault>
    ensures { result_map_both json_value_view (λ f. f) result ≡ patterns_in (view messages.now) }
{
    if has_messages(messages.get("cardinal")) {
        return Err(MessagesFault::CardinalForms);
    }
    if has_messages(messages.get("ordinal")) {
        return Err(MessagesFault::OrdinalForms);
    }
    match messages.get("patterns") {
        Some(patterns) => Ok(patterns),
        None => Err(MessagesFault::NoPatterns),
    }
}

// The only member.
fn only_member(locales: &Map<String, Value>) -> Result<LocaleMessages<'_>, MessagesFault>
    ensures { result_map_both locale_view (λ f. f) result ≡ only_member (members_view locales.now.entries) }
{
    let mut left = locales.iter();
    let Some((locale, messages)) = left.next() else {
        return Err(MessagesFault::NoLocale);
    };
    match left.next() {
        Some(_) => Err(MessagesFault::SeveralLocales),
        None => Ok(LocaleMessages {
            locale: locale.as_str(),
            messages,
        }),
    }
}

// Whether a part is there, and isn't an object without members.
fn has_messages(part: Option<&Value>) -> bool
    ensures { result ≡ has_messages (option_map json_value_view part.entry) }
{
    match part {
        Some(part) => has_members(part),
        None => false,
    }
}

// Whether a part is something else than an object without members.
fn has_members(part: &Value) -> bool
    ensures { result ≡ has_members (as_object (view part.now)) }
{
    match part.as_object() {
        Some(members) => !members.is_empty(),
        None => true,
    }
}
