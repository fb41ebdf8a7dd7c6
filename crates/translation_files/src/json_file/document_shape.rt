//! Which JSON values are documents of messages, and no files of texts.

ghost use Rattle.std.specs.Prelude.{◌≡◌, ◌<◌, not, ◌||◌, IfSome, length, position};
ghost use Rattle.std.specs.Char.{is_ascii_alphabetic};
ghost use Rattle.std.specs.List.{before_first, list_all};
ghost use Rattle.serde_json.specs.View.{members_view, view};
ghost use Rattle.translation_files.specs.MessageDocuments.{are_locales, are_messages, are_parts, has_forms, has_part, has_parts, has_text, have_forms};
ghost use Rattle.translation_files.specs.MessageDocuments.{is_between_subtags, is_category_name, is_document, has_no_member, is_form, is_language, is_language_length};
ghost use Rattle.translation_files.specs.MessageDocuments.{is_name_of_part, is_name_of_type, is_named_key, is_named_as_locale, is_object_of};
ghost use Rattle.translation_files.specs.MessageDocuments.{is_other_member, is_message_part, says_file, some_member};

use icu_plurals::PluralCategory;
use serde_json::{Map, Value};

/// Returns whether a JSON value is a document of messages, as [`message_report::found_in_files`]
/// takes it: no file of texts. It is if it isn't an object, or is empty, or a member is an object
/// that has a part `cardinal` or `ordinal`, and is named as a locale or has messages there. Without
/// such a part it is if a member that is named as a locale has no members but parts, misspelt ones
/// too, and none of the document's is a text.
pub fn is_document(value: &Value) -> bool
    ensures { result ≡ is_document (view value.now) }
{
    match value.as_object() {
        Some(members) => !says_file(value) && are_locales(members),
        None => true,
    }
}

// Whether a file says its locale, as ARB does, or a tool the file.
fn says_file(value: &Value) -> bool
    ensures { result ≡ says_file (view value.now) }
{
    value.get("@@locale").is_some() || value.get("@@file").is_some()
}

// Whether a locale has messages, or one has parts alone and no member is a text.
fn are_locales(members: &Map<String, Value>) -> bool
    ensures { result ≡ are_locales (members_view members.now.entries) }
{
    have_part(members) || (is_empty(members) || have_parts(members)) && !has_text(members)
}

// Whether one of the locales has messages.
fn have_part(locales: &Map<String, Value>) -> bool
    ensures { result ≡ some_member has_part (members_view locales.now.entries) }
{
    for (key, locale) in locales.iter() {
        if has_part(key.as_str(), locale) {
            return true;
        }
    }
    false
}

// Whether one of the locales has parts alone.
fn have_parts(locales: &Map<String, Value>) -> bool
    ensures { result ≡ some_member has_parts (members_view locales.now.entries) }
{
    for (key, locale) in locales.iter() {
        if has_parts(key.as_str(), locale) {
            return true;
        }
    }
    false
}

// Whether a key is that of a locale, or of a part whose locale is forgotten.
fn is_named(key: &str) -> bool
    ensures { result ≡ is_named_key key.now }
{
    is_named_as_locale(key) || is_name_of_part(key)
}

// Whether a key is written as a locale: `root`, or a language of two or three letters, alone or before
// further subtags.
fn is_named_as_locale(key: &str) -> bool
    ensures { result ≡ is_named_as_locale key.now }
{
    key == "root" || is_language(before_subtags(key.as_bytes()))
}

// What stands before the first `-` or `_`.
fn before_subtags(key: &[u8]) -> &[u8]
    ensures { result.now ≡ before_first is_between_subtags key.now }
{
    match place_of_subtags(key) {
        Some(place) => &key[..place],
        None => key,
    }
}

// Where the first `-` or `_` stands.
fn place_of_subtags(key: &[u8]) -> Option<usize>
    ensures place { result ≡ position is_between_subtags key.now }
    ensures within { IfSome result (λ place. place < length key.now) }
{
    key.iter().position(|byte| is_between_subtags(*byte))
}

fn is_between_subtags(byte: u8) -> bool
    ensures { result ≡ is_between_subtags byte }
{
    byte == b'-' || byte == b'_'
}

// Whether a name has two or three letters alone.
fn is_language(name: &[u8]) -> bool
    ensures { result ≡ is_language name.now }
{
    is_language_length(name.len()) && are_letters(name)
}

fn is_language_length(count: usize) -> bool
    ensures { result ≡ is_language_length count }
{
    count == 2 || count == 3
}

fn are_letters(name: &[u8]) -> bool
    ensures { result ≡ list_all is_ascii_alphabetic name.now }
{
    name.iter().all(|byte| byte.is_ascii_alphabetic())
}

// Whether one of a locale's members is a part that has members; where the key isn't that of a locale,
// no texts.
fn has_part(key: &str, locale: &Value) -> bool
    ensures { result ≡ has_part key.now (view locale.now) }
{
    match locale.as_object() {
        Some(parts) => some_part(is_named(key), parts),
        None => false,
    }
}

// The same of the members of a locale.
fn some_part(named: bool, parts: &Map<String, Value>) -> bool
    ensures { result ≡ some_member (is_message_part named) (members_view parts.now.entries) }
{
    for (key, part) in parts.iter() {
        if is_part(named, key.as_str(), part) {
            return true;
        }
    }
    false
}

// Whether a member of a locale has messages of a type.
fn is_part(named: bool, key: &str, part: &Value) -> bool
    ensures { result ≡ is_message_part named key.now (view part.now) }
{
    is_name_of_type(key) && has_messages(named, part)
}

// Whether a part is an object; where the key of its locale isn't that of one, without texts.
fn has_messages(named: bool, part: &Value) -> bool
    ensures { result ≡ is_object_of (λ messages. named || not (has_text messages)) (view part.now) }
{
    match part.as_object() {
        Some(messages) => named || !has_text(messages),
        None => false,
    }
}

// Whether one of the members is a text.
fn has_text(members: &Map<String, Value>) -> bool
    ensures { result ≡ has_text (members_view members.now.entries) }
{
    for (_, member) in members.iter() {
        if member.is_string() {
            return true;
        }
    }
    false
}

// Whether a locale has members, and each may be a part of a document.
fn has_parts(key: &str, locale: &Value) -> bool
    ensures { result ≡ has_parts key.now (view locale.now) }
{
    is_named(key) && has_parts_alone(locale)
}

// The same whatever the key of the locale is.
fn has_parts_alone(locale: &Value) -> bool
    ensures { result ≡ is_object_of are_parts (view locale.now) }
{
    match locale.as_object() {
        Some(parts) => !is_empty(parts) && !have_other(parts),
        None => false,
    }
}

// Whether one of a locale's members is no part of a document.
fn have_other(parts: &Map<String, Value>) -> bool
    ensures { result ≡ some_member is_other_member (members_view parts.now.entries) }
{
    for (key, part) in parts.iter() {
        if is_other(key.as_str(), part) {
            return true;
        }
    }
    false
}

// Whether a member of a locale is no part of a document.
fn is_other(key: &str, part: &Value) -> bool
    ensures { result ≡ is_other_member key.now (view part.now) }
{
    part.is_string() || !is_name_of_part(key) && !are_messages(part)
}

// Whether a key is the name of a part.
fn is_name_of_part(key: &str) -> bool
    ensures { result ≡ is_name_of_part key.now }
{
    is_name_of_type(key) || key == "source" || key == "patterns"
}

// Whether a key is the name of a type.
fn is_name_of_type(key: &str) -> bool
    ensures { result ≡ is_name_of_type key.now }
{
    key == "cardinal" || key == "ordinal"
}

// Whether there are no messages, or one has forms by category.
fn are_messages(part: &Value) -> bool
    ensures { result ≡ is_object_of are_messages (view part.now) }
{
    match part.as_object() {
        Some(messages) => is_empty(messages) || have_forms(messages),
        None => false,
    }
}

// Whether one of the messages has forms.
fn have_forms(messages: &Map<String, Value>) -> bool
    ensures { result ≡ have_forms (members_view messages.now.entries) }
{
    for (_, message) in messages.iter() {
        if has_forms(message) {
            return true;
        }
    }
    false
}

// Whether a message has the text of a category.
fn has_forms(message: &Value) -> bool
    ensures { result ≡ has_forms (view message.now) }
{
    match message.as_object() {
        Some(forms) => have_category(forms),
        None => false,
    }
}

// Whether one of the forms is the text of a category.
fn have_category(forms: &Map<String, Value>) -> bool
    ensures { result ≡ some_member is_form (members_view forms.now.entries) }
{
    for (name, form) in forms.iter() {
        if form.is_string() && is_category_name(name.as_str()) {
            return true;
        }
    }
    false
}

// Whether a name is that of a category.
fn is_category_name(name: &str) -> bool
    ensures { result ≡ is_category_name name.now }
{
    PluralCategory::get_for_cldr_string(name).is_some()
}

// Whether there are no members.
fn is_empty(members: &Map<String, Value>) -> bool
    ensures { result ≡ has_no_member (members_view members.now.entries) }
{
    members.is_empty()
}
