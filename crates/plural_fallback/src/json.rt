//! The keys and the parents of a JSON document.

ghost use Rattle.std.specs.Prelude.{◌≡◌, bytes_eq};
ghost use Rattle.std.specs.List.{find};
ghost use Rattle.std.specs.Option.{option_copied};
ghost use Rattle.plural_fallback.specs.LocaleNames.{is_same, key_of};
ghost use Rattle.plural_fallback.specs.LocalesJson.{keys_of};
ghost use Rattle.serde_json.specs.View.{members_view};

use crate::locale::is_same;
use crate::locales::{Locales, Part};
use serde_json::{Map, Value};
use std::str;

/// The most bytes of a locale that a JSON document looks up. Of a longer one the length tells it
/// apart from most keys, and a look-up would read all of it.
pub const MOST_LOOKED_UP: usize = 64;

/// A document of rules and ranges: the keys of each part, and as parents the texts of its part
/// `parents`.
impl Locales for Value {
    ghost use Rattle.plural_fallback.specs.LocalesJson.{keys_under, parent_in, part_name};
    ghost use Rattle.serde_json.specs.View.{view};

    ghost keys = { λ value part. keys_under (part_name part) (view value) };

    ghost parent = { λ value locale. parent_in (view value) locale };

    fn find_key(&self, part: Part, locale: &[u8]) -> Option<&str> {
        key_in(self.get(part.as_str())?.as_object()?, locale)
    }

    fn find_parent(&self, locale: &[u8]) -> Option<&str> {
        let parents = self.get("parents")?;
        let key = key_in(parents.as_object()?, locale)?;
        parents.get(key)?.as_str()
    }
}

// The key of a locale among members.
fn key_in<'a>(members: &'a Map<String, Value>, locale: &[u8]) -> Option<&'a str>
    ensures { option_copied result ≡ key_of (keys_of (members_view members.now.entries)) locale.now }
{
    match exact_key(members, locale) {
        Some(key) => Some(key),
        None => same_key(members, locale),
    }
}

// The key that is the locale itself.
fn exact_key<'a>(members: &'a Map<String, Value>, locale: &[u8]) -> Option<&'a str>
    ensures { option_copied result ≡ find (bytes_eq locale.now) (keys_of (members_view members.now.entries)) }
{
    if locale.len() > MOST_LOOKED_UP {
        walked_key(members, locale)
    } else {
        looked_up_key(members, locale)
    }
}

// The same by a look at each key.
fn walked_key<'a>(members: &'a Map<String, Value>, locale: &[u8]) -> Option<&'a str>
    ensures { option_copied result ≡ find (bytes_eq locale.now) (keys_of (members_view members.now.entries)) }
{
    for (key, _) in members.iter() {
        if locale == key.as_str().as_bytes() {
            return Some(key.as_str());
        }
    }
    None
}

// The same by a look-up. Each key is a text, so a locale that is none has no such key.
fn looked_up_key<'a>(members: &'a Map<String, Value>, locale: &[u8]) -> Option<&'a str>
    ensures { option_copied result ≡ find (bytes_eq locale.now) (keys_of (members_view members.now.entries)) }
{
    let Ok(name) = str::from_utf8(locale) else {
        return None;
    };
    match members.get_key_value(name) {
        Some((key, _)) => Some(key.as_str()),
        None => None,
    }
}

// The first key that is the same locale.
fn same_key<'a>(members: &'a Map<String, Value>, locale: &[u8]) -> Option<&'a str>
    ensures { option_copied result ≡ find (is_same locale.now) (keys_of (members_view members.now.entries)) }
{
    for (key, _) in members.iter() {
        if is_same(locale, key.as_str().as_bytes()) {
            return Some(key.as_str());
        }
    }
    None
}
