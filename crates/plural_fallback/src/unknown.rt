//! Languages that are unknown.

ghost use Rattle.std.specs.Prelude.{◌≡◌, MatchBool};
ghost use Rattle.plural_fallback.specs.Chain.{next_of};
ghost use Rattle.plural_fallback.specs.UnknownLanguages.{HasNoOwnKey, HasOwnKey, IsKnownLanguage, IsUnknownLanguage, is_root_or_und, is_unknown};

use crate::first_key::find_first;
use crate::locale::{is_same, language};
use crate::locales::{Locales, Part};

/// Returns whether the language of a locale is unknown, where `key` is the first key of its chain:
/// the key is `root`, and the language is neither `root` nor `und`, in any ASCII case. It allocates
/// nothing.
pub fn is_unknown(locale: &str, key: &str) -> bool
    ensures { result ≡ is_unknown locale.now key.now }
{
    is_same(key.as_bytes(), b"root") && !is_root_or_und(language(locale.as_bytes()))
}

// Whether a subtag is `root` or `und`.
fn is_root_or_und(subtag: &[u8]) -> bool
    ensures { result ≡ is_root_or_und subtag.now }
{
    is_same(subtag, b"root") || is_same(subtag, b"und")
}

/// Returns whether the language of a locale is known: the first key of its chain is another one
/// than `root` for cardinal numbers or for ordinal ones, or `root` or `und` was asked for and
/// `root` is found. It allocates nothing.
pub fn is_known<L: Locales>(locales: &L, locale: &str) -> bool
    ensures { MatchBool result
        (IsKnownLanguage (L.keys locales.now Part.Cardinal) (L.keys locales.now Part.Ordinal) (next_of (L.parent locales.now)) locale.now)
        (IsUnknownLanguage (L.keys locales.now Part.Cardinal) (L.keys locales.now Part.Ordinal) (next_of (L.parent locales.now)) locale.now) }
{
    has_own_key(locales, Part::Cardinal, locale) || has_own_key(locales, Part::Ordinal, locale)
}

// Whether the first key in a part is one of the locale's language.
fn has_own_key<L: Locales>(locales: &L, part: Part, locale: &str) -> bool
    ensures { MatchBool result (HasOwnKey (L.keys locales.now part) (next_of (L.parent locales.now)) locale.now)
        (HasNoOwnKey (L.keys locales.now part) (next_of (L.parent locales.now)) locale.now) }
{
    match find_first(locales, part, locale) {
        Ok(key) => !is_unknown(locale, key),
        Err(_) => false,
    }
}
