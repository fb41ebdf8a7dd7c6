//! The chain of a locale.

ghost use Rattle.std.specs.Prelude.{◌≡◌};
ghost use Rattle.std.specs.Option.{option_copied};
ghost use Rattle.plural_fallback.specs.Chain.{after_language, after_longer, next_of};

use crate::locale::{before_last, is_same, language};
use crate::locales::Locales;

/// Returns the next locale of a chain: the locale's parent, if it is of the same language or the
/// locale is a language alone; else what stands before its last subtag; else `root`, where the
/// chain ends. It allocates nothing.
pub fn next_locale<'a, L: Locales>(locales: &'a L, locale: &'a [u8]) -> Option<&'a [u8]>
    ensures { option_copied result ≡ next_of (L.parent locales.now) locale.now }
{
    let parent = locales.find_parent(locale);
    match before_last(locale) {
        Some(front) => Some(after_longer(parent, locale, front)),
        None => after_language(parent, locale),
    }
}

// The locale after one of several subtags: the parent of the same language, else the front.
fn after_longer<'a>(parent: Option<&'a str>, locale: &[u8], front: &'a [u8]) -> &'a [u8]
    ensures { result.now ≡ after_longer (option_copied parent.entry) locale.now front.now }
{
    match parent {
        Some(parent) if is_same(language(parent.as_bytes()), language(locale)) => {
            parent.as_bytes()
        }
        _ => front,
    }
}

// The locale after a language alone: its parent, else `root`.
fn after_language<'a>(parent: Option<&'a str>, locale: &[u8]) -> Option<&'a [u8]>
    ensures { option_copied result ≡ after_language (option_copied parent.entry) locale.now }
{
    if let Some(parent) = parent {
        return Some(parent.as_bytes());
    }
    if is_same(locale, b"root") {
        return None;
    }
    Some(b"root")
}
