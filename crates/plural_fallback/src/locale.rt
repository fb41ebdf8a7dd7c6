//! Locales as bytes: which are the same, their languages, and what stands before the last subtag.

ghost use Rattle.std.specs.Prelude.{◌≡◌};
ghost use Rattle.std.specs.Option.{option_copied};
ghost use Rattle.plural_fallback.specs.LocaleNames.{before_last, folded, is_same, is_separator, language};

// Whether a byte stands between subtags.
pub(crate) fn is_separator(byte: u8) -> bool
    ensures { result ≡ is_separator byte }
{
    byte == b'-' || byte == b'_'
}

// The byte in lower case, and `_` as `-`.
fn folded(byte: u8) -> u8
    ensures { result ≡ folded byte }
{
    if byte == b'_' {
        return b'-';
    }
    byte.to_ascii_lowercase()
}

/// Returns whether two locales are the same but for ASCII case and `_` in place of `-`. It
/// allocates nothing.
pub fn is_same(one: &[u8], other: &[u8]) -> bool
    ensures { result ≡ is_same one.now other.now }
{
    let mut ones = one;
    let mut others = other;
    while let [first, rest @ ..] = ones {
        let [second, after @ ..] = others else {
            return false;
        };
        if folded(*first) != folded(*second) {
            return false;
        }
        ones = rest;
        others = after;
    }
    others.is_empty()
}

/// Returns the first subtag of a locale: all of it, if it has no other. It allocates nothing.
pub fn language(locale: &[u8]) -> &[u8]
    ensures { result.now ≡ language locale.now }
{
    for index in 0..locale.len() {
        if is_separator(locale[index]) {
            return &locale[..index];
        }
    }
    locale
}

// What stands before the last separator of a locale, if it has one.
pub(crate) fn before_last(locale: &[u8]) -> Option<&[u8]>
    ensures { option_copied result ≡ before_last locale.now }
{
    let mut end = locale.len();
    while end > 0 {
        end -= 1;
        if is_separator(locale[end]) {
            return Some(&locale[..end]);
        }
    }
    None
}
