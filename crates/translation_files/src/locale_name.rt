//! The locale of a file: as it says itself, or by its name and folders.

use icu_plurals::PluralRuleType;
use message_report::RulesOfLocales;
use plural_documents::printed_name;
use std::alloc::AllocError;
use std::{fmt, str};

// Why the locale of a file isn't known.
#[derive(Clone, Copy)]
pub(crate) enum LocaleFault<'a> {
    // Nothing names it.
    Unnamed,
    // This text is none.
    NoLocale(&'a str),
}

impl fmt::Display for LocaleFault<'_> {
    fn fmt<W: fmt::Write>(&self, f: &mut fmt::Formatter<W>) -> fmt::Result {
        match *self {
            LocaleFault::Unnamed => {
                f.write_str("its language isn't known: name it in the file, or by --locale")
            }
            LocaleFault::NoLocale(text) => {
                let shown = printed_name(text);
                write!(
                    f,
                    "'{shown}' is no locale: write one as ru or pt_BR, or name it by --locale"
                )
            }
        }
    }
}

// Appends the locale of a file: the one that is named, else that of the file's name or of its
// folders. Returns why it isn't known, if it isn't.
pub(crate) fn push_locale<'a, S: RulesOfLocales>(
    locale: &mut String,
    named: Option<&'a str>,
    file: &'a str,
    rules: &S,
) -> Result<Option<LocaleFault<'a>>, AllocError> {
    let word = match named {
        Some(word) => Some(word),
        None => word_of_name(file, rules),
    };
    match word {
        Some(word) => push_written(locale, word),
        None => Ok(Some(LocaleFault::Unnamed)),
    }
}

// Appends the locale that a text writes, unless it writes none.
fn push_written<'a>(
    locale: &mut String,
    text: &'a str,
) -> Result<Option<LocaleFault<'a>>, AllocError> {
    push_spelled(locale, text)?;
    if is_locale(locale.as_str()) {
        return Ok(None);
    }
    Ok(Some(LocaleFault::NoLocale(text)))
}

// Appends a text with `-` between subtags, as `sr-Latn` of `sr@latin`, and `pt-BR` of `pt_BR.UTF-8`.
// A long modifier is no part of it.
fn push_spelled(locale: &mut String, text: &str) -> Result<(), AllocError> {
    let (name, modifier) = text.split_once('@').unwrap_or((text, ""));
    let script = script_of(without_charset(modifier));
    push_subtags(locale, without_charset(name))?;
    if !locale.is_empty() && !script.is_empty() {
        locale.push('-')?;
    }
    push_subtags(locale, script)
}

// What stands before the charset of a name, as `pt_BR` of `pt_BR.UTF-8`.
fn without_charset(name: &str) -> &str {
    match name.split_once('.') {
        Some((front, _)) => front,
        None => name,
    }
}

// Appends subtags, with `-` between them.
fn push_subtags(locale: &mut String, subtags: &str) -> Result<(), AllocError> {
    for letter in subtags.chars() {
        locale.push(if letter == '_' { '-' } else { letter })?;
    }
    Ok(())
}

// The script of a modifier of gettext's, else the modifier, if it isn't long.
fn script_of(modifier: &str) -> &str {
    if modifier.eq_ignore_ascii_case("latin")
        || modifier.eq_ignore_ascii_case("ijekavianlatin")
        || modifier.eq_ignore_ascii_case("iqtelif")
    {
        return "Latn";
    }
    if modifier.eq_ignore_ascii_case("cyrillic") {
        return "Cyrl";
    }
    if modifier.eq_ignore_ascii_case("devanagari") {
        return "Deva";
    }
    if modifier.len() <= 8 { modifier } else { "" }
}

// Whether a text is a locale: a language of two to eight letters, and further subtags of one to
// eight letters and digits.
fn is_locale(text: &str) -> bool {
    let mut is_first = true;
    for subtag in text.split('-') {
        if !is_subtag(subtag.as_bytes(), is_first) {
            return false;
        }
        is_first = false;
    }
    true
}

// Whether a subtag may stand in a locale.
fn is_subtag(subtag: &[u8], is_first: bool) -> bool {
    if is_first {
        return 2 <= subtag.len() && subtag.len() <= 8 && are_letters(subtag);
    }
    1 <= subtag.len() && subtag.len() <= 8 && are_alphanumeric(subtag)
}

// Whether bytes are letters of ASCII.
fn are_letters(bytes: &[u8]) -> bool {
    for it in bytes {
        if !it.is_ascii_alphabetic() {
            return false;
        }
    }
    true
}

// Whether bytes are letters and digits of ASCII.
fn are_alphanumeric(bytes: &[u8]) -> bool {
    for it in bytes {
        if !it.is_ascii_alphanumeric() {
            return false;
        }
    }
    true
}

// The locale that a file's name says, up to its first dot, else that of its folder, or of the folder
// above, if the language has rules.
fn word_of_name<'a, S: RulesOfLocales>(file: &'a str, rules: &S) -> Option<&'a str> {
    let mut name: &[u8] = b"";
    let mut folder: &[u8] = b"";
    let mut above: &[u8] = b"";
    for part in file.split('/') {
        if !part.is_empty() {
            above = folder;
            folder = name;
            name = part.as_bytes();
        }
    }
    for word in [
        without_charset(text_of(name)),
        text_of(folder),
        text_of(above),
    ] {
        if is_named(word, rules) {
            return Some(word);
        }
    }
    None
}

// The text of these bytes, which are UTF-8.
pub(crate) fn text_of(bytes: &[u8]) -> &str {
    str::from_utf8(bytes).unwrap_or("")
}

// Whether a name is that of a locale whose language has rules.
pub(crate) fn is_named<S: RulesOfLocales>(name: &str, rules: &S) -> bool {
    match language_of(name) {
        Some(language) => has_rules(language, rules),
        None => false,
    }
}

// Whether a language has rules.
fn has_rules<S: RulesOfLocales>(language: &str, rules: &S) -> bool {
    match rules.rules_of(PluralRuleType::Cardinal, language) {
        Some(found) => {
            drop(found);
            true
        }
        None => false,
    }
}

// The language of a name that may be that of a locale.
fn language_of(name: &str) -> Option<&str> {
    let mut language: Option<&str> = None;
    for subtag in name.split(|it: char| it == '-' || it == '_' || it == '@') {
        match language {
            None if is_language(subtag.as_bytes()) => language = Some(subtag),
            Some(_) if is_further(subtag.as_bytes()) => (),
            _ => return None,
        }
    }
    language
}

// Whether a word may be a language: two or three small letters.
fn is_language(word: &[u8]) -> bool {
    2 <= word.len() && word.len() <= 3 && are_small(word)
}

// Whether a word may stand behind a language: two or more letters and digits.
fn is_further(word: &[u8]) -> bool {
    2 <= word.len() && are_alphanumeric(word)
}

// Whether bytes are small letters of ASCII.
fn are_small(bytes: &[u8]) -> bool {
    for it in bytes {
        if !it.is_ascii_lowercase() {
            return false;
        }
    }
    true
}
