//! The words of `pack` and `say`.

ghost use Rattle.std.specs.Prelude.{◌≡◌, codes, option_map};
ghost use Rattle.std.specs.Option.{option_copied};
ghost use Rattle.catalog_commands.specs.CatalogWords.{of_file, of_message, pack_of, say_of, valued, saying_with_locale, with_rules, value_and_rest};
ghost use Rattle.catalog_commands.specs.Inner.WordViews.{pack_view, say_view, words_view};

// The option that names a locale.
const LOCALE: &str = "--locale";

// The option that names a file of rules.
const RULES: &str = "--rules";

/// What the words after `pack` name.
#[derive(Clone, Copy, Debug)]
pub struct PackWords<'w> {
    /// The locale after `--locale`, if there is one.
    pub locale: Option<&'w str>,
    /// The file of messages.
    pub file: &'w str,
}

/// What the words after `say` name.
#[derive(Clone, Copy, Debug)]
pub struct SayWords<'w> {
    /// The locale after `--locale`, if there is one.
    pub locale: Option<&'w str>,
    /// The file after `--rules`, if there is one.
    pub rules: Option<&'w str>,
    /// The file of the catalogue.
    pub catalog: &'w str,
    /// The key.
    pub key: &'w str,
    /// The words after the key.
    pub given: &'w [&'w str],
}

/// Returns what the words after `pack` name: `[--locale LOCALE] FILE`, where no FILE begins with
/// `--`. `None` for other words. It allocates nothing.
pub fn pack_words<'w>(words: &'w [&'w str]) -> Option<PackWords<'w>>
    ensures { option_map pack_view result ≡ pack_of (words_view words.now) }
{
    let (locale, rest) = valued(LOCALE, words);
    of_file(locale, rest)
}

/// Returns what the words after `say` name: `[--locale LOCALE] [--rules FILE] CATALOG KEY
/// [NAME=VALUE..]`, the options in either order, where no CATALOG begins with `--`. `None` for other
/// words; those after KEY may be any. It allocates nothing.
pub fn say_words<'w>(words: &'w [&'w str]) -> Option<SayWords<'w>>
    ensures { option_map say_view result ≡ say_of (words_view words.now) }
{
    let (locale, rest) = valued(LOCALE, words);
    if locale.is_some() {
        return with_rules(locale, rest);
    }
    let (rules, rest) = valued(RULES, words);
    with_locale(rules, rest)
}

// What words name behind a locale.
fn of_file<'w>(locale: Option<&'w str>, words: &'w [&'w str]) -> Option<PackWords<'w>>
    ensures { option_map pack_view result ≡ of_file (option_copied locale.entry) (words_view words.now) }
{
    match words {
        [file] if !file.starts_with("--") => Some(PackWords {
            locale,
            file: *file,
        }),
        _ => None,
    }
}

// What words name behind a locale, where rules may be named.
fn with_rules<'w>(locale: Option<&'w str>, words: &'w [&'w str]) -> Option<SayWords<'w>>
    ensures { option_map say_view result ≡ with_rules (option_copied locale.entry) (valued (codes "--rules") (words_view words.now)) }
{
    let (rules, rest) = valued(RULES, words);
    of_message(locale, rules, rest)
}

// What words name behind rules, where a locale may be named.
fn with_locale<'w>(rules: Option<&'w str>, words: &'w [&'w str]) -> Option<SayWords<'w>>
    ensures { option_map say_view result ≡ saying_with_locale (option_copied rules.entry) (valued (codes "--locale") (words_view words.now)) }
{
    let (locale, rest) = valued(LOCALE, words);
    of_message(locale, rules, rest)
}

// What words name behind the options.
fn of_message<'w>(
    locale: Option<&'w str>,
    rules: Option<&'w str>,
    words: &'w [&'w str],
) -> Option<SayWords<'w>>
    ensures { option_map say_view result ≡ of_message (option_copied locale.entry) (option_copied rules.entry) (words_view words.now) }
{
    match words {
        [catalog, key, given @ ..] if !catalog.starts_with("--") => Some(SayWords {
            locale,
            rules,
            catalog: *catalog,
            key: *key,
            given,
        }),
        _ => None,
    }
}

// The word behind an option at the front, and the words after it.
fn valued<'w>(option: &str, words: &'w [&'w str]) -> (Option<&'w str>, &'w [&'w str])
    ensures { value_and_rest (option_copied result.0) (words_view result.1.now) ≡ valued option.now (words_view words.now) }
{
    match words {
        [first, word, rest @ ..] if *first == option => (Some(*word), rest),
        _ => (None, words),
    }
}
