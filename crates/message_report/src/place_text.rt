//! What is printed for places.

ghost use Rattle.std.specs.Prelude.{◌≡◌, IfOk, Some, string_bytes};
ghost use Rattle.std.specs.Fmt.{DisplaysOnOk};
ghost use Rattle.message_pattern.specs.PatternParts.{selector_view};
ghost use Rattle.message_report.specs.MessagePlaces.{argument_place_text, locale_text, message_place_text, pattern_place_text};
ghost use Rattle.message_report.specs.MessagePlaces.{named_file_place, file_place_text, branch_selector_text};
ghost use Rattle.message_report.specs.MessagePlaces.{argument_place_view, file_locale_place_view, message_place_view, pattern_place_view, place_view};

use crate::place::{ArgumentPlace, LocalePlace, MessagePlace, PatternPlace, Place, type_name};
use crate::printed_key::{PrintedBytes, message_key};
use icu_plurals::PluralRuleType;
use message_pattern::Selector;
use plural_documents::printed_name;
use std::alloc::{AllocError, Global};
use std::fmt;

impl Place<'_> {
    /// Returns what is printed for the place, after the name of its file. It allocates; the only
    /// error is out of memory.
    pub fn text(&self, alloc: Global) -> Result<String, AllocError>
        ensures { IfOk result (λ text. string_bytes text ≡ file_place_text (place_view self.now)) }
    {
        self.to_string(alloc)
    }
}

/// What is printed for the place, after the name of its file: `ru files one`.
impl fmt::Display for Place<'_> {
    ghost output = { λ place. Some (file_place_text (place_view place)) };

    fn fmt<W: fmt::Write>(&self, f: &mut fmt::Formatter<W>) -> fmt::Result {
        match self {
            Place::Document(_) => f.write_str("document"),
            Place::Locale(locale) => write!(f, "{locale}"),
            Place::Key(locale, key) => write!(f, "{locale} {}", printed_name(key)),
            Place::Sources(locale) => write_named(f, locale, "source"),
            Place::Source(locale, key) => write!(f, "{locale} source {}", message_key(key)),
            Place::Messages(locale, rule_type) => write_named(f, locale, type_name(*rule_type)),
            Place::Message(message) => write!(f, "{message}"),
            Place::Form(message, form) => write_part(f, message, form.as_str()),
            Place::OtherKey(message, key) => write!(f, "{message} {}", printed_name(key)),
            Place::Patterns(locale) => write_named(f, locale, "patterns"),
            Place::Pattern(pattern) => write!(f, "{pattern}"),
            Place::Argument(argument) => write!(f, "{argument}"),
            Place::Branch(argument, selector) => {
                write!(f, "{argument} {}", PrintedSelector(*selector))
            }
        }
    }
}

// Writes what has a name in a locale: `ru patterns`.
fn write_named<W: fmt::Write>(
    f: &mut fmt::Formatter<W>,
    locale: &LocalePlace<'_>,
    name: &str,
) -> fmt::Result
    ensures { DisplaysOnOk W.write_str_gives f.old result
        (Some (named_file_place (locale_text (file_locale_place_view locale.now)) name.now)) f.new }
{
    write!(f, "{locale} {name}")
}

// Writes what has a name in a message: `ru files one`.
fn write_part<W: fmt::Write>(
    f: &mut fmt::Formatter<W>,
    message: &MessagePlace<'_>,
    name: &str,
) -> fmt::Result
    ensures { DisplaysOnOk W.write_str_gives f.old result
        (Some (named_file_place (message_place_text (message_place_view message.now)) name.now)) f.new }
{
    write!(f, "{message} {name}")
}

/// The locale alone: `ru`.
impl fmt::Display for LocalePlace<'_> {
    ghost output = { λ place. Some (locale_text (file_locale_place_view place)) };

    fn fmt<W: fmt::Write>(&self, f: &mut fmt::Formatter<W>) -> fmt::Result {
        write!(f, "{}", printed_name(self.locale))
    }
}

/// `ru files`, or `ru ordinal files`.
impl fmt::Display for MessagePlace<'_> {
    ghost output = { λ place. Some (message_place_text (message_place_view place)) };

    fn fmt<W: fmt::Write>(&self, f: &mut fmt::Formatter<W>) -> fmt::Result {
        match self.rule_type {
            PluralRuleType::Cardinal => write!(f, "{} {}", self.locale, message_key(self.key)),
            PluralRuleType::Ordinal => {
                write!(f, "{} ordinal {}", self.locale, message_key(self.key))
            }
        }
    }
}

/// `ru pattern sent`.
impl fmt::Display for PatternPlace<'_> {
    ghost output = { λ place. Some (pattern_place_text (pattern_place_view place)) };

    fn fmt<W: fmt::Write>(&self, f: &mut fmt::Formatter<W>) -> fmt::Result {
        write!(f, "{} pattern {}", self.locale, message_key(self.key))
    }
}

/// `ru pattern sent {n}`.
impl fmt::Display for ArgumentPlace<'_> {
    ghost output = { λ place. Some (argument_place_text (argument_place_view place)) };

    fn fmt<W: fmt::Write>(&self, f: &mut fmt::Formatter<W>) -> fmt::Result {
        write!(f, "{} {{{}}}", self.pattern, PrintedBytes(self.name))
    }
}

// A selector, to be printed: `=1`, `one`.
#[derive(Drop)]
struct PrintedSelector<'a>(Selector<'a>);

impl fmt::Display for PrintedSelector<'_> {
    ghost output = { λ it. Some (branch_selector_text (selector_view it.0)) };

    fn fmt<W: fmt::Write>(&self, f: &mut fmt::Formatter<W>) -> fmt::Result {
        match self.0 {
            Selector::Exactly(number) => write!(f, "={}", PrintedBytes(number)),
            Selector::Keyword(word) => write!(f, "{}", PrintedBytes(word)),
        }
    }
}
