//! The places in files of messages.

ghost use Rattle.std.specs.Prelude.{◌≡◌};
ghost use Rattle.message_report.specs.MessagePlaces.{file_of, place_view, type_name};

use crate::form::Form;
use icu_plurals::PluralRuleType;
use message_pattern::Selector;

/// A locale, in a file.
#[derive(Clone, Copy, Debug)]
pub struct LocalePlace<'a> {
    /// The name of the file.
    pub file: &'a str,
    /// The locale: its key in the file's document.
    pub locale: &'a str,
}

/// A message.
#[derive(Clone, Copy, Debug)]
pub struct MessagePlace<'a> {
    /// Its locale.
    pub locale: LocalePlace<'a>,
    /// The type of the numbers that choose its form.
    pub rule_type: PluralRuleType,
    /// Its key.
    pub key: &'a str,
}

/// A pattern.
#[derive(Clone, Copy, Debug)]
pub struct PatternPlace<'a> {
    /// Its locale.
    pub locale: LocalePlace<'a>,
    /// Its key.
    pub key: &'a str,
}

/// An argument of a pattern: a plural or an ordinal.
#[derive(Clone, Copy, Debug)]
pub struct ArgumentPlace<'a> {
    /// The pattern.
    pub pattern: PatternPlace<'a>,
    /// The name of the argument: bytes of the pattern's text.
    pub name: &'a [u8],
}

/// A place in a file of messages.
#[derive(Clone, Copy, Debug)]
pub enum Place<'a> {
    /// The document of a file, by the file's name: `document`.
    Document(&'a str),
    /// A locale: `ru`.
    Locale(LocalePlace<'a>),
    /// A key of a locale that names no part: `ru cardinals`.
    Key(LocalePlace<'a>, &'a str),
    /// What the sources of a locale's messages have: `ru source`.
    Sources(LocalePlace<'a>),
    /// The same of one message, by its key: `ru source files`.
    Source(LocalePlace<'a>, &'a str),
    /// The messages of a type: `ru cardinal`.
    Messages(LocalePlace<'a>, PluralRuleType),
    /// A message: `ru files`, `ru ordinal files`.
    Message(MessagePlace<'a>),
    /// A form of a message, which may be missing: `ru files one`.
    Form(MessagePlace<'a>, Form),
    /// A key of a message that names no form: `ru files feew`.
    OtherKey(MessagePlace<'a>, &'a str),
    /// The patterns of a locale: `ru patterns`.
    Patterns(LocalePlace<'a>),
    /// A pattern: `ru pattern sent`.
    Pattern(PatternPlace<'a>),
    /// An argument of a pattern: `ru pattern sent {n}`.
    Argument(ArgumentPlace<'a>),
    /// A branch of an argument, which may be missing: `ru pattern sent {n} one`, `.. =1`.
    Branch(ArgumentPlace<'a>, Selector<'a>),
}

impl<'a> Place<'a> {
    /// Returns the name of the file.
    pub fn file(&self) -> &'a str
        ensures { result.now ≡ file_of (place_view self.now) }
    {
        match *self {
            Place::Document(file) => file,
            Place::Locale(locale) => locale.file,
            Place::Key(locale, _) => locale.file,
            Place::Sources(locale) => locale.file,
            Place::Source(locale, _) => locale.file,
            Place::Messages(locale, _) => locale.file,
            Place::Message(message) => message.locale.file,
            Place::Form(message, _) => message.locale.file,
            Place::OtherKey(message, _) => message.locale.file,
            Place::Patterns(locale) => locale.file,
            Place::Pattern(pattern) => pattern.locale.file,
            Place::Argument(argument) => argument.pattern.locale.file,
            Place::Branch(argument, _) => argument.pattern.locale.file,
        }
    }
}

// The key of a type in a locale.
pub(crate) fn type_name(rule_type: PluralRuleType) -> &'static str
    ensures { result.now ≡ type_name rule_type }
{
    match rule_type {
        PluralRuleType::Cardinal => "cardinal",
        PluralRuleType::Ordinal => "ordinal",
    }
}
