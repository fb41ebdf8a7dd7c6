//! The messages of a file.

ghost use Rattle.std.specs.Prelude.{◌≡◌, option_and_then, option_copied, option_map};
ghost use Rattle.message_report.specs.MessagePlaces.{message_place_view, pattern_place_view, place_view};
ghost use Rattle.translation_files.specs.FilePlaces.{kind_of_type, line_of_target, message_target, pattern_target, placeholder_of, target, target_of};
ghost use Rattle.translation_files.specs.Inner.PlaceSteps.{target_view};

use crate::counts::FileCounts;
use crate::lines::MessageKind;
use crate::notice::FileNotice;
use crate::places::Places;
use icu_plurals::PluralRuleType;
use message_report::{Form, MessagePlace, PatternPlace, Place};
use serde_json::Value;

/// The messages of a file, as a check of messages takes them, where they stand in it, and what is
/// told of the file.
#[derive(Drop)]
pub struct FileMessages {
    /// The name of the file that they stand in, if that is another one than was read.
    pub name: Option<String>,
    /// The document of [`message_report::found_in_files`]: by locale, `cardinal`, `ordinal`,
    /// `source` and `patterns`, each by the keys of messages.
    pub document: Value,
    /// Where the messages stand.
    pub places: Places,
    /// What is told of the file, in the order in which it is met.
    pub notices: Vec<FileNotice>,
    /// What became of its messages.
    pub counts: FileCounts,
}

// A message by its locale, kind and key, and its form, if one is meant.
#[derive(Clone, Copy)]
struct Target<'a> {
    locale: &'a str,
    kind: MessageKind,
    key: &'a str,
    form: Option<Form>,
}

impl FileMessages {
    /// Returns the line of a form's text, else that of its message, if the message is known.
    pub fn line(
        &self,
        locale: &str,
        kind: MessageKind,
        key: &str,
        form: Option<Form>,
    ) -> Option<u64>
        ensures { result ≡ line_of_target self.now.places (target locale.now kind key.now form) }
    {
        let lines = self.places.find(locale, kind, key)?;
        Some(lines.line_of(form))
    }

    /// Returns what stands for the number in the texts of a message, as `%d`, if that is known.
    pub fn placeholder(&self, locale: &str, kind: MessageKind, key: &str) -> Option<&str>
        ensures { option_copied result ≡ placeholder_of self.now.places (target locale.now kind key.now None) }
    {
        match &self.places.find(locale, kind, key)?.placeholder {
            Some(text) => Some(text.as_str()),
            None => None,
        }
    }

    /// Returns the line of a finding's place, if its message is known.
    pub fn line_at(&self, place: &Place<'_>) -> Option<u64>
        ensures { result ≡ option_and_then (line_of_target self.now.places) (target_of (place_view place.now)) }
    {
        let target = target_of(place)?;
        self.line(target.locale, target.kind, target.key, target.form)
    }

    /// Returns what stands for the number in the texts of a finding's message, if that is known.
    pub fn placeholder_at(&self, place: &Place<'_>) -> Option<&str>
        ensures { option_copied result ≡ option_and_then (placeholder_of self.now.places) (target_of (place_view place.now)) }
    {
        let target = target_of(place)?;
        self.placeholder(target.locale, target.kind, target.key)
    }
}

impl<'a> Target<'a> {
    // A message, or a form of it.
    fn of_message(message: MessagePlace<'a>, form: Option<Form>) -> Target<'a>
        ensures { target_view result ≡ message_target (message_place_view message.entry) form }
    {
        Target {
            locale: message.locale.locale,
            kind: kind_of(message.rule_type),
            key: message.key,
            form,
        }
    }

    // A pattern.
    fn of_pattern(pattern: PatternPlace<'a>) -> Target<'a>
        ensures { target_view result ≡ pattern_target (pattern_place_view pattern.entry) }
    {
        Target {
            locale: pattern.locale.locale,
            kind: MessageKind::Pattern,
            key: pattern.key,
            form: None,
        }
    }
}

// The message of a place, if it is of one.
fn target_of<'a>(place: &Place<'a>) -> Option<Target<'a>>
    ensures { option_map target_view result ≡ target_of (place_view place.now) }
{
    match *place {
        Place::Source(locale, key) => Some(Target {
            locale: locale.locale,
            kind: MessageKind::Cardinal,
            key,
            form: None,
        }),
        Place::Message(message) | Place::OtherKey(message, _) => {
            Some(Target::of_message(message, None))
        }
        Place::Form(message, form) => Some(Target::of_message(message, Some(form))),
        Place::Pattern(pattern) => Some(Target::of_pattern(pattern)),
        Place::Argument(argument) | Place::Branch(argument, _) => {
            Some(Target::of_pattern(argument.pattern))
        }
        _ => None,
    }
}

// The kind of messages of a type.
fn kind_of(rule_type: PluralRuleType) -> MessageKind
    ensures { result ≡ kind_of_type rule_type }
{
    match rule_type {
        PluralRuleType::Cardinal => MessageKind::Cardinal,
        PluralRuleType::Ordinal => MessageKind::Ordinal,
    }
}
