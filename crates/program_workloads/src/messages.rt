//! Messages in bulk: patterns, and packed messages.

use crate::digest::Digest;
use crate::documents::Documents;
use crate::languages::{LANGUAGES, Language, rules_of};
use crate::random::Source;
use crate::samples::{numbers, one_number};
use anyhow::{Result, bail};
use icu_plurals::provider::PluralElementsPackedCow;
use icu_plurals::{PluralElements, PluralRules};
use message_format::{Argument, FormatError, Rules, Value, format};
use message_pattern::Pattern;
use plural_fallback::Part;
use plural_message::Message;
use std::alloc::{AllocError, Global};

// How many patterns are read, how many of them are said, each so often, and how many numbers they are said with.
const READ: u64 = 300;

const SAID: u64 = 40;

const TIMES: u64 = 60;

const DRAWN: u64 = 1_024;

const WORDS: &[&str] = &[
    "file", "sent", "to", "your", "account", "in", "the", "last", "week", "photo", "was", "shared",
    "with", "message", "from", "review", "order", "of", "a", "new", "item", "for", "project",
    "comment", "and", "has", "been", "moved",
];

const NAMES: &[&str] = &[
    "Anna",
    "Li Wei",
    "Mohamed",
    "J\u{fc}rgen",
    "\u{41e}\u{43b}\u{44c}\u{433}\u{430}",
    "Tom",
];

// Appends so many words, each after a space.
pub(crate) fn push_words(
    text: &mut String,
    source: &mut Source,
    count: u64,
) -> Result<(), AllocError> {
    for _ in 0..count {
        text.push_str(" ")?;
        text.push_str(source.one_of(WORDS))?;
    }
    Ok(())
}

// Appends a plural argument with a branch for exactly 0 and for each of the forms.
pub(crate) fn push_plural(
    text: &mut String,
    source: &mut Source,
    kind: &str,
    forms: &[&str],
) -> Result<(), AllocError> {
    text.push_str("{count, ")?;
    text.push_str(kind)?;
    text.push_str(",")?;
    if source.one_in(2) {
        text.push_str(" =0 {no")?;
        push_words(text, source, 1)?;
        text.push_str("}")?;
    }
    for form in forms {
        text.push_str(" ")?;
        text.push_str(form)?;
        text.push_str(" {#")?;
        let count = source.between(1, 3);
        push_words(text, source, count)?;
        text.push_str("}")?;
    }
    text.push_str("}")
}

// Appends a pattern of 60 to 300 bytes with one plural: with two other arguments, beside a select, or in each branch of one.
pub(crate) fn push_pattern(
    text: &mut String,
    source: &mut Source,
    kind: &str,
    forms: &[&str],
) -> Result<(), AllocError> {
    let shape = source.below(10);
    if shape < 6 {
        text.push_str("{name}")?;
        push_words(text, source, 3)?;
        text.push_str(" ")?;
        push_plural(text, source, kind, forms)?;
        push_words(text, source, 2)?;
        text.push_str(" {place}.")
    } else if shape < 8 {
        text.push_str("{gender, select, male {He} female {She} other {They}}")?;
        push_words(text, source, 2)?;
        text.push_str(" ")?;
        push_plural(text, source, kind, forms)?;
        text.push_str(".")
    } else {
        text.push_str("{gender, select,")?;
        for gender in ["male", "female", "other"] {
            text.push_str(" ")?;
            text.push_str(gender)?;
            text.push_str(" {{name}")?;
            push_words(text, source, 1)?;
            text.push_str(" ")?;
            push_plural(text, source, kind, forms)?;
            text.push_str("}")?;
        }
        text.push_str("}")
    }
}

// A catalogue of patterns.
fn catalogue(
    alloc: Global,
    source: &mut Source,
    language: Language,
) -> Result<Vec<String>, AllocError> {
    let kind = match language.part {
        Part::Cardinal => "plural",
        _ => "selectordinal",
    };
    let mut all = Vec::new(alloc);
    for _ in 0..source.some_of(READ) {
        let mut text = String::new(alloc);
        push_pattern(&mut text, source, kind, language.forms)?;
        all.push(text)?;
    }
    Ok(all)
}

// Says a pattern with many arguments.
fn say(
    alloc: Global,
    source: &mut Source,
    pattern: &Pattern<'_>,
    rules: &PluralRules<'_>,
    drawn: &[String],
    digest: &mut Digest,
) -> Result<()> {
    let rules = Rules {
        cardinal: rules,
        ordinal: rules,
    };
    for _ in 0..source.some_of(TIMES) {
        let arguments = [
            Argument {
                name: "name",
                value: Value::Text(source.one_of(NAMES)),
            },
            Argument {
                name: "place",
                value: Value::Text(source.one_of(NAMES)),
            },
            Argument {
                name: "gender",
                value: Value::Text(source.one_of(&["male", "female", "diverse"])),
            },
            Argument {
                name: "count",
                value: Value::Number(one_number(source, drawn)),
            },
        ];
        match format(alloc, pattern, &arguments, &rules) {
            Ok(said) => digest.take(said.as_slice()),
            Err(FormatError::Memory) => bail!("out of memory"),
            Err(FormatError::Argument(_, _)) => bail!("a pattern isn't said"),
        }
    }
    Ok(())
}

// Reads the patterns of a catalogue, and says some of them.
fn patterns(
    alloc: Global,
    source: &mut Source,
    language: Language,
    rules: &PluralRules<'_>,
    drawn: &[String],
    digest: &mut Digest,
) -> Result<()> {
    let texts = catalogue(alloc, source, language)?;
    let mut read = Vec::new(alloc);
    for text in texts.iter() {
        match Pattern::parse(alloc, text.as_str().as_bytes()) {
            Ok(pattern) => read.push(pattern)?,
            Err(_) => bail!("no pattern"),
        }
    }
    for pattern in read.iter() {
        digest.take_number(pattern.parts().len() as u64);
    }
    for pattern in read.iter().take(source.some_of(SAID) as usize) {
        say(alloc, source, pattern, rules, drawn, digest)?;
    }
    Ok(())
}

// A text with a number in it, for a form that the language has.
fn form(
    alloc: Global,
    source: &mut Source,
    language: Language,
    name: &str,
) -> Result<Option<String>, AllocError> {
    if !language.forms.contains(&name) {
        return Ok(None);
    }
    let mut text = String::from_str(alloc, "{}")?;
    let count = source.between(1, 4);
    push_words(&mut text, source, count)?;
    Ok(Some(text))
}

// Packs a message, and says it with many numbers.
fn packed(
    alloc: Global,
    source: &mut Source,
    language: Language,
    rules: &PluralRules<'_>,
    drawn: &[String],
    digest: &mut Digest,
) -> Result<()> {
    let mut other = String::from_str(alloc, "{}")?;
    push_words(&mut other, source, 5)?;
    let zero = form(alloc, source, language, "zero")?;
    let one = form(alloc, source, language, "one")?;
    let two = form(alloc, source, language, "two")?;
    let few = form(alloc, source, language, "few")?;
    let many = form(alloc, source, language, "many")?;
    let elements = PluralElements::new(other.as_str())
        .with_zero_value(zero.as_ref().map(|it| it.as_str()))
        .with_one_value(one.as_ref().map(|it| it.as_str()))
        .with_two_value(two.as_ref().map(|it| it.as_str()))
        .with_few_value(few.as_ref().map(|it| it.as_str()))
        .with_many_value(many.as_ref().map(|it| it.as_str()));
    let packed = PluralElementsPackedCow::from_elements(alloc, &elements)?;
    let message = Message::new(packed.as_packed());
    for _ in 0..source.some_of(TIMES) {
        let Ok(said) = message.format(alloc, one_number(source, drawn), rules) else {
            bail!("a message isn't said");
        };
        digest.take(said.as_str().as_bytes());
    }
    Ok(())
}

pub(crate) fn messages_round(
    alloc: Global,
    source: &mut Source,
    documents: &Documents,
    digest: &mut Digest,
) -> Result<()> {
    let drawn = numbers(alloc, source, DRAWN)?;
    for language in LANGUAGES {
        let rules = rules_of(alloc, documents, language)?;
        patterns(alloc, source, language, &rules, drawn.as_slice(), digest)?;
        for _ in 0..source.some_of(SAID) {
            packed(alloc, source, language, &rules, drawn.as_slice(), digest)?;
        }
    }
    Ok(())
}
