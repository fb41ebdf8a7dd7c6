//! The command `say`: what a message of a catalogue says.

use crate::answers::print_bytes;
use crate::catalog_faults::fault_of_words;
use crate::failure::{Failure, of_word, told};
use crate::opened::{has_input, read_whole};
use crate::rules::rules_name;
use crate::spoken_rules::{Spoken, Taken, spoken_rules};
use crate::word_fault::WordFault;
use catalog_commands::{GivenFault, SayWords, Word, arguments_of, given_words, say_words};
use form_commands::Verdict;
use message_catalog::MessageCatalog;
use message_format::{FormatError, Rules};
use packed_format::format_packed;
use packed_pattern::PackedPattern;
use plural_documents::{printed_name, write_output};
use std::alloc::Global;
use std::str;

// Writes what the message says that words name.
pub(crate) fn say(rt: &HostRuntime, words: &[&str]) -> Result<Verdict, Failure> {
    let Some(said) = say_words(words) else {
        return Err(of_word(rt.alloc(), fault_of_words("say", words)));
    };
    let given = given_by(rt.alloc(), said.given)?;
    if has_input(&[said.catalog]) && rules_name(rt, said.rules)?.is_none() {
        return Err(of_word(rt.alloc(), WordFault::Messages));
    }
    let bytes = read_whole(rt, said.catalog)?;
    say_in(rt, &said, bytes.as_slice(), given.as_slice())
}

// The names and values that words give, no name twice.
fn given_by<'w>(alloc: Global, words: &[&'w str]) -> Result<Vec<Word<'w>>, Failure> {
    let given = match given_words(alloc, words) {
        Ok(given) => given,
        Err(GivenFault::NoValue(word)) => return Err(of_word(alloc, WordFault::NoValue(word))),
        Err(GivenFault::Memory) => return Err(Failure::Memory),
    };
    for (index, word) in given.iter().enumerate() {
        let before = given.get(..index).unwrap_or(&[]);
        if before.iter().any(|it| it.name == word.name) {
            return Err(of_word(alloc, WordFault::Twice(word.name)));
        }
    }
    Ok(given)
}

// Writes what the message says in the bytes of a catalogue.
fn say_in(
    rt: &HostRuntime,
    said: &SayWords<'_>,
    bytes: &[u8],
    given: &[Word<'_>],
) -> Result<Verdict, Failure> {
    let alloc = rt.alloc();
    let (file, key) = (said.catalog, said.key);
    let catalog = match MessageCatalog::parse_bytes(bytes) {
        Ok(catalog) => catalog,
        Err(fault) => return Err(told(format!(in alloc; "{file}: no catalogue: {fault}"))),
    };
    let Some(pattern) = catalog.pattern(key.as_bytes()) else {
        let key = printed_name(key);
        return Err(told(format!(in alloc; "{file}: {key}: no message has the key")));
    };
    match spoken_rules(rt, said, Taken::by(&pattern)) {
        Ok(spoken) => {
            let verdict = say_by(rt, said, &pattern, given, &spoken);
            drop(spoken);
            verdict
        }
        Err(failure) => Err(failure),
    }
}

// Writes what a pattern says by these rules, and their notes.
fn say_by(
    rt: &HostRuntime,
    said: &SayWords<'_>,
    pattern: &PackedPattern<'_>,
    given: &[Word<'_>],
    spoken: &Spoken,
) -> Result<Verdict, Failure> {
    let text = text_of(rt.alloc(), said, pattern, given, spoken)?;
    let verdict = print_bytes(&mut rt.stdout(), text.as_slice())?;
    match write_output(&mut rt.stderr(), spoken.notes.as_slice()) {
        Ok(()) => Ok(verdict),
        Err(_) => Err(Failure::Write),
    }
}

// What a pattern says with what is given, and a newline.
fn text_of(
    alloc: Global,
    said: &SayWords<'_>,
    pattern: &PackedPattern<'_>,
    given: &[Word<'_>],
    spoken: &Spoken,
) -> Result<Vec<u8>, Failure> {
    let Ok(arguments) = arguments_of(alloc, pattern, given) else {
        return Err(Failure::Memory);
    };
    let rules = Rules {
        cardinal: &spoken.cardinal,
        ordinal: &spoken.ordinal,
    };
    match format_packed(alloc, pattern, arguments.as_slice(), &rules) {
        Ok(mut text) => match text.push(b'\n') {
            Ok(()) => Ok(text),
            Err(_) => Err(Failure::Memory),
        },
        Err(error) => Err(of_format(alloc, said, error)),
    }
}

// Why a message says nothing.
fn of_format(alloc: Global, said: &SayWords<'_>, error: FormatError<'_>) -> Failure {
    match error {
        FormatError::Argument(fault, name) => {
            let (file, key) = (said.catalog, printed_name(said.key));
            let name = printed_name(str::from_utf8(name).unwrap_or(""));
            told(format!(in alloc; "{file}: {key}: {name}: {fault}"))
        }
        FormatError::Memory => Failure::Memory,
    }
}
