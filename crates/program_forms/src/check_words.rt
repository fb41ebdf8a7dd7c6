//! The words behind `check`, where files of any kind may be named.

use crate::word_fault::WordFault;
use finding_formats::Format;
use form_commands::Checking;
use std::alloc::Global;

// Why words behind `check` say nothing.
#[derive(Clone, Copy)]
pub(crate) enum Unsaid<'w> {
    // A word is wrong.
    Word(WordFault<'w>),
    // Out of memory.
    Memory,
}

// What the words behind `check` say.
#[derive(Drop)]
pub(crate) struct CheckWords<'w> {
    // The file of the rules, if one is named.
    pub(crate) rules: Option<&'w str>,
    // The format, if one is named.
    format: Option<Format>,
    // The locale of all files, if one is named.
    locale: Option<&'w str>,
    // The codes of what isn't told.
    ignored: Vec<&'w str>,
    // Whether notes count as faults.
    pub(crate) is_strict: bool,
    // Whether lines are told of documents of messages, too.
    has_lines: bool,
    pub(crate) names: Vec<&'w str>,
}

impl<'w> CheckWords<'w> {
    // Nothing said yet.
    fn new(alloc: Global) -> CheckWords<'w> {
        CheckWords {
            rules: None,
            format: None,
            locale: None,
            ignored: Vec::new(alloc),
            is_strict: false,
            has_lines: false,
            names: Vec::new(alloc),
        }
    }

    // The format.
    pub(crate) fn format(&self) -> Format {
        match self.format {
            Some(format) => format,
            None => Format::Text,
        }
    }

    // How the files are checked.
    pub(crate) fn checking<'a>(&'a self) -> Checking<'a>
    where
        'w: 'a,
    {
        Checking {
            format: self.format(),
            locale: self.locale,
            ignored: self.ignored.as_slice(),
            is_strict: self.is_strict,
        }
    }

    // Whether something is said that documents of messages alone don't have.
    pub(crate) fn has_more(&self) -> bool {
        self.has_lines || (self.locale.is_some() || !self.ignored.is_empty())
    }

    // Whether an option that is given once was given.
    fn has(&self, option: &str) -> bool {
        match option {
            "--rules" => self.rules.is_some(),
            "--locale" => self.locale.is_some(),
            "--format" => self.format.is_some(),
            _ => false,
        }
    }

    // Takes an option and the word behind it, if there is such an option, and the word fits.
    fn take(&mut self, option: &'w str, word: &'w str) -> Result<(), Unsaid<'w>> {
        if self.has(option) {
            return Err(Unsaid::Word(WordFault::Twice(option)));
        }
        match option {
            "--rules" => self.rules = Some(word),
            "--locale" => self.locale = Some(word),
            "--ignore" => return self.ignore(word),
            _ => {
                self.format = Format::from_word(word);
                if self.format.is_none() {
                    return Err(Unsaid::Word(WordFault::Format(word)));
                }
            }
        }
        Ok(())
    }

    // Takes a code of what isn't told.
    fn ignore(&mut self, word: &'w str) -> Result<(), Unsaid<'w>> {
        if !is_code(word) {
            return Err(Unsaid::Word(WordFault::Code(word)));
        }
        match self.ignored.push(word) {
            Ok(()) => Ok(()),
            Err(_) => Err(Unsaid::Memory),
        }
    }

    // Takes the name of a file.
    fn name(&mut self, word: &'w str) -> Result<(), Unsaid<'w>> {
        match self.names.push(word) {
            Ok(()) => Ok(()),
            Err(_) => Err(Unsaid::Memory),
        }
    }

    // Takes an option and the word behind it, if one is there.
    fn take_with(&mut self, option: &'w str, word: Option<&&'w str>) -> Result<(), Unsaid<'w>> {
        if !has_word(option) {
            return Err(Unsaid::Word(WordFault::Option(option)));
        }
        match word {
            Some(word) => self.take(option, *word),
            None => Err(Unsaid::Word(WordFault::NoWord(option))),
        }
    }

    // Takes an option alone. Returns whether there is such an option.
    fn take_alone(&mut self, option: &str) -> bool {
        match option {
            "--strict" => self.is_strict = true,
            "--lines" => self.has_lines = true,
            _ => return false,
        }
        true
    }
}

// Whether a word follows this option.
fn has_word(option: &str) -> bool {
    matches!(option, "--rules" | "--locale" | "--ignore" | "--format")
}

// The codes of findings, and then of what is told of a file.
const CODES: [&str; 31] = [
    "no-object",
    "not-a-part",
    "no-text-list",
    "no-rules",
    "missing",
    "unused",
    "no-number",
    "no-text",
    "not-a-form",
    "no-pattern",
    "not-a-category",
    "stands-twice",
    "more",
    "missing-rare",
    "not-read",
    "charset",
    "syntax",
    "header",
    "language",
    "taken-as",
    "plural-forms",
    "rules-differ",
    "indices",
    "not-translated",
    "arguments",
    "number-unclear",
    "format-unknown",
    "too-many",
    "twice",
    "left-out",
    "no-messages",
];

// Whether a word is a code.
fn is_code(word: &str) -> bool {
    for code in CODES {
        if code == word {
            return true;
        }
    }
    false
}

// What words say.
pub(crate) fn said_by<'w>(alloc: Global, words: &[&'w str]) -> Result<CheckWords<'w>, Unsaid<'w>> {
    let mut said = CheckWords::new(alloc);
    // Whether the word before is an option that this one belongs to.
    let mut is_taken = false;
    for (index, word) in words.iter().enumerate() {
        if is_taken {
            is_taken = false;
        } else if !word.starts_with("--") {
            said.name(*word)?;
        } else if !said.names.is_empty() {
            return Err(Unsaid::Word(WordFault::Late(*word)));
        } else if !said.take_alone(word) {
            said.take_with(*word, words.get(index.saturating_add(1)))?;
            is_taken = true;
        }
    }
    if said.names.is_empty() {
        return Err(Unsaid::Word(WordFault::NoFile("check")));
    }
    Ok(said)
}
