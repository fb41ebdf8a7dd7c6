//! Why the program fails.

use crate::rules_text::RulesFault;
use crate::word_fault::WordFault;
use form_commands::{FormsError, Verdict};
use plural_commands::RunError;
use std::alloc::{AllocError, Global};
use thiserror::Error;

// How the program is used.
pub(crate) const USAGE: &str = "usage: plural_forms list LOCALE [--ordinal] [--rules FILE]
       plural_forms category LOCALE [--ordinal] [--rules FILE] [NUMBER..]
       plural_forms check [--rules FILE] [--format FORMAT] [--locale LOCALE] [--ignore CODE]..
                          [--strict] [--lines] FILE..
       plural_forms gettext LOCALE [--ordinal] [--rules FILE]
       plural_forms pack [--locale LOCALE] FILE
       plural_forms say [--locale LOCALE] [--rules FILE] CATALOG KEY [NAME=VALUE..]
       plural_forms --help | --version
Without --rules, the rules are in the file that PLURALS_RULES names, else in standard input.
Without a NUMBER, the numbers are the lines of standard input.
FORMAT is text, json, sarif or github; without one it is text.
A FILE of check is a gettext catalog, a JSON file of i18next or ARB, or a document of messages;
- is standard input. pack writes the patterns of a document of messages as a CATALOG, from which
say says the one under a KEY.";

// An example of each command and kind of file.
pub(crate) const EXAMPLES: &str = "
Examples:
  plural_forms list ru
  plural_forms category ru 22 1.5
  plural_forms gettext ru
  plural_forms check ru.po
  plural_forms check app_ru.arb
  plural_forms check --format github locales/ru.json
  plural_forms check --ignore number-unclear --strict po/*.po
  msgunfmt ru.mo | plural_forms check --locale ru -
  plural_forms pack messages.json > ru.catalog
  plural_forms say ru.catalog sent name=Ann n=5";

// Which version it is.
pub(crate) const VERSION: &str = "plural_forms 0.1.0";

// Why a file gives no document of messages.
#[derive(Clone, Copy, Debug, Error)]
pub(crate) enum MessagesFault {
    // It can't be read.
    #[error("cannot read messages")]
    Read,
    // It has more than 4194304 bytes.
    #[error("messages too long")]
    TooLong,
    // It is no JSON text, from this line and column on.
    #[error("messages are not JSON: line {0} column {1}")]
    Json(usize, usize),
}

// Why the program fails.
#[derive(Debug, Drop, Error)]
pub(crate) enum Failure {
    // The words ask nothing, or numbers and rules would both be in standard input: what is wrong,
    // and how the program is used.
    #[error("{0}")]
    Usage(String),
    // The variable `PLURALS_RULES` isn't UTF-8.
    #[error("PLURALS_RULES: not UTF-8")]
    Variable,
    // The file can't be opened.
    #[error("{0}: cannot open")]
    Open(String),
    // A fault in words of its own.
    #[error("{0}")]
    Told(String),
    // The messages in this file have a fault.
    #[error("{0}: {1}")]
    Messages(String, MessagesFault),
    // The rules in this file have a fault.
    #[error("{0}: {1}")]
    File(String, FormsError),
    // The rules in standard input have a fault.
    #[error("standard input: {0}")]
    Input(FormsError),
    // The rules in this file are no JSON text, from this line and column on.
    #[error("{0}: rules are not JSON: line {1} column {2}")]
    FileJson(String, usize, usize),
    // The rules in standard input are none.
    #[error("standard input: rules are not JSON: line {0} column {1}")]
    InputJson(usize, usize),
    // Something else.
    #[error("{0}")]
    Other(FormsError),
    // The output can't be written.
    #[error("cannot write output")]
    Write,
    // Out of memory.
    #[error("out of memory")]
    Memory,
}

impl Failure {
    // Passes an answer on that has rules from this file, or from standard input.
    pub(crate) fn of_rules<T: Drop>(
        name: Option<String>,
        answer: Result<T, RulesFault>,
    ) -> Result<T, Failure> {
        match answer {
            Ok(answer) => Ok(answer),
            Err(RulesFault::Json(line, column)) => Err(match name {
                Some(name) => Failure::FileJson(name, line, column),
                None => Failure::InputJson(line, column),
            }),
            Err(RulesFault::Other(error)) => Err(Failure::of_error(name, error)),
        }
    }

    // Why there is no answer by rules from this file, or from standard input.
    fn of_error(name: Option<String>, error: FormsError) -> Failure {
        if !error.is_of_rules() {
            return Failure::Other(error);
        }
        match name {
            Some(name) => Failure::File(name, error),
            None => Failure::Input(error),
        }
    }

    // The exit status: 1 if the locale has no rules, otherwise 2.
    pub(crate) fn status(&self) -> u8 {
        match self {
            Failure::File(_, error) | Failure::Input(error) | Failure::Other(error) => {
                error.status()
            }
            Failure::Usage(_)
            | Failure::FileJson(_, _, _)
            | Failure::InputJson(_, _)
            | Failure::Variable
            | Failure::Open(_)
            | Failure::Told(_)
            | Failure::Messages(_, _)
            | Failure::Write
            | Failure::Memory => 2,
        }
    }
}

// What is wrong with a word, and how the program is used.
pub(crate) fn of_word(alloc: Global, fault: WordFault<'_>) -> Failure {
    match format!(in alloc; "{fault}\n{USAGE}") {
        Ok(text) => Failure::Usage(text),
        Err(_) => Failure::Memory,
    }
}

// A fault in words of its own.
pub(crate) fn told(text: Result<String, AllocError>) -> Failure {
    match text {
        Ok(text) => Failure::Told(text),
        Err(_) => Failure::Memory,
    }
}

// What is wrong with the words of the command line as bytes.
pub(crate) fn of_words(alloc: Global, error: RunError) -> Failure {
    match error {
        RunError::Memory => Failure::Memory,
        _ => of_word(alloc, WordFault::NotText),
    }
}
