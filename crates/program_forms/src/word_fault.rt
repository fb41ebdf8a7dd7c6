//! Which word of the command line is wrong, and why.

use thiserror::Error;

// Which word is wrong, and why.
#[derive(Clone, Copy, Debug, Error)]
pub(crate) enum WordFault<'w> {
    // There is no word.
    #[error("no command is named")]
    NoCommand,
    // A word isn't UTF-8.
    #[error("a word is not UTF-8")]
    NotText,
    // The first word is no command.
    #[error("{0}: not a command")]
    Command(&'w str),
    // Behind the command no locale is named.
    #[error("{0}: no locale is named")]
    NoLocale(&'w str),
    // Behind the command no file is named.
    #[error("{0}: no file is named")]
    NoFile(&'w str),
    // Behind the catalogue no key is named.
    #[error("say: no key is named")]
    NoKey,
    // The word gives no value.
    #[error("{0}: not NAME=VALUE")]
    NoValue(&'w str),
    // Behind the option stands no word.
    #[error("{0}: no word follows")]
    NoWord(&'w str),
    // The option is none of the command, or not there.
    #[error("{0}: not an option here")]
    Option(&'w str),
    // The option or the argument was given before.
    #[error("{0}: given twice")]
    Twice(&'w str),
    // The option stands behind a file.
    #[error("{0}: options stand before the files")]
    Late(&'w str),
    // The word is one too many.
    #[error("{0}: one word too many")]
    Further(&'w str),
    // The word behind `--format` is no format.
    #[error("--format {0}: not a format")]
    Format(&'w str),
    // The word behind `--ignore` is no code.
    #[error("--ignore {0}: not a code")]
    Code(&'w str),
    // Both would be in standard input.
    #[error("the rules and the numbers would both be in standard input: name a file of rules")]
    Numbers,
    // Both would be in standard input.
    #[error("the rules and the file - would both be in standard input: name a file of rules")]
    Messages,
}

// What is wrong with words that ask nothing.
pub(crate) fn fault_of<'w>(words: &[&'w str]) -> WordFault<'w> {
    match words {
        [] => WordFault::NoCommand,
        [word, rest @ ..] => match *word {
            "--help" | "--version" => last_word(*word, rest),
            "list" | "gettext" => fault_behind(*word, false, rest),
            "category" => fault_behind(*word, true, rest),
            _ => WordFault::Command(*word),
        },
    }
}

// What is wrong with words behind a word that stands alone.
fn last_word<'w>(word: &'w str, rest: &[&'w str]) -> WordFault<'w> {
    match rest {
        [] => WordFault::Command(word),
        [next, ..] => WordFault::Further(*next),
    }
}

// What is wrong with the words behind a command, where numbers may stand or not.
fn fault_behind<'w>(command: &'w str, has_numbers: bool, words: &[&'w str]) -> WordFault<'w> {
    match words {
        [] => WordFault::NoLocale(command),
        [_, rest @ ..] => fault_of_options(has_numbers, rest),
    }
}

// What is wrong with the words behind a locale.
fn fault_of_options<'w>(has_numbers: bool, words: &[&'w str]) -> WordFault<'w> {
    let mut has_part = false;
    let mut has_rules = false;
    // Whether this word is the one behind `--rules`.
    let mut is_taken = false;
    // Whether this word stands behind a number.
    let mut is_late = false;
    for word in words {
        let is_part = *word == "--ordinal";
        let is_rules = *word == "--rules";
        if is_taken {
            is_taken = false;
        } else if !word.starts_with("--") {
            if !has_numbers {
                return WordFault::Further(*word);
            }
            is_late = true;
        } else if is_late || !is_part && !is_rules {
            return WordFault::Option(*word);
        } else if is_part && has_part || is_rules && has_rules {
            return WordFault::Twice(*word);
        } else {
            has_part = has_part || is_part;
            has_rules = has_rules || is_rules;
            is_taken = is_rules;
        }
    }
    match words.last() {
        Some(last) if is_taken => WordFault::NoWord(*last),
        _ => WordFault::NoCommand,
    }
}
