//! Which word of `pack` or `say` is wrong, and why.

use crate::word_fault::WordFault;

// What is wrong with words behind a command of catalogues that name nothing.
pub(crate) fn fault_of_words<'w>(command: &'w str, words: &[&'w str]) -> WordFault<'w> {
    let mut has_locale = false;
    let mut has_rules = false;
    // Whether this word is the one behind an option.
    let mut is_taken = false;
    // Whether the file was named.
    let mut has_file = false;
    for word in words {
        let is_locale = *word == "--locale";
        let is_rules = *word == "--rules" && command == "say";
        if is_taken {
            is_taken = false;
        } else if has_file {
            return behind_file(*word);
        } else if !word.starts_with("--") {
            has_file = true;
        } else if !is_locale && !is_rules {
            return WordFault::Option(*word);
        } else if is_locale && has_locale || is_rules && has_rules {
            return WordFault::Twice(*word);
        } else {
            has_locale = has_locale || is_locale;
            has_rules = has_rules || is_rules;
            is_taken = true;
        }
    }
    match words.last() {
        Some(last) if is_taken => WordFault::NoWord(*last),
        _ => no_word(command, has_file),
    }
}

// What is wrong with a word behind the file of `pack`.
fn behind_file<'w>(word: &'w str) -> WordFault<'w> {
    if word.starts_with("--") {
        WordFault::Late(word)
    } else {
        WordFault::Further(word)
    }
}

// What isn't named.
fn no_word<'w>(command: &'w str, has_file: bool) -> WordFault<'w> {
    if has_file {
        WordFault::NoKey
    } else {
        WordFault::NoFile(command)
    }
}
