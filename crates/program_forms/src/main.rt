//! The program `plural_forms`: which forms a language has, which of them a number takes, and which
//! a translation lacks.
#![tactic(auto)]

mod answers;
mod catalog_faults;
mod check_words;
mod exponents;
mod failure;
mod opened;
mod packing;
mod rules;
mod rules_text;
mod saying;
mod spoken_rules;
mod word_fault;

use answers::{Asked, print, write_answer};
use check_words::{CheckWords, Unsaid, said_by};
use exponents::{EXPONENT, may_mean_exponents};
use failure::{EXAMPLES, Failure, USAGE, VERSION, of_word, of_words};
use form_commands::{FormsError, Question, TranslationFile, Verdict, Wanted, question_of};
use opened::{Opened, documents_of, has_input, have_translations, open_all, translations_of};
use packing::pack;
use plural_commands::arguments::arguments;
use plural_documents::read_input;
use rules::{open, rules_name};
use rules_text::{RulesFault, fault_in};
use saying::say;
use std::io::Read;
use std::process::ExitCode;
use word_fault::{WordFault, fault_of};

// Writes the answer to the words of the command line.
fn answer_words(rt: &HostRuntime) -> Result<Verdict, Failure> {
    let owned = match arguments(rt.alloc(), rt) {
        Ok(owned) => owned,
        Err(error) => return Err(of_words(rt.alloc(), error)),
    };
    let Ok(words) = owned
        .iter()
        .map(|word| word.as_str())
        .collect::<Vec<&str>>(rt.alloc())
    else {
        return Err(Failure::Memory);
    };
    match words.as_slice() {
        [command, rest @ ..] if *command == "pack" => pack(rt, rest),
        [command, rest @ ..] if *command == "say" => say(rt, rest),
        words => answer_question(rt, words),
    }
}

// Writes the answer to the words that name no catalogue.
fn answer_question(rt: &HostRuntime, words: &[&str]) -> Result<Verdict, Failure> {
    match question_of(words) {
        Some(Question::Help) => help(rt),
        Some(Question::Version) => print(&mut rt.stdout(), VERSION),
        Some(Question::List(wanted)) => answer(rt, wanted.file, Asked::List(wanted)),
        Some(Question::Gettext(wanted)) => answer(rt, wanted.file, Asked::Gettext(wanted)),
        Some(Question::Category(wanted, numbers)) => category(rt, wanted, numbers),
        Some(Question::Check(_, _, _)) | None => check(rt, words),
    }
}

// Writes how the program is used, with examples.
fn help(rt: &HostRuntime) -> Result<Verdict, Failure> {
    let mut output = rt.stdout();
    print(&mut output, USAGE)?;
    print(&mut output, EXAMPLES)
}

// Writes the categories of the numbers, or of those in the input, and tells how an exponent is
// written where one may be meant.
fn category<'a>(
    rt: &HostRuntime,
    wanted: Wanted<'a>,
    numbers: &'a [&'a str],
) -> Result<Verdict, Failure> {
    let verdict = answer(rt, wanted.file, categories(wanted, numbers))?;
    if verdict == Verdict::Faults && may_mean_exponents(numbers) {
        let _ = eprintln!(rt; "{EXPONENT}");
    }
    Ok(verdict)
}

// What is asked of the numbers, or of those in the input.
fn categories<'a>(wanted: Wanted<'a>, numbers: &'a [&'a str]) -> Asked<'a> {
    if numbers.is_empty() {
        Asked::Lines(wanted)
    } else {
        Asked::Numbers(wanted, numbers)
    }
}

// Writes what files of messages lack.
fn check(rt: &HostRuntime, words: &[&str]) -> Result<Verdict, Failure> {
    let rest = match words {
        [command, rest @ ..] if *command == "check" => rest,
        _ => return Err(of_word(rt.alloc(), fault_of(words))),
    };
    match said_by(rt.alloc(), rest) {
        Ok(said) => check_said(rt, &said),
        Err(Unsaid::Word(fault)) => Err(of_word(rt.alloc(), fault)),
        Err(Unsaid::Memory) => Err(Failure::Memory),
    }
}

// Writes what the files lack that words name. The rules and one of these can't both be in the input.
fn check_said(rt: &HostRuntime, said: &CheckWords<'_>) -> Result<Verdict, Failure> {
    let names = said.names.as_slice();
    if has_input(names) && rules_name(rt, said.rules)?.is_none() {
        return Err(of_word(rt.alloc(), WordFault::Messages));
    }
    let all = open_all(rt, names)?;
    if said.has_more() || have_translations(all.as_slice()) {
        return check_opened(rt, said, all.as_slice());
    }
    let files = documents_of(rt.alloc(), all.as_slice())?;
    let asked = Asked::Check(said.format(), files.as_slice());
    let verdict = answer(rt, said.rules, asked)?;
    Ok(if said.is_strict {
        verdict.strict()
    } else {
        verdict
    })
}

// Writes what files of translators lack.
fn check_opened<'a>(
    rt: &HostRuntime,
    said: &'a CheckWords<'a>,
    all: &'a [Opened<'a>],
) -> Result<Verdict, Failure> {
    let Ok(files) = translations_of(rt.alloc(), all) else {
        return Err(Failure::Memory);
    };
    answer(rt, said.rules, translations(said, files.as_slice()))
}

// What is asked of files of translators.
fn translations<'a>(said: &'a CheckWords<'a>, files: &'a [TranslationFile<'a>]) -> Asked<'a> {
    Asked::Translations(said.checking(), files)
}

// Writes the answer by the rules in a file, or by those in the input. Then the numbers can't be
// there.
fn answer(rt: &HostRuntime, file: Option<&str>, asked: Asked<'_>) -> Result<Verdict, Failure> {
    let Some(name) = rules_name(rt, file)? else {
        if asked.has_input() {
            return Err(of_word(rt.alloc(), WordFault::Numbers));
        }
        let answer = answer_by(rt, asked, &mut rt.stdin());
        return Failure::of_rules(None, answer);
    };
    let mut rules = open(rt, &name)?;
    let answer = answer_by(rt, asked, &mut rules);
    Failure::of_rules(Some(name), answer)
}

// Writes the answer by the rules in a reader.
fn answer_by<R: Read>(
    rt: &HostRuntime,
    asked: Asked<'_>,
    rules: &mut R,
) -> Result<Verdict, RulesFault> {
    match read_input(rt.alloc(), rules) {
        Ok(bytes) => answer_in(rt, asked, bytes.as_slice()),
        Err(fault) => Err(RulesFault::Other(FormsError::from(fault))),
    }
}

// Writes the answer by the rules in these bytes.
fn answer_in(rt: &HostRuntime, asked: Asked<'_>, bytes: &[u8]) -> Result<Verdict, RulesFault> {
    let (alloc, mut input, mut output, mut notes) = (
        rt.alloc(),
        rt.stdin(),
        rt.stdout(),
        rt.stderr(),
    );
    let mut rest = bytes;
    match write_answer(alloc, asked, &mut rest, &mut input, &mut output, &mut notes) {
        Ok(verdict) => Ok(verdict),
        Err(error) => Err(fault_in(alloc, bytes, error)),
    }
}

fn main(rt: HostRuntime) -> ExitCode {
    match answer_words(&rt) {
        Ok(verdict) => ExitCode::from(verdict.status()),
        Err(failure) => {
            let _ = eprintln!(rt; "plural_forms: {failure}");
            ExitCode::from(failure.status())
        }
    }
}
