//! The program `plurals_check`: checks documents of plural rules and ranges.
#![tactic(auto)]

mod failure;
mod report;

use document_formats::{Asked, WordFault, asked_by};
use document_report::{CheckError, Verdict};
use failure::{EXAMPLES, Failure, NOT_TEXT, USAGE, VERSION};
use plural_commands::RunError;
use plural_commands::arguments::arguments;
use plural_documents::write_output;
use report::{Way, write_report};
use std::fs::File;
use std::process::ExitCode;

// The name of standard input.
const INPUT: &str = "-";

// Answers the words of the command line. Returns the status.
fn answer(rt: &HostRuntime) -> Result<u8, Failure> {
    let owned = match arguments(rt.alloc(), rt) {
        Ok(owned) => owned,
        Err(RunError::Memory) => return Err(Failure::from(CheckError::Memory)),
        Err(_) => return Ok(tell_usage(rt, NOT_TEXT)),
    };
    let Ok(words) = owned
        .iter()
        .map(|word| word.as_str())
        .collect::<Vec<&str>>(rt.alloc())
    else {
        return Err(Failure::from(CheckError::Memory));
    };
    match words.as_slice() {
        [option, rest @ ..] if *option == "--strict" => answer_words(rt, true, rest),
        all => answer_words(rt, false, all),
    }
}

// Answers the words behind `--strict`, or without it.
fn answer_words(rt: &HostRuntime, is_strict: bool, words: &[&str]) -> Result<u8, Failure> {
    match asked_by(words) {
        Ok(asked) => answer_asked(rt, is_strict, asked),
        Err(fault) => tell_fault(rt, fault),
    }
}

// Answers what is asked.
fn answer_asked(rt: &HostRuntime, is_strict: bool, asked: Asked<'_>) -> Result<u8, Failure> {
    match asked {
        Asked::Help => help(rt),
        Asked::Version => print(rt, VERSION),
        Asked::Reports(format, []) => report_input(rt, Way { format, is_strict }),
        Asked::Reports(format, files) => Ok(report_files(rt, Way { format, is_strict }, files)),
    }
}

// Writes how the program is used, with examples.
fn help(rt: &HostRuntime) -> Result<u8, Failure> {
    print(rt, USAGE)?;
    print(rt, EXAMPLES)
}

// Writes a text.
fn print(rt: &HostRuntime, text: &str) -> Result<u8, Failure> {
    match write_output(&mut rt.stdout(), text.as_bytes()) {
        Ok(()) => Ok(0),
        Err(_) => Err(Failure::from(CheckError::Write)),
    }
}

// Says which word is wrong, and how the program is used.
fn tell_fault(rt: &HostRuntime, fault: WordFault<'_>) -> Result<u8, Failure> {
    match format!(in rt.alloc(); "{fault}") {
        Ok(text) => Ok(tell_usage(rt, text.as_str())),
        Err(_) => Err(Failure::from(CheckError::Memory)),
    }
}

// Says what is wrong with the words, and how the program is used.
fn tell_usage(rt: &HostRuntime, text: &str) -> u8 {
    let _ = eprintln!(rt; "plurals_check: {text}\n{USAGE}");
    2
}

// Writes the report of the document in standard input.
fn report_input(rt: &HostRuntime, way: Way) -> Result<u8, Failure> {
    let verdict = write_report(rt, way, None, &mut rt.stdin())?;
    Ok(verdict.status())
}

// Writes the report of each file, and says which of them have none. Returns the highest status.
fn report_files(rt: &HostRuntime, way: Way, files: &[&str]) -> u8 {
    let mut status = 0;
    for file in files {
        status = status.max(report_file(rt, way, *file));
    }
    status
}

// Writes the report of a file, or says why there is none. Returns the status.
fn report_file(rt: &HostRuntime, way: Way, file: &str) -> u8 {
    match report_of_file(rt, way, file) {
        Ok(verdict) => verdict.status(),
        Err(failure) => {
            let _ = eprintln!(rt; "plurals_check: {file}: {failure}");
            2
        }
    }
}

// Writes the report of a file.
fn report_of_file(rt: &HostRuntime, way: Way, file: &str) -> Result<Verdict, Failure> {
    if file == INPUT {
        return write_report(rt, way, Some(file), &mut rt.stdin());
    }
    match File::open(rt, file) {
        Ok(mut opened) => write_report(rt, way, Some(file), &mut opened),
        Err(_) => Err(Failure::Open),
    }
}

fn main(rt: HostRuntime) -> ExitCode {
    match answer(&rt) {
        Ok(status) => ExitCode::from(status),
        Err(failure) => {
            let _ = eprintln!(rt; "plurals_check: {failure}");
            ExitCode::from(2)
        }
    }
}
