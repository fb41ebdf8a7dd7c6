//! The answers, over any readers and writers.

use crate::failure::Failure;
use finding_formats::Format;
use form_commands::{
    Checking, FormsError, TranslationFile, Verdict, Wanted, answer_lines, answer_numbers,
    check_files_as, check_translations, list_forms, write_gettext,
};
use message_report::MessageFile;
use plural_documents::write_output;
use std::alloc::Global;
use std::io::{Read, Write};

// What is asked of rules.
#[derive(Clone, Copy)]
pub(crate) enum Asked<'a> {
    // Which forms a language has.
    List(Wanted<'a>),
    // How gettext's files number the forms of a language.
    Gettext(Wanted<'a>),
    // Which categories these numbers have.
    Numbers(Wanted<'a>, &'a [&'a str]),
    // Which categories the numbers in the input have.
    Lines(Wanted<'a>),
    // What these files of messages lack, in a format.
    Check(Format, &'a [MessageFile<'a>]),
    // What these files of translators lack.
    Translations(Checking<'a>, &'a [TranslationFile<'a>]),
}

impl<'a> Asked<'a> {
    // Whether the input is read for the numbers.
    pub(crate) fn has_input(&self) -> bool {
        matches!(self, Asked::Lines(_))
    }
}

// Writes the answer by the rules.
pub(crate) fn write_answer<R: Read, N: Read, W: Write, E: Write>(
    alloc: Global,
    asked: Asked<'_>,
    rules: &mut R,
    input: &mut N,
    output: &mut W,
    notes: &mut E,
) -> Result<Verdict, FormsError> {
    match asked {
        Asked::List(wanted) => list_forms(alloc, wanted.part, wanted.locale, rules, output),
        Asked::Gettext(wanted) => {
            write_gettext(alloc, wanted.part, wanted.locale, rules, output, notes)
        }
        Asked::Numbers(wanted, numbers) => answer_numbers(
            alloc,
            wanted.part,
            wanted.locale,
            numbers,
            rules,
            output,
            notes,
        ),
        Asked::Lines(wanted) => answer_lines(
            alloc,
            wanted.part,
            wanted.locale,
            rules,
            input,
            output,
            notes,
        ),
        Asked::Check(format, files) => {
            check_files_as(alloc, files, &format, rules, output, notes)
        }
        Asked::Translations(checking, files) => {
            check_translations(alloc, files, checking, rules, output, notes)
        }
    }
}

// Writes a text and a newline.
pub(crate) fn print<W: Write>(output: &mut W, text: &str) -> Result<Verdict, Failure> {
    print_bytes(output, text.as_bytes())?;
    print_bytes(output, b"\n")
}

// Writes bytes.
pub(crate) fn print_bytes<W: Write>(output: &mut W, bytes: &[u8]) -> Result<Verdict, Failure> {
    match write_output(output, bytes) {
        Ok(()) => Ok(Verdict::Complete),
        Err(_) => Err(Failure::Write),
    }
}
