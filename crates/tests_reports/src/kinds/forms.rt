//! What the program `plural_forms` prints.

use crate::kinds::message_reports::print_lines;
use finding_formats::Format;
use form_commands::{
    Checking, Content, FormsError, Question, TranslationFile, Verdict, answer_lines,
    answer_numbers, check_files, check_files_as, check_translations, list_forms, question_of,
    write_gettext,
};
use message_report::MessageFile;
use plural_fallback::Part;
use row_calls::call::Call;

/// Makes the call of a kind of this file. Returns whether there is such a kind.
pub fn make(kind: &str, call: &mut Call) -> bool {
    match kind {
        "forms_question" => forms_question(call),
        "forms_words" => forms_words(call),
        "forms_list" => forms_list(call),
        "forms_number" => forms_number(call),
        "forms_refusal" => forms_refusal(call),
        "forms_lines" => forms_lines(call),
        "forms_bytes" => forms_bytes(call),
        "forms_gettext" => forms_gettext(call),
        "forms_check" => forms_check(call, Format::Text),
        "forms_check_as" => forms_check_as(call),
        "forms_translations" => forms_translations(call),
        _ => return false,
    }
    true
}

// What three words ask.
fn forms_question(call: &mut Call) {
    let (first, second, third) = (call.text(), call.text(), call.text());
    let words = [first.as_str(), second.as_str(), third.as_str()];
    print_question(call, question_of(&words));
}

// What five words ask, but for the empty ones.
fn forms_words(call: &mut Call) {
    let texts = [
        call.text(),
        call.text(),
        call.text(),
        call.text(),
        call.text(),
    ];
    let mut words = Vec::new(call.alloc);
    for text in &texts {
        if !text.is_empty() {
            call.add_item(&mut words, text.as_str());
        }
    }
    print_question(call, question_of(words.as_slice()));
}

// Prints a question.
fn print_question(call: &mut Call, question: Option<Question<'_>>) {
    match question {
        Some(question) => call.print_name(&question),
        None => call.print("none"),
    }
}

// The forms of a locale, for cardinal numbers, by a text of rules.
fn forms_list(call: &mut Call) {
    let (rules, locale) = (call.text(), call.text());
    let mut text = call.writer();
    let answer = list_forms(
        call.alloc,
        Part::Cardinal,
        locale.as_str(),
        &mut rules.as_bytes(),
        &mut text,
    );
    print_answer(call, text.as_slice(), answer);
}

// Why a locale has no forms: the text, whether the rules are at fault, and the status.
fn forms_refusal(call: &mut Call) {
    let (rules, locale) = (call.text(), call.text());
    let mut text = call.writer();
    let answer = list_forms(
        call.alloc,
        Part::Cardinal,
        locale.as_str(),
        &mut rules.as_bytes(),
        &mut text,
    );
    match answer {
        Ok(_) => call.print("none"),
        Err(FormsError::Memory) if text.is_empty() => call.out_of_memory(),
        Err(error) => {
            call.print_value(&error);
            call.print(", ");
            call.print_truth(error.is_of_rules());
            call.print(", ");
            call.print_value(&error.status());
        }
    }
}

// The category of a number.
fn forms_number(call: &mut Call) {
    let (rules, locale, number) = (call.text(), call.text(), call.text());
    let (mut text, mut notes) = (call.writer(), call.writer());
    let numbers = [number.as_str()];
    let answer = answer_numbers(
        call.alloc,
        Part::Ordinal,
        locale.as_str(),
        &numbers,
        &mut rules.as_bytes(),
        &mut text,
        &mut notes,
    );
    print_noted(call, text.as_slice(), notes.as_slice(), answer);
}

// The categories of lines.
fn forms_lines(call: &mut Call) {
    let (rules, locale, lines) = (call.text(), call.text(), call.text());
    print_lines_by(call, rules.as_str(), locale.as_str(), lines.as_bytes());
}

// The categories of lines that are bytes.
fn forms_bytes(call: &mut Call) {
    let (rules, locale, lines) = (call.text(), call.text(), call.bytes());
    print_lines_by(call, rules.as_str(), locale.as_str(), lines.as_slice());
}

// Prints the categories of lines by the rules of a locale.
fn print_lines_by(call: &mut Call, rules: &str, locale: &str, lines: &[u8]) {
    let (mut text, mut notes) = (call.writer(), call.writer());
    let mut rest = lines;
    let answer = answer_lines(
        call.alloc,
        Part::Cardinal,
        locale,
        &mut rules.as_bytes(),
        &mut rest,
        &mut text,
        &mut notes,
    );
    print_noted(call, text.as_slice(), notes.as_slice(), answer);
}

// The line for gettext.
fn forms_gettext(call: &mut Call) {
    let (rules, locale) = (call.text(), call.text());
    let (mut text, mut notes) = (call.writer(), call.writer());
    let answer = write_gettext(
        call.alloc,
        Part::Cardinal,
        locale.as_str(),
        &mut rules.as_bytes(),
        &mut text,
        &mut notes,
    );
    print_noted(call, text.as_slice(), notes.as_slice(), answer);
}

// The report of two files of messages, in a format.
fn forms_check_as(call: &mut Call) {
    let word = call.text();
    match Format::from_word(word.as_str()) {
        Some(format) => forms_check(call, format),
        None => call.not("format"),
    }
}

// The report of two files of messages. As lines it is that of the call without a format.
fn forms_check(call: &mut Call, format: Format) {
    let rules = call.text();
    let (first, second) = (call.value(), call.value());
    let files = [
        MessageFile {
            name: "a.json",
            document: &first,
        },
        MessageFile {
            name: "b.json",
            document: &second,
        },
    ];
    let (mut text, mut notes) = (call.writer(), call.writer());
    let mut input = rules.as_bytes();
    let answer = match format {
        Format::Text => check_files(call.alloc, &files, &mut input, &mut text, &mut notes),
        _ => check_files_as(
            call.alloc, &files, &format, &mut input, &mut text, &mut notes,
        ),
    };
    print_noted(call, text.as_slice(), notes.as_slice(), answer);
}

// What is found in two files of translators, of which the first may be unread: the format, the locale
// that overrides theirs, a code that isn't told, `strict` or nothing, the rules, and the name and the
// text of each.
fn forms_translations(call: &mut Call) {
    let (word, locale) = (call.text(), call.text());
    let (ignored, strict) = (call.text(), call.text());
    let rules = call.text();
    let (first, first_text) = (call.text(), call.text());
    let (second, second_text) = (call.text(), call.text());
    let Some(format) = Format::from_word(word.as_str()) else {
        return call.not("format");
    };
    let files = [
        file_of(first.as_str(), content_of(first_text.as_str())),
        file_of(second.as_str(), Content::Bytes(second_text.as_bytes())),
    ];
    let ignored = [ignored.as_str()];
    let is_strict = strict.as_str() == "strict";
    let checking = checking_of(format, locale.as_str(), &ignored, is_strict);
    let (mut text, mut notes) = (call.writer(), call.writer());
    let mut input = rules.as_bytes();
    let answer = check_translations(
        call.alloc, &files, checking, &mut input, &mut text, &mut notes,
    );
    print_noted(call, text.as_slice(), notes.as_slice(), answer);
}

// What is in a file of this text; without a text it can't be read.
fn content_of<'a>(text: &'a str) -> Content<'a> {
    if text.is_empty() {
        Content::Unread("it can't be opened")
    } else {
        Content::Bytes(text.as_bytes())
    }
}

// A file of this name and content.
fn file_of<'a>(name: &'a str, content: Content<'a>) -> TranslationFile<'a> {
    TranslationFile { name, content }
}

// How files are checked, in their own locales if there is no text of one.
fn checking_of<'a>(
    format: Format,
    locale: &'a str,
    ignored: &'a [&'a str],
    is_strict: bool,
) -> Checking<'a> {
    let locale = given(locale);
    Checking {
        format,
        locale,
        ignored,
        is_strict,
    }
}

// A text, if it isn't empty.
fn given<'a>(text: &'a str) -> Option<&'a str> {
    if text.is_empty() { None } else { Some(text) }
}

// Prints what was written, the notes, if there are some, and the status.
fn print_noted(call: &mut Call, text: &[u8], notes: &[u8], answer: Result<Verdict, FormsError>) {
    if notes.is_empty() {
        print_answer(call, text, answer);
        return;
    }
    print_lines(call, text);
    print_answer(call, notes, answer);
}

// Prints what was written, and the status; where notes would change it, also the strict one.
fn print_answer(call: &mut Call, text: &[u8], answer: Result<Verdict, FormsError>) {
    print_lines(call, text);
    call.separate(" | ");
    match answer {
        Ok(verdict) => {
            call.print_value(&verdict.status());
            if verdict.strict().status() != verdict.status() {
                call.print(", strict: ");
                call.print_value(&verdict.strict().status());
            }
        }
        Err(FormsError::Memory) if text.is_empty() => call.out_of_memory(),
        Err(error) => {
            call.print_value(&error);
            call.separate(", ");
            call.print_value(&error.status());
        }
    }
}
