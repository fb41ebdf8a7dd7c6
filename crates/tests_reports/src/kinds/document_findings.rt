//! Reports of documents, printed in formats.

use crate::kinds::message_reports::print_lines;
use crate::kinds::sarif_members::print_log;
use document_formats::{Asked, Code, asked_by, format_of, print, print_file};
use document_report::report_of;
use finding_formats::{Format, file_reference};
use row_calls::call::Call;
use serde_json::Value;

/// Makes the call of a kind of this file. Returns whether there is such a kind.
pub fn make(kind: &str, call: &mut Call) -> bool {
    match kind {
        "document_formats" => printed_document(call),
        "document_log" => document_log(call),
        "document_codes" => document_codes(call),
        "document_words" => document_words(call),
        "document_file" => file_document(call),
        "document_asked" => document_asked(call),
        "file_reference" => reference_of_file(call),
        _ => return false,
    }
    true
}

// The lines of a document's report in a format, or `none`.
fn printed_document(call: &mut Call) {
    let word = call.text();
    let Some(format) = Format::from_word(word.as_str()) else {
        return call.not("a format");
    };
    let text = next_text(call, format);
    print_lines(call, text.as_bytes());
    call.print_none_if_empty();
}

// Returns the report of the document of the next argument, in a format.
fn next_text(call: &mut Call, format: Format) -> String {
    let document = call.value();
    match report_of(call.alloc, &document) {
        Ok(report) => {
            let text = print(call.alloc, format, &report);
            call.made(text)
        }
        Err(_) => {
            call.out_of_memory();
            call.empty()
        }
    }
}

// The lines of a file's report in a format, or `none`.
fn file_document(call: &mut Call) {
    let word = call.text();
    let Some(format) = Format::from_word(word.as_str()) else {
        return call.not("a format");
    };
    let file = call.text();
    let text = next_file_text(call, format, file.as_str());
    print_lines(call, text.as_bytes());
    call.print_none_if_empty();
}

// Returns the report of the document of the next argument, in a format, as that of a file.
fn next_file_text(call: &mut Call, format: Format, file: &str) -> String {
    let document = call.value();
    match report_of(call.alloc, &document) {
        Ok(report) => {
            let text = print_file(call.alloc, format, file, &report);
            call.made(text)
        }
        Err(_) => {
            call.out_of_memory();
            call.empty()
        }
    }
}

// The name of a file as a URI reference.
fn reference_of_file(call: &mut Call) {
    let name = call.text();
    let reference = file_reference(call.alloc, name.as_str());
    let text = call.made(reference);
    call.print_quoted(text.as_str());
}

// What a log of SARIF has, read again from its text.
fn document_log(call: &mut Call) {
    let text = next_text(call, Format::Sarif);
    match Value::from_str(call.alloc, text.as_str()) {
        Ok(log) => print_log(call, &log),
        Err(_) => call.not("a log"),
    }
}

// The codes of a document's findings.
fn document_codes(call: &mut Call) {
    let document = call.value();
    match report_of(call.alloc, &document) {
        Ok(report) => {
            for finding in report.findings() {
                call.separate(" ");
                call.print(Code::of(&finding.cause).as_str());
            }
        }
        Err(_) => call.out_of_memory(),
    }
}

// The text of a value, or an empty one.
fn word_of<'a>(value: &'a Value) -> &'a str {
    match value.as_str() {
        Some(word) => word,
        None => "",
    }
}

// The word of the format that words name, or `none`.
fn document_words(call: &mut Call) {
    let value = call.value();
    let Some(items) = value.as_array() else {
        return call.not("a list");
    };
    let Ok(words) = items
        .iter()
        .map(|item| word_of(item))
        .collect::<Vec<&str>>(call.alloc)
    else {
        return call.out_of_memory();
    };
    match format_of(words.as_slice()) {
        Some(format) => call.print(format.as_str()),
        None => call.print("none"),
    }
}

// What the words of a command line ask, or which is wrong.
fn document_asked(call: &mut Call) {
    let value = call.value();
    let Some(items) = value.as_array() else {
        return call.not("a list");
    };
    let Ok(words) = items
        .iter()
        .map(|item| word_of(item))
        .collect::<Vec<&str>>(call.alloc)
    else {
        return call.out_of_memory();
    };
    match asked_by(words.as_slice()) {
        Ok(asked) => print_asked(call, asked),
        Err(fault) => call.print_value(&fault),
    }
}

// Prints what is asked, and the files with ` | ` between them.
fn print_asked(call: &mut Call, asked: Asked<'_>) {
    match asked {
        Asked::Help => call.print("help"),
        Asked::Version => call.print("version"),
        Asked::Reports(format, files) => {
            call.print(format.as_str());
            for file in files {
                call.separate(" | ");
                call.print(*file);
            }
        }
    }
}
