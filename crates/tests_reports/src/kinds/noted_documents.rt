//! Reports of documents with their notes.

use crate::kinds::message_reports::print_lines;
use crate::kinds::sarif_members::print_log;
use document_formats::NotedFormat;
use document_notes::run::write_noted;
use document_report::CheckError;
use finding_formats::Format;
use row_calls::call::Call;
use serde_json::Value;

/// Makes the call of a kind of this file. Returns whether there is such a kind.
pub fn make(kind: &str, call: &mut Call) -> bool {
    match kind {
        "noted_document" => noted(call, false),
        "strict_document" => noted(call, true),
        "noted_log" => noted_log(call, false),
        "strict_log" => noted_log(call, true),
        _ => return false,
    }
    true
}

// The lines of a document's report with its notes in a format, and the status of its verdict.
fn noted(call: &mut Call, is_strict: bool) {
    let word = call.text();
    let Some(format) = Format::from_word(word.as_str()) else {
        return call.not("a format");
    };
    if let Some((written, status)) = next_report(call, format, is_strict) {
        print_lines(call, written.as_slice());
        call.print(" | status ");
        call.print_value(&status);
    }
}

// What a log of SARIF of a document's report with its notes has, read again from its text, and the
// status of the verdict.
fn noted_log(call: &mut Call, is_strict: bool) {
    if let Some((written, status)) = next_report(call, Format::Sarif, is_strict) {
        match Value::from_slice(call.alloc, written.as_slice()) {
            Ok(log) => print_log(call, &log),
            Err(_) => call.not("a log"),
        }
        call.print(" | status ");
        call.print_value(&status);
    }
}

// Returns the report of the next arguments, a file's name and a document's bytes, and the status of
// its verdict; or prints why there is none.
fn next_report(call: &mut Call, format: Format, is_strict: bool) -> Option<(Vec<u8>, u8)> {
    let (file, document) = (call.optional_text(), call.text());
    let file = file.as_deref();
    let printer = NotedFormat {
        file,
        format,
        is_strict,
    };
    let mut written = call.writer();
    match write_noted(
        call.alloc,
        &printer,
        is_strict,
        document.as_bytes(),
        &mut written,
    ) {
        Ok(verdict) => Some((written, verdict.status())),
        Err(CheckError::Memory) if written.is_empty() => {
            call.out_of_memory();
            None
        }
        Err(error) => {
            call.print_value(&error);
            None
        }
    }
}
