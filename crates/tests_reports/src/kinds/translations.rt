//! Translators' files, read into documents of messages.

use icu_plurals::JsonProvider;
use message_report::{Form, MessageFile, found_in_files};
use plural_fallback::FallbackProvider;
use row_calls::call::Call;
use serde_json::Value;
use translation_files::{FileCounts, FileMessages, FileNotice, MessageKind, read_po};

/// Makes the call of a kind of this file. Returns whether there is such a kind.
pub fn make(kind: &str, call: &mut Call) -> bool {
    match kind {
        "po_file" => po_file(call),
        "po_file_bytes" => po_file_bytes(call),
        "po_findings" => po_findings(call),
        "po_lines" => po_lines(call),
        _ => return false,
    }
    true
}

// What is read of a catalog: the rules, its name, the locale that overrides its own, and its text.
fn next_po(call: &mut Call) -> Option<FileMessages> {
    let rules = call.value();
    let name = call.text();
    let locale = call.text();
    let text = call.text();
    po_of(
        call,
        &rules,
        name.as_str(),
        locale.as_str(),
        text.as_bytes(),
    )
}

// What is read of a catalog.
fn po_of(
    call: &mut Call,
    rules: &Value,
    name: &str,
    locale: &str,
    bytes: &[u8],
) -> Option<FileMessages> {
    let provider = match JsonProvider::from_value(call.alloc, rules) {
        Ok(provider) => provider,
        Err(error) => {
            call.refused("rules", &error);
            return None;
        }
    };
    let source = FallbackProvider {
        provider: &provider,
        locales: rules,
    };
    let locale = if locale.is_empty() {
        None
    } else {
        Some(locale)
    };
    match read_po(call.alloc, name, bytes, &source, locale) {
        Ok(found) => Some(found),
        Err(_) => {
            call.out_of_memory();
            None
        }
    }
}

// What is read of a catalog: how many messages were read, and are checked, noted and left out; what
// is told of it; and its document.
fn po_file(call: &mut Call) {
    if let Some(found) = next_po(call) {
        print_file(call, &found);
    }
}

// The same of bytes.
fn po_file_bytes(call: &mut Call) {
    let rules = call.value();
    let name = call.text();
    let locale = call.text();
    let bytes = call.bytes();
    let found = po_of(
        call,
        &rules,
        name.as_str(),
        locale.as_str(),
        bytes.as_slice(),
    );
    if let Some(found) = found {
        print_file(call, &found);
    }
}

// Prints what is read of a file.
fn print_file(call: &mut Call, found: &FileMessages) {
    print_counts(call, found.counts);
    for notice in found.notices.iter() {
        call.print(" // ");
        print_notice(call, notice);
    }
    call.print(" // ");
    call.print_json(&found.document);
}

// Prints what became of the messages of a file.
fn print_counts(call: &mut Call, counts: FileCounts) {
    call.print_value(&counts.read);
    call.print(": ");
    call.print_value(&counts.checked);
    call.print(" ");
    call.print_value(&counts.noted);
    call.print(" ");
    call.print_value(&counts.left_out);
}

// Prints a notice: its line, how grave it is, its code and its text.
fn print_notice(call: &mut Call, notice: &FileNotice) {
    if let Some(line) = notice.line {
        call.print_value(&line);
        call.print(": ");
    }
    call.print(notice.severity.as_str());
    call.print(" [");
    call.print(notice.code.as_str());
    call.print("] ");
    call.print(notice.text.as_str());
}

// The line of the message with this key, that of its form `one`, and what stands for its number.
fn po_lines(call: &mut Call) {
    let key = call.text();
    let locale = call.text();
    let Some(found) = next_po(call) else {
        return;
    };
    let kind = MessageKind::Cardinal;
    let (locale, key) = (locale.as_str(), key.as_str());
    print_line(call, found.line(locale, kind, key, None));
    call.print(" ");
    print_line(call, found.line(locale, kind, key, Some(Form::ExplicitOne)));
    call.print(" ");
    call.print(found.placeholder(locale, kind, key).unwrap_or("none"));
}

// Prints a line, or `none`.
fn print_line(call: &mut Call, line: Option<u64>) {
    match line {
        Some(line) => call.print_value(&line),
        None => call.print("none"),
    }
}

// What is found in the messages of a catalog, each with its line, or `none`.
fn po_findings(call: &mut Call) {
    let rules = call.value();
    let name = call.text();
    let locale = call.text();
    let text = call.text();
    let Some(found) = po_of(
        call,
        &rules,
        name.as_str(),
        locale.as_str(),
        text.as_bytes(),
    ) else {
        return;
    };
    let provider = match JsonProvider::from_value(call.alloc, &rules) {
        Ok(provider) => provider,
        Err(error) => return call.refused("rules", &error),
    };
    let source = FallbackProvider {
        provider: &provider,
        locales: &rules,
    };
    let file = MessageFile {
        name: name.as_str(),
        document: &found.document,
    };
    let Ok(report) = found_in_files(call.alloc, &source, &[file]) else {
        return call.out_of_memory();
    };
    for finding in report.findings() {
        call.separate(" // ");
        print_line(call, found.line_at(&finding.place));
        call.print(" ");
        let line = finding.line(call.alloc);
        let line = call.made(line);
        call.print(line.as_str());
    }
    call.print_none_if_empty();
}
