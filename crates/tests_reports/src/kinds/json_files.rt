//! JSON files of messages.

use icu_plurals::JsonProvider;
use plural_fallback::FallbackProvider;
use row_calls::call::Call;
use serde_json::Value;
use std::fmt::Write;
use translation_files::{
    FileMessages, FileNotice, MessageKind, MessageLines, is_document, read_json,
};

// What is asked of a file.
#[derive(Clone, Copy)]
enum Asked {
    Document,
    Notices,
    Lines,
    Counts,
    Name,
}

/// Makes the call of a kind of this file. Returns whether there is such a kind.
pub fn make(kind: &str, call: &mut Call) -> bool {
    match kind {
        "json_messages" => of_text(call, Asked::Document),
        "json_notices" => of_text(call, Asked::Notices),
        "json_bytes" => of_bytes(call, Asked::Notices),
        "json_lines" => of_text(call, Asked::Lines),
        "json_counts" => of_text(call, Asked::Counts),
        "json_name" => of_text(call, Asked::Name),
        "is_document" => shape(call),
        _ => return false,
    }
    true
}

// Whether a value is a document of messages.
fn shape(call: &mut Call) {
    let value = call.value();
    call.print_truth(is_document(&value));
}

// What is asked of the file of a text.
fn of_text(call: &mut Call, asked: Asked) {
    let name = call.text();
    let rules = call.value();
    let locale = call.optional_text();
    let text = call.text();
    print_asked(
        call,
        asked,
        name.as_str(),
        &rules,
        locale.as_deref(),
        text.as_bytes(),
    );
}

// The same of bytes.
fn of_bytes(call: &mut Call, asked: Asked) {
    let name = call.text();
    let rules = call.value();
    let locale = call.optional_text();
    let bytes = call.bytes();
    print_asked(
        call,
        asked,
        name.as_str(),
        &rules,
        locale.as_deref(),
        bytes.as_slice(),
    );
}

// Reads a file, and prints what is asked.
fn print_asked(
    call: &mut Call,
    asked: Asked,
    name: &str,
    rules: &Value,
    locale: Option<&str>,
    bytes: &[u8],
) {
    let provider = match JsonProvider::from_value(call.alloc, rules) {
        Ok(provider) => provider,
        Err(error) => return call.refused("rules", &error),
    };
    let source = FallbackProvider {
        provider: &provider,
        locales: rules,
    };
    match read_json(call.alloc, name, bytes, &source, locale) {
        Ok(found) => print_of(call, asked, &found),
        Err(_) => call.out_of_memory(),
    }
}

// Prints what is asked of a file that was read.
fn print_of(call: &mut Call, asked: Asked, found: &FileMessages) {
    match asked {
        Asked::Document => call.print_json(&found.document),
        Asked::Notices => print_notices(call, &found.notices),
        Asked::Lines => print_lines(call, found),
        Asked::Counts => print_counts(call, found),
        Asked::Name => print_file(call, found),
    }
}

// The name that a file tells, or `none`.
fn print_file(call: &mut Call, found: &FileMessages) {
    match &found.name {
        Some(name) => call.print_quoted(name.as_str()),
        None => call.print("none"),
    }
}

// The notices: each with its line, if there is one, how grave it is, and its code.
fn print_notices(call: &mut Call, notices: &[FileNotice]) {
    for notice in notices {
        call.separate("; ");
        if let Some(line) = notice.line {
            let _ = write!(call, "{line}: ");
        }
        call.print(notice.severity.as_str());
        call.print(" [");
        call.print(notice.code.as_str());
        call.print("] ");
        call.print(notice.text.as_str());
    }
    call.print_none_if_empty();
}

// What became of the messages.
fn print_counts(call: &mut Call, found: &FileMessages) {
    let counts = found.counts;
    let _ = write!(call, "read {}", counts.read);
    let _ = write!(call, ", checked {}", counts.checked);
    let _ = write!(call, ", noted {}", counts.noted);
    let _ = write!(call, ", left out {}", counts.left_out);
}

// Where each message of the document stands.
fn print_lines(call: &mut Call, found: &FileMessages) {
    let Value::Object(locales) = &found.document else {
        return call.not("a document");
    };
    for (locale, parts) in locales.iter() {
        print_part(call, found, locale.as_str(), parts, MessageKind::Cardinal);
        print_part(call, found, locale.as_str(), parts, MessageKind::Ordinal);
        print_part(call, found, locale.as_str(), parts, MessageKind::Pattern);
    }
    call.print_none_if_empty();
}

// Where the messages of a kind stand.
fn print_part(
    call: &mut Call,
    found: &FileMessages,
    locale: &str,
    parts: &Value,
    kind: MessageKind,
) {
    let Some(Value::Object(messages)) = parts.get(kind.as_str()) else {
        return;
    };
    for (key, _) in messages.iter() {
        call.separate("; ");
        let _ = write!(call, "{locale} {} {key}:", kind.as_str());
        match found.places.find(locale, kind, key.as_str()) {
            Some(lines) => print_place(call, lines),
            None => call.print(" unknown"),
        }
    }
}

// Where a message stands: its line, those of its forms, and how the number is written.
fn print_place(call: &mut Call, lines: &MessageLines) {
    let line = lines.line;
    let _ = write!(call, " {line}");
    for form in &lines.forms {
        let line = form.line;
        call.print(" ");
        call.print(form.form.as_str());
        let _ = write!(call, "@{line}");
    }
    if let Some(written) = &lines.placeholder {
        call.print(" ");
        call.print_quoted(written.as_str());
    }
}
