//! Findings and notices with lines, printed in formats.

use crate::kinds::message_reports::print_lines;
use crate::kinds::sarif_members::print_log;
use finding_formats::{Format, Located, Notice, Told, Totals, print_located};
use icu_plurals::JsonProvider;
use message_report::{Finding, MessageFile, Severity, found_in_files};
use plural_fallback::FallbackProvider;
use row_calls::call::Call;
use serde_json::Value;

/// Makes the call of a kind of this file. Returns whether there is such a kind.
pub fn make(kind: &str, call: &mut Call) -> bool {
    match kind {
        "located_formats" => located_formats(call),
        "located_log" => located_log(call),
        "located_told" => located_told(call),
        _ => return false,
    }
    true
}

// The lines of what is told, in a format, or `none`.
fn located_formats(call: &mut Call) {
    let word = call.text();
    let Some(format) = Format::from_word(word.as_str()) else {
        return call.not("a format");
    };
    let text = next_text(call, format);
    print_lines(call, text.as_bytes());
    call.print_none_if_empty();
}

// What the log of what is told has, read again from its text, and what it lacks.
fn located_log(call: &mut Call) {
    let text = next_text(call, Format::Sarif);
    match Value::from_str(call.alloc, text.as_str()) {
        Ok(log) => print_log(call, &log),
        Err(_) => call.not("a log"),
    }
}

// The file, the severity and the code of a notice, and its line.
fn located_told(call: &mut Call) {
    let item = call.value();
    let Some(one) = located_of(&[], &item) else {
        return call.not("a notice");
    };
    call.print(one.told.file());
    call.print(" ");
    call.print(one.told.severity().as_str());
    call.print(" ");
    call.print(one.told.code());
    call.print(" ");
    match one.known_line() {
        Some(line) => call.print_value(&line),
        None => call.print("none"),
    }
}

// Returns what is told in the next arguments, in a format.
fn next_text(call: &mut Call, format: Format) -> String {
    let name = call.text();
    let rules = call.value();
    let messages = call.value();
    let list = call.value();
    let totals = next_totals(call);
    let provider = match JsonProvider::from_value(call.alloc, &rules) {
        Ok(provider) => provider,
        Err(error) => {
            call.refused("rules", &error);
            return call.empty();
        }
    };
    let source = FallbackProvider {
        provider: &provider,
        locales: &rules,
    };
    let file = MessageFile {
        name: name.as_str(),
        document: &messages,
    };
    let Ok(found) = found_in_files(call.alloc, &source, &[file]) else {
        call.out_of_memory();
        return call.empty();
    };
    let located = located_list(call, found.findings(), &list);
    let text = print_located(call.alloc, format, located.as_slice(), totals);
    call.made(text)
}

// Returns the totals of the next argument, a list of their five numbers.
fn next_totals(call: &mut Call) -> Totals {
    let numbers = call.value();
    Totals {
        messages: number_at(call, &numbers, 0),
        forms: number_at(call, &numbers, 1),
        faults: number_at(call, &numbers, 2),
        notes: number_at(call, &numbers, 3),
        left_out: number_at(call, &numbers, 4),
    }
}

// Returns a number of a list.
fn number_at(call: &mut Call, numbers: &Value, index: usize) -> u64 {
    match numbers.get(index).and_then(Value::as_u64) {
        Some(number) => number,
        None => {
            call.not("totals");
            0
        }
    }
}

// Returns what is told in each item of a list.
fn located_list<'a>(
    call: &mut Call,
    findings: &[Finding<'a>],
    list: &'a Value,
) -> Vec<Located<'a>> {
    let mut located = Vec::new(call.alloc);
    let Some(items) = list.as_array() else {
        call.not("a list");
        return located;
    };
    for item in items.iter() {
        match located_of(findings, item) {
            Some(one) => call.add_item(&mut located, one),
            None => call.not("told"),
        }
    }
    located
}

// Returns what is told in an item, `[LINE, PLACEHOLDER, INDEX]` of a finding, or
// `[LINE, PLACEHOLDER, SEVERITY, FILE, CODE, TEXT]`.
fn located_of<'a>(findings: &[Finding<'a>], item: &'a Value) -> Option<Located<'a>> {
    let line = item.get(0usize)?.as_u64();
    let placeholder = item.get(1usize)?.as_str();
    let told = match item.get(2usize)?.as_u64() {
        Some(index) => Told::Finding(*findings.get(index as usize)?),
        None => Told::Notice(notice_of(item)?),
    };
    Some(Located {
        line,
        placeholder,
        told,
    })
}

// Returns the notice in an item.
fn notice_of(item: &Value) -> Option<Notice<'_>> {
    let severity = severity_of(item.get(2usize)?.as_str()?)?;
    Some(Notice {
        file: item.get(3usize)?.as_str()?,
        severity,
        code: item.get(4usize)?.as_str()?,
        text: item.get(5usize)?.as_str()?,
    })
}

// Returns the severity of a word.
fn severity_of(word: &str) -> Option<Severity> {
    match word {
        "error" => Some(Severity::Error),
        "note" => Some(Severity::Note),
        _ => None,
    }
}
