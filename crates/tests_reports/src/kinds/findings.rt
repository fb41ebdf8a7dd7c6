//! Findings of messages, printed in formats.

use crate::kinds::message_reports::print_lines;
use finding_formats::{Format, print};
use icu_plurals::JsonProvider;
use message_report::{MessageFile, found_in_files};
use plural_fallback::FallbackProvider;
use row_calls::call::Call;
use serde_json::Value;

/// Makes the call of a kind of this file. Returns whether there is such a kind.
pub fn make(kind: &str, call: &mut Call) -> bool {
    match kind {
        "findings_formats" => findings_formats(call),
        "findings_log" => findings_log(call),
        "format_word" => format_word(call),
        _ => return false,
    }
    true
}

// The word of the format of a word.
fn format_word(call: &mut Call) {
    let word = call.text();
    match Format::from_word(word.as_str()) {
        Some(format) => call.print(format.as_str()),
        None => call.print("none"),
    }
}

// The lines of what is found in a file of messages, in a format, or `none`.
fn findings_formats(call: &mut Call) {
    let word = call.text();
    let Some(format) = Format::from_word(word.as_str()) else {
        return call.not("a format");
    };
    let text = next_text(call, format);
    print_lines(call, text.as_bytes());
    call.print_none_if_empty();
}

// Returns what is found in the file of the next arguments, in a format.
fn next_text(call: &mut Call, format: Format) -> String {
    let name = call.text();
    let rules = call.value();
    let messages = call.value();
    let provider = match JsonProvider::from_value(call.alloc, &rules) {
        Ok(provider) => provider,
        Err(error) => {
            call.refused("rules", &error);
            return call.empty();
        }
    };
    let source = FallbackProvider {
        provider: &provider,
        locales: &rules,
    };
    let file = MessageFile {
        name: name.as_str(),
        document: &messages,
    };
    match found_in_files(call.alloc, &source, &[file]) {
        Ok(found) => {
            let text = print(call.alloc, format, &found);
            call.made(text)
        }
        Err(_) => {
            call.out_of_memory();
            call.empty()
        }
    }
}

// What a log of SARIF has, read again from its text: its version, how many runs and rules there
// are, the tool, and the results, each with the rule that its index picks.
fn findings_log(call: &mut Call) {
    let text = next_text(call, Format::Sarif);
    match Value::from_str(call.alloc, text.as_str()) {
        Ok(log) => print_log(call, &log),
        Err(_) => call.not("a log"),
    }
}

// Prints what a log has.
fn print_log(call: &mut Call, log: &Value) {
    print_text(call, log.pointer("/version"));
    call.print(" runs ");
    print_count(call, log.pointer("/runs"));
    call.print(" tool ");
    print_text(call, log.pointer("/runs/0/tool/driver/name"));
    call.print(" rules ");
    print_count(call, log.pointer("/runs/0/tool/driver/rules"));
    if let Some(results) = log.pointer("/runs/0/results").and_then(Value::as_array) {
        for told in results.iter() {
            print_result(call, log, told);
        }
    }
}

// Prints the level of a result, its code beside the code of the rule that it picks, the URI and
// the place.
fn print_result(call: &mut Call, log: &Value, told: &Value) {
    call.print(" | ");
    print_text(call, told.pointer("/level"));
    call.print(" ");
    print_text(call, told.pointer("/ruleId"));
    call.print(" ");
    let index = told.pointer("/ruleIndex").and_then(Value::as_u64);
    let rules = log.pointer("/runs/0/tool/driver/rules");
    match index {
        Some(index) => print_id(call, rules, index),
        None => call.print("none"),
    }
    call.print(" ");
    print_text(
        call,
        told.pointer("/locations/0/physicalLocation/artifactLocation/uri"),
    );
    call.print(" ");
    print_text(
        call,
        told.pointer("/locations/0/logicalLocations/0/fullyQualifiedName"),
    );
    call.print(": ");
    print_text(call, told.pointer("/message/text"));
}

// Prints the code of the rule at an index.
fn print_id(call: &mut Call, rules: Option<&Value>, index: u64) {
    let Some(rules) = rules else {
        return call.print("none");
    };
    let Some(rule) = rules.get(index as usize) else {
        return call.print("none");
    };
    print_text(call, rule.get("id"));
}

// Prints a text, or `none`.
fn print_text(call: &mut Call, value: Option<&Value>) {
    match value.and_then(Value::as_str) {
        Some(text) => call.print(text),
        None => call.print("none"),
    }
}

// Prints how many items a list has, or `none`.
fn print_count(call: &mut Call, value: Option<&Value>) {
    match value.and_then(Value::as_array) {
        Some(items) => call.print_value(&items.len()),
        None => call.print("none"),
    }
}
