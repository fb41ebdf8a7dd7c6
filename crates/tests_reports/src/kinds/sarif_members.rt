//! The members of a log of SARIF, beside what version 2.1.0 of the standard requires of them.

use row_calls::call::Call;
use serde_json::Value;

// The levels of a result.
const LEVELS: &[&str] = &["none", "note", "warning", "error"];

/// Prints what a log has: its schema and version, how many runs and rules there are, the tool, and
/// the results. In the place of what is required and absent, or has another form, stands `!`.
pub(crate) fn print_log(call: &mut Call, log: &Value) {
    print_text(call, log.pointer("/$schema"));
    call.print(" ");
    print_text(call, log.pointer("/version"));
    call.print(" runs ");
    print_count(call, log.pointer("/runs"));
    call.print(" tool ");
    print_text(call, log.pointer("/runs/0/tool/driver/name"));
    call.print(" rules ");
    print_count(call, log.pointer("/runs/0/tool/driver/rules"));
    print_keys(call, log, &["$schema", "runs", "version"]);
    if let Some(run) = log.pointer("/runs/0") {
        print_keys(call, run, &["results", "tool"]);
    }
    match log.pointer("/runs/0/results").and_then(Value::as_array) {
        Some(results) => {
            for told in results.iter() {
                print_result(call, log, told);
            }
        }
        None => call.print(" !"),
    }
}

// Prints a result: its level, its code, the rule that its index picks, the file, the line, the place
// and the message.
fn print_result(call: &mut Call, log: &Value, told: &Value) {
    call.print(" | ");
    print_level(call, told.get("level"));
    call.print(" ");
    print_text(call, told.get("ruleId"));
    call.print(" ");
    print_rule(call, log, told);
    call.print(" ");
    print_text(
        call,
        told.pointer("/locations/0/physicalLocation/artifactLocation/uri"),
    );
    call.print(" ");
    print_line(call, told.pointer("/locations/0/physicalLocation/region"));
    call.print(" ");
    match told.pointer("/locations/0/logicalLocations/0/fullyQualifiedName") {
        Some(name) => print_text(call, Some(name)),
        None => call.print("none"),
    }
    call.print(": ");
    print_text(call, told.pointer("/message/text"));
    print_keys(
        call,
        told,
        &["level", "locations", "message", "ruleId", "ruleIndex"],
    );
}

// Prints a level, if it is one.
fn print_level(call: &mut Call, level: Option<&Value>) {
    match level.and_then(Value::as_str) {
        Some(word) if is_among(word, LEVELS) => call.print(word),
        _ => call.print("!"),
    }
}

// Prints the id of the rule that the index of a result picks, or `none` without an index.
fn print_rule(call: &mut Call, log: &Value, told: &Value) {
    let Some(index) = told.get("ruleIndex") else {
        return call.print("none");
    };
    let Some(index) = index.as_u64() else {
        return call.print("!");
    };
    let Some(rules) = log.pointer("/runs/0/tool/driver/rules") else {
        return call.print("!");
    };
    match rules.get(index as usize) {
        Some(rule) => print_text(call, rule.get("id")),
        None => call.print("!"),
    }
}

// Prints the first line of a region, counted from 1, or `none` without a region.
fn print_line(call: &mut Call, region: Option<&Value>) {
    let Some(region) = region else {
        return call.print("none");
    };
    match region.get("startLine").and_then(Value::as_u64) {
        Some(line) if line > 0 => call.print_value(&line),
        _ => call.print("!"),
    }
}

// Prints the keys of an object that are none of a list, each behind a mark.
fn print_keys(call: &mut Call, value: &Value, known: &[&str]) {
    let Some(members) = value.as_object() else {
        return call.print(" !");
    };
    for (key, _) in members.iter() {
        if !is_among(key.as_str(), known) {
            call.print(" !");
            call.print(key.as_str());
        }
    }
}

// Returns whether a word is one of a list.
fn is_among(word: &str, known: &[&str]) -> bool {
    for one in known {
        if word == *one {
            return true;
        }
    }
    false
}

// Prints a text.
fn print_text(call: &mut Call, value: Option<&Value>) {
    match value.and_then(Value::as_str) {
        Some(text) => call.print(text),
        None => call.print("!"),
    }
}

// Prints how many items a list has.
fn print_count(call: &mut Call, value: Option<&Value>) {
    match value.and_then(Value::as_array) {
        Some(items) => call.print_value(&items.len()),
        None => call.print("!"),
    }
}
