//! Rules and documents as JSON.

use plural_base::{
    JsonError, JsonProvider, PluralRulesData, PluralsProvider, rule_from_json, rule_to_json,
};
use plural_runtime::Rule;
use row_calls::call::Call;
use serde_json::Value;
use std::fmt::Write;

/// Makes the call of a kind of this file. Returns whether there is such a kind.
pub fn make(kind: &str, call: &mut Call) -> bool {
    match kind {
        "rule_json" => rule_json(call),
        "rules_json" => rules_json(call),
        "document_json" => document_json(call),
        "rule_json_text" => rule_json_text(call),
        "rules_json_text" => rules_json_text(call),
        "document_json_text" => document_json_text(call),
        "numbered_locales" => numbered_locales(call),
        _ => return false,
    }
    true
}

// The rule of a value, as JSON again.
fn rule_json(call: &mut Call) {
    let value = call.value();
    match rule_from_json(call.alloc, &value) {
        Ok(rule) => print_rule(call, &rule),
        Err(error) => call.print_error(&error),
    }
}

// Prints a rule as JSON.
fn print_rule(call: &mut Call, rule: &Rule<'_>) {
    match rule_to_json(call.alloc, rule) {
        Ok(value) => call.print_json(&value),
        Err(error) => call.print_error(&error),
    }
}

// The five rules of a value, as JSON again.
fn rules_json(call: &mut Call) {
    let value = call.value();
    match PluralRulesData::from_json(call.alloc, &value) {
        Ok(rules) => call.print_rules(&rules),
        Err(error) => call.print_error(&error),
    }
}

// Whether a document is taken.
fn document_json(call: &mut Call) {
    let document = call.value();
    let error = JsonProvider::from_value(call.alloc, &document).err();
    print_taken(call, error);
}

// Prints `ok`, or the error.
fn print_taken(call: &mut Call, error: Option<JsonError>) {
    match error {
        None => call.print("ok"),
        Some(error) => call.print_error(&error),
    }
}

/// Returns the value that a text writes.
pub fn value_of_text(call: &mut Call, text: &str) -> Value {
    match Value::from_str(call.alloc, text) {
        Ok(value) => return value,
        Err(fault) if fault.is_memory() => call.out_of_memory(),
        Err(_) => call.not("JSON"),
    }
    Value::Null
}

// The value that a text argument writes.
fn next_json(call: &mut Call) -> Value {
    let text = call.text();
    value_of_text(call, text.as_str())
}

// Whether a rule is taken.
fn rule_json_text(call: &mut Call) {
    let value = next_json(call);
    let error = rule_from_json(call.alloc, &value).err();
    print_taken(call, error);
}

// Whether five rules are taken.
fn rules_json_text(call: &mut Call) {
    let value = next_json(call);
    let error = PluralRulesData::from_json(call.alloc, &value).err();
    print_taken(call, error);
}

// Whether a document is taken.
fn document_json_text(call: &mut Call) {
    let value = next_json(call);
    let error = JsonProvider::from_value(call.alloc, &value).err();
    print_taken(call, error);
}

// How many locales a document has that all have these rules.
fn numbered_locales(call: &mut Call) {
    let count = call.number();
    let rules = call.value();
    match numbered_provider(call, count, &rules) {
        Ok(provider) => print_numbered(call, &provider, count, &rules),
        Err(error) => call.print_error(&error),
    }
}

// Prints how many of the numbered locales have the rules of a value.
fn print_numbered(call: &mut Call, provider: &JsonProvider, count: u64, rules: &Value) {
    match PluralRulesData::from_json(call.alloc, rules) {
        Ok(wanted) => print_locales(call, provider, count, &wanted),
        Err(error) => call.refused("five rules", &error),
    }
}

// The provider of a document with the same rules for the locales l0, l1 and so on.
fn numbered_provider(
    call: &mut Call,
    count: u64,
    rules: &Value,
) -> Result<JsonProvider, JsonError> {
    let document = numbered_document(call, count, rules);
    JsonProvider::from_value(call.alloc, &document)
}

// A document with the same rules for the locales l0, l1 and so on.
fn numbered_document(call: &mut Call, count: u64, rules: &Value) -> Value {
    let text = numbered_text(call, count, rules);
    value_of_text(call, text.as_str())
}

// The text of a document with the same rules for the locales l0, l1 and so on.
fn numbered_text(call: &mut Call, count: u64, rules: &Value) -> String {
    let rules = call.made(rules.to_string(call.alloc));
    call.print("{\"cardinal\":{");
    for place in 0..count {
        let comma = if place == 0 { "" } else { "," };
        let _ = write!(call, "{comma}\"l{place}\":{rules}");
    }
    call.print("}}");
    call.take_printed()
}

// Prints how many of the numbered locales have these rules.
fn print_locales(
    call: &mut Call,
    provider: &JsonProvider,
    count: u64,
    wanted: &PluralRulesData<'_>,
) {
    let mut found = 0_u64;
    for place in 0..count {
        let _ = write!(call, "l{place}");
        let locale = call.take_printed();
        if has_rules(provider, locale.as_str(), wanted) {
            found = found.saturating_add(1);
        }
    }
    let _ = write!(call, "{found} locales");
}

// Whether a locale has these rules.
fn has_rules(provider: &JsonProvider, locale: &str, wanted: &PluralRulesData<'_>) -> bool {
    match provider.load_cardinal(locale) {
        Ok(rules) => rules == *wanted,
        Err(_) => false,
    }
}
