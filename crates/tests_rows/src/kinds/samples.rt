//! Whole rules, and their samples.

use crate::kinds::conditions::{next_condition, print_condition, print_read_error};
use plural_reference::ast::{Rule, SampleList};
use plural_reference::{
    fault_of, is_read_whole, parse, parse_without_samples, serialize, serialize_sample_list,
};
use row_calls::call::Call;
use std::fmt::Write;

/// Makes the call of a kind of this file. Returns whether there is such a kind.
pub fn make(kind: &str, call: &mut Call) -> bool {
    match kind {
        "rule" => rule(call),
        "rule_read_again" => rule_read_again(call),
        "cloned_rule" => cloned_rule(call),
        "rule_without_samples" => rule_without_samples(call),
        "rule_has_condition" => rule_has_condition(call),
        "is_read_whole" => whole(call),
        "rule_fault" => rule_fault(call),
        "samples" => samples(call),
        "sample_list" => sample_list(call),
        _ => return false,
    }
    true
}

// The text of a rule as it is printed.
fn printed_rule(call: &mut Call, rule: &Rule) -> String {
    let mut text = call.empty();
    if serialize(rule, &mut text).is_err() {
        call.out_of_memory();
    }
    text
}

// The rule of a text, as it is printed.
fn rule(call: &mut Call) {
    let text = call.text();
    match parse(call.alloc, text.as_bytes()) {
        Ok(rule) => {
            let printed = printed_rule(call, &rule);
            call.print_quoted(printed.as_str());
        }
        Err(error) => print_read_error(call, error),
    }
}

// The rule of a text, which has to be one.
fn rule_of(call: &mut Call, text: &str) -> Option<Rule> {
    match parse(call.alloc, text.as_bytes()) {
        Ok(rule) => Some(rule),
        Err(error) => {
            call.refused("a rule", &error);
            None
        }
    }
}

// The next argument as a rule, which its text has to be.
fn next_rule(call: &mut Call) -> Option<Rule> {
    let text = call.text();
    rule_of(call, text.as_str())
}

// Whether a rule that is printed and read again is the same.
fn rule_read_again(call: &mut Call) {
    let Some(rule) = next_rule(call) else {
        return;
    };
    let text = printed_rule(call, &rule);
    match parse(call.alloc, text.as_bytes()) {
        Ok(again) => call.print_truth(again == rule),
        Err(error) => print_read_error(call, error),
    }
}

// Whether the clone of a rule is equal to it.
fn cloned_rule(call: &mut Call) {
    let Some(rule) = next_rule(call) else {
        return;
    };
    match rule.try_clone() {
        Ok(clone) => call.print_truth(clone == rule),
        Err(_) => call.out_of_memory(),
    }
}

// The condition of a rule's text, as it is printed.
fn rule_without_samples(call: &mut Call) {
    let text = call.text();
    match parse_without_samples(call.alloc, text.as_bytes()) {
        Ok(condition) => print_condition(call, &condition),
        Err(error) => print_read_error(call, error),
    }
}

// Whether a rule has a condition, read with and without its samples.
fn rule_has_condition(call: &mut Call) {
    let text = call.text();
    let condition = next_condition(call);
    let (Some(rule), Some(condition)) = (rule_of(call, text.as_str()), condition) else {
        return;
    };
    match parse_without_samples(call.alloc, text.as_bytes()) {
        Ok(alone) => call.print_truth(rule.condition == condition && alone == condition),
        Err(error) => print_read_error(call, error),
    }
}

// Whether a text is a rule as a whole.
fn whole(call: &mut Call) {
    let text = call.text();
    match is_read_whole(call.alloc, text.as_bytes()) {
        Ok(is_whole) => call.print_truth(is_whole),
        Err(_) => call.out_of_memory(),
    }
}

// The fault of a text and its byte, or none.
fn rule_fault(call: &mut Call) {
    let text = call.text();
    match fault_of(call.alloc, text.as_bytes()) {
        Ok(Some(fault)) => {
            call.print_error(&fault.kind);
            let _ = write!(call, " at {}", fault.byte);
        }
        Ok(None) => call.print("none"),
        Err(_) => call.out_of_memory(),
    }
}

// The samples of a rule: after each list's type its ranges, each after a bar, and a star for an
// ellipsis.
fn samples(call: &mut Call) {
    let Some(rule) = next_rule(call) else {
        return;
    };
    match &rule.samples {
        Some(samples) => {
            print_list(call, "integer", &samples.integer);
            print_list(call, "decimal", &samples.decimal);
        }
        None => call.print("none"),
    }
}

// Prints the type of a list that is present, its ranges, each after a bar, and a star for an
// ellipsis.
fn print_list(call: &mut Call, name: &str, list: &Option<SampleList>) {
    let Some(list) = list else {
        return;
    };
    call.print(name);
    for range in &list.sample_ranges {
        call.print("|");
        call.print(range.lower_val.0.as_str());
        if let Some(upper) = &range.upper_val {
            call.print("~");
            call.print(upper.0.as_str());
        }
    }
    if list.ellipsis {
        call.print("*");
    }
}

// The list of integers of a rule, as it is printed.
fn sample_list(call: &mut Call) {
    let Some(rule) = next_rule(call) else {
        return;
    };
    match &rule.samples {
        Some(samples) => print_integers(call, &samples.integer),
        None => call.print("none"),
    }
}

// Prints a list of samples between quotes.
fn print_integers(call: &mut Call, list: &Option<SampleList>) {
    let Some(list) = list else {
        return call.print("none");
    };
    let mut text = call.empty();
    if serialize_sample_list(list, &mut text).is_err() {
        call.out_of_memory();
    }
    call.print_quoted(text.as_str());
}
