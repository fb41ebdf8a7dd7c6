//! The truth of packed rules, and how many ranges were needed.

use plural_reference::{PluralOperands, parse_condition, test_condition};
use plural_runtime::{Rule, Steps, test_rule, test_rule_counted};
use row_calls::call::Call;
use std::fmt::Write;

/// Makes the call of a kind of this file. Returns whether there is such a kind.
pub fn make(kind: &str, call: &mut Call) -> bool {
    match kind {
        "ranges_needed" => ranges_needed(call),
        "ranges_needed_by_bytes" => ranges_needed_by_bytes(call),
        "both_truths" => both_truths(call),
        _ => return false,
    }
    true
}

// The truth of a text's rule at numbers, and how many ranges were needed so far.
fn ranges_needed(call: &mut Call) {
    let text = call.text();
    match Rule::from_str(call.alloc, text.as_str()) {
        Ok(rule) => print_counted(call, &rule),
        Err(error) => call.print_error(&error),
    }
}

// The same of the rule that bytes hold.
fn ranges_needed_by_bytes(call: &mut Call) {
    let bytes = call.bytes();
    match Rule::parse_bytes(&bytes) {
        Ok(rule) => print_counted(call, &rule),
        Err(error) => call.print_error(&error),
    }
}

// Prints the truth of a rule at numbers, and how many ranges were needed so far.
fn print_counted(call: &mut Call, rule: &Rule<'_>) {
    let mut steps = Steps::new();
    for number in &call.texts() {
        let operands = operands_of(call, number.as_str());
        let answer = test_rule_counted(rule, &operands, &mut steps);
        if test_rule(rule, &operands) != answer {
            return call.print_alone("another truth without a count");
        }
        call.separate(", ");
        let _ = write!(call, "{answer} {}", steps.count());
    }
}

/// Returns the operands that a text writes.
pub fn operands_of(call: &mut Call, text: &str) -> PluralOperands {
    match text.parse::<PluralOperands>() {
        Ok(operands) => operands,
        Err(_) => call.no_operands(),
    }
}

// The truth of a text's packed rule and of its condition.
fn both_truths(call: &mut Call) {
    let text = call.text();
    let operands = call.operands();
    let Ok(rule) = Rule::from_str(call.alloc, text.as_str()) else {
        return call.print("no rule");
    };
    let Ok(condition) = parse_condition(call.alloc, text.as_bytes()) else {
        return call.print("no condition");
    };
    let packed = test_rule(&rule, &operands);
    let tree = test_condition(&condition, &operands);
    let _ = write!(call, "packed {packed}, tree {tree}");
}
