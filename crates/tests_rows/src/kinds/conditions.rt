//! Conditions: read, printed, and their truth.

use plural_reference::ast::Condition;
use plural_reference::{ReadError, parse_condition, serialize_condition, test_condition};
use row_calls::call::Call;

/// Makes the call of a kind of this file. Returns whether there is such a kind.
pub fn make(kind: &str, call: &mut Call) -> bool {
    match kind {
        "condition" => condition(call),
        "condition_tree" => condition_tree(call),
        "equal_conditions" => equal_conditions(call),
        "truth" => truth(call),
        _ => return false,
    }
    true
}

/// Prints `error` and the name of why a text isn't read.
pub fn print_read_error(call: &mut Call, error: ReadError) {
    match error {
        ReadError::Parse(kind) => call.print_error(&kind),
        ReadError::Memory => call.out_of_memory(),
    }
}

/// Prints a condition between quotes.
pub fn print_condition(call: &mut Call, condition: &Condition) {
    let mut text = call.empty();
    if serialize_condition(condition, &mut text).is_err() {
        call.out_of_memory();
    }
    call.print_quoted(text.as_str());
}

/// Returns the next argument as a condition, which its text has to be.
pub fn next_condition(call: &mut Call) -> Option<Condition> {
    let text = call.text();
    match parse_condition(call.alloc, text.as_bytes()) {
        Ok(condition) => Some(condition),
        Err(error) => {
            call.refused("a condition", &error);
            None
        }
    }
}

// The condition of a text, as it is printed.
fn condition(call: &mut Call) {
    let text = call.text();
    match parse_condition(call.alloc, text.as_bytes()) {
        Ok(condition) => print_condition(call, &condition),
        Err(error) => print_read_error(call, error),
    }
}

// The tree of a condition.
fn condition_tree(call: &mut Call) {
    if let Some(condition) = next_condition(call) {
        call.print_name(&condition);
    }
}

// Whether two conditions are equal.
fn equal_conditions(call: &mut Call) {
    let first = next_condition(call);
    let second = next_condition(call);
    call.print_truth(first == second);
}

// Whether a condition is true of operands.
fn truth(call: &mut Call) {
    let condition = next_condition(call);
    let operands = call.operands();
    if let Some(condition) = condition {
        call.print_truth(test_condition(&condition, &operands));
    }
}
