//! Rules as packed bytes, their texts and their trees.

use crate::kinds::runs::Runs;
use crate::kinds::trees;
use plural_reference::{PluralOperands, RawPluralOperands, parse_condition};
use plural_runtime::{Rule, RuleError, test_rule};
use row_calls::call::Call;

/// Makes the call of a kind of this file. Returns whether there is such a kind.
pub fn make(kind: &str, call: &mut Call) -> bool {
    match kind {
        "packed_rule" => packed_rule(call),
        "packed_rule_size" => packed_rule_size(call),
        "packed_tree" => packed_tree(call),
        "printed_rule" => printed_rule(call),
        "repacked_rule" => repacked_rule(call),
        "rule_beginnings" => rule_beginnings(call),
        "condition_comes_back" => condition_comes_back(call),
        _ => return false,
    }
    true
}

// Prints the bytes of a rule, or why there is none.
fn print_packed(call: &mut Call, rule: Result<Rule<'static>, RuleError>) {
    match rule {
        Ok(rule) => call.print_bytes(rule.as_bytes()),
        Err(error) => call.print_error(&error),
    }
}

// The bytes of a text's rule.
fn packed_rule(call: &mut Call) {
    let text = call.text();
    let rule = Rule::from_str(call.alloc, text.as_str());
    print_packed(call, rule);
}

// How many bytes a text's rule has.
fn packed_rule_size(call: &mut Call) {
    let text = call.text();
    match Rule::from_str(call.alloc, text.as_str()) {
        Ok(rule) => call.print_size(rule.as_bytes()),
        Err(error) => call.print_error(&error),
    }
}

// The bytes of a tree's rule.
fn packed_tree(call: &mut Call) {
    let value = call.value();
    let tree = trees::rule_of(call, &value);
    let rule = Rule::try_from(call.alloc, &tree);
    print_packed(call, rule);
}

// The text of the rule that bytes hold.
fn printed_rule(call: &mut Call) {
    let bytes = call.bytes();
    match Rule::parse_bytes(&bytes) {
        Ok(rule) => {
            let text = call.made(rule.to_string(call.alloc));
            call.print_quoted(text.as_str());
        }
        Err(error) => call.print_error(&error),
    }
}

// The bytes of the tree of the rule that bytes hold.
fn repacked_rule(call: &mut Call) {
    let bytes = call.bytes();
    match Rule::parse_bytes(&bytes) {
        Ok(rule) => print_repacked(call, &rule),
        Err(error) => call.print_error(&error),
    }
}

// Prints the bytes of a rule's tree, if the tree has no samples and all copies are equal.
fn print_repacked(call: &mut Call, rule: &Rule<'_>) {
    let Ok(tree) = rule.to_ast(call.alloc) else {
        return call.out_of_memory();
    };
    if tree.samples.is_some() {
        return call.print("samples");
    }
    match Rule::try_from(call.alloc, &tree) {
        Ok(again) => {
            if has_equal_copies(call, &again, rule) {
                call.print_bytes(again.as_bytes());
            } else {
                call.print("another clone");
            }
        }
        Err(error) => call.print_error(&error),
    }
}

// Whether both rules are equal, to their clones too, and the second one to itself, borrowed.
fn has_equal_copies(call: &mut Call, again: &Rule<'_>, rule: &Rule<'_>) -> bool {
    let have_clones = has_clone(call, again) && has_clone(call, rule);
    have_clones && *again == *rule && rule.as_borrowed() == *rule
}

// Whether the clone of a rule is equal to it.
fn has_clone(call: &mut Call, rule: &Rule<'_>) -> bool {
    match rule.try_clone() {
        Ok(clone) => clone == *rule,
        Err(_) => {
            call.out_of_memory();
            false
        }
    }
}

// What each beginning of bytes is.
fn rule_beginnings(call: &mut Call) {
    let bytes = call.bytes();
    let bytes = bytes.as_slice();
    let mut runs = Runs::new(call);
    for end in 0..=bytes.len() {
        match Rule::parse_bytes(&bytes[..end]) {
            Ok(rule) => print_truths(call, &rule),
            Err(error) => call.print_error(&error),
        }
        runs.take(call);
    }
    runs.print(call);
}

// Prints at which of four numbers a rule is true.
fn print_truths(call: &mut Call, rule: &Rule<'_>) {
    let numbers = [
        ("0", PluralOperands::from(0u8)),
        ("1", PluralOperands::from(1u8)),
        ("2", PluralOperands::from(2u8)),
        ("1.5", one_and_a_half()),
    ];
    let mut is_found = false;
    call.print("true at");
    for (number, operands) in numbers {
        if test_rule(rule, &operands) {
            is_found = true;
            call.print(" ");
            call.print(number);
        }
    }
    if !is_found {
        call.print(" none");
    }
}

// The operands of 1.5.
fn one_and_a_half() -> PluralOperands {
    PluralOperands::from(RawPluralOperands {
        i: 1,
        v: 1,
        w: 1,
        f: 5,
        t: 5,
        c: 0,
    })
}

// Whether the tree of a text's rule has the condition that the text is read as, and a clone of it.
fn condition_comes_back(call: &mut Call) {
    let text = call.text();
    let rule = match Rule::from_str(call.alloc, text.as_str()) {
        Ok(rule) => rule,
        Err(error) => return call.print_error(&error),
    };
    let condition = match parse_condition(call.alloc, text.as_bytes()) {
        Ok(condition) => condition,
        Err(error) => return call.print_error(&error),
    };
    let Ok(tree) = rule.to_ast(call.alloc) else {
        return call.out_of_memory();
    };
    let found = tree.condition;
    match found.try_clone() {
        Ok(clone) => call.print_truth(found == condition && clone == condition),
        Err(_) => call.out_of_memory(),
    }
}
