//! The rules of a language as one block of bytes.

use crate::kinds::categories::category_by;
use crate::kinds::runs::Runs;
use plural_base::PluralRulesData;
use plural_reference::PluralOperands;
use row_calls::call::Call;
use row_calls::rules::name_of;

/// Makes the call of a kind of this file. Returns whether there is such a kind.
pub fn make(kind: &str, call: &mut Call) -> bool {
    match kind {
        "rules_bytes" => rules_bytes(call),
        "rules_bytes_size" => rules_bytes_size(call),
        "rules_of_bytes" => rules_of_bytes(call),
        "category_of_bytes" => category_of_bytes(call),
        "rules_beginnings" => rules_beginnings(call),
        _ => return false,
    }
    true
}

// The bytes of rules, from which the rules are read again.
fn rules_bytes(call: &mut Call) {
    if let Some(bytes) = next_packed(call) {
        call.print_bytes(&bytes);
    }
}

// The bytes of the next argument's rules.
fn next_packed(call: &mut Call) -> Option<Vec<u8>> {
    let rules = call.rules();
    packed(call, &rules)
}

// The bytes of rules, from which the rules are read again. If there are none, prints the reason.
fn packed(call: &mut Call, rules: &PluralRulesData<'_>) -> Option<Vec<u8>> {
    match rules.to_bytes(call.alloc) {
        Ok(bytes) => {
            if comes_back(call, rules, &bytes) {
                return Some(bytes);
            }
            call.print("other rules are read");
        }
        Err(error) => call.print_error(&error),
    }
    None
}

// How many bytes rules have, from which they are read again.
fn rules_bytes_size(call: &mut Call) {
    if let Some(bytes) = next_packed(call) {
        call.print_size(&bytes);
    }
}

// Whether these rules are read from these bytes, and have these bytes again.
fn comes_back(call: &mut Call, rules: &PluralRulesData<'_>, bytes: &[u8]) -> bool {
    match PluralRulesData::from_bytes(bytes) {
        Ok(read) => read == *rules && has_bytes(call, &read, bytes),
        Err(_) => false,
    }
}

// Whether the rules have these bytes.
fn has_bytes(call: &mut Call, rules: &PluralRulesData<'_>, bytes: &[u8]) -> bool {
    match rules.to_bytes(call.alloc) {
        Ok(again) => again.as_slice() == bytes,
        Err(error) => {
            call.refused("rules with bytes", &error);
            false
        }
    }
}

// The rules that bytes hold, as JSON, which have these bytes again.
fn rules_of_bytes(call: &mut Call) {
    let bytes = call.bytes();
    print_rules_of(call, &bytes);
}

// Prints the rules that bytes hold as JSON, which have these bytes again.
fn print_rules_of(call: &mut Call, bytes: &[u8]) {
    match PluralRulesData::from_bytes(bytes) {
        Ok(rules) => {
            if has_bytes(call, &rules, bytes) {
                call.print_rules(&rules);
            } else {
                call.print("rules with other bytes");
            }
        }
        Err(error) => call.print_error(&error),
    }
}

// The category of an integer by the rules that bytes hold.
fn category_of_bytes(call: &mut Call) {
    let bytes = call.bytes();
    let operands = PluralOperands::from(call.number());
    print_category_of(call, &bytes, operands);
}

// Prints the category of operands by the rules that bytes hold.
fn print_category_of(call: &mut Call, bytes: &[u8], operands: PluralOperands) {
    match PluralRulesData::from_bytes(bytes) {
        Ok(rules) => call.print(name_of(category_by(rules, operands))),
        Err(error) => call.print_error(&error),
    }
}

// What each beginning of bytes is.
fn rules_beginnings(call: &mut Call) {
    let bytes = call.bytes();
    let bytes = bytes.as_slice();
    let mut runs = Runs::new(call);
    for end in 0..=bytes.len() {
        print_beginning(call, &bytes[..end]);
        runs.take(call);
    }
    runs.print(call);
}

// Prints what a beginning is: rules that have these bytes again, or a fault.
fn print_beginning(call: &mut Call, bytes: &[u8]) {
    match PluralRulesData::from_bytes(bytes) {
        Ok(rules) => {
            let have_bytes = has_bytes(call, &rules, bytes);
            call.print(if have_bytes {
                "rules"
            } else {
                "rules with other bytes"
            });
        }
        Err(error) => call.print_error(&error),
    }
}
