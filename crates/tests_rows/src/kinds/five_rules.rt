//! The rules of a language, read from texts and cloned.

use crate::kinds::categories::category_by;
use plural_base::{PluralRulesData, RulesTextError};
use plural_reference::PluralOperands;
use plural_runtime::RuleError;
use row_calls::call::Call;
use row_calls::rules::name_of;
use std::fmt::Write;

/// Makes the call of a kind of this file. Returns whether there is such a kind.
pub fn make(kind: &str, call: &mut Call) -> bool {
    match kind {
        "rules_of_texts" => rules_of_texts(call),
        "cloned_rules" => cloned_rules(call),
        "category_of_copies" => category_of_copies(call),
        _ => return false,
    }
    true
}

// The rules of five texts, or the first text that gives none.
fn read(call: &mut Call) -> Result<PluralRulesData<'static>, RulesTextError> {
    let texts = call.five_texts();
    texts.read(call.alloc)
}

// Prints the category and the fault of a text that gives no rule.
fn print_refusal(call: &mut Call, refusal: &RulesTextError) {
    let RulesTextError { category, error } = refusal;
    if *error == RuleError::Memory {
        return call.out_of_memory();
    }
    let name = name_of(*category);
    let _ = write!(call, "error rule {name}: {error:?}");
}

// The rules of five texts as JSON, if they are read from it and cloned as they are.
fn rules_of_texts(call: &mut Call) {
    match read(call) {
        Ok(rules) => print_copied(call, &rules),
        Err(refusal) => print_refusal(call, &refusal),
    }
}

// Prints rules as JSON, if they are read from it and cloned as they are.
fn print_copied(call: &mut Call, rules: &PluralRulesData<'_>) {
    if is_cloned(call, rules) && is_read_again(call, rules) {
        call.print_rules(rules);
    } else {
        call.print("another copy");
    }
}

// Whether a clone of rules is equal to them.
fn is_cloned(call: &mut Call, rules: &PluralRulesData<'_>) -> bool {
    cloned(call, rules) == *rules
}

// Whether the rules that are read from these rules as JSON are equal to them.
fn is_read_again(call: &mut Call, rules: &PluralRulesData<'_>) -> bool {
    read_again(call, rules) == *rules
}

// A clone of rules.
fn cloned<'a>(call: &mut Call, rules: &PluralRulesData<'a>) -> PluralRulesData<'a> {
    if let Ok(clone) = rules.try_clone() {
        return clone;
    }
    call.out_of_memory();
    PluralRulesData::default()
}

// The rules that are read from these rules as JSON.
fn read_again(call: &mut Call, rules: &PluralRulesData<'_>) -> PluralRulesData<'static> {
    match rules.to_json(call.alloc) {
        Ok(value) => match PluralRulesData::from_json(call.alloc, &value) {
            Ok(again) => return again,
            Err(error) => call.refused("rules that are read again", &error),
        },
        Err(error) => call.refused("rules as JSON", &error),
    }
    PluralRulesData::default()
}

// How many bytes a clone has, which is equal.
fn cloned_rules(call: &mut Call) {
    match read(call) {
        Ok(rules) => print_cloned(call, &rules),
        Err(refusal) => print_refusal(call, &refusal),
    }
}

// Prints how many bytes a clone has, which is equal.
fn print_cloned(call: &mut Call, rules: &PluralRulesData<'_>) {
    let clone = cloned(call, rules);
    if clone == *rules {
        print_size(call, &clone);
    } else {
        call.print("another clone");
    }
}

// Prints how many bytes rules have.
fn print_size(call: &mut Call, rules: &PluralRulesData<'_>) {
    match rules.to_bytes(call.alloc) {
        Ok(bytes) => call.print_size(bytes.as_slice()),
        Err(error) => call.print_error(&error),
    }
}

// The category of an integer by a clone of the rules, and by what is read from them as JSON.
fn category_of_copies(call: &mut Call) {
    let rules = call.rules();
    let operands = PluralOperands::from(call.number());
    print_by_clone(call, &rules, operands);
    call.separate(" ");
    print_by_reading(call, &rules, operands);
}

// Prints the category of operands by a clone of the rules.
fn print_by_clone(call: &mut Call, rules: &PluralRulesData<'_>, operands: PluralOperands) {
    let clone = cloned(call, rules);
    call.print(name_of(category_by(clone, operands)));
}

// Prints the category of operands by what is read from the rules as JSON.
fn print_by_reading(call: &mut Call, rules: &PluralRulesData<'_>, operands: PluralOperands) {
    let again = read_again(call, rules);
    call.print(name_of(category_by(again, operands)));
}
