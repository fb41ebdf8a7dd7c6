//! The categories of numbers by rules that are asked for many, in a row.

use icu_plurals::provider::RawPluralCategory;
use icu_plurals::{AskedRules, PluralCategory, PluralRules};
use row_calls::call::Call;
use serde_json::Value;

/// Makes the call of a kind of this file. Returns whether there is such a kind.
pub fn make(kind: &str, call: &mut Call) -> bool {
    if kind != "asked_categories" {
        return false;
    }
    asked_categories(call);
    true
}

// Whether tables are made for so many numbers, and the categories of these.
fn asked_categories(call: &mut Call) {
    let mut rules = AskedRules::of(PluralRules::from_data(call.rules()));
    let count = call.number();
    rules.prepare(count);
    // Where memory is wanted, the same rules are asked once more.
    let is_refused = rules.put_in_order(call.alloc, count).is_err();
    if is_refused && rules.put_in_order(call.alloc, count).is_err() {
        call.out_of_memory();
    }
    call.print(if rules.tables().is_some() {
        "tables"
    } else {
        "rules"
    });
    for value in &call.list() {
        let category = category_of(call, &rules, value);
        call.print(" ");
        call.print(RawPluralCategory::from(category).as_str());
    }
    drop(rules);
}

// The category of an integer or of a text.
fn category_of(call: &mut Call, rules: &AskedRules<'_>, value: &Value) -> PluralCategory {
    if let Value::Number(_) = value {
        return rules.category_for_integer(call.number_of(value));
    }
    let text = call.text_of(value);
    match rules.category_for_text(call.alloc, text.as_str()) {
        Ok(category) => category,
        Err(error) => {
            call.refused("a number", &error);
            PluralCategory::Other
        }
    }
}
