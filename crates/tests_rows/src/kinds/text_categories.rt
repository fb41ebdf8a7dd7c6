//! The categories of texts by rules and by prepared rules in a row.

use fixed_decimal::DecimalError;
use icu_plurals::provider::RawPluralCategory;
use icu_plurals::{PluralCategory, PluralRules, PreparedRules};
use row_calls::call::Call;

/// Makes the call of a kind of this file. Returns whether there is such a kind.
pub fn make(kind: &str, call: &mut Call) -> bool {
    if kind != "text_category" {
        return false;
    }
    text_category(call);
    true
}

// The category of a number's text by rules, and by the same rules prepared.
fn text_category(call: &mut Call) {
    let rules = PluralRules::from_data(call.rules());
    let text = call.text();
    print_chosen(call, rules.category_for_text(call.alloc, text.as_str()));
    call.separate(", prepared ");
    let rules = PreparedRules::from_rules(rules.as_borrowed());
    print_chosen(call, rules.category_for_text(call.alloc, text.as_str()));
}

// Prints a category or why there is none.
fn print_chosen(call: &mut Call, chosen: Result<PluralCategory, DecimalError>) {
    match chosen {
        Ok(category) => call.print(RawPluralCategory::from(category).as_str()),
        Err(error) => call.print_error(&error),
    }
}
