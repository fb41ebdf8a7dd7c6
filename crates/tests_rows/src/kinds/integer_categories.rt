//! The categories of integers in a row.

use icu_plurals::provider::RawPluralCategory;
use icu_plurals::{PluralCategory, PluralOperands, PluralRules};
use row_calls::call::Call;
use std::fmt::Write;

// In the order of CLDR.
const CATEGORIES: [PluralCategory; 6] = [
    PluralCategory::Zero,
    PluralCategory::One,
    PluralCategory::Two,
    PluralCategory::Few,
    PluralCategory::Many,
    PluralCategory::Other,
];

/// Makes the call of a kind of this file. Returns whether there is such a kind.
pub fn make(kind: &str, call: &mut Call) -> bool {
    if kind != "integer_categories" {
        return false;
    }
    integer_categories(call);
    true
}

// The categories of the integers from one to another: `one 1, 21; few 2~4, 22~24`.
fn integer_categories(call: &mut Call) {
    let rules = PluralRules::from_data(call.rules());
    print_categories(call, &rules);
}

// Prints the categories of the integers from one argument to the next.
fn print_categories(call: &mut Call, rules: &PluralRules<'_>) {
    let first = call.number();
    let last = call.number();
    for category in CATEGORIES {
        print_integers(call, category, rules, first, last);
    }
}

// Prints a category with its integers, if it has some, neighbours as `2~4`.
fn print_integers(
    call: &mut Call,
    category: PluralCategory,
    rules: &PluralRules<'_>,
    first: u64,
    last: u64,
) {
    let mut name = Some(RawPluralCategory::from(category).as_str());
    let mut start = None;
    for number in first..=last {
        if rules.category_for(PluralOperands::from(number)) == category {
            start = start.or(Some(number));
        } else if let Some(begun) = start {
            print_run(call, name, begun, number.saturating_sub(1));
            name = None;
            start = None;
        }
    }
    if let Some(begun) = start {
        print_run(call, name, begun, last);
    }
}

// Prints the integers from one to another, the first ones of a category after its name.
fn print_run(call: &mut Call, name: Option<&str>, first: u64, last: u64) {
    match name {
        Some(name) => {
            call.separate("; ");
            call.print(name);
            call.print(" ");
        }
        None => call.print(", "),
    }
    call.print_value(&first);
    if first != last {
        let _ = write!(call, "~{last}");
    }
}
