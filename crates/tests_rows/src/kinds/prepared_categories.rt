//! The categories of integers by prepared rules, and by their table, and whether rules have few
//! ranges, in a row.

use icu_plurals::provider::RawPluralCategory;
use icu_plurals::{CategoryTable, PluralRules, PreparedRules};
use row_calls::call::Call;

/// Makes the call of a kind of this file. Returns whether there is such a kind.
pub fn make(kind: &str, call: &mut Call) -> bool {
    match kind {
        "prepared_categories" => prepared_categories(call),
        "table_categories" => table_categories(call),
        "few_ranges" => few_ranges(call),
        _ => return false,
    }
    true
}

// The categories of a list of integers by prepared rules.
fn prepared_categories(call: &mut Call) {
    let rules = PreparedRules::from_rules(PluralRules::from_data(call.rules()));
    for value in &call.list() {
        let category = rules.category_for_integer(call.number_of(value));
        call.separate(" ");
        call.print(RawPluralCategory::from(category).as_str());
    }
}

// What the table of the rules tells of a list of integers: `ask` where it is nothing.
fn table_categories(call: &mut Call) {
    let rules = PreparedRules::from_rules(PluralRules::from_data(call.rules()));
    let bytes = rules.to_table();
    drop(rules);
    let Some(table) = CategoryTable::from_bytes(&bytes) else {
        return;
    };
    for value in &call.list() {
        let told = table.category_for_integer(call.number_of(value));
        call.separate(" ");
        match told {
            Some(category) => call.print(RawPluralCategory::from(category).as_str()),
            None => call.print("ask"),
        }
    }
}

// Whether rules have few ranges.
fn few_ranges(call: &mut Call) {
    let rules = PluralRules::from_data(call.rules());
    call.print(if rules.has_few_ranges() {
        "few"
    } else {
        "many"
    });
}
