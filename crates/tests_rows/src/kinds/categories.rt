//! Categories, and the categories that rules choose.

use fixed_decimal::{CompactDecimal, Decimal};
use plural_base::{PluralCategory, PluralRules, PluralRulesData, RawPluralCategory};
use plural_reference::PluralOperands;
use row_calls::arguments::FiveTexts;
use row_calls::call::Call;
use row_calls::rules::name_of;
use std::fmt::Write;

/// Makes the call of a kind of this file. Returns whether there is such a kind.
pub fn make(kind: &str, call: &mut Call) -> bool {
    match kind {
        "all_categories" => all_categories(call),
        "category_of_name" => category_of_name(call),
        "category_name" => category_name(call),
        "raw_category" => raw_category(call),
        "category_order" => category_order(call),
        "raw_category_order" => raw_category_order(call),
        "categories" => categories(call),
        "category_of_integer" => category_of_integer(call),
        "category_of_decimal" => category_of_decimal(call),
        "category_of_compact" => category_of_compact(call),
        "sure_category" => sure_category(call),
        _ => return false,
    }
    true
}

// The name of a category, or `none`.
fn name_or_none(category: Option<PluralCategory>) -> &'static str {
    match category {
        Some(category) => name_of(category),
        None => "none",
    }
}

// Every category, and how many are still to come.
fn all_categories(call: &mut Call) {
    let mut all = PluralCategory::all();
    for _ in 0..8u8 {
        let (left, bounds) = (all.len(), all.size_hint());
        let next = all.next();
        print_next(call, left, bounds, next);
        if next.is_none() {
            return;
        }
    }
}

// The categories of rules, and how many are still to come.
fn categories(call: &mut Call) {
    let rules = PluralRules::from_data(call.rules());
    print_categories(call, &rules);
}

// Prints the categories of rules, and how many are still to come.
fn print_categories(call: &mut Call, rules: &PluralRules<'_>) {
    let mut categories = rules.categories();
    for _ in 0..8u8 {
        let (left, bounds) = (categories.len(), categories.size_hint());
        let next = categories.next();
        print_next(call, left, bounds, next);
        if next.is_none() {
            return;
        }
    }
}

// Prints how many categories are still to come, and the next one.
fn print_next(
    call: &mut Call,
    left: usize,
    bounds: (usize, Option<usize>),
    next: Option<PluralCategory>,
) {
    let name = if bounds == (left, Some(left)) {
        name_or_none(next)
    } else {
        "another size"
    };
    call.separate(", ");
    let _ = write!(call, "{left} {name}");
}

// The category of a name, of its text and of its bytes.
fn category_of_name(call: &mut Call) {
    let name = call.text();
    let found = PluralCategory::get_for_cldr_string(name.as_str());
    if found != PluralCategory::get_for_cldr_bytes(name.as_bytes()) {
        return call.print("another category of the bytes");
    }
    call.print(name_or_none(found));
}

// The name of a category, and what it prints.
fn category_name(call: &mut Call) {
    let category = call.category();
    let _ = write!(call, "{} {category}", category.as_str());
}

// The number of a category, and its name.
fn raw_category(call: &mut Call) {
    let category = call.category();
    let raw = RawPluralCategory::from(category);
    if PluralCategory::from(raw) != category {
        return call.print("another category");
    }
    let number = raw as usize;
    let _ = write!(call, "{number} {}", raw.as_str());
}

// How one category stands to another.
fn category_order(call: &mut Call) {
    let first = call.category();
    let second = call.category();
    call.print_name(&first.cmp(&second));
}

// How one raw category stands to another.
fn raw_category_order(call: &mut Call) {
    let first = RawPluralCategory::from(call.category());
    let second = RawPluralCategory::from(call.category());
    call.print_name(&first.cmp(&second));
}

// The category of an integer by its operands, under the rules and under the same ones borrowed.
fn category_of_integer(call: &mut Call) {
    let data = call.rules();
    let operands = PluralOperands::from(call.number());
    let borrowed = category_by_borrowed(&data, operands);
    let category = category_by(data, operands);
    if borrowed != category {
        return call.print("another category by borrowed rules");
    }
    call.print(name_of(category));
}

// The category of operands by rules that are borrowed.
fn category_by_borrowed(data: &PluralRulesData<'_>, operands: PluralOperands) -> PluralCategory {
    category_by(data.as_borrowed(), operands)
}

/// Returns the category of operands by rules.
pub fn category_by(data: PluralRulesData<'_>, operands: PluralOperands) -> PluralCategory {
    PluralRules::from_data(data).category_for(operands)
}

// The category of a decimal, and whether it is exact.
fn category_of_decimal(call: &mut Call) {
    let rules = PluralRules::from_data(call.rules());
    print_decimal_by(call, &rules);
}

// Prints the category of a decimal by rules, and whether it is exact.
fn print_decimal_by(call: &mut Call, rules: &PluralRules<'_>) {
    let text = call.text();
    match Decimal::from_str(call.alloc, text.as_str()) {
        Ok(number) => print_chosen(
            call,
            rules.category_for_decimal(&number),
            rules.is_exact_for_decimal(&number),
        ),
        Err(error) => call.print_error(&error),
    }
}

// The category of a compact decimal, and whether it is exact.
fn category_of_compact(call: &mut Call) {
    let rules = PluralRules::from_data(call.rules());
    print_compact_by(call, &rules);
}

// Prints the category of a compact decimal by rules, and whether it is exact.
fn print_compact_by(call: &mut Call, rules: &PluralRules<'_>) {
    let text = call.text();
    match CompactDecimal::from_str(call.alloc, text.as_str()) {
        Ok(number) => print_chosen(
            call,
            rules.category_for_compact(&number),
            rules.is_exact_for(&number),
        ),
        Err(error) => call.print_error(&error),
    }
}

// Prints a category, and whether it is exact.
fn print_chosen(call: &mut Call, category: PluralCategory, is_exact: bool) {
    call.print(name_of(category));
    call.print(if is_exact { ", exact" } else { ", not exact" });
}

// The category of a number's text under five texts, where it is sure.
fn sure_category(call: &mut Call) {
    let texts = call.five_texts();
    print_sure(call, &texts);
}

// Prints the category of a number's text under five texts, where it is sure.
fn print_sure(call: &mut Call, texts: &FiveTexts) {
    let number = call.text();
    let found = plural_base::sure_category(
        call.alloc,
        texts.zero.as_deref(),
        texts.one.as_deref(),
        texts.two.as_deref(),
        texts.few.as_deref(),
        texts.many.as_deref(),
        number.as_str(),
    );
    match found {
        Ok(category) => call.print(name_of(category)),
        Err(error) => {
            let _ = write!(call, "error {error}");
        }
    }
}
