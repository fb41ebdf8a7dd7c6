//! The categories of ranges of numbers.

use crate::kinds::decimals::next_decimal;
use crate::kinds::locales::options_of;
use plural_base::{
    DataError, JsonProvider, PluralCategory, PluralRuleType, PluralRules, PluralRulesWithRanges,
};
use plural_reference::PluralOperands;
use row_calls::call::Call;
use row_calls::rules::name_of;

/// Makes the call of a kind of this file. Returns whether there is such a kind.
pub fn make(kind: &str, call: &mut Call) -> bool {
    match kind {
        "resolved_range" => resolved_range(call),
        "range_of_rules" => range_of_rules(call),
        "rules_beside_ranges" => rules_beside_ranges(call),
        "range_category" => range_category(call),
        _ => return false,
    }
    true
}

// The category of a pair by given rules and the locale's ranges.
fn resolved_range(call: &mut Call) {
    if let Some(provider) = call.provider() {
        let locale = call.text();
        let rules = PluralRules::from_data(call.rules());
        print_resolved(call, &provider, locale.as_str(), &rules);
    }
}

// Prints the category of a pair by given rules and the locale's ranges.
fn print_resolved(call: &mut Call, provider: &JsonProvider, locale: &str, rules: &PluralRules<'_>) {
    let start = call.category();
    let end = call.category();
    match PluralRulesWithRanges::try_new_with_rules_unstable(provider, locale, rules) {
        Ok(ranges) => call.print(name_of(ranges.resolve_range(start, end))),
        Err(error) => call.print_error(&error),
    }
}

// The operands of a decimal.
fn next_operands(call: &mut Call) -> PluralOperands {
    match next_decimal(call) {
        Some(number) => PluralOperands::from(&number),
        None => PluralOperands::default(),
    }
}

// The category of a range of decimals by given rules and the locale's ranges.
fn range_of_rules(call: &mut Call) {
    if let Some(provider) = call.provider() {
        let locale = call.text();
        let rules = PluralRules::from_data(call.rules());
        print_range(call, &provider, locale.as_str(), rules);
    }
}

// Prints the category of a range of decimals by given rules and the locale's ranges.
fn print_range(call: &mut Call, provider: &JsonProvider, locale: &str, rules: PluralRules<'_>) {
    let start = next_operands(call);
    let end = next_operands(call);
    match PluralRulesWithRanges::try_new_with_rules_unstable(provider, locale, rules) {
        Ok(ranges) => call.print(name_of(ranges.category_for_range(start, end))),
        Err(error) => call.print_error(&error),
    }
}

// The category of an integer by the rules that stand beside the ranges.
fn rules_beside_ranges(call: &mut Call) {
    if let Some(provider) = call.provider() {
        let locale = call.text();
        let rules = PluralRules::from_data(call.rules());
        print_beside(call, &provider, locale.as_str(), &rules);
    }
}

// Prints the category of an integer by the rules that stand beside the ranges.
fn print_beside(call: &mut Call, provider: &JsonProvider, locale: &str, rules: &PluralRules<'_>) {
    let operands = PluralOperands::from(call.number());
    match PluralRulesWithRanges::try_new_with_rules_unstable(provider, locale, rules) {
        Ok(ranges) => call.print(name_of(ranges.rules().category_for(operands))),
        Err(error) => call.print_error(&error),
    }
}

// The category of a range of integers by the locale's own rules, which are those that the options
// name.
fn range_category(call: &mut Call) {
    if let Some(provider) = call.provider() {
        let locale = call.text();
        print_by_locale(call, &provider, locale.as_str());
    }
}

// Prints the category of a range of integers, if the rules of the type and of the options choose
// it.
fn print_by_locale(call: &mut Call, provider: &JsonProvider, locale: &str) {
    let rule_type = call.rule_type();
    let start = PluralOperands::from(call.number());
    let end = PluralOperands::from(call.number());
    let options = options_of(rule_type);
    let by_options = PluralRulesWithRanges::try_new_unstable(provider, locale, options);
    let found = category_of_range(by_options, start, end);
    if category_of_range(by_type(provider, locale, rule_type), start, end) != found {
        return call.print("another category by the options");
    }
    match found {
        Ok(category) => call.print(name_of(category)),
        Err(error) => call.print_error(&error),
    }
}

// The category of a range by rules and ranges that were loaded.
fn category_of_range(
    loaded: Result<PluralRulesWithRanges<PluralRules<'_>>, DataError>,
    start: PluralOperands,
    end: PluralOperands,
) -> Result<PluralCategory, DataError> {
    Ok(loaded?.category_for_range(start, end))
}

// The rules of a type, cardinal if it is none, and the ranges of a locale.
fn by_type<'p>(
    provider: &'p JsonProvider,
    locale: &str,
    rule_type: Option<PluralRuleType>,
) -> Result<PluralRulesWithRanges<PluralRules<'p>>, DataError> {
    match rule_type {
        Some(PluralRuleType::Ordinal) => {
            PluralRulesWithRanges::try_new_ordinal_unstable(provider, locale)
        }
        _ => PluralRulesWithRanges::try_new_cardinal_unstable(provider, locale),
    }
}
