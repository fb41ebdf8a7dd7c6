//! What a document has for a locale.

use fixed_decimal::CompactDecimal;
use plural_base::{
    DataError, JsonProvider, PluralCategory, PluralRuleType, PluralRules, PluralRulesOptions,
    PluralsProvider,
};
use row_calls::call::Call;
use row_calls::rules::name_of;

/// Makes the call of a kind of this file. Returns whether there is such a kind.
pub fn make(kind: &str, call: &mut Call) -> bool {
    match kind {
        "loaded_rules" => loaded_rules(call),
        "loaded_ranges" => loaded_ranges(call),
        "rules_of_one" => rules_of_one(call),
        "ranges_of_one" => ranges_of_one(call),
        "category_of_locale" => category_of_locale(call),
        _ => return false,
    }
    true
}

/// Returns the options that name this type, or none.
pub fn options_of(rule_type: Option<PluralRuleType>) -> PluralRulesOptions {
    match rule_type {
        Some(rule_type) => PluralRulesOptions::from(rule_type),
        None => PluralRulesOptions::default(),
    }
}

// The rules of a locale, as JSON.
fn loaded_rules(call: &mut Call) {
    if let Some(provider) = call.provider() {
        print_loaded_rules(call, &provider);
    }
}

// Prints the rules that a provider has for a locale, as JSON.
fn print_loaded_rules(call: &mut Call, provider: &JsonProvider) {
    let locale = call.text();
    let loaded = match call.rule_type() {
        Some(PluralRuleType::Ordinal) => provider.load_ordinal(locale.as_str()),
        _ => provider.load_cardinal(locale.as_str()),
    };
    match loaded {
        Ok(rules) => call.print_rules(&rules),
        Err(error) => call.print_error(&error),
    }
}

// The ranges of a locale, as JSON.
fn loaded_ranges(call: &mut Call) {
    if let Some(provider) = call.provider() {
        print_loaded_ranges(call, &provider);
    }
}

// Prints the ranges that a provider has for a locale, as JSON.
fn print_loaded_ranges(call: &mut Call, provider: &JsonProvider) {
    let locale = call.text();
    match provider.load_ranges(locale.as_str()) {
        Ok(ranges) => match ranges.to_json(call.alloc) {
            Ok(value) => call.print_json(&value),
            Err(error) => call.print_error(&error),
        },
        Err(error) => call.print_error(&error),
    }
}

// The provider of one locale of a document, or none, if the document is refused.
fn provider_of_one(call: &mut Call) -> Option<JsonProvider> {
    let document = call.value();
    let locale = call.text();
    match JsonProvider::of_locale(call.alloc, &document, locale.as_str()) {
        Ok(provider) => Some(provider),
        Err(error) => {
            call.print_error(&error);
            None
        }
    }
}

// The rules of a locale by the provider of one locale, as JSON.
fn rules_of_one(call: &mut Call) {
    match provider_of_one(call) {
        Some(provider) => print_loaded_rules(call, &provider),
        None => {
            let _ = call.text();
            let _ = call.rule_type();
        }
    }
}

// The ranges of a locale by the provider of one locale, as JSON.
fn ranges_of_one(call: &mut Call) {
    match provider_of_one(call) {
        Some(provider) => print_loaded_ranges(call, &provider),
        None => {
            let _ = call.text();
        }
    }
}

// The category of a compact decimal by the rules of a locale, which are those that the options
// name.
fn category_of_locale(call: &mut Call) {
    let provider = call.provider();
    let locale = call.text();
    let rule_type = call.rule_type();
    let number = call.compact();
    if let (Some(provider), Some(number)) = (provider, number) {
        print_category(call, &provider, locale.as_str(), rule_type, &number);
    }
}

// Prints the category of a number, if the rules of the type and of the options choose it.
fn print_category(
    call: &mut Call,
    provider: &JsonProvider,
    locale: &str,
    rule_type: Option<PluralRuleType>,
    number: &CompactDecimal,
) {
    let options = options_of(rule_type);
    let by_options = PluralRules::try_new_unstable(provider, locale, options);
    let category = category_by(by_options, number);
    if category_by(rules_of_type(provider, locale, rule_type), number) != category {
        return call.print("another category by the options");
    }
    match category {
        Ok(category) => call.print(name_of(category)),
        Err(error) => call.print_error(&error),
    }
}

// The category of a number by rules that were loaded.
fn category_by(
    loaded: Result<PluralRules<'_>, DataError>,
    number: &CompactDecimal,
) -> Result<PluralCategory, DataError> {
    Ok(loaded?.category_for_compact(number))
}

// The rules of a type, cardinal if it is none.
fn rules_of_type<'p>(
    provider: &'p JsonProvider,
    locale: &str,
    rule_type: Option<PluralRuleType>,
) -> Result<PluralRules<'p>, DataError> {
    match rule_type {
        Some(PluralRuleType::Ordinal) => PluralRules::try_new_ordinal_unstable(provider, locale),
        _ => PluralRules::try_new_cardinal_unstable(provider, locale),
    }
}
