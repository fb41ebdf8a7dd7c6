//! Examples of the pages of `plural_base`: ranges.

use crate::tests::assertion::holds;
use plural_base::*;
use plural_reference::PluralOperands;
use serde_json::Value;
use std::alloc::Global;
use std::test::Fail;

// English-like rules.
fn rules(alloc: Global) -> Result<PluralRules<'static>, Fail> {
    let one = Some("i = 1 and v = 0");
    let few = Some("i = 3..4 and v = 0");
    let data = PluralRulesData::from_texts(alloc, None, one, None, few, None)?;
    Ok(PluralRules::from_data(data))
}

// A provider of rules and ranges.
fn provider(alloc: Global) -> Result<JsonProvider, Fail> {
    let text = "{\"cardinal\":{\"a\":{\"one\":\"i = 1 and v = 0\"},\"b\":{}},
        \"ordinal\":{\"a\":{\"two\":\"n = 2\"}},
        \"ranges\":{\"a\":{\"ranges\":{\"other--one\":\"few\",\"two--two\":\"one\"}},\"c\":{\"ranges\":{}}}}";
    let value = Value::from_str(alloc, text)?;
    Ok(JsonProvider::from_value(alloc, &value)?)
}

#[test]
fn a_range_has_the_category_of_its_pair_or_its_end(rt: HostRuntime) -> Result<(), Fail> {
    let provider = provider(rt.alloc())?;
    let rules = rules(rt.alloc())?;
    let ranges = PluralRulesWithRanges::try_new_with_rules_unstable(&provider, "a", &rules)?;
    let resolved = ranges.resolve_range(PluralCategory::Other, PluralCategory::One);
    holds!(rt; resolved == PluralCategory::Few);
    Ok(())
}

// The category of the range from one integer to another under a locale's cardinal rules and ranges.
fn cardinal(
    provider: &JsonProvider,
    locale: &str,
    start: u64,
    end: u64,
) -> Result<PluralCategory, DataError> {
    let rules = PluralRulesWithRanges::try_new_cardinal_unstable(provider, locale)?;
    Ok(rules.category_for_range(PluralOperands::from(start), PluralOperands::from(end)))
}

// The category of the range from 0 to 1 under the rules that the options name.
fn zero_to_one(
    provider: &JsonProvider,
    options: PluralRulesOptions,
) -> Result<PluralCategory, DataError> {
    let rules = PluralRulesWithRanges::try_new_unstable(provider, "a", options)?;
    Ok(rules.category_for_range(PluralOperands::from(0u64), PluralOperands::from(1u64)))
}

#[test]
fn rules_stand_beside_ranges(rt: HostRuntime) -> Result<(), Fail> {
    let provider = provider(rt.alloc())?;
    holds!(rt; cardinal(&provider, "a", 0, 1) == Ok(PluralCategory::Few));
    let ordinal = zero_to_one(&provider, PluralRulesOptions::from(PluralRuleType::Ordinal));
    holds!(rt; ordinal == Ok(PluralCategory::Other));
    Ok(())
}
