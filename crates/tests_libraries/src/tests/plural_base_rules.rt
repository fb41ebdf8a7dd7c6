//! Examples of the pages of `plural_base`: categories, rules and their JSON.

use crate::tests::assertion::holds;
use fixed_decimal::Decimal;
use plural_base::*;
use plural_reference::PluralOperands;
use plural_runtime::Rule;
use serde_json::Value;
use std::alloc::Global;
use std::test::Fail;

const ONE: PluralCategory = PluralCategory::One;

#[test]
fn all_gives_six_categories_by_their_names(rt: HostRuntime) {
    let mut all = PluralCategory::all();
    holds!(rt; all.len() == 6);
    holds!(rt; all.size_hint() == (6, Some(6)));
    holds!(rt; all.next() == Some(PluralCategory::Few));
}

#[test]
fn names_are_those_of_the_categories(rt: HostRuntime) {
    let rows = [
        ("zero", PluralCategory::Zero),
        ("one", PluralCategory::One),
        ("two", PluralCategory::Two),
        ("few", PluralCategory::Few),
        ("many", PluralCategory::Many),
        ("other", PluralCategory::Other),
    ];
    for (name, category) in rows {
        holds!(rt; PluralCategory::get_for_cldr_string(name) == Some(category));
        holds!(rt; RawPluralCategory::from(category).as_str() == name);
    }
    for name in ["", "Few", "other ", "ones"] {
        holds!(rt; PluralCategory::get_for_cldr_bytes(name.as_bytes()) == None);
    }
}

#[test]
fn numbers_are_those_of_the_raw_categories(rt: HostRuntime) {
    let rows = [
        (RawPluralCategory::Other, PluralCategory::Other),
        (RawPluralCategory::Zero, PluralCategory::Zero),
        (RawPluralCategory::One, PluralCategory::One),
        (RawPluralCategory::Two, PluralCategory::Two),
        (RawPluralCategory::Few, PluralCategory::Few),
        (RawPluralCategory::Many, PluralCategory::Many),
    ];
    for (number, (raw, category)) in rows.iter().enumerate() {
        holds!(rt; (*raw as usize) == number);
        holds!(rt; PluralCategory::from(*raw) == *category);
    }
}

#[test]
fn options_name_a_type_or_none(rt: HostRuntime) {
    holds!(rt; PluralRuleType::default() == PluralRuleType::Cardinal);
    holds!(rt; PluralRulesOptions::default().rule_type == None);
    let options = PluralRulesOptions::default().with_type(PluralRuleType::Ordinal);
    holds!(rt; options.rule_type == Some(PluralRuleType::Ordinal));
    holds!(rt; PluralRulesOptions::from(PluralRuleType::Ordinal) == options);
}

#[test]
fn categories_are_those_with_a_rule_and_other(rt: HostRuntime) -> Result<(), Fail> {
    let (zero, few) = (Some("i = 0"), Some("n = 0"));
    let data = PluralRulesData::from_texts(rt.alloc(), zero, None, None, few, None)?;
    let mut categories = PluralRules::from_data(data).categories();
    holds!(rt; categories.size_hint() == (3, Some(3)));
    holds!(rt; categories.next() == Some(PluralCategory::Zero));
    holds!(rt; categories.next() == Some(PluralCategory::Few));
    holds!(rt; categories.len() == 1);
    holds!(rt; categories.next() == Some(PluralCategory::Other));
    holds!(rt; categories.next() == None);
    Ok(())
}

// Rules with a rule for one alone.
fn rules_of(alloc: Global, one: &str) -> Result<PluralRules<'static>, RulesTextError> {
    let data = PluralRulesData::from_texts(alloc, None, Some(one), None, None, None)?;
    Ok(PluralRules::from_data(data))
}

// The category of a decimal, and whether it is exact.
fn decimal(alloc: Global, one: &str, number: &str) -> Result<(PluralCategory, bool), Fail> {
    let rules = rules_of(alloc, one)?;
    let number = Decimal::from_str(alloc, number)?;
    let category = rules.category_for_decimal(&number);
    Ok((category, rules.is_exact_for_decimal(&number)))
}

#[test]
fn a_decimal_has_its_category_and_its_exactness(rt: HostRuntime) -> Result<(), Fail> {
    holds!(rt; decimal(rt.alloc(), "n = 1", "1.0")? == (ONE, true));
    Ok(())
}

#[test]
fn rules_of_four_forms_choose_as_languages_do(rt: HostRuntime) -> Result<(), Fail> {
    let one = Some("n % 10 = 1 and n % 100 != 11");
    let two = Some("n % 10 = 2 and n % 100 != 12");
    let few = Some("n % 10 = 3 and n % 100 != 13");
    let data = PluralRulesData::from_texts(rt.alloc(), None, one, two, few, None)?;
    let rules = PluralRules::from_data(data);
    let category = rules.category_for(PluralOperands::from(103u64));
    holds!(rt; category == PluralCategory::Few);
    Ok(())
}

#[test]
fn five_texts_are_named(rt: HostRuntime) -> Result<(), Fail> {
    let texts = Five {
        one: Some("i = 1 and v = 0"),
        ..Five::none()
    };
    let rules = PluralRulesData::from_five(rt.alloc(), &texts)?;
    holds!(rt; rules.one.is_some());
    holds!(rt; rules.many.is_none());
    Ok(())
}

#[test]
fn rules_are_read_and_written(rt: HostRuntime) -> Result<(), Fail> {
    let value = Value::from_str(rt.alloc(), "{\"one\":\"i \\u003d 1\"}")?;
    let rules = PluralRulesData::from_json(rt.alloc(), &value)?;
    let one = Some("i = 1");
    let wanted = PluralRulesData::from_texts(rt.alloc(), None, one, None, None, None)?;
    holds!(rt; rules == wanted);
    let written = rules.to_json(rt.alloc())?.to_string(rt.alloc())?;
    let all_five = "{\"few\":null,\"many\":null,\"one\":\"i = 1\",\"two\":null,\"zero\":null}";
    holds!(rt; written.as_str() == all_five);
    Ok(())
}

#[test]
fn a_rule_is_its_printed_text(rt: HostRuntime) -> Result<(), Fail> {
    let value = Value::from_str(rt.alloc(), "\"i%10=1 or n = 2..4 @integer 1\"")?;
    let rule = rule_from_json(rt.alloc(), &value)?;
    let written = rule_to_json(rt.alloc(), &rule)?.to_string(rt.alloc())?;
    holds!(rt; written.as_str() == "\"i % 10 = 1 or n = 2..4\"");
    holds!(rt; rule == Rule::from_str(rt.alloc(), "i % 10 = 1 or n = 2..4")?);
    Ok(())
}
