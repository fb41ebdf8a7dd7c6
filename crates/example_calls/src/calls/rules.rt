//! Rules: the categories of integers and decimals, bytes, types of rules.

use icu_plurals::provider::PluralRulesData;
use icu_plurals::{
    Decimal, JsonProvider, PluralOperands, PluralRuleType, PluralRules, PluralRulesOptions,
};
use std::alloc::Global;

// Prints what each call returns, after its name.
pub(crate) fn show_all(
    rt: &HostRuntime,
    alloc: Global,
    provider: &JsonProvider,
) -> anyhow::Result<()> {
    show_by_three(rt, alloc)?;
    println!(rt; "== rules as bytes")?;
    show_stored_rules(rt, alloc)?;
    println!(rt; "== options")?;
    print_types(rt, provider)
}

// The rule `i % 3 = 2` for one.
fn by_three(alloc: Global) -> anyhow::Result<PluralRules<'static>> {
    let data = PluralRulesData::from_texts(alloc, None, Some("i % 3 = 2"), None, None, None)?;
    Ok(PluralRules::from_data(data))
}

fn show_by_three(rt: &HostRuntime, alloc: Global) -> anyhow::Result<()> {
    let rules = by_three(alloc)?;
    print_by_three(rt, alloc, &rules)
}

fn print_by_three(rt: &HostRuntime, alloc: Global, rules: &PluralRules<'_>) -> anyhow::Result<()> {
    println!(rt; "== category_for")?;
    print_integers(rt, rules)?;
    println!(rt; "== category_for_decimal")?;
    print_decimals(rt, alloc, rules)
}

fn print_integers(rt: &HostRuntime, rules: &PluralRules<'_>) -> anyhow::Result<()> {
    for number in [5u64, 6, 2_000_000_000_000_000_000] {
        let category = rules.category_for(PluralOperands::from(number));
        println!(rt; "{number}: {category:?}")?;
    }
    Ok(())
}

fn print_decimals(rt: &HostRuntime, alloc: Global, rules: &PluralRules<'_>) -> anyhow::Result<()> {
    for text in ["5.0", "2000000000000000000"] {
        let number = Decimal::from_str(alloc, text)?;
        let category = rules.category_for_decimal(&number);
        let is_exact = rules.is_exact_for_decimal(&number);
        println!(rt; "{text}: {category:?}, exact: {is_exact}")?;
    }
    Ok(())
}

fn stored(alloc: Global) -> anyhow::Result<Vec<u8>> {
    let (one, few) = (Some("n = 1"), Some("n = 2"));
    let data = PluralRulesData::from_texts(alloc, None, one, None, few, None)?;
    Ok(data.to_bytes(alloc)?)
}

fn show_stored_rules(rt: &HostRuntime, alloc: Global) -> anyhow::Result<()> {
    let bytes = stored(alloc)?;
    let stored = PluralRules::from_data(PluralRulesData::from_bytes(&bytes)?);
    print_stored_rules(rt, &stored)
}

fn print_stored_rules(rt: &HostRuntime, stored: &PluralRules<'_>) -> anyhow::Result<()> {
    for number in [0u8, 1, 2] {
        let category = stored.category_for(PluralOperands::from(number));
        println!(rt; "{number}: {category:?}")?;
    }
    Ok(())
}

fn print_types(rt: &HostRuntime, provider: &JsonProvider) -> anyhow::Result<()> {
    for rule_type in [PluralRuleType::Cardinal, PluralRuleType::Ordinal] {
        let options = PluralRulesOptions::from(rule_type);
        let category = PluralRules::try_new_unstable(provider, "en", options)?.category_for(
            PluralOperands::from(2u8),
        );
        println!(rt; "{category:?}")?;
    }
    Ok(())
}
