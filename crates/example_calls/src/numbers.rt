//! Written numbers: zeros, exponents, and any length.

use icu_plurals::provider::PluralRulesData;
use icu_plurals::{CompactDecimal, Decimal, PluralRules, RoundingMode};
use std::alloc::Global;

// The rules of French.
fn french(alloc: Global) -> anyhow::Result<PluralRules<'static>> {
    let one = Some("i = 0,1");
    let many = Some("e = 0 and i != 0 and i % 1000000 = 0 and v = 0 or e != 0..5");
    let data = PluralRulesData::from_texts(alloc, None, one, None, None, many)?;
    Ok(PluralRules::from_data(data))
}

// Prints the categories of numbers as they are written.
pub(crate) fn show_numbers(rt: &HostRuntime, alloc: Global) -> anyhow::Result<()> {
    let french = french(alloc)?;
    print_numbers(rt, alloc, &french)
}

fn print_numbers(rt: &HostRuntime, alloc: Global, french: &PluralRules<'_>) -> anyhow::Result<()> {
    for text in ["1", "1.50", "1000000", "1000000.0", "1.2c6", "-2"] {
        let number = CompactDecimal::from_str(alloc, text)?;
        let category = french.category_for_compact(&number);
        println!(rt; "{text}: {category:?}")?;
    }
    Ok(())
}

// The rules of English.
fn english(alloc: Global) -> anyhow::Result<PluralRules<'static>> {
    let one = Some("i = 1 and v = 0");
    let data = PluralRulesData::from_texts(alloc, None, one, None, None, None)?;
    Ok(PluralRules::from_data(data))
}

// Prints a price with two digits, a number of type f64, and a compact decimal.
pub(crate) fn show_shown_numbers(rt: &HostRuntime, alloc: Global) -> anyhow::Result<()> {
    let english = english(alloc)?;
    print_shown_numbers(rt, alloc, &english)
}

fn print_shown_numbers(
    rt: &HostRuntime,
    alloc: Global,
    rules: &PluralRules<'_>,
) -> anyhow::Result<()> {
    print_price(rt, alloc, rules)?;
    print_length(rt, alloc, rules)?;
    print_compact(rt, alloc, rules)
}

// Prints the category of a decimal, as it is shown.
fn print_shown(rt: &HostRuntime, rules: &PluralRules<'_>, number: &Decimal) -> anyhow::Result<()> {
    let category = rules.category_for_decimal(number);
    println!(rt; "{number}: {category:?}")?;
    Ok(())
}

fn print_price(rt: &HostRuntime, alloc: Global, rules: &PluralRules<'_>) -> anyhow::Result<()> {
    let mut price = Decimal::from_i64(alloc, 1)?;
    print_shown(rt, rules, &price)?;
    price.pad_end(-2)?;
    print_shown(rt, rules, &price)
}

fn print_length(rt: &HostRuntime, alloc: Global, rules: &PluralRules<'_>) -> anyhow::Result<()> {
    let text = format!(in alloc; "{}", 0.96f64)?;
    let mut length = Decimal::from_str(alloc, text.as_str())?;
    length.round_with_mode(-1, RoundingMode::HalfEven)?;
    print_shown(rt, rules, &length)?;
    length.trim_end();
    print_shown(rt, rules, &length)
}

fn print_compact(rt: &HostRuntime, alloc: Global, rules: &PluralRules<'_>) -> anyhow::Result<()> {
    let compact = CompactDecimal::from_str(alloc, "1.2c6")?;
    println!(rt; "{compact}: {:?}", rules.category_for_compact(&compact))?;
    Ok(())
}

// Prints whether the categories are those of the numbers themselves.
pub(crate) fn show_exactness(rt: &HostRuntime, alloc: Global) -> anyhow::Result<()> {
    let french = french(alloc)?;
    print_exactness(rt, alloc, &french)
}

fn print_exactness(
    rt: &HostRuntime,
    alloc: Global,
    french: &PluralRules<'_>,
) -> anyhow::Result<()> {
    for text in [
        "100000000000000000000000000000",
        "0.000000000000000001",
        "0.0000000000000000001",
    ] {
        let number = CompactDecimal::from_str(alloc, text)?;
        let category = french.category_for_compact(&number);
        let is_exact = french.is_exact_for(&number);
        println!(rt; "{text}: {category:?}, exact: {is_exact}")?;
    }
    Ok(())
}
