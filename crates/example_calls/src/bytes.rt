//! Rules as packed bytes.

use icu_plurals::provider::PluralRulesData;
use icu_plurals::provider::rules::runtime::ast::Rule;
use icu_plurals::{PluralOperands, PluralRules};
use std::alloc::Global;

// Prints how long a packed rule is, and a category by the bytes.
pub(crate) fn show_stored_rule(rt: &HostRuntime, alloc: Global) -> anyhow::Result<()> {
    let packed = Rule::from_str(alloc, "i = 1 and v = 0")?;
    let bytes = packed.as_bytes();
    print_stored_rule(rt, bytes)
}

// The rules that have these bytes for one.
fn stored(bytes: &[u8]) -> anyhow::Result<PluralRules<'_>> {
    let one = Rule::parse_bytes(bytes)?;
    let data = PluralRulesData {
        one: Some(one),
        ..PluralRulesData::default()
    };
    Ok(PluralRules::from_data(data))
}

fn print_stored_rule(rt: &HostRuntime, bytes: &[u8]) -> anyhow::Result<()> {
    let category = stored(bytes)?.category_for(PluralOperands::from(1u8));
    println!(rt; "{} bytes: {category:?}", bytes.len())?;
    Ok(())
}
