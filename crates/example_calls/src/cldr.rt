//! CLDR's rules: from a file, from standard input, and from bytes that were made before.

use icu_plurals::provider::PluralRulesData;
use icu_plurals::{JsonProvider, PluralOperands, PluralRules, PluralsProvider};
use serde_json::Value;
use std::alloc::Global;
use std::{fs, io};

// The rules and ranges of a locale of a document, and of no other.
fn provider_of(alloc: Global, document: &str, locale: &str) -> anyhow::Result<JsonProvider> {
    let value = Value::from_str(alloc, document)?;
    Ok(JsonProvider::of_locale(alloc, &value, locale)?)
}

// Prints the categories that numbers have in Czech.
pub(crate) fn show_file(rt: &HostRuntime, alloc: Global) -> anyhow::Result<()> {
    let document = fs::read_to_string(rt, "cldr.json")?;
    let provider = provider_of(alloc, document.as_str(), "cs")?;
    let czech = PluralRules::try_new_cardinal_unstable(&provider, "cs")?;
    print_categories(rt, &czech)
}

fn print_categories(rt: &HostRuntime, rules: &PluralRules<'_>) -> anyhow::Result<()> {
    for number in [1u32, 3, 5] {
        let category = rules.category_for(PluralOperands::from(number));
        println!(rt; "{number}: {category:?}")?;
    }
    Ok(())
}

// Prints the bytes of the rules in standard input.
pub(crate) fn show_input(rt: &HostRuntime, alloc: Global) -> anyhow::Result<()> {
    let document = io::read_to_string(alloc, rt.stdin())?;
    let provider = provider_of(alloc, document.as_str(), "cs")?;
    print_bytes(rt, alloc, &provider)
}

fn print_bytes(rt: &HostRuntime, alloc: Global, provider: &JsonProvider) -> anyhow::Result<()> {
    let bytes = provider.load_cardinal("cs")?.to_bytes(alloc)?;
    println!(rt; "const CZECH: &[u8] = &{:?};", bytes.as_slice())?;
    Ok(())
}

const CZECH: &[u8] = &[
    3, 0, 31, 0, 62, 0, 1, 2, 0, 13, 0, 193, 0, 0, 0, 0, 1, 0, 0, 0, 1, 0, 0, 0, 194, 0, 0, 0, 0,
    0, 0, 0, 0, 0, 0, 0, 0, 3, 2, 0, 13, 0, 193, 0, 0, 0, 0, 2, 0, 0, 0, 4, 0, 0, 0, 194, 0, 0, 0,
    0, 0, 0, 0, 0, 0, 0, 0, 0, 4, 1, 0, 130, 0, 0, 0, 0, 0, 0, 0, 0, 0, 0, 0, 0,
];

// Prints the same categories by bytes that stand in the program.
pub(crate) fn show_bytes(rt: &HostRuntime) -> anyhow::Result<()> {
    let data = PluralRulesData::from_bytes(CZECH)?;
    print_categories(rt, &PluralRules::from_data(data))
}
