//! Rules from a JSON document.

use icu_plurals::{JsonProvider, PluralOperands, PluralRules};
use serde_json::Value;
use std::alloc::Global;

const DOCUMENT: &str = r#"{
    "cardinal": {"en": {"one": "i = 1 and v = 0"}},
    "ordinal": {"en": {
        "one": "n % 10 = 1 and n % 100 != 11",
        "two": "n % 10 = 2 and n % 100 != 12",
        "few": "n % 10 = 3 and n % 100 != 13"
    }},
    "ranges": {"en": {"ranges": {"other--one": "other"}}}
}"#;

// The rules and ranges of the document.
pub(crate) fn provider(alloc: Global) -> anyhow::Result<JsonProvider> {
    let value = Value::from_str(alloc, DOCUMENT)?;
    Ok(JsonProvider::from_value(alloc, &value)?)
}

// Prints the categories of places in English.
pub(crate) fn show_places(rt: &HostRuntime, provider: &JsonProvider) -> anyhow::Result<()> {
    let ordinal = PluralRules::try_new_ordinal_unstable(provider, "en")?;
    print_places(rt, &ordinal)
}

fn print_places(rt: &HostRuntime, ordinal: &PluralRules<'_>) -> anyhow::Result<()> {
    for place in [1u32, 2, 3, 11, 22] {
        let category = ordinal.category_for(PluralOperands::from(place));
        println!(rt; "{place}: {category:?}")?;
    }
    Ok(())
}
