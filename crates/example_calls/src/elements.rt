//! Values by category.

use icu_plurals::provider::{PluralElementsPackedCow, PluralElementsPackedULE};
use icu_plurals::{PluralElements, PluralOperands, PluralRules};
use std::alloc::Global;

// Prints the text that each of three numbers chooses.
pub(crate) fn print_elements(rt: &HostRuntime, rules: &PluralRules<'_>) -> anyhow::Result<()> {
    let texts = PluralElements::new("files")
        .with_one_value(Some("file"))
        .with_explicit_zero_value(Some("no files"));
    for number in [0u8, 1, 2] {
        let text = texts.get(PluralOperands::from(number), rules);
        println!(rt; "{number}: {text}")?;
    }
    Ok(())
}

// Prints how long packed texts are, and a text that is read in place.
pub(crate) fn show_stored_texts(
    rt: &HostRuntime,
    alloc: Global,
    rules: &PluralRules<'_>,
) -> anyhow::Result<()> {
    let texts = PluralElements::new("files").with_one_value(Some("file"));
    let packed = PluralElementsPackedCow::from_elements(alloc, &texts)?;
    let bytes = packed.as_packed().as_bytes();
    print_stored_texts(rt, bytes, rules)
}

fn print_stored_texts(
    rt: &HostRuntime,
    bytes: &[u8],
    rules: &PluralRules<'_>,
) -> anyhow::Result<()> {
    let stored = PluralElementsPackedULE::parse_bytes(bytes)?;
    let (_, text) = stored.get(PluralOperands::from(1u8), rules);
    println!(rt; "{} bytes: {text}", bytes.len())?;
    Ok(())
}
