//! Ranges of numbers.

use icu_plurals::{JsonProvider, PluralOperands, PluralRules, PluralRulesWithRanges};

// Prints the categories of two ranges in English: `0–1 items`, and `1–2 items`.
pub(crate) fn show_ranges(rt: &HostRuntime, provider: &JsonProvider) -> anyhow::Result<()> {
    let english = PluralRulesWithRanges::try_new_cardinal_unstable(provider, "en")?;
    print_ranges(rt, &english)
}

fn print_ranges(
    rt: &HostRuntime,
    english: &PluralRulesWithRanges<PluralRules<'_>>,
) -> anyhow::Result<()> {
    for (start, end) in [(0u8, 1u8), (1, 2)] {
        let start = PluralOperands::from(start);
        let end = PluralOperands::from(end);
        println!(rt; "{:?}", english.category_for_range(start, end))?;
    }
    Ok(())
}
