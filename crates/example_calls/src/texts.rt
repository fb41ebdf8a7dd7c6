//! Rules from texts.

use icu_plurals::provider::PluralRulesData;
use icu_plurals::{PluralOperands, PluralRules};
use std::alloc::Global;

// The rules of Czech.
fn czech(alloc: Global) -> anyhow::Result<PluralRules<'static>> {
    let one = Some("i = 1 and v = 0 @integer 1");
    let few = Some("i = 2..4 and v = 0 @integer 2~4");
    let many = Some("v != 0 @decimal 0.0~1.5, 10.0, 100.0, …");
    let data = PluralRulesData::from_texts(alloc, None, one, None, few, many)?;
    Ok(PluralRules::from_data(data))
}

// Prints the categories that numbers have in Czech.
pub(crate) fn show_czech(rt: &HostRuntime, alloc: Global) -> anyhow::Result<()> {
    let czech = czech(alloc)?;
    print_czech(rt, &czech)
}

fn print_czech(rt: &HostRuntime, czech: &PluralRules<'_>) -> anyhow::Result<()> {
    for number in [1u32, 3, 5] {
        let category = czech.category_for(PluralOperands::from(number));
        println!(rt; "{number}: {category:?}")?;
    }
    Ok(())
}

// Prints why a text is refused.
pub(crate) fn print_refusal(rt: &HostRuntime, alloc: Global) -> anyhow::Result<()> {
    let one = Some("i = 1");
    let few = Some("i 2..4");
    let read = PluralRulesData::from_texts(alloc, None, one, None, few, None);
    if let Some(error) = read.err() {
        println!(rt; "{:?}: {}", error.category, error.error)?;
    }
    Ok(())
}
