//! Rules with a name, which work wherever rules are expected.

use icu_plurals::{
    AsPluralRules, JsonProvider, PluralCategory, PluralRules, PluralRulesWithRanges,
};

#[derive(Drop)]
pub struct Named<'data> {
    pub name: &'static str,
    pub rules: PluralRules<'data>,
}

impl<'data> AsPluralRules<'data> for Named<'data> {
    ghost rules = { λ named. named.rules };

    fn as_plural_rules(&self) -> &PluralRules<'data> {
        &self.rules
    }
}

// Prints the category of a range by named rules.
pub(crate) fn show_named_range(rt: &HostRuntime, provider: &JsonProvider) -> anyhow::Result<()> {
    let named = Named {
        name: "English",
        rules: PluralRules::try_new_cardinal_unstable(provider, "en")?,
    };
    let name = named.name;
    let ranges = PluralRulesWithRanges::try_new_with_rules_unstable(provider, "en", named)?;
    print_named_range(rt, name, &ranges)
}

fn print_named_range(
    rt: &HostRuntime,
    name: &str,
    ranges: &PluralRulesWithRanges<Named<'_>>,
) -> anyhow::Result<()> {
    let category = ranges.resolve_range(PluralCategory::Other, PluralCategory::One);
    println!(rt; "{name}: {category:?}")?;
    Ok(())
}
