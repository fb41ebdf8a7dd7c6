//! An example for each call whose page shows one, with all that it needs.

mod closures;
mod lists;
mod messages;
mod numbers;
mod packed;
mod ranges;
mod rules;

use icu_plurals::{JsonProvider, PluralRules};
use std::alloc::Global;

// Calls of elements, packed and not, and of messages.
pub(crate) fn show_elements(
    rt: &HostRuntime,
    alloc: Global,
    rules: &PluralRules<'_>,
) -> anyhow::Result<()> {
    closures::show_all(rt, alloc)?;
    packed::show_all(rt, alloc, rules)?;
    messages::show_all(rt, alloc, rules)
}

// Calls of rules, ranges, numbers and lists.
pub(crate) fn show_rules(
    rt: &HostRuntime,
    alloc: Global,
    provider: &JsonProvider,
) -> anyhow::Result<()> {
    rules::show_all(rt, alloc, provider)?;
    ranges::show_all(rt, alloc)?;
    numbers::show_all(rt, alloc)?;
    lists::show_all(rt, alloc)
}
