//! The examples of docs/USING.md, a file for each. What they print is kept in `stdout`, with which
//! every gate compares it.
#![tactic(auto)]

mod bytes;
mod calls;
mod cldr;
mod elements;
mod english;
mod items;
mod json;
mod messages;
mod named;
mod numbers;
mod ranges;
mod texts;

use icu_plurals::{JsonProvider, PluralRules};
use std::alloc::Global;

// Prints examples of the sources of rules, and of numbers, each after its name.
fn show_rules(rt: &HostRuntime, alloc: Global, provider: &JsonProvider) -> anyhow::Result<()> {
    for name in [
        "texts", "refused", "json", "bytes", "numbers", "shown", "exact",
    ] {
        println!(rt; "== {name}")?;
        show_rule(rt, alloc, provider, name)?;
    }
    Ok(())
}

fn show_rule(
    rt: &HostRuntime,
    alloc: Global,
    provider: &JsonProvider,
    name: &str,
) -> anyhow::Result<()> {
    match name {
        "texts" => texts::show_czech(rt, alloc),
        "refused" => texts::print_refusal(rt, alloc),
        "json" => json::show_places(rt, provider),
        "bytes" => bytes::show_stored_rule(rt, alloc),
        "numbers" => numbers::show_numbers(rt, alloc),
        "shown" => numbers::show_shown_numbers(rt, alloc),
        _ => numbers::show_exactness(rt, alloc),
    }
}

// Prints examples of what numbers choose by the rules of English.
fn show_choices(rt: &HostRuntime, alloc: Global, rules: &PluralRules<'_>) -> anyhow::Result<()> {
    for name in ["elements", "stored", "messages", "marks", "in place"] {
        println!(rt; "== {name}")?;
        show_choice(rt, alloc, rules, name)?;
    }
    Ok(())
}

fn show_choice(
    rt: &HostRuntime,
    alloc: Global,
    rules: &PluralRules<'_>,
    name: &str,
) -> anyhow::Result<()> {
    match name {
        "elements" => elements::print_elements(rt, rules),
        "stored" => elements::show_stored_texts(rt, alloc, rules),
        "messages" => messages::show_messages(rt, alloc, rules),
        "marks" => messages::show_marks(rt, alloc, rules),
        _ => messages::show_in_place(rt, alloc, rules),
    }
}

// Prints examples of ranges, and of types of one's own.
fn show_own(rt: &HostRuntime, alloc: Global, provider: &JsonProvider) -> anyhow::Result<()> {
    println!(rt; "== ranges")?;
    ranges::show_ranges(rt, provider)?;
    println!(rt; "== named")?;
    named::show_named_range(rt, provider)?;
    println!(rt; "== english")?;
    english::show_english(rt, alloc)
}

fn show(rt: &HostRuntime, alloc: Global, provider: &JsonProvider) -> anyhow::Result<()> {
    let rules = PluralRules::try_new_cardinal_unstable(provider, "en")?;
    show_all(rt, alloc, provider, &rules)
}

fn show_all(
    rt: &HostRuntime,
    alloc: Global,
    provider: &JsonProvider,
    rules: &PluralRules<'_>,
) -> anyhow::Result<()> {
    show_rules(rt, alloc, provider)?;
    show_choices(rt, alloc, rules)?;
    show_own(rt, alloc, provider)?;
    calls::show_elements(rt, alloc, rules)?;
    calls::show_rules(rt, alloc, provider)
}

// Prints examples of CLDR's rules, each after its name.
fn show_cldr(rt: &HostRuntime, alloc: Global) -> anyhow::Result<()> {
    println!(rt; "== file")?;
    cldr::show_file(rt, alloc)?;
    println!(rt; "== input")?;
    cldr::show_input(rt, alloc)?;
    println!(rt; "== constant")?;
    cldr::show_bytes(rt)?;
    println!(rt; "== items")?;
    items::print_items(rt, alloc)
}

fn main(rt: HostRuntime) -> anyhow::Result<()> {
    let alloc = rt.alloc();
    let provider = json::provider(alloc)?;
    show(&rt, alloc, &provider)?;
    show_cldr(&rt, alloc)
}
