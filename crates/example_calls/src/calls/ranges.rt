//! Categories of ranges: tables, keys, JSON.

use icu_plurals::provider::{PluralRanges, RawPluralCategory, UnvalidatedPluralRange};
use std::alloc::Global;

// Prints what each call returns.
pub(crate) fn show_all(rt: &HostRuntime, alloc: Global) -> anyhow::Result<()> {
    println!(rt; "== a table of ranges")?;
    print_table(rt)?;
    println!(rt; "== a key")?;
    print_key(rt)?;
    println!(rt; "== ranges as JSON")?;
    print_json(rt, alloc)
}

fn print_table(rt: &HostRuntime) -> anyhow::Result<()> {
    let (one, few) = (RawPluralCategory::One, RawPluralCategory::Few);
    let mut ranges = PluralRanges::new();
    ranges.insert(one, few, few);
    println!(rt; "{}", ranges.get(one, few) == Some(few))?;
    println!(rt; "{}", ranges.get(few, one).is_none())?;
    Ok(())
}

fn print_key(rt: &HostRuntime) -> anyhow::Result<()> {
    let key = UnvalidatedPluralRange::from_range(RawPluralCategory::Two, RawPluralCategory::One);
    println!(rt; "{}", key.0)?;
    let named = UnvalidatedPluralRange::from_text("two--one");
    println!(rt; "{}", named == Some(key))?;
    Ok(())
}

fn print_json(rt: &HostRuntime, alloc: Global) -> anyhow::Result<()> {
    let (one, few) = (RawPluralCategory::One, RawPluralCategory::Few);
    let mut ranges = PluralRanges::new();
    ranges.insert(one, few, few);
    let value = ranges.to_json(alloc)?;
    println!(rt; "{}", value.to_string(alloc)?)?;
    println!(rt; "{}", PluralRanges::from_json(&value) == Ok(ranges))?;
    Ok(())
}
