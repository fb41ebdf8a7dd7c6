//! Packed elements: bytes, values by key, JSON.

use icu_plurals::provider::{FourBitMetadata, PluralElementsPackedCow, PluralElementsPackedULE};
use icu_plurals::{PluralElements, PluralOperands, PluralRules};
use serde_json::Value;
use std::alloc::Global;

// Prints what each call returns.
pub(crate) fn show_all(
    rt: &HostRuntime,
    alloc: Global,
    rules: &PluralRules<'_>,
) -> anyhow::Result<()> {
    println!(rt; "== encode")?;
    show_encoded(rt, alloc, rules)?;
    println!(rt; "== decode")?;
    print_decoded(rt)?;
    println!(rt; "== elements as JSON")?;
    show_json(rt, alloc)
}

fn show_encoded(rt: &HostRuntime, alloc: Global, rules: &PluralRules<'_>) -> anyhow::Result<()> {
    let elements = PluralElements::new((FourBitMetadata::zero(), "files")).with_one_value(Some((
        FourBitMetadata::zero(),
        "file",
    )));
    let bytes = PluralElementsPackedULE::encode(alloc, &elements)?;
    print_encoded(rt, bytes.as_slice(), rules)
}

fn print_encoded(rt: &HostRuntime, bytes: &[u8], rules: &PluralRules<'_>) -> anyhow::Result<()> {
    let packed = PluralElementsPackedULE::parse_bytes(bytes)?;
    for number in [1u8, 2] {
        let (metadata, text) = packed.get(PluralOperands::from(number), rules);
        let metadata = metadata.get();
        println!(rt; "{number}: {text}, {metadata}")?;
    }
    Ok(())
}

fn print_decoded(rt: &HostRuntime) -> anyhow::Result<()> {
    let packed = PluralElementsPackedULE::parse_bytes(b"\x85\x05files\x01\0\x10file")?;
    let elements = packed.decode();
    let (metadata, text) = *elements.other();
    let (_, one) = *elements.one();
    println!(rt; "{text}, {one}, {}", metadata.get())?;
    Ok(())
}

fn show_json(rt: &HostRuntime, alloc: Global) -> anyhow::Result<()> {
    let value = Value::from_str(alloc, r#"{"other":[0,"files"],"one":[0,"file"]}"#)?;
    let elements = PluralElementsPackedCow::from_json(alloc, &value)?;
    print_json(rt, alloc, &elements)
}

fn print_json(
    rt: &HostRuntime,
    alloc: Global,
    elements: &PluralElementsPackedCow<'_>,
) -> anyhow::Result<()> {
    let written = elements.to_json(alloc)?;
    let again = PluralElementsPackedCow::from_json(alloc, &written)?;
    let size = elements.as_packed().as_bytes().len();
    println!(rt; "{size} bytes, {}", again == *elements)?;
    Ok(())
}
