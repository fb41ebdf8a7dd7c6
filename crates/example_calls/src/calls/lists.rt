//! Lists of byte items.

use icu_plurals::PackedList;
use std::alloc::Global;

// Prints a list that was packed.
pub(crate) fn show_all(rt: &HostRuntime, alloc: Global) -> anyhow::Result<()> {
    println!(rt; "== a list")?;
    show_list(rt, alloc)
}

fn show_list(rt: &HostRuntime, alloc: Global) -> anyhow::Result<()> {
    let items: [&[u8]; 3] = [b"ab", b"", b"cd"];
    let bytes = PackedList::encode(alloc, &items)?;
    print_list(rt, bytes.as_slice())
}

fn print_list(rt: &HostRuntime, bytes: &[u8]) -> anyhow::Result<()> {
    let list = PackedList::parse_bytes(bytes)?;
    println!(rt; "{} items in {} bytes", list.len(), bytes.len())?;
    if let Some(item) = list.get(2) {
        println!(rt; "the last one has {} bytes", item.len())?;
    }
    Ok(())
}
