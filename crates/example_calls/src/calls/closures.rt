//! Calls of elements that take a closure, and clones.

use icu_plurals::PluralElements;
use std::alloc::Global;

// Prints what each call does, after its name.
pub(crate) fn show_all(rt: &HostRuntime, alloc: Global) -> anyhow::Result<()> {
    for name in [
        "map",
        "try_map",
        "for_each",
        "try_for_each",
        "for_each_mut",
        "try_for_each_mut",
        "try_clone",
    ] {
        println!(rt; "== {name}")?;
        show(rt, alloc, name)?;
    }
    Ok(())
}

fn show(rt: &HostRuntime, alloc: Global, name: &str) -> anyhow::Result<()> {
    match name {
        "map" => print_mapped(rt),
        "try_map" => print_parsed(rt),
        "for_each" => print_widest(rt),
        "try_for_each" => print_first_wide(rt),
        "for_each_mut" => print_widened(rt),
        "try_for_each_mut" => print_limited(rt),
        _ => print_cloned(rt, alloc),
    }
}

fn print_mapped(rt: &HostRuntime) -> anyhow::Result<()> {
    let texts = PluralElements::new("files").with_one_value(Some("file"));
    let widths = texts.map(|text| text.len());
    println!(rt; "one {}, other {}", widths.one(), widths.other())?;
    Ok(())
}

fn print_parsed(rt: &HostRuntime) -> anyhow::Result<()> {
    let texts = PluralElements::new("10").with_one_value(Some("x"));
    let numbers = texts.try_map(|text| text.parse::<u8>());
    println!(rt; "{}", numbers.is_ok())?;
    Ok(())
}

fn print_widest(rt: &HostRuntime) -> anyhow::Result<()> {
    let widths = PluralElements::new(5u8).with_one_value(Some(4));
    let mut widest = 0;
    widths.for_each(|width| {
        if widest < *width {
            widest = *width;
        }
    });
    println!(rt; "{widest}")?;
    Ok(())
}

fn print_first_wide(rt: &HostRuntime) -> anyhow::Result<()> {
    let widths = PluralElements::new(4u8).with_one_value(Some(5));
    let answer = widths.try_for_each(|width| if *width < 5 { Ok(()) } else { Err(*width) });
    if let Err(width) = answer {
        println!(rt; "{width} is refused")?;
    }
    Ok(())
}

fn print_widened(rt: &HostRuntime) -> anyhow::Result<()> {
    let mut widths = PluralElements::new(5u8).with_one_value(Some(4));
    widths.for_each_mut(|width| *width = width.saturating_add(100));
    println!(rt; "one {}, other {}", widths.one(), widths.other())?;
    Ok(())
}

fn print_limited(rt: &HostRuntime) -> anyhow::Result<()> {
    let mut widths = PluralElements::new(5u8).with_one_value(Some(200));
    let answer = widths.try_for_each_mut(|width| match width.checked_add(100) {
        Some(more) => {
            *width = more;
            Ok(())
        }
        None => Err(*width),
    });
    if let Err(width) = answer {
        println!(rt; "{width} is refused")?;
    }
    println!(rt; "one {}, other {}", widths.one(), widths.other())?;
    Ok(())
}

fn print_cloned(rt: &HostRuntime, alloc: Global) -> anyhow::Result<()> {
    let texts = PluralElements::new(format!(in alloc; "files")?);
    print_clone(rt, &texts)
}

fn print_clone(rt: &HostRuntime, texts: &PluralElements<String>) -> anyhow::Result<()> {
    let is_equal = texts.try_clone()? == *texts;
    println!(rt; "{is_equal}")?;
    Ok(())
}
