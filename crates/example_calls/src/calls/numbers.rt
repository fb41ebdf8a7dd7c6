//! Written numbers: digits and operands.

use icu_plurals::{CompactDecimal, Decimal, PluralOperands, RawPluralOperands, UnsignedDecimal};
use std::alloc::Global;

// Prints what each call returns.
pub(crate) fn show_all(rt: &HostRuntime, alloc: Global) -> anyhow::Result<()> {
    println!(rt; "== digits")?;
    print_digits(rt, alloc)?;
    println!(rt; "== a decimal")?;
    print_decimal(rt, alloc)?;
    println!(rt; "== a compact decimal")?;
    print_compact(rt, alloc)?;
    println!(rt; "== operands")?;
    print_operands(rt, alloc)
}

fn print_digits(rt: &HostRuntime, alloc: Global) -> anyhow::Result<()> {
    let number = UnsignedDecimal::from_str(alloc, "98.70")?;
    for magnitude in [2i16, 1, 0, -1, -2] {
        let digit = number.digit_at(magnitude);
        println!(rt; "{magnitude}: {digit}")?;
    }
    Ok(())
}

fn print_decimal(rt: &HostRuntime, alloc: Global) -> anyhow::Result<()> {
    let number = Decimal::from_str(alloc, "-12.50")?;
    let (lowest, highest) = number.absolute.magnitude_range();
    println!(rt; "{:?}, {lowest} to {highest}", number.sign)?;
    Ok(())
}

fn print_compact(rt: &HostRuntime, alloc: Global) -> anyhow::Result<()> {
    let number = CompactDecimal::from_str(alloc, "1.2c6")?;
    let digit = number.significand().absolute.digit_at(-1);
    println!(rt; "exponent {}, tenths {digit}", number.exponent())?;
    Ok(())
}

fn print_operands(rt: &HostRuntime, alloc: Global) -> anyhow::Result<()> {
    let number = CompactDecimal::from_str(alloc, "1.00000020c6")?;
    let operands = RawPluralOperands::from(PluralOperands::from(&number));
    let RawPluralOperands { i, v, w, f, t, c } = operands;
    println!(rt; "i = {i}, v = {v}, w = {w}, f = {f}, t = {t}, c = {c}")?;
    Ok(())
}
