//! Messages: the number as it was written, and texts that aren't numbers.

use icu_plurals::provider::PluralElementsPackedCow;
use icu_plurals::{PluralElements, PluralRules};
use plural_message::Message;
use std::alloc::Global;

// Prints messages, and why there are none.
pub(crate) fn show_all(
    rt: &HostRuntime,
    alloc: Global,
    rules: &PluralRules<'_>,
) -> anyhow::Result<()> {
    let texts = PluralElements::new("{} items").with_one_value(Some("{} item"));
    let packed = PluralElementsPackedCow::from_elements(alloc, &texts)?;
    let message = Message::new(packed.as_packed());
    show(rt, alloc, &message, rules)
}

fn show(
    rt: &HostRuntime,
    alloc: Global,
    message: &Message<'_>,
    rules: &PluralRules<'_>,
) -> anyhow::Result<()> {
    println!(rt; "== format")?;
    print_written(rt, alloc, message, rules)?;
    println!(rt; "== no message")?;
    print_faults(rt, alloc, message, rules)
}

fn print_written(
    rt: &HostRuntime,
    alloc: Global,
    message: &Message<'_>,
    rules: &PluralRules<'_>,
) -> anyhow::Result<()> {
    for number in ["1", "1.0", "1c6", "-1"] {
        println!(rt; "{}", message.format(alloc, number, rules)?)?;
    }
    Ok(())
}

fn print_faults(
    rt: &HostRuntime,
    alloc: Global,
    message: &Message<'_>,
    rules: &PluralRules<'_>,
) -> anyhow::Result<()> {
    for number in ["x", "1c0256", "1c256"] {
        if let Err(error) = message.format(alloc, number, rules) {
            println!(rt; "{number}: {error}")?;
        }
    }
    Ok(())
}
