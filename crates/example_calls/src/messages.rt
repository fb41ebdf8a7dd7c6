//! Messages with a number in them.

use icu_plurals::provider::PluralElementsPackedCow;
use icu_plurals::{CompactDecimal, PluralElements, PluralRules};
use plural_message::Message;
use std::alloc::Global;

// Prints messages with numbers as they are written.
pub(crate) fn show_messages(
    rt: &HostRuntime,
    alloc: Global,
    rules: &PluralRules<'_>,
) -> anyhow::Result<()> {
    let texts = PluralElements::new("{} files were copied")
        .with_one_value(Some("{} file was copied"))
        .with_explicit_zero_value(Some("no file was copied"));
    let packed = PluralElementsPackedCow::from_elements(alloc, &texts)?;
    let message = Message::new(packed.as_packed());
    print_messages(rt, alloc, &message, rules)
}

fn print_messages(
    rt: &HostRuntime,
    alloc: Global,
    message: &Message<'_>,
    rules: &PluralRules<'_>,
) -> anyhow::Result<()> {
    for number in ["0", "1", "1.5"] {
        let text = message.format(alloc, number, rules)?;
        println!(rt; "{text}")?;
    }
    Ok(())
}

// Texts with a number for all categories.
fn files(alloc: Global) -> anyhow::Result<PluralElementsPackedCow<'static>> {
    let texts = PluralElements::new("{} files");
    Ok(PluralElementsPackedCow::from_elements(alloc, &texts)?)
}

// Prints a message with the marks of a language in its number.
pub(crate) fn show_marks(
    rt: &HostRuntime,
    alloc: Global,
    rules: &PluralRules<'_>,
) -> anyhow::Result<()> {
    let packed = files(alloc)?;
    print_marks(rt, alloc, &Message::new(packed.as_packed()), rules)
}

fn print_marks(
    rt: &HostRuntime,
    alloc: Global,
    message: &Message<'_>,
    rules: &PluralRules<'_>,
) -> anyhow::Result<()> {
    let number = CompactDecimal::from_str(alloc, "1234567")?;
    let text = message.format_number(alloc, &number, "1,234,567", rules)?;
    println!(rt; "{text}")?;
    Ok(())
}

// Prints a message that is written into a buffer.
pub(crate) fn show_in_place(
    rt: &HostRuntime,
    alloc: Global,
    rules: &PluralRules<'_>,
) -> anyhow::Result<()> {
    let packed = files(alloc)?;
    let number = CompactDecimal::from_str(alloc, "1234567")?;
    print_in_place(rt, &Message::new(packed.as_packed()), &number, rules)
}

fn print_in_place(
    rt: &HostRuntime,
    message: &Message<'_>,
    number: &CompactDecimal,
    rules: &PluralRules<'_>,
) -> anyhow::Result<()> {
    let mut room = [0u8; 32];
    let length = message.format_number_into(number, "1,234,567", rules, &mut room);
    if let Some(written) = room.get(..length) {
        println!(rt; "{length} bytes: {}", std::str::from_utf8(written)?)?;
    }
    Ok(())
}
