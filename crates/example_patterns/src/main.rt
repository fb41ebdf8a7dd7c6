//! Prints what a pattern of messages says of each of four numbers.
#![tactic(auto)]

use icu_plurals::PluralRules;
use icu_plurals::provider::PluralRulesData;
use message_format::{Argument, Rules, Value, format};
use message_pattern::Pattern;

fn main(rt: HostRuntime) -> anyhow::Result<()> {
    let alloc = rt.alloc();
    let text = "{n, plural, =0 {no items} one {# item} other {# items}}";
    let pattern = Pattern::parse(alloc, text.as_bytes())?;
    let one = Some("i = 1 and v = 0");
    let data = PluralRulesData::from_texts(alloc, None, one, None, None, None)?;
    let cardinal = &PluralRules::from_data(data);
    let ordinal = cardinal;
    print_items(&rt, &pattern, &Rules { cardinal, ordinal })
}

fn print_items(
    rt: &HostRuntime,
    pattern: &Pattern<'_>,
    rules: &Rules<'_, '_>,
) -> anyhow::Result<()> {
    for number in ["0", "1", "1.0", "2"] {
        let name = "n";
        let value = Value::Number(number);
        let said = format(rt.alloc(), pattern, &[Argument { name, value }], rules)?;
        println!(rt; "{}", std::str::from_utf8(&said)?)?;
    }
    Ok(())
}
