//! Says a page of ten Russian messages from the catalogue in the file `ru.catalog`.
#![tactic(auto)]

use icu_plurals::PluralRules;
use icu_plurals::provider::PluralRulesData;
use message_catalog::MessageCatalog;
use message_format::{Argument, Rules, Value};
use std::fs;

// CLDR's rules of Russian. Its ordinal numbers have one form.
const ONE: &str = "v = 0 and i % 10 = 1 and i % 100 != 11";

const FEW: &str = "v = 0 and i % 10 = 2..4 and i % 100 != 12..14";

const MANY: &str = "v = 0 and i % 10 = 0 or v = 0 and i % 10 = 5..9 or v = 0 and i % 100 = 11..14";

fn main(rt: HostRuntime) -> anyhow::Result<()> {
    let bytes = fs::read(&rt, "ru.catalog")?;
    let catalog = MessageCatalog::parse_bytes(&bytes)?;
    let (one, few, many) = (Some(ONE), Some(FEW), Some(MANY));
    let data = PluralRulesData::from_texts(rt.alloc(), None, one, None, few, many)?;
    let cardinal = &PluralRules::from_data(data);
    let ordinal = &PluralRules::from_data(PluralRulesData::default());
    print_page(&rt, &catalog, &Rules { cardinal, ordinal })
}

fn print_page(
    rt: &HostRuntime,
    catalog: &MessageCatalog<'_>,
    rules: &Rules<'_, '_>,
) -> anyhow::Result<()> {
    print_message(rt, catalog, rules, "title", &[])?;
    print_message(rt, catalog, rules, "greeting", &[text("name", "Анна")])?;
    print_message(rt, catalog, rules, "cart", &[number("n", "21")])?;
    print_message(rt, catalog, rules, "weight", &[number("n", "1.5")])?;
    print_message(rt, catalog, rules, "days", &[number("n", "3")])?;
    print_message(rt, catalog, rules, "discount", &[number("percent", "10")])?;
    print_message(rt, catalog, rules, "guests", &[number("n", "6")])?;
    let sent = [text("who", "female"), number("n", "2")];
    print_message(rt, catalog, rules, "sent", &sent)?;
    print_message(rt, catalog, rules, "place", &[number("n", "3")])?;
    print_message(rt, catalog, rules, "footer", &[])
}

fn print_message(
    rt: &HostRuntime,
    catalog: &MessageCatalog<'_>,
    rules: &Rules<'_, '_>,
    key: &str,
    arguments: &[Argument<'_>],
) -> anyhow::Result<()> {
    let said = catalog.say(rt.alloc(), key.as_bytes(), arguments, rules)?;
    println!(rt; "{}", std::str::from_utf8(&said)?)?;
    Ok(())
}

fn number<'a>(name: &'a str, number: &'a str) -> Argument<'a> {
    let value = Value::Number(number);
    Argument { name, value }
}

fn text<'a>(name: &'a str, text: &'a str) -> Argument<'a> {
    let value = Value::Text(text);
    Argument { name, value }
}
