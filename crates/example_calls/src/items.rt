//! A message for each of four numbers.

use icu_plurals::provider::{PluralElementsPackedCow, PluralRulesData};
use icu_plurals::{PluralElements, PluralRules};
use plural_message::Message;
use std::alloc::Global;

pub(crate) fn print_items(rt: &HostRuntime, alloc: Global) -> anyhow::Result<()> {
    let one = Some("i = 1 and v = 0");
    let data = PluralRulesData::from_texts(alloc, None, one, None, None, None)?;
    let rules = PluralRules::from_data(data);
    let texts = PluralElements::new("{} items").with_one_value(Some("{} item"));
    let packed = PluralElementsPackedCow::from_elements(alloc, &texts)?;
    let message = Message::new(packed.as_packed());
    for number in ["0", "1", "1.0", "2"] {
        let text = message.format(alloc, number, &rules)?;
        println!(rt; "{text}")?;
    }
    Ok(())
}
