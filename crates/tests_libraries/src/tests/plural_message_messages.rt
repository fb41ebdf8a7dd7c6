//! Messages: a buffer of the caller's.

use crate::tests::assertion::holds;
use fixed_decimal::CompactDecimal;
use icu_plurals::provider::{PluralElementsPackedULE, PluralRulesData};
use icu_plurals::{PluralRules, RulesTextError};
use plural_message::Message;
use std::alloc::Global;
use std::test::Fail;

// Other "{} items", one "{} item".
const ITEMS: &[u8] = b"\x80\x08{} items\x01\0\x10{} item";

// Rules with a rule for one alone.
fn rules(alloc: Global, one: &str) -> Result<PluralRules<'static>, RulesTextError> {
    let rules = PluralRulesData::from_texts(alloc, None, Some(one), None, None, None)?;
    Ok(PluralRules::from_data(rules))
}

#[test]
fn a_message_is_written_into_a_buffer_that_has_room(rt: HostRuntime) -> Result<(), Fail> {
    let rules = rules(rt.alloc(), "i = 1 and v = 0")?;
    let message = Message::new(PluralElementsPackedULE::parse_bytes(ITEMS)?);
    let number = CompactDecimal::from_str(rt.alloc(), "12")?;
    let mut room = [7u8; 10];
    holds!(rt; message.format_number_into(&number, "1 2", &rules, &mut room) == 9);
    holds!(rt; room == *b"1 2 items\x07");
    let mut short = [7u8; 8];
    holds!(rt; message.format_number_into(&number, "1 2", &rules, &mut short) == 9);
    holds!(rt; short == [7u8; 8]);
    holds!(rt; message.format_number_into(&number, "", &rules, &mut []) == 6);
    Ok(())
}
