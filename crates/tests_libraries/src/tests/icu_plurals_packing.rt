//! Packing of elements: the examples of the pages.

use crate::tests::assertion::holds;
use icu_plurals::provider::{PluralElementsPackedCow, PluralRulesData};
use icu_plurals::{PluralElements, PluralOperands, PluralRules};
use std::alloc::Global;
use std::test::Fail;

// The rule `i = 1 and v = 0` for one.
fn rules(alloc: Global) -> Result<PluralRules<'static>, Fail> {
    let one = Some("i = 1 and v = 0");
    let rules = PluralRulesData::from_texts(alloc, None, one, None, None, None)?;
    Ok(PluralRules::from_data(rules))
}

#[test]
fn texts_are_packed_with_metadata_0(rt: HostRuntime) -> Result<(), Fail> {
    let rules = rules(rt.alloc())?;
    let alone = PluralElements::new("abc");
    let alone = PluralElementsPackedCow::from_elements(rt.alloc(), &alone)?;
    holds!(rt; alone.as_packed().as_bytes() == b"\0abc".as_slice());
    let one = PluralElements::new("abc").with_one_value(Some("defg"));
    let one = PluralElementsPackedCow::from_elements(rt.alloc(), &one)?;
    holds!(rt; one.as_packed().as_bytes() == b"\x80\x03abc\x01\0\x10defg".as_slice());
    holds!(rt; one.get(PluralOperands::from(1u8), &rules) == "defg");
    holds!(rt; one.get(PluralOperands::from(2u8), &rules) == "abc");
    holds!(rt; alone != one);
    holds!(rt; one.try_clone()? == one);
    Ok(())
}

#[test]
fn lent_bytes_keep_their_metadata(rt: HostRuntime) -> Result<(), Fail> {
    let rules = rules(rt.alloc())?;
    let packed = PluralElementsPackedCow::from_bytes(b"\x8f\x01x\x01\0\x13y")?;
    holds!(rt; packed.get(PluralOperands::from(1u8), &rules) == "y");
    holds!(rt; packed.get(PluralOperands::from(0u8), &rules) == "x");
    holds!(rt; packed.as_packed().get_default().0.get() == 15);
    Ok(())
}
