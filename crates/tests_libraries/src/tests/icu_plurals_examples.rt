//! The examples of the pages on elements by category.

use crate::tests::assertion::holds;
use icu_plurals::provider::{FourBitMetadata, PluralElementsPackedULE, PluralRulesData};
use icu_plurals::{PluralElements, PluralOperands, PluralRules};
use std::alloc::Global;
use std::test::Fail;

#[test]
fn metadata_has_four_bits(rt: HostRuntime) {
    holds!(rt; FourBitMetadata::zero().get() == 0);
    holds!(rt; FourBitMetadata::try_from_byte(0) == Some(FourBitMetadata::zero()));
    holds!(rt; FourBitMetadata::try_from_byte(15).map(|most| most.get()) == Some(15));
    holds!(rt; FourBitMetadata::try_from_byte(16).is_none());
    holds!(rt; FourBitMetadata::try_from_byte(255).is_none());
}

// The rule `i = 1` for one.
fn one_rule(alloc: Global) -> Result<PluralRules<'static>, Fail> {
    let data = PluralRulesData::from_texts(alloc, None, Some("i = 1"), None, None, None)?;
    Ok(PluralRules::from_data(data))
}

#[test]
fn explicit_values_come_before_the_category(rt: HostRuntime) -> Result<(), Fail> {
    let rules = one_rule(rt.alloc())?;
    let elements = PluralElements::new("x")
        .with_one_value(Some("y"))
        .with_explicit_zero_value(Some("z"));
    for (text, want) in [
        ("0", "z"),
        ("1", "y"),
        ("1.0", "y"),
        ("2", "x"),
        ("0.0", "x"),
        ("0e1", "x"),
    ] {
        holds!(rt; elements.get(text.parse()?, &rules) == &want, text);
    }
    let elements = elements.with_explicit_one_value(Some("w"));
    for (text, want) in [("1", "w"), ("-1", "w"), ("1.0", "y"), ("1e1", "y")] {
        holds!(rt; elements.get(text.parse()?, &rules) == &want, text);
    }
    holds!(rt; elements.get(PluralOperands::from(0u8), &rules) == &"z");
    Ok(())
}

#[test]
fn a_value_that_equals_others_is_not_kept(rt: HostRuntime) {
    let same = PluralElements::new("abc").with_one_value(Some("abc"));
    holds!(rt; same.try_into_other() == Some("abc"));
    let another = PluralElements::new("abc").with_one_value(Some("def"));
    holds!(rt; another.try_into_other() == None);
    let none = PluralElements::new("abc")
        .with_one_value(Some("def"))
        .with_one_value(None);
    holds!(rt; none.try_into_other() == Some("abc"));
}

#[test]
fn an_explicit_value_is_kept(rt: HostRuntime) {
    let elements = PluralElements::new(1).with_explicit_one_value(Some(1));
    holds!(rt; elements.explicit_one() == Some(&1));
    holds!(rt; elements.explicit_zero() == None);
    holds!(rt; elements.try_into_other() == None);
}

#[test]
fn the_default_stands_alone(rt: HostRuntime) -> Result<(), Fail> {
    let alone = PluralElementsPackedULE::parse_bytes(b"\x07abc")?;
    let (metadata, text) = alone.get_default();
    holds!(rt; (metadata.get(), text) == (7, "abc"));
    Ok(())
}
