//! Clones and values of trees, and samples that are left out.

use crate::tests::assertion::holds;
use crate::tests::plural_reference_rules::{BENGALI_ONE, FRENCH_MANY, RUSSIAN_FEW};
use plural_reference::ast::{
    AndCondition, RangeList, RangeListItem, Relation, SampleList, Sequence, Value,
};
use plural_reference::{ParseError, parse, parse_without_samples};
use std::process::Abort;
use std::test::Fail;

// The relation and its parts are equal to their clones.
fn clones_relation(rt: &impl Abort, relation: &Relation) -> Result<(), Fail> {
    holds!(rt; relation.try_clone()? == *relation);
    holds!(rt; relation.expression.try_clone()? == relation.expression);
    holds!(rt; relation.range_list.try_clone()? == relation.range_list);
    for item in &relation.range_list.0 {
        holds!(rt; item.try_clone()? == *item);
    }
    Ok(())
}

// The and-condition and its relations are equal to their clones.
fn clones_group(rt: &impl Abort, group: &AndCondition) -> Result<(), Fail> {
    holds!(rt; group.try_clone()? == *group);
    for relation in &group.0 {
        clones_relation(rt, relation)?;
    }
    Ok(())
}

#[test]
fn clones_equal_what_is_cloned(rt: HostRuntime) -> Result<(), Fail> {
    let texts = [
        "",
        "n % 10 = 3..4, 9 or e != 1 and v = 0 @integer 1~2, 1c6, \u{2026} @decimal 1.50",
        BENGALI_ONE,
        RUSSIAN_FEW,
        FRENCH_MANY,
    ];
    for text in texts {
        let rule = parse(rt.alloc(), text.as_bytes())?;
        holds!(rt; rule.try_clone()? == rule, text);
        holds!(rt; rule.condition.try_clone()? == rule.condition, text);
        for group in &rule.condition.0 {
            clones_group(&rt, group)?;
        }
    }
    Ok(())
}

// A list of samples that has an ellipsis, and its parts, are equal to their clones.
fn clones_list(rt: &impl Abort, list: &SampleList) -> Result<(), Fail> {
    holds!(rt; list.try_clone()? == *list);
    holds!(rt; list.try_clone()?.ellipsis);
    for range in &list.sample_ranges {
        holds!(rt; range.try_clone()? == *range);
        holds!(rt; range.lower_val.try_clone()? == range.lower_val);
    }
    Ok(())
}

#[test]
fn clones_of_samples_equal_what_is_cloned(rt: HostRuntime) -> Result<(), Fail> {
    for text in [
        "@integer 1~2, 1c6, \u{2026} @decimal 1.50, \u{2026}",
        FRENCH_MANY,
    ] {
        let rule = parse(rt.alloc(), text.as_bytes())?;
        let samples = rule.samples.ok_or("no samples")?;
        holds!(rt; samples.try_clone()? == samples, text);
        clones_list(&rt, &samples.integer.ok_or("no integers")?)?;
        clones_list(&rt, &samples.decimal.ok_or("no decimals")?)?;
    }
    Ok(())
}

#[test]
fn turns_values_into_numbers(rt: HostRuntime) -> Result<(), Fail> {
    holds!(rt; Value::from(4294967295) == Value(4294967295));
    holds!(rt; u32::try_from(&Value(4294967295)) == Ok(4294967295));
    holds!(rt; u32::try_from(&Value(4294967296)) == Err(ParseError::ValueTooLarge));
    holds!(rt; Value(7).try_clone()? == Value(7));
    holds!(rt; Value(2) < Value(10));
    Ok(())
}

#[test]
fn lists_of_a_tree_are_read_like_a_vec(rt: HostRuntime) -> Result<(), Fail> {
    let list = RangeList(vec![in rt.alloc();
        RangeListItem::Range(Value(3), Value(4)),
        RangeListItem::Value(Value(9)),
    ]?
    .into());
    holds!(rt; list.0.len() == 2 && !list.0.is_empty());
    holds!(rt; list.0[1] == RangeListItem::Value(Value(9)));
    holds!(rt; list.0.get(0) == Some(&list.0[0]) && list.0.get(2) == None);
    holds!(rt; list.0.iter().count() == 2);
    let mut items = list.0.into_iter();
    holds!(rt; items.next() == Some(RangeListItem::Range(Value(3), Value(4))));
    holds!(rt; items.next() == Some(RangeListItem::Value(Value(9))));
    holds!(rt; items.next() == None);
    let empty = Sequence::from(Vec::<Value>::new(rt.alloc()));
    holds!(rt; empty.is_empty() && empty.len() == 0);
    holds!(rt; Vec::from(empty).is_empty());
    Ok(())
}

#[test]
fn samples_that_are_left_out_take_no_memory(rt: HostRuntime) {
    for text in [
        "@integer 0, 1~17, 1000000, … @decimal 0.0~1.5, 10.00000000000, …",
        "@integer 1c6, 2c6, 1234567890e5, …",
    ] {
        let condition = parse_without_samples(rt.alloc(), text.as_bytes());
        holds!(rt; condition.is_ok_and(|read| read.0.is_empty()), text);
    }
}
