//! Printed trees that no text gives, and writers that refuse.

use crate::tests::assertion::holds;
use plural_reference::ast::{
    AndCondition, Condition, Expression, Operand, Operator, RangeList, RangeListItem, Relation,
    Rule, SampleList, SampleRange, Samples, Value,
};
use plural_reference::{
    parse, serialize, serialize_condition, serialize_decimal_value, serialize_sample_list,
    serialize_sample_range, serialize_samples,
};
use std::alloc::Global;
use std::fmt;
use std::process::Abort;
use std::test::Fail;

fn printed(alloc: Global, condition: &Condition) -> Result<String, Fail> {
    let mut text = String::new(alloc);
    serialize_condition(condition, &mut text)?;
    Ok(text)
}

fn printed_rule(alloc: Global, rule: &Rule) -> Result<String, Fail> {
    let mut text = String::new(alloc);
    serialize(rule, &mut text)?;
    Ok(text)
}

fn samples_of(alloc: Global, text: &str) -> Result<Samples, Fail> {
    let rule = parse(alloc, text.as_bytes())?;
    Ok(rule.samples.ok_or("no samples")?)
}

fn integers_of(alloc: Global, text: &str) -> Result<SampleList, Fail> {
    let samples = samples_of(alloc, text)?;
    Ok(samples.integer.ok_or("no list of integers")?)
}

fn first_range_of(alloc: Global, text: &str) -> Result<SampleRange, Fail> {
    let list = integers_of(alloc, text)?;
    Ok(list.sample_ranges.0.into_iter().next().ok_or("no range")?)
}

// The condition of one relation that compares i with an item.
fn condition_of(alloc: Global, item: RangeListItem) -> Result<Condition, Fail> {
    let relation = Relation {
        expression: Expression {
            operand: Operand::I,
            modulus: None,
        },
        operator: Operator::Eq,
        range_list: RangeList(vec![in alloc; item]?.into()),
    };
    let group = AndCondition(vec![in alloc; relation]?.into());
    Ok(Condition(vec![in alloc; group]?.into()))
}

#[test]
fn prints_trees_that_no_text_gives(rt: HostRuntime) -> Result<(), Fail> {
    let alloc = rt.alloc();
    let large = condition_of(alloc, RangeListItem::Value(Value(4294967296)))?;
    holds!(rt; printed(alloc, &large)?.as_str() == "i = 4294967296");
    let widest = condition_of(
        alloc,
        RangeListItem::Range(Value(4294967296), Value(u64::MAX)),
    )?;
    holds!(rt; printed(alloc, &widest)?.as_str() == "i = 4294967296..18446744073709551615");
    let beyond = SampleList {
        sample_ranges: Vec::new(alloc).into(),
        ellipsis: true,
    };
    let mut text = String::new(alloc);
    serialize_sample_list(&beyond, &mut text)?;
    holds!(rt; text.as_str() == ", …");
    Ok(())
}

// Takes a number of pieces, and refuses all after them.
#[derive(Drop)]
struct Refusing {
    text: String,
    left: usize,
    refused: usize,
}

impl fmt::Write for Refusing {
    fn write_str(&mut self, s: &str) -> fmt::Result {
        if self.left == 0 {
            self.refused = self.refused.saturating_add(1);
            return Err(fmt::Error);
        }
        self.left -= 1;
        self.text.push_str(s).map_err(|_| fmt::Error)
    }
}

// The serializer stops at the refused piece, and what was taken is a beginning of the text.
fn stops_at_each_piece<F: FnMut(&mut Refusing) -> fmt::Result>(
    rt: &impl Abort,
    alloc: Global,
    pieces: usize,
    want: &str,
    mut serializes: F,
)
    requires { F.IsAlwaysCallable serializes }
{
    for left in 0..pieces {
        let mut writer = Refusing {
            text: String::new(alloc),
            left,
            refused: 0,
        };
        holds!(rt; serializes(&mut writer).is_err(), want);
        holds!(rt; writer.refused == 1);
        holds!(rt; want.starts_with(writer.text.as_str()), want);
    }
    let mut writer = Refusing {
        text: String::new(alloc),
        left: pieces,
        refused: 0,
    };
    holds!(rt; serializes(&mut writer).is_ok());
    holds!(rt; writer.text.as_str() == want);
}

#[test]
fn stops_at_the_first_fault_in_a_rule(rt: HostRuntime) -> Result<(), Fail> {
    let text = "i = 0 or n = 1 @integer 0, 1 @decimal 0.0~1.0, 0.00~0.04, …";
    let rule = parse(rt.alloc(), text.as_bytes())?;
    stops_at_each_piece(&rt, rt.alloc(), 20, text, |w| serialize(&rule, w));
    stops_at_each_piece(
        &rt,
        rt.alloc(),
        7,
        "i = 0 or n = 1",
        |w| serialize_condition(&rule.condition, w),
    );
    Ok(())
}

#[test]
fn stops_at_the_first_fault_in_samples(rt: HostRuntime) -> Result<(), Fail> {
    let text = " @integer 0, 1 @decimal 0.0~1.0, 0.00~0.04, …";
    let samples = samples_of(rt.alloc(), text)?;
    stops_at_each_piece(
        &rt,
        rt.alloc(),
        13,
        text,
        |w| serialize_samples(&samples, w),
    );
    let list = integers_of(rt.alloc(), "@integer 0, 2~16, …")?;
    stops_at_each_piece(
        &rt,
        rt.alloc(),
        6,
        "0, 2~16, …",
        |w| serialize_sample_list(&list, w),
    );
    Ok(())
}

#[test]
fn stops_at_the_first_fault_in_a_range(rt: HostRuntime) -> Result<(), Fail> {
    let range = first_range_of(rt.alloc(), "@integer 0.1~1.6")?;
    stops_at_each_piece(
        &rt,
        rt.alloc(),
        3,
        "0.1~1.6",
        |w| serialize_sample_range(&range, w),
    );
    stops_at_each_piece(
        &rt,
        rt.alloc(),
        1,
        "0.1",
        |w| serialize_decimal_value(&range.lower_val, w),
    );
    Ok(())
}
