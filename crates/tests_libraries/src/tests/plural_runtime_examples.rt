//! Examples of the pages of `plural_runtime`.

use crate::tests::assertion::holds;
use plural_reference::{PluralOperands, ast, parse_condition};
use plural_runtime::{
    AndOr, AndOrPolarityOperand, Operand, Polarity, RangeOrValue, Rule, RuleBytesError, Steps,
    test_rule, test_rule_counted,
};
use std::test::Fail;

const LONG_RULE: &str = "n % 10 = 3..4, 9 and n % 100 != 10..19, 70..79, 90..99 or n = 0";

#[test]
fn packs_texts_and_prints_them_again(rt: HostRuntime) -> Result<(), Fail> {
    let alloc = rt.alloc();
    let (text, printed) = ("i = 1 or v = 0", "i = 1 or v = 0");
    let bytes =
        b"\x02\0\x0d\0\xc1\0\0\0\0\x01\0\0\0\x01\0\0\0\x42\0\0\0\0\0\0\0\0\0\0\0\0".as_slice();
    let rule = Rule::from_str(alloc, text).expect(&rt, "a rule");
    holds!(rt; rule.as_bytes() == bytes, text);
    holds!(rt; format!(in alloc; "{rule}")?.as_str() == printed, text);
    let tree = rule.to_ast(alloc)?;
    holds!(rt; tree.samples.is_none());
    let again = Rule::try_from(alloc, &tree).expect(&rt, "the tree packs");
    holds!(rt; again == rule, text);
    Ok(())
}

#[test]
fn a_tree_packs_again(rt: HostRuntime) -> Result<(), Fail> {
    let alloc = rt.alloc();
    let rule = Rule::from_str(alloc, LONG_RULE).expect(&rt, "a rule");
    let tree = rule.to_ast(alloc)?;
    let again = Rule::try_from(alloc, &tree).expect(&rt, "the tree packs");
    holds!(rt; again == rule);
    Ok(())
}

#[test]
fn a_condition_comes_back(rt: HostRuntime) -> Result<(), Fail> {
    let alloc = rt.alloc();
    let rule = Rule::from_str(alloc, LONG_RULE).expect(&rt, "a rule");
    let tree = rule.to_ast(alloc)?;
    let condition = parse_condition(alloc, LONG_RULE.as_bytes()).expect(&rt, "a condition");
    holds!(rt; tree.condition == condition);
    Ok(())
}

#[test]
fn refuses_bytes(rt: HostRuntime) {
    let rows: [(&[u8], RuleBytesError); 3] = [
        (b"\x01\0", RuleBytesError::ItemLength(0)),
        (b"\x03\0\x02\0\x02\0abcd", RuleBytesError::ItemLength(0)),
        (b"\x01\0\xc8\0\0\0\0", RuleBytesError::Operand(0)),
    ];
    for (bytes, fault) in rows {
        let refused = Rule::parse_bytes(bytes);
        holds!(rt; matches!(refused, Err(found) if found == fault), at bytes);
    }
}

#[test]
fn a_simple_rule_is_one_relation(rt: HostRuntime) {
    let rule = Rule::from_str(rt.alloc(), "i = 1").expect(&rt, "a rule");
    holds!(rt; rule.len() == 1);
    let item = rule.get(0).expect(&rt, "a relation");
    holds!(rt; item.as_bytes() == b"\xc1\0\0\0\0\x01\0\0\0\x01\0\0\0".as_slice());
    let relation = item.as_relation();
    holds!(rt; relation.and_or() == AndOr::And);
    holds!(rt; relation.polarity() == Polarity::Positive);
    holds!(rt; relation.operand() == Operand::I);
    holds!(rt; relation.modulo() == 0);
    holds!(rt; relation.len() == 1);
    holds!(rt; relation.range(0) == Some(RangeOrValue::Value(1)));
    holds!(rt; relation.range(1) == None);
    holds!(rt; rule.get(1).is_none());
    holds!(rt; test_rule(&rule, &PluralOperands::from(1u8)));
}

#[test]
fn first_bytes_and_ranges_have_their_layout(rt: HostRuntime) {
    let parts = AndOrPolarityOperand {
        and_or: AndOr::And,
        polarity: Polarity::Positive,
        operand: Operand::N,
    };
    holds!(rt; parts.to_unaligned() == 0xc0);
    holds!(rt; AndOrPolarityOperand::from_unaligned(0xc0) == Some(parts));
    holds!(rt; AndOrPolarityOperand::from_unaligned(0xc8) == None);
}

#[test]
fn ranges_are_those_of_trees(rt: HostRuntime) {
    let equal_ends = RangeOrValue::Range(2, 2);
    let item = ast::RangeListItem::from(equal_ends);
    holds!(rt; item == ast::RangeListItem::Range(ast::Value(2), ast::Value(2)));
    holds!(rt; RangeOrValue::try_from(&item) == Ok(equal_ends));
}

#[test]
fn a_modulus_0_is_none(rt: HostRuntime) {
    let plain = Operand::I.with_modulo(0);
    holds!(rt; plain.operand == ast::Operand::I && plain.modulus == None);
    let reduced = Operand::I.with_modulo(10);
    holds!(rt; reduced.modulus == Some(ast::Value(10)));
}

// The result of a counted walk with its steps, if the walk without a count has the same result.
fn counted(rule: &Rule<'_>, operands: &PluralOperands) -> Option<(bool, u64)> {
    let mut steps = Steps::new();
    let answer = test_rule_counted(rule, operands, &mut steps);
    if test_rule(rule, operands) == answer {
        Some((answer, steps.count()))
    } else {
        None
    }
}

#[test]
fn counts_the_ranges_that_are_needed(rt: HostRuntime) {
    let rule = Rule::from_str(rt.alloc(), LONG_RULE).expect(&rt, "a rule");
    holds!(rt; counted(&rule, &PluralOperands::from(103u8)) == Some((true, 4)));
}

#[test]
fn a_count_goes_on(rt: HostRuntime) {
    let rule = Rule::from_str(rt.alloc(), "i = 1..2, 4").expect(&rt, "a rule");
    let mut steps = Steps::new();
    for (number, count) in [(4u8, 2), (1, 3), (9, 5)] {
        let _answer = test_rule_counted(&rule, &PluralOperands::from(number), &mut steps);
        holds!(rt; steps.count() == count, at number);
    }
}
