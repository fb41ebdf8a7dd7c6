//! When a condition is true.

ghost use Rattle.std.specs.Prelude.{◌≡◌};
ghost use Rattle.std.specs.List.{list_all, list_any};
ghost use Rattle.plural_reference.specs.Truth.{is_in_ranges, ends_of, range_holds, ranges_of, tree_truth, tree_relation_truth, tree_value};

use crate::ast::{
    AndCondition, Condition, Expression, Operator, RangeList, RangeListItem, Relation,
};
use plural_operands::PluralOperands;

/// Returns whether the condition is true of the operands: it has no and-condition, or all relations
/// of one of them are true (UTS 35 Part 3, Plural Rules Syntax).
///
/// A relation on `n` at a fraction that isn't zero, and one by a modulus 0, is false under `=` and
/// under `!=`. A range whose start is above its end holds nothing.
///
/// Rows of a condition, a number, and whether the one is true of the other:
///
/// <!-- snippet crates/tests_libraries/src/tests/plural_reference_examples.rt:
/// example "("i = 1 and v = 0", 1" to "("i = 1 and v = 0", 2" of fn tells_when_a_condition_is_true; example "for (text"
/// to "}" of fn tells_when_a_condition_is_true -->
/// ```
/// ("i = 1 and v = 0", 1, true),
/// ("i = 1 and v = 0", 2, false),
///
/// for (text, number, want) in table {
///     let condition = parse_condition(alloc, text.as_bytes())?;
///     let operands = PluralOperands::from(number as u32);
///     assert!(rt; test_condition(&condition, &operands) == want);
/// }
/// ```
pub fn test_condition(condition: &Condition, operands: &PluralOperands) -> bool
    ensures { result ≡ tree_truth operands.now condition.now }
{
    let groups = condition.0.as_slice();
    groups.is_empty() || test_groups(groups, operands)
}

// Whether all relations of some and-condition are true.
fn test_groups(groups: &[AndCondition], operands: &PluralOperands) -> bool
    ensures { result ≡ list_any (λ group. list_all (tree_relation_truth operands.now) group.0) groups.now }
{
    groups
        .iter()
        .any(|group| test_and_condition(group, operands))
}

// Whether all relations of the and-condition are true.
fn test_and_condition(group: &AndCondition, operands: &PluralOperands) -> bool
    ensures { result ≡ list_all (tree_relation_truth operands.now) group.now.0 }
{
    group
        .0
        .as_slice()
        .iter()
        .all(|relation| test_relation(relation, operands))
}

// Whether the relation is true: never, if its expression has no value.
fn test_relation(relation: &Relation, operands: &PluralOperands) -> bool
    ensures { result ≡ tree_relation_truth operands.now relation.now }
{
    let Some(value) = calculate_expression(&relation.expression, operands) else {
        return false;
    };
    match relation.operator {
        Operator::Eq => contains(&relation.range_list, value),
        Operator::NotEq => !contains(&relation.range_list, value),
    }
}

// The value of an expression: none for n with a fraction, and none by a modulus 0.
fn calculate_expression(expression: &Expression, operands: &PluralOperands) -> Option<u64>
    ensures { result ≡ tree_value operands.now expression.now }
{
    let value = operands.value(expression.operand)?;
    match &expression.modulus {
        None => Some(value),
        Some(modulus) => value.checked_rem(modulus.0),
    }
}

// Whether the value is one of the list, or is between the ends of one of its ranges.
fn contains(list: &RangeList, value: u64) -> bool
    ensures { result ≡ is_in_ranges (ranges_of list.now) value }
{
    any_holds(list.0.as_slice(), value)
}

// Whether some item holds the value.
fn any_holds(items: &[RangeListItem], value: u64) -> bool
    ensures { result ≡ list_any (λ item. range_holds value (ends_of item)) items.now }
{
    items.iter().any(|item| holds(item, value))
}

// Whether an item holds the value.
fn holds(item: &RangeListItem, value: u64) -> bool
    ensures { result ≡ range_holds value (ends_of item.now) }
{
    match item {
        RangeListItem::Range(start, end) => start.0 <= value && value <= end.0,
        RangeListItem::Value(single) => single.0 == value,
    }
}
