//! Trees of rules, made from arguments.

use crate::kinds::operands::operand_of;
use plural_reference::ast;
use row_calls::arguments::items_of;
use row_calls::call::Call;
use serde_json::Value;

/// Returns the tree of a list of and-conditions, each a list of relations.
pub fn rule_of(call: &mut Call, value: &Value) -> ast::Rule {
    let mut conditions = Vec::new(call.alloc);
    for condition in list_of(call, value) {
        let condition = and_condition_of(call, condition);
        call.add_item(&mut conditions, condition);
    }
    ast::Rule {
        condition: ast::Condition(conditions.into()),
        samples: None,
    }
}

// The values of an array.
fn list_of<'a>(call: &mut Call, value: &'a Value) -> &'a [Value] {
    if !value.is_array() {
        call.not("a list");
    }
    items_of(value)
}

// The and-condition of a list of relations, each alone or with how often it stands there.
fn and_condition_of(call: &mut Call, value: &Value) -> ast::AndCondition {
    let mut relations = Vec::new(call.alloc);
    for part in list_of(call, value) {
        let (copied, count) = match list_of(call, part) {
            [copied, count] => (copied, call.number_of(count)),
            _ => (part, 1),
        };
        for _ in 0..count {
            let relation = relation_of(call, copied);
            call.add_item(&mut relations, relation);
        }
    }
    ast::AndCondition(relations.into())
}

// The relation of its operand, its modulus, its operator and its ranges.
fn relation_of(call: &mut Call, value: &Value) -> ast::Relation {
    let (operand, modulus, operator, ranges) = match list_of(call, value) {
        [operand, modulus, operator, ranges] => (operand, modulus, operator, ranges),
        _ => {
            call.not("a relation");
            (value, value, value, value)
        }
    };
    ast::Relation {
        expression: ast::Expression {
            operand: operand_of(call, operand.as_str().unwrap_or("")),
            modulus: modulus_of(call, modulus),
        },
        operator: operator_of(call, operator.as_str().unwrap_or("")),
        range_list: range_list_of(call, ranges),
    }
}

// A modulus, or none for `null`.
fn modulus_of(call: &mut Call, value: &Value) -> Option<ast::Value> {
    match value {
        Value::Null => None,
        _ => Some(ast::Value(call.number_of(value))),
    }
}

// The operator that a text is.
fn operator_of(call: &mut Call, text: &str) -> ast::Operator {
    match text {
        "=" => ast::Operator::Eq,
        "!=" => ast::Operator::NotEq,
        _ => {
            call.not("an operator");
            ast::Operator::Eq
        }
    }
}

// The list of ranges.
fn range_list_of(call: &mut Call, value: &Value) -> ast::RangeList {
    let mut items = Vec::new(call.alloc);
    for item in list_of(call, value) {
        let range = range_of(call, item);
        call.add_item(&mut items, range);
    }
    ast::RangeList(items.into())
}

/// Returns the range of a list of one value or of two ends.
pub fn range_of(call: &mut Call, value: &Value) -> ast::RangeListItem {
    match list_of(call, value) {
        [single] => ast::RangeListItem::Value(ast::Value(call.number_of(single))),
        [start, end] => ast::RangeListItem::Range(
            ast::Value(call.number_of(start)),
            ast::Value(call.number_of(end)),
        ),
        _ => {
            call.not("a range");
            ast::RangeListItem::Value(ast::Value(0))
        }
    }
}
