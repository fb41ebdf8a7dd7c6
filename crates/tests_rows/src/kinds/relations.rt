//! The relations of packed rules, and the parts that they are made of.

use crate::kinds::operands::next_operand;
use crate::kinds::trees;
use plural_reference::ast;
use plural_runtime::{AndOrPolarityOperand, Operand, RangeOrValue, Relation, Rule};
use row_calls::call::Call;
use std::fmt::Write;

/// Makes the call of a kind of this file. Returns whether there is such a kind.
pub fn make(kind: &str, call: &mut Call) -> bool {
    match kind {
        "relations" => relations(call),
        "relation_bytes" => relation_bytes(call),
        "equal_relations" => equal_relations(call),
        "first_byte" => first_byte(call),
        "range_bytes" => range_bytes(call),
        "range_of_bytes" => range_of_bytes(call),
        "tree_range" => tree_range(call),
        "with_modulo" => with_modulo(call),
        _ => return false,
    }
    true
}

// The rule of a text argument.
fn next_rule(call: &mut Call) -> Option<Rule<'static>> {
    let text = call.text();
    let rule = Rule::from_str(call.alloc, text.as_str()).ok();
    if rule.is_none() {
        call.not("a rule");
    }
    rule
}

// How many relations a rule has, and the parts of each.
fn relations(call: &mut Call) {
    let Some(rule) = next_rule(call) else {
        return;
    };
    let count = rule.len();
    let mut in_turn = rule.iter();
    if in_turn.size_hint() != (count, Some(count)) {
        return call.print("another count in turn");
    }
    let _ = write!(call, "{count}:");
    for place in 0..count {
        if let Some(relation) = in_turn.next() {
            call.print(if place == 0 { " " } else { ", " });
            print_parts(call, &relation.as_relation());
        }
    }
    if in_turn.next().is_some() || rule.get(count).is_some() {
        call.print_alone("a relation after the last one");
    }
}

// Prints the parts of a relation.
fn print_parts(call: &mut Call, relation: &Relation<'_>) {
    let (and_or, polarity) = (relation.and_or(), relation.polarity());
    let (operand, modulo) = (relation.operand(), relation.modulo());
    let _ = write!(call, "{and_or:?} {polarity:?} {operand:?} {modulo}");
    for place in 0..relation.len() {
        if let Some(range) = relation.range(place) {
            let _ = write!(call, " {range:?}");
        }
    }
    if relation.range(relation.len()).is_some() {
        call.print(" and a range after the last one");
    }
}

// The bytes of one relation.
fn relation_bytes(call: &mut Call) {
    let Some(rule) = next_rule(call) else {
        return;
    };
    match rule.get(call.size()) {
        Some(relation) => call.print_bytes(relation.as_bytes()),
        None => call.print("none"),
    }
}

// Which relations say what the first one says.
fn equal_relations(call: &mut Call) {
    let Some(rule) = next_rule(call) else {
        return;
    };
    let Some(first) = rule.get(0) else {
        return call.print("none");
    };
    let first = first.as_relation();
    for other in rule.iter() {
        call.separate(" ");
        call.print_truth(first == other.as_relation());
    }
}

// The parts of a relation's first byte, and the byte of these parts.
fn first_byte(call: &mut Call) {
    match AndOrPolarityOperand::from_unaligned(call.byte()) {
        Some(parts) => {
            let AndOrPolarityOperand {
                and_or,
                polarity,
                operand,
            } = parts;
            let again = parts.to_unaligned();
            let _ = write!(call, "{and_or:?} {polarity:?} {operand:?} {again}");
        }
        None => call.print("none"),
    }
}

// The bytes of a range of one value or of two ends, of 32 bits each.
fn range_bytes(call: &mut Call) {
    let value = call.value();
    match RangeOrValue::try_from(&trees::range_of(call, &value)) {
        Ok(range) => call.print_bytes(range.to_unaligned().as_slice()),
        Err(_) => call.not("a range of 32 bits"),
    }
}

// The range of eight bytes.
fn range_of_bytes(call: &mut Call) {
    let bytes = call.bytes();
    let [a, b, c, d, e, f, g, h] = bytes.as_slice() else {
        return call.not("eight bytes");
    };
    call.print_name(&RangeOrValue::from_unaligned([*a, *b, *c, *d, *e, *f, *g, *h]));
}

// The range of a tree's range, if that of the tree is made from it again.
fn tree_range(call: &mut Call) {
    let value = call.value();
    let item = trees::range_of(call, &value);
    match RangeOrValue::try_from(&item) {
        Ok(range) if ast::RangeListItem::from(range) == item => call.print_name(&range),
        Ok(_) => call.print("another range of the tree"),
        Err(error) => call.print_error(&error),
    }
}

// An operand with its modulus.
fn with_modulo(call: &mut Call) {
    let operand = next_operand(call);
    let modulo = call.number();
    if modulo > 4294967295 {
        return call.not("a modulus");
    }
    let expression = Operand::from(operand).with_modulo(modulo as u32);
    call.print(expression.operand.as_str());
    if let Some(ast::Value(modulus)) = expression.modulus {
        let _ = write!(call, " % {modulus}");
    }
}
