//! Relations that no operands make true.

ghost use Rattle.std.specs.Prelude.{◌≡◌};
ghost use Rattle.std.specs.List.{list_all};
ghost use Rattle.rule_notes.specs.Inner.CauseLists.{is_empty, is_out, is_over};

use plural_reference::ast::{Operator, RangeListItem, Relation, Value};

// Whether the relation has `=`, and all its values are upside down, or at or above its modulus.
pub(crate) fn is_empty(relation: &Relation) -> bool
    ensures { result ≡ is_empty relation.now }
{
    relation.operator == Operator::Eq
        && are_out(
            &relation.expression.modulus,
            relation.range_list.0.as_slice(),
        )
}

// Whether no item holds a value that an expression with this modulus can have.
fn are_out(modulus: &Option<Value>, items: &[RangeListItem]) -> bool
    ensures { result ≡ list_all (is_out modulus.now) items.now }
{
    items.iter().all(|item| is_out(modulus, item))
}

// Whether an item holds no value that an expression with this modulus can have.
fn is_out(modulus: &Option<Value>, item: &RangeListItem) -> bool
    ensures { result ≡ is_out modulus.now item.now }
{
    match item {
        RangeListItem::Range(start, end) => end.0 < start.0 || is_over(modulus, start.0),
        RangeListItem::Value(value) => is_over(modulus, value.0),
    }
}

// Whether a number is at or above a modulus.
fn is_over(modulus: &Option<Value>, number: u64) -> bool
    ensures { result ≡ is_over modulus.now number }
{
    match modulus {
        Some(modulus) => modulus.0 <= number,
        None => false,
    }
}
