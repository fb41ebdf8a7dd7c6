//! The search for floats in a JSON value.

ghost use Rattle.std.specs.Prelude.{◌≡◌};
ghost use Rattle.serde_json.specs.View.{view, items_view, members_view};
ghost use Rattle.serde_json.specs.Written.{has_float, items_have_float, members_have_float};

use serde_json::{Map, Value};

/// Returns whether the value holds a float: a number for which `as_u64` and `as_i64` both return
/// `None`. It allocates nothing.
#[cycle(float)]
pub fn holds_float(value: &Value) -> bool
    ensures { result ≡ has_float (view value.now) }
{
    match value {
        Value::Number(number) => number.is_f64(),
        Value::Array(items) => items_hold_float(items),
        Value::Object(members) => members_hold_float(members),
        Value::Null | Value::Bool(_) | Value::String(_) => false,
    }
}

// Whether an item holds a float.
#[cycle(float)]
fn items_hold_float(items: &Vec<Value>) -> bool
    ensures { result ≡ items_have_float (items_view items.now.items) }
{
    for item in items {
        if part_holds_float(item) {
            return true;
        }
    }
    false
}

// Whether a member holds a float.
#[cycle(float)]
fn members_hold_float(members: &Map<String, Value>) -> bool
    ensures { result ≡ members_have_float (members_view members.now.entries) }
{
    for (_, member) in members.iter() {
        if part_holds_float(member) {
            return true;
        }
    }
    false
}

// Whether an item or a member holds a float. Most are texts, which are passed over at once.
#[cycle(float)]
fn part_holds_float(part: &Value) -> bool
    ensures { result ≡ has_float (view part.now) }
{
    !part.is_string() && holds_float(part)
}
