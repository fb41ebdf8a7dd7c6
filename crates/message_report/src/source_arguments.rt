//! The arguments of the source text of a message.

ghost use Rattle.std.specs.Prelude.{◌≡◌, ◌↔◌, IsFalse, IsTrue, is_some};
ghost use Rattle.message_report.specs.Inner.FormSteps.{value_lent};
ghost use Rattle.message_report.specs.Inner.NeededRules.{all_pass, is_other_text};
ghost use Rattle.message_report.specs.SourceArguments.{IsTextList, IsWithoutNumber, IsWithoutNumberIf, LacksNumber};
ghost use Rattle.serde_json.specs.Find.{as_str};
ghost use Rattle.serde_json.specs.View.{items_view, view};

use serde_json::Value;

// Whether the forms of a message need the number, given what the sources of its locale have: they
// don't if the source has a list of arguments, and none of these is the number.
pub(crate) fn needs_number(arguments: Option<&Value>, key: &str) -> bool
    ensures { IsFalse result ↔ LacksNumber (value_lent arguments.entry) key.now }
{
    match arguments {
        Some(part) => entry_has_number(part.get(key)),
        None => true,
    }
}

// Whether a source may have the number, given its arguments, if there are some.
fn entry_has_number(entry: Option<&Value>) -> bool
    ensures { IsFalse result ↔ IsWithoutNumberIf (value_lent entry.entry) }
{
    match entry {
        Some(value) => !is_without_number(value),
        None => true,
    }
}

// Whether a value is a list of other texts than the number.
fn is_without_number(value: &Value) -> bool
    ensures { IsTrue result ↔ IsWithoutNumber (view value.now) }
{
    match value.as_array() {
        Some(items) => are_others(items.as_slice()),
        None => false,
    }
}

// Whether a value is a list of texts.
pub(crate) fn is_text_list(value: &Value) -> bool
    ensures { IsTrue result ↔ IsTextList (view value.now) }
{
    match value.as_array() {
        Some(items) => are_texts(items.as_slice()),
        None => false,
    }
}

// Whether all values are texts.
fn are_texts(values: &[Value]) -> bool
    ensures { result ≡ all_pass is_some (items_view values.now) }
{
    for value in values {
        if !value.is_string() {
            return false;
        }
    }
    true
}

// Whether all values are other texts than the number.
fn are_others(values: &[Value]) -> bool
    ensures { result ≡ all_pass is_other_text (items_view values.now) }
{
    for value in values {
        if !is_other(value) {
            return false;
        }
    }
    true
}

// Whether a value is another text than the number.
fn is_other(value: &Value) -> bool
    ensures { result ≡ is_other_text (as_str (view value.now)) }
{
    match value.as_str() {
        Some(text) => text != "{}",
        None => false,
    }
}
