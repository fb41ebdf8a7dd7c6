//! Values where a text may stand.

ghost use Rattle.std.specs.Prelude.{◌≡◌, ◌↔◌, IsTrue, is_some};
ghost use Rattle.serde_json.specs.Find.{as_null, as_str};
ghost use Rattle.serde_json.specs.View.{view};

use serde_json::Value;

/// A value where a text may stand.
#[derive(Clone, Copy)]
pub enum TextMember {
    /// Null: there is no text.
    Null,
    /// A text.
    Text,
    /// Anything else.
    NoText,
}

/// Returns whether a value is null, a text or neither. It allocates nothing.
pub fn text_member(value: &Value) -> TextMember
    ensures null { (result ≡ TextMember.Null) ↔ IsTrue (is_some (as_null (view value.now))) }
    ensures text { (result ≡ TextMember.Text) ↔ IsTrue (is_some (as_str (view value.now))) }
{
    if value.is_null() {
        return TextMember::Null;
    }
    if value.is_string() {
        return TextMember::Text;
    }
    TextMember::NoText
}
