//! The forms of a message, by their keys.

ghost use Rattle.std.specs.Prelude.{◌≡◌};
ghost use Rattle.message_report.specs.MessageForms.{form_name, has_form, is_form_name};
ghost use Rattle.serde_json.specs.View.{view};

use icu_plurals::PluralCategory;
use serde_json::Value;

/// A form of a message.
#[derive(Clone, Copy, Debug, PartialEq, Eq)]
pub enum Form {
    /// Of exactly 0.
    ExplicitZero,
    /// Of exactly 1.
    ExplicitOne,
    /// Of a category.
    Category(PluralCategory),
}

impl Form {
    /// Returns the form's key in a message: `explicit_zero`, `explicit_one`, or the name of the
    /// category.
    pub fn as_str(self) -> &'static str
        ensures { result.now ≡ form_name self }
    {
        match self {
            Form::ExplicitZero => "explicit_zero",
            Form::ExplicitOne => "explicit_one",
            Form::Category(category) => category.as_str(),
        }
    }

    // Whether a message has the form.
    pub(crate) fn is_in(self, message: &Value) -> bool
        ensures { result ≡ has_form self (view message.now) }
    {
        message.get(self.as_str()).is_some()
    }
}

// Whether exactly 0 and exactly 1 have forms of their own in a message.
#[derive(Clone, Copy)]
pub(crate) struct OwnForms {
    pub(crate) zero: bool,
    pub(crate) one: bool,
}

// Whether a key names a form.
pub(crate) fn is_form_name(key: &str) -> bool
    ensures { result ≡ is_form_name key.now }
{
    match key {
        "explicit_zero" | "explicit_one" => true,
        "zero" | "one" | "two" | "few" | "many" | "other" => true,
        _ => false,
    }
}
