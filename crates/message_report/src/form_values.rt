//! What a message has under the keys of its forms.

ghost use Rattle.std.specs.Prelude.{◌≡◌, ◌||◌, [], IsFalse, None, Some, bytes_eq, not};
ghost use Rattle.message_report.specs.Inner.FormSteps.{value_lent};
ghost use Rattle.message_report.specs.Inner.FormValues.{first_of, own_forms, under_key, value_of_form};
ghost use Rattle.message_report.specs.MessageForms.{form_name, is_form_name};
ghost use Rattle.message_report.specs.MessagesReport.{other_keys};
ghost use Rattle.message_report.specs.declared.form.Form.{Form};
ghost use Rattle.serde_json.specs.Find.{get_member};
ghost use Rattle.serde_json.specs.View.{members_view, view};

use crate::form::{Form, OwnForms};
use icu_plurals::Five;
use plural_base::at_category;
use serde_json::{Map, Value};

// What a message has under the keys of its forms, and whether it has keys of no form.
#[derive(Clone, Copy)]
pub(crate) struct FormValues<'a> {
    zero: Option<&'a Value>,
    one: Option<&'a Value>,
    categories: Five<Option<&'a Value>>,
    other: Option<&'a Value>,
    pub(crate) has_other_keys: bool,
}

impl<'a> FormValues<'a> {
    // What a message with these members has. They are walked once.
    pub(crate) fn of(members: &'a Map<String, Value>) -> FormValues<'a>
        ensures values { (form : Form) → value_of_form form result ≡ get_member (form_name form) (members_view members.now.entries) }
        ensures keys { IsFalse result.has_other_keys → other_keys (members_view members.now.entries) ≡ [] }
    {
        let mut values = FormValues::none();
        for (key, value) in members.iter() {
            values.put(key.as_str(), value);
        }
        values
    }

    // Nothing.
    fn none() -> FormValues<'a>
        ensures values { (form : Form) → value_of_form form result ≡ None }
        ensures keys { IsFalse result.has_other_keys }
    {
        FormValues {
            zero: None,
            one: None,
            categories: Five::none(),
            other: None,
            has_other_keys: false,
        }
    }

    // Takes a member, unless there is one of its form. Frequent forms are looked for first.
    fn put(&mut self, key: &str, value: &'a Value)
        ensures values { (form : Form) → value_of_form form self.new
            ≡ first_of (value_of_form form self.old) (under_key (bytes_eq (form_name form) key.now) (view value.now)) }
        ensures keys { self.new.has_other_keys ≡ self.old.has_other_keys || not (is_form_name key.now) }
    {
        match key {
            "other" => put_first(&mut self.other, value),
            "one" => put_first(&mut self.categories.one, value),
            "few" => put_first(&mut self.categories.few, value),
            "many" => put_first(&mut self.categories.many, value),
            "two" => put_first(&mut self.categories.two, value),
            "zero" => put_first(&mut self.categories.zero, value),
            "explicit_zero" => put_first(&mut self.zero, value),
            "explicit_one" => put_first(&mut self.one, value),
            _ => self.has_other_keys = true,
        }
    }

    // What stands under the key of a form.
    pub(crate) fn value(&self, form: Form) -> Option<&'a Value>
        ensures { value_lent result ≡ value_of_form form self.now }
    {
        match form {
            Form::ExplicitZero => self.zero,
            Form::ExplicitOne => self.one,
            Form::Category(category) => {
                at_category!(self.categories, category, |value| *value, self.other)
            }
        }
    }

    // Whether exactly 0 and exactly 1 have forms of their own.
    pub(crate) fn own_forms(&self) -> OwnForms
        ensures { result ≡ own_forms self.now }
    {
        OwnForms {
            zero: self.zero.is_some(),
            one: self.one.is_some(),
        }
    }
}

// Puts a value where there is none.
fn put_first<'a>(place: &mut Option<&'a Value>, value: &'a Value)
    ensures { value_lent place.new ≡ first_of (value_lent place.old) (Some (view value.now)) }
{
    if place.is_none() {
        *place = Some(value);
    }
}
