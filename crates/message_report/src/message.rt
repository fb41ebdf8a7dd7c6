//! What is found in a message.

ghost use Rattle.std.specs.Prelude.{◌≡◌, OnOk, Some};
ghost use Rattle.message_report.specs.FoundInMessages.{messages_together, HasGrownInMessages, IsFoundInEach};
ghost use Rattle.message_report.specs.Inner.FormSteps.{language_lent, value_count, value_lent};
ghost use Rattle.message_report.specs.Inner.FormValues.{IsFoundByValues};
ghost use Rattle.message_report.specs.MessageForms.{form_order};
ghost use Rattle.message_report.specs.MessagePlaces.{file_locale_place_view, message_place_view};
ghost use Rattle.message_report.specs.MessagesReport.{IsFoundInForms, IsFoundInMessage, found_of_fault};
ghost use Rattle.serde_json.specs.Data.{object};
ghost use Rattle.serde_json.specs.Find.{as_object};
ghost use Rattle.serde_json.specs.View.{members_view, view};

use crate::cause::Cause;
use crate::fault::{FormFault, form_fault, told_fault};
use crate::form::Form;
use crate::form_values::FormValues;
use crate::found::Found;
use crate::keys::add_keys;
use crate::language::Language;
use crate::place::{LocalePlace, MessagePlace, Place};
use crate::source_arguments::needs_number;
use icu_plurals::{PluralCategory, PluralRuleType};
use plural_documents::MemberCheck;
use serde_json::{Map, Value};
use std::alloc::{AllocError, Global};

// The forms in the order in which they are looked at.
const FORM_ORDER: [Form; 8] = [
    Form::ExplicitZero,
    Form::ExplicitOne,
    Form::Category(PluralCategory::Zero),
    Form::Category(PluralCategory::One),
    Form::Category(PluralCategory::Two),
    Form::Category(PluralCategory::Few),
    Form::Category(PluralCategory::Many),
    Form::Category(PluralCategory::Other),
];

// Checks a message of a type, in a locale, with what the sources of its messages have.
#[derive(Clone, Copy)]
pub(crate) struct MessageCheck<'l, 'a> {
    pub(crate) language: Option<&'l Language>,
    pub(crate) arguments: Option<&'l Value>,
    pub(crate) rule_type: PluralRuleType,
    pub(crate) locale: LocalePlace<'a>,
}

impl<'l, 'a> MemberCheck<'a, Found<'a>> for MessageCheck<'l, 'a> {
    ghost finds = { λ check. IsFoundInMessage (language_lent check.language) (value_lent check.arguments) check.rule_type
        (file_locale_place_view check.locale) };

    fn add(
        &self,
        _alloc: Global,
        key: &'a str,
        message: &'a Value,
        found: &mut Found<'a>,
    ) -> Result<(), AllocError> {
        let place = MessagePlace {
            locale: self.locale,
            rule_type: self.rule_type,
            key,
        };
        let needs = FormNeeds {
            language: self.language,
            number: needs_number(self.arguments, key),
        };
        found.count_message()?;
        add_forms(needs, place, message, found)
    }
}

// What the forms of a message need: those of a language, if it is known, and the number, unless the
// source of the message lacks it.
#[derive(Clone, Copy)]
struct FormNeeds<'l> {
    language: Option<&'l Language>,
    number: bool,
}

// Adds what is found in the forms of a message, and in its other keys.
fn add_forms<'a>(
    needs: FormNeeds<'_>,
    place: MessagePlace<'a>,
    message: &'a Value,
    found: &mut Found<'a>,
) -> Result<(), AllocError>
    ensures { OnOk result (HasGrownInMessages
        (IsFoundInForms (language_lent needs.entry.language) needs.entry.number (message_place_view place.entry) (view message.now)
        (as_object (view message.now))) found.old found.new) }
{
    match message.as_object() {
        Some(members) => add_all(needs, place, members, found),
        None => found.add_fault(Place::Message(place), Cause::NoObject),
    }
}

// Adds what is found in each form of a message with these members, and in its other keys.
fn add_all<'a>(
    needs: FormNeeds<'_>,
    place: MessagePlace<'a>,
    members: &'a Map<String, Value>,
    found: &mut Found<'a>,
) -> Result<(), AllocError>
    ensures { OnOk result (HasGrownInMessages
        (IsFoundInForms (language_lent needs.entry.language) needs.entry.number (message_place_view place.entry)
        (object (members_view members.now.entries)) (Some (members_view members.now.entries))) found.old found.new) }
{
    let values = FormValues::of(members);
    add_each_form(needs, place, &values, found)?;
    if values.has_other_keys {
        return add_keys(place, members, found);
    }
    Ok(())
}

// Adds what is found in each form, given what the message has.
fn add_each_form<'a>(
    needs: FormNeeds<'_>,
    place: MessagePlace<'a>,
    values: &FormValues<'_>,
    found: &mut Found<'a>,
) -> Result<(), AllocError>
    ensures { OnOk result (HasGrownInMessages
        (IsFoundInEach (IsFoundByValues (language_lent needs.entry.language) needs.entry.number (message_place_view place.entry)
        values.now) form_order) found.old found.new) }
{
    for form in &FORM_ORDER {
        add_form(needs, place, values, *form, found)?;
    }
    Ok(())
}

// Adds what is found in a form.
fn add_form<'a>(
    needs: FormNeeds<'_>,
    place: MessagePlace<'a>,
    values: &FormValues<'_>,
    form: Form,
    found: &mut Found<'a>,
) -> Result<(), AllocError>
    ensures { OnOk result (HasGrownInMessages
        (IsFoundByValues (language_lent needs.entry.language) needs.entry.number (message_place_view place.entry) values.now form)
        found.old found.new) }
{
    let value = values.value(form);
    count_value(value, found)?;
    let fault = form_fault(needs.language, values.own_forms(), form, value);
    add_fault(place, form, told_fault(needs.number, fault), found)
}

// Counts what a message has under the key of a form, if there is something.
fn count_value(value: Option<&Value>, found: &mut Found<'_>) -> Result<(), AllocError>
    ensures { OnOk result (found.new ≡ messages_together found.old (value_count (value_lent value.entry))) }
{
    match value {
        Some(_) => found.count_form(),
        None => Ok(()),
    }
}

// Adds the fault of a form, if it has one.
fn add_fault<'a>(
    place: MessagePlace<'a>,
    form: Form,
    fault: Option<FormFault>,
    found: &mut Found<'a>,
) -> Result<(), AllocError>
    ensures { OnOk result (found.new ≡ messages_together found.old (found_of_fault (message_place_view place.entry) form fault)) }
{
    match fault {
        Some(fault) => found.add(Place::Form(place, form), Cause::Form(fault)),
        None => Ok(()),
    }
}
