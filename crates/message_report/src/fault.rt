//! What is wrong with a form of a message.

ghost use Rattle.std.specs.Prelude.{◌≡◌, ◌↔◌, IsTrue, Some, None, option_map};
ghost use Rattle.std.specs.Fmt.{DisplaysOnOk};
ghost use Rattle.std.specs.Option.{option_and_then};
ghost use Rattle.std.specs.Str.Iter.{HasSubslice};
ghost use Rattle.message_report.specs.FormFaults.{form_fault_text, form_value_fault, missing_form, missing_numbers_text, missing_samples_text, no_number, told_of};
ghost use Rattle.message_report.specs.FormFaults.{HasFaultUnder, HasPresentFault, HasFormTextFault};
ghost use Rattle.message_report.specs.Inner.FormSteps.{HasFaultOf, language_lent, value_lent};
ghost use Rattle.message_report.specs.Inner.LanguageViews.{language_view};
ghost use Rattle.message_report.specs.declared.form.Form.TheVariants.{Category};
ghost use Rattle.plural_message.specs.Messages.{placeholder};
ghost use Rattle.serde_json.specs.View.{view};

use crate::form::{Form, OwnForms};
use crate::language::Language;
use crate::rare_samples::TwoSamples;
use icu_plurals::PluralCategory;
use number_categories::TwoNumbers;
use plural_checker::Sample;
use serde_json::Value;
use std::fmt;

/// What is wrong with a form of a message.
#[derive(Clone, Copy, Debug, PartialEq, Eq)]
pub enum FormFault {
    /// It has no text.
    NoText,
    /// The language hasn't its category: no number chooses it.
    Unused(PluralCategory),
    /// Its text has no `{}`, though these two numbers choose it.
    NoNumber(PluralCategory, u16, u16),
    /// The message hasn't the form, though these two least whole numbers would choose it, or one.
    Missing(PluralCategory, u16, Option<u16>),
    /// The message hasn't the form, though the language has its category, and no whole number would
    /// choose it. These are the first two samples of its rule that have the category, as far as there
    /// are two, unless forms of exactly 0 and 1 are for its whole numbers.
    MissingRare(PluralCategory, Option<Sample>, Option<Sample>),
}

impl fmt::Display for FormFault {
    ghost output = { λ fault. Some (form_fault_text fault) };

    fn fmt<W: fmt::Write>(&self, f: &mut fmt::Formatter<W>) -> fmt::Result {
        match *self {
            FormFault::NoText => f.write_str("no text"),
            FormFault::Unused(category) => write!(f, "no number is {category}"),
            FormFault::NoNumber(category, first, second) => {
                write!(f, "no {{}}, but {first} and {second} are {category}")
            }
            FormFault::Missing(category, first, second) => {
                write_missing(f, category, first, second)
            }
            FormFault::MissingRare(category, first, second) => {
                write_rare(f, category, first, second)
            }
        }
    }
}

// Writes that a category is missing, with its numbers.
pub(crate) fn write_missing<W: fmt::Write>(
    f: &mut fmt::Formatter<W>,
    category: PluralCategory,
    first: u16,
    second: Option<u16>,
) -> fmt::Result
    ensures { DisplaysOnOk W.write_str_gives f.old result (Some (missing_numbers_text category first second)) f.new }
{
    match second {
        Some(second) => write!(f, "missing, but {first} and {second} are {category}"),
        None => write!(f, "missing, but {first} is {category}"),
    }
}

// Writes that a category is missing, with its samples.
pub(crate) fn write_rare<W: fmt::Write>(
    f: &mut fmt::Formatter<W>,
    category: PluralCategory,
    first: Option<Sample>,
    second: Option<Sample>,
) -> fmt::Result
    ensures { DisplaysOnOk W.write_str_gives f.old result (Some (missing_samples_text category first second)) f.new }
{
    match (first, second) {
        (Some(first), Some(second)) => {
            write!(
                f,
                "missing, but {} and {} are {category}",
                first.as_str(),
                second.as_str()
            )
        }
        (Some(first), None) => { write!(f, "missing, but {} is {category}", first.as_str()) }
        (None, _) => f.write_str("missing"),
    }
}

// The fault that is told, given whether the form needs the number.
pub(crate) fn told_fault(needs_number: bool, fault: Option<FormFault>) -> Option<FormFault>
    ensures { result ≡ option_and_then (told_of needs_number) fault }
{
    let fault = fault?;
    if needs_number {
        return Some(fault);
    }
    match fault {
        FormFault::NoNumber(..) => None,
        _ => Some(fault),
    }
}

// The fault of a form, given what a message has under its key, if it has one; without a language
// only that it has no text.
pub(crate) fn form_fault(
    language: Option<&Language>,
    own: OwnForms,
    form: Form,
    value: Option<&Value>,
) -> Option<FormFault>
    ensures { HasFaultOf (language_lent language.entry) own.zero own.one form (value_lent value.entry) result }
{
    match form {
        Form::ExplicitZero => value_fault(value),
        Form::ExplicitOne => value_fault(value),
        Form::Category(category) => category_fault_if(language, own, category, value),
    }
}

// The fault of a category's form; without a language only that it has no text.
fn category_fault_if(
    language: Option<&Language>,
    own: OwnForms,
    category: PluralCategory,
    value: Option<&Value>,
) -> Option<FormFault>
    ensures { HasFaultOf (language_lent language.entry) own.zero own.one (Category category) (value_lent value.entry) result }
{
    match language {
        Some(language) => category_fault(language, own, category, value),
        None => value_fault(value),
    }
}

// That a value is no text, if there is one.
fn value_fault(value: Option<&Value>) -> Option<FormFault>
    ensures { result ≡ form_value_fault (option_map (λ v. view v.now) value.entry) }
{
    if value?.is_string() {
        None
    } else {
        Some(FormFault::NoText)
    }
}

// The fault of a category's form, if it has one.
fn category_fault(
    language: &Language,
    own: OwnForms,
    category: PluralCategory,
    value: Option<&Value>,
) -> Option<FormFault>
    ensures { HasFaultUnder (language_view language.now) category ((language_view language.now).numbers category own.zero own.one)
        (value_lent value.entry) result }
{
    match value {
        Some(value) => fault_of_value(language, own, category, value),
        None => fault_of_none(language, own, category),
    }
}

// The fault of a form that isn't there, if it has one.
fn fault_of_none(language: &Language, own: OwnForms, category: PluralCategory) -> Option<FormFault>
    ensures { HasFaultUnder (language_view language.now) category ((language_view language.now).numbers category own.zero own.one)
        None result }
{
    if language.has(category) {
        let numbers = language.numbers(category, own.zero, own.one);
        Some(missing_form(category, numbers, language.samples(category)))
    } else {
        None
    }
}

// That a form isn't there, by the numbers that would choose it, or else by samples.
fn missing_form(category: PluralCategory, numbers: TwoNumbers, samples: TwoSamples) -> FormFault
    ensures { result ≡ missing_form category numbers.first numbers.second samples }
{
    match numbers.first {
        Some(first) => FormFault::Missing(category, first, numbers.second),
        None => FormFault::MissingRare(category, samples.first, samples.second),
    }
}

// The fault of a form, given its value.
fn fault_of_value(
    language: &Language,
    own: OwnForms,
    category: PluralCategory,
    value: &Value,
) -> Option<FormFault>
    ensures { HasFaultUnder (language_view language.now) category ((language_view language.now).numbers category own.zero own.one)
        (Some (view value.now)) result }
{
    if language.has(category) {
        present_fault(language, own, category, value)
    } else {
        Some(FormFault::Unused(category))
    }
}

// The fault of a form of a category that the language has, given its value.
fn present_fault(
    language: &Language,
    own: OwnForms,
    category: PluralCategory,
    value: &Value,
) -> Option<FormFault>
    ensures { HasPresentFault category ((language_view language.now).numbers category own.zero own.one) (view value.now) result }
{
    match value.as_str() {
        Some(text) => text_fault(language, own, category, text),
        None => Some(FormFault::NoText),
    }
}

// The fault of a form's text, if it has one. Only without the number it is looked up which numbers
// choose it.
fn text_fault(
    language: &Language,
    own: OwnForms,
    category: PluralCategory,
    text: &str,
) -> Option<FormFault>
    ensures { HasFormTextFault category ((language_view language.now).numbers category own.zero own.one) text.now result }
{
    if has_placeholder(text) {
        None
    } else {
        no_number(category, language.numbers(category, own.zero, own.one))
    }
}

// Whether a text has the placeholder of its number. Where it stands first, it is seen at once.
fn has_placeholder(text: &str) -> bool
    ensures { IsTrue result ↔ HasSubslice text.now placeholder }
{
    if text.starts_with("{}") {
        return true;
    }
    text.contains("{}")
}

// The fault of a text without the number, if two numbers choose it.
fn no_number(category: PluralCategory, numbers: TwoNumbers) -> Option<FormFault>
    ensures { result ≡ no_number category numbers.first numbers.second }
{
    let first = numbers.first?;
    let second = numbers.second?;
    Some(FormFault::NoNumber(category, first, second))
}
