//! The forms of a language.

ghost use Rattle.std.specs.Prelude.{◌≡◌, ◌++◌, IfOk, OnOk, codes, string_bytes};
ghost use Rattle.std.specs.Option.{option_copied};
ghost use Rattle.icu_plurals.specs.Categories.{name_of};
ghost use Rattle.icu_plurals.specs.FiveRules.{categories_of};
ghost use Rattle.icu_plurals.specs.RulesJson.{text_under};
ghost use Rattle.icu_plurals.specs.Serializer.{prefixed, samples_text};
ghost use Rattle.number_categories.specs.WholeNumbers.{AreTwoLeast};
ghost use Rattle.form_commands.specs.FormLines.{AreForms, IsFormLine, IsFormList, IsSamplesOf, IsSamplesText, alone_text, header_line, is_alone, wholes_text};
ghost use Rattle.form_commands.specs.Inner.ConditionSteps.{Grows};
ghost use Rattle.serde_json.specs.View.{view};

use crate::language::LanguageRules;
use icu_plurals::laws::one_list_of_tokens;
use icu_plurals::provider::RawPluralCategory;
use icu_plurals::provider::rules::reference::ast::Samples;
use icu_plurals::provider::rules::reference::{ReadError, parse, serialize_samples};
use icu_plurals::{PluralCategory, PluralRules};
use number_categories::{TwoNumbers, two_least_of_each};
use plural_fallback::Part;
use serde_json::Value;
use std::alloc::{AllocError, Global};

// The lines of a language's forms.
pub(crate) fn list_text(
    alloc: Global,
    part: Part,
    locale: &str,
    language: &LanguageRules<'_>,
) -> Result<String, AllocError>
    ensures { IfOk result (λ text. IsFormList part locale.now language.now (string_bytes text)) }
{
    let mut text = header(alloc, part, locale, language)?;
    push_forms(alloc, language, &mut text)?;
    Ok(text)
}

// The line before the forms.
fn header(
    alloc: Global,
    part: Part,
    locale: &str,
    language: &LanguageRules<'_>,
) -> Result<String, AllocError>
    ensures { IfOk result (λ text. string_bytes text ≡ header_line part locale.now language.now) }
{
    let alone = alone_text(&language.rules);
    let key = language.key;
    format!(in alloc;
        "{}: {} rules of {}{}, whole numbers below 10000\n",
        locale,
        part.as_str(),
        key,
        alone
    )
}

// What is printed if there is no form but other.
fn alone_text(rules: &PluralRules<'_>) -> &'static str
    ensures { result.now ≡ alone_text (is_alone rules.now) }
{
    if is_alone(rules) { ", other alone" } else { "" }
}

// Whether there is no form but other.
fn is_alone(rules: &PluralRules<'_>) -> bool
    ensures { result ≡ is_alone rules.now }
{
    rules.categories().len() == 1
}

// Appends the lines of the forms, in the order of the rules.
fn push_forms(
    alloc: Global,
    language: &LanguageRules<'_>,
    text: &mut String,
) -> Result<(), AllocError>
    ensures { OnOk result (Grows (AreForms language.now (categories_of language.now.rules)) (string_bytes text.old) (string_bytes text.new)) }
{
    let least = two_least_of_each(&language.rules, 0);
    let mut categories = language.rules.categories();
    while let Some(category) = categories.next() {
        push_form(alloc, language, category, least.at(category), text)?;
    }
    Ok(())
}

// Appends the line of a form, given its two least whole numbers.
fn push_form(
    alloc: Global,
    language: &LanguageRules<'_>,
    category: PluralCategory,
    two: TwoNumbers,
    text: &mut String,
) -> Result<(), AllocError>
    requires { AreTwoLeast language.now.rules category two.first two.second }
    ensures { OnOk result (Grows (IsFormLine language.now category) (string_bytes text.old) (string_bytes text.new)) }
{
    text.push_str(name_of(category))?;
    text.push_str(": ")?;
    let wholes = wholes_text(alloc, two.first, two.second)?;
    text.push_str(wholes.as_str())?;
    push_samples_of(alloc, text_under(language.value, category), text)?;
    text.push_str("\n")?;
    Ok(())
}

// Which of two whole numbers there are.
fn wholes_text(alloc: Global, first: Option<u16>, second: Option<u16>) -> Result<String, AllocError>
    ensures { IfOk result (λ text. string_bytes text ≡ wholes_text first second) }
{
    match (first, second) {
        (Some(first), Some(second)) => format!(in alloc; "{first}, also {second}"),
        (Some(first), None) => format!(in alloc; "{first} alone"),
        (None, _) => String::from_str(alloc, "no whole number"),
    }
}

// The text under the name of a category.
fn text_under(value: &Value, category: PluralCategory) -> Option<&str>
    ensures { option_copied result ≡ text_under category (view value.now) }
{
    value.get(name_of(category))?.as_str()
}

// The name of a category.
fn name_of(category: PluralCategory) -> &'static str
    ensures { result.now ≡ name_of category }
{
    RawPluralCategory::from(category).as_str()
}

// Appends the samples of a text, if it is present.
fn push_samples_of(alloc: Global, rule: Option<&str>, text: &mut String) -> Result<(), AllocError>
    ensures { OnOk result (Grows (IsSamplesOf (option_copied rule.entry)) (string_bytes text.old) (string_bytes text.new)) }
{
    match rule {
        Some(rule) => push_samples_in(alloc, rule, text),
        None => Ok(()),
    }
}

// Appends the samples of a text, if it is a rule.
fn push_samples_in(alloc: Global, rule: &str, text: &mut String) -> Result<(), AllocError>
    ensures { OnOk result (Grows (IsSamplesText rule.now) (string_bytes text.old) (string_bytes text.new)) }
{
    one_list_of_tokens();
    match parse(alloc, rule.as_bytes()) {
        Ok(rule) => push_samples(rule.samples.as_ref(), text),
        Err(ReadError::Parse(_)) => Ok(()),
        Err(ReadError::Memory) => Err(AllocError),
    }
}

// Appends a semicolon and samples, if there are any.
fn push_samples(samples: Option<&Samples>, text: &mut String) -> Result<(), AllocError>
    ensures { OnOk result (string_bytes text.new ≡ string_bytes text.old ++ prefixed (codes ";") samples_text (option_copied samples.entry)) }
{
    let Some(samples) = samples else {
        return Ok(());
    };
    text.push_str(";")?;
    match serialize_samples(samples, text) {
        Ok(()) => Ok(()),
        Err(_) => Err(AllocError),
    }
}
