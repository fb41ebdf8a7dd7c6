//! How gettext's files number the forms of a language.

ghost use Rattle.std.specs.Prelude.{◌≡◌, ◌<◌, ◌⊎◌, ◌||◌, Some, length, slice_get, ◌++◌, ◌∷◌, [], IfOk, OnOk, Ok, MatchBool, codes, string_bytes};
ghost use Rattle.std.specs.Fmt.{decimal};
ghost use Rattle.std.specs.Option.{option_copied};
ghost use Rattle.icu_plurals.specs.FiveRules.{FiveRules, categories_of, rules_of};
ghost use Rattle.icu_plurals.specs.RulesJson.{rules_of_json};
ghost use Rattle.number_categories.specs.WholeNumbers.{HasWhole, IsLeastFrom};
ghost use Rattle.form_commands.specs.CExpressions.{c_condition_text, choice_text};
ghost use Rattle.form_commands.specs.GettextLines.{AreFormsOf, HasForm, IsGettextLine, SomeHas, condition_if, conditions_of, line_text, rule_for, tried_powers};
ghost use Rattle.serde_json.specs.View.{view};

use crate::c_condition::condition_text;
use icu_plurals::provider::PluralRulesData;
use icu_plurals::provider::rules::runtime::ast::Rule;
use icu_plurals::{PluralCategory, PluralOperands, PluralRules};
use number_categories::least_of_each;
use plural_base::at_category;
use serde_json::Value;
use std::alloc::{AllocError, Global};

// The line for the rules that a JSON value has: how many forms there are, and an expression of C
// for the one that `n` takes.
pub(crate) fn gettext_line(alloc: Global, value: &Value) -> Result<String, AllocError>
    ensures { IfOk result (λ text. (rules : FiveRules) × (rules_of_json (view value.now) ≡ Ok rules) × IsGettextLine rules (string_bytes text)) }
{
    match PluralRulesData::from_json(alloc, value) {
        Ok(rules) => line_of(alloc, &rules),
        Err(_) => Err(AllocError),
    }
}

// The line for rules.
fn line_of(alloc: Global, five: &PluralRulesData<'_>) -> Result<String, AllocError>
    ensures { IfOk result (λ text. IsGettextLine (rules_of five.now) (string_bytes text)) }
{
    let rules = PluralRules::from_data(five.as_borrowed());
    let forms = forms_of(alloc, &rules)?;
    let expression = choice_text(alloc, five, forms.as_slice())?;
    line_text(alloc, forms.len(), expression.as_str())
}

// The line for a count of forms and an expression.
fn line_text(alloc: Global, count: usize, expression: &str) -> Result<String, AllocError>
    ensures { IfOk result (λ text. string_bytes text ≡ line_text count expression.now) }
{
    format!(in alloc; "Plural-Forms: nplurals={count}; plural=({expression});\n")
}

// The categories that have a form, in their order.
fn forms_of(alloc: Global, rules: &PluralRules<'_>) -> Result<Vec<PluralCategory>, AllocError>
    ensures { IfOk result (λ forms. AreFormsOf rules.now (categories_of rules.now) forms.items) }
{
    let mut forms = Vec::new(alloc);
    let least = least_of_each(rules, 0);
    let mut categories = rules.categories();
    while let Some(category) = categories.next() {
        push_form(rules, category, least.at(category).first, &mut forms)?;
    }
    Ok(forms)
}

// Appends a category, if it has a form, given its least whole number.
fn push_form(
    rules: &PluralRules<'_>,
    category: PluralCategory,
    least: Option<u16>,
    forms: &mut Vec<PluralCategory>,
) -> Result<(), AllocError>
    requires { IsLeastFrom rules.now category 0 least }
    ensures { OnOk result ((HasForm rules.now category × (forms.new.items ≡ forms.old.items ++ category ∷ []))
        ⊎ (¬ (HasForm rules.now category) × (forms.new.items ≡ forms.old.items))) }
{
    if has_form(rules, category, least) {
        forms.push(category)?;
    }
    Ok(())
}

// Whether a category has a form, given its least whole number.
fn has_form(rules: &PluralRules<'_>, category: PluralCategory, least: Option<u16>) -> bool
    requires { IsLeastFrom rules.now category 0 least }
    ensures { MatchBool result (HasForm rules.now category) (¬ (HasForm rules.now category)) }
{
    if least.is_some() {
        return true;
    }
    has_power(rules, category)
}

// Whether a power of ten that is tried has a category.
fn has_power(rules: &PluralRules<'_>, category: PluralCategory) -> bool
    ensures { MatchBool result (SomeHas rules.now category tried_powers) (¬ (SomeHas rules.now category tried_powers)) }
{
    let fourth = has_whole(rules, category, 10_000);
    let fifth = has_whole(rules, category, 100_000);
    let sixth = has_whole(rules, category, 1_000_000);
    let seventh = has_whole(rules, category, 10_000_000);
    let eighth = has_whole(rules, category, 100_000_000);
    let ninth = has_whole(rules, category, 1_000_000_000);
    some_of(fourth, fifth, sixth, seventh, eighth, ninth)
}

// Whether one of six is true.
fn some_of(fourth: bool, fifth: bool, sixth: bool, seventh: bool, eighth: bool, ninth: bool) -> bool
    ensures { result ≡ (((((fourth || fifth) || sixth) || seventh) || eighth) || ninth) }
{
    fourth || fifth || sixth || seventh || eighth || ninth
}

// Whether a whole number has a category.
fn has_whole(rules: &PluralRules<'_>, category: PluralCategory, number: u32) -> bool
    ensures { MatchBool result (HasWhole rules.now category number) (¬ (HasWhole rules.now category number)) }
{
    rules.category_for(PluralOperands::from(number)) == category
}

// The expression of the place of a number's category among these, in their order. The last has all
// numbers that are left.
fn choice_text(
    alloc: Global,
    five: &PluralRulesData<'_>,
    forms: &[PluralCategory],
) -> Result<String, AllocError>
    ensures { IfOk result (λ text. string_bytes text ≡ choice_text 0 (conditions_of (rules_of five.now) forms.now)) }
{
    let mut text = String::new(alloc);
    let last = forms.len().saturating_sub(1);
    for place in 0..last {
        let choice = choice_of(alloc, five, form_at(forms, place), place)?;
        text.push_str(choice.as_str())?;
    }
    let end = format!(in alloc; "{last}")?;
    text.push_str(end.as_str())?;
    Ok(text)
}

// The form at a place.
fn form_at(forms: &[PluralCategory], place: usize) -> PluralCategory
    requires { place < length forms.now }
    ensures { slice_get forms.now place ≡ Some result }
{
    forms[place]
}

// The choice of a place by the condition of its category.
fn choice_of(
    alloc: Global,
    five: &PluralRulesData<'_>,
    category: PluralCategory,
    place: usize,
) -> Result<String, AllocError>
    ensures { IfOk result (λ text. string_bytes text
        ≡ c_condition_text (condition_if (rule_for (rules_of five.now) category)) ++ (codes " ? " ++ (decimal place ++ codes " : "))) }
{
    let condition = condition_for(alloc, rule_for(five, category))?;
    format!(in alloc; "{condition} ? {place} : ")
}

// The condition of a rule, or 0 without one.
fn condition_for(alloc: Global, rule: Option<&Rule<'_>>) -> Result<String, AllocError>
    ensures { IfOk result (λ text. string_bytes text ≡ c_condition_text (condition_if (option_copied rule.entry))) }
{
    match rule {
        Some(rule) => condition_text(alloc, rule),
        None => String::from_str(alloc, "0"),
    }
}

// The rule of a category. Other has none.
fn rule_for<'a, 'data>(
    five: &'a PluralRulesData<'data>,
    category: PluralCategory,
) -> Option<&'a Rule<'data>>
    ensures { option_copied result ≡ rule_for (rules_of five.now) category }
{
    at_category!(five, category, |rule| rule.as_ref(), None)
}
