//! Checks the numbers of samples against the category whose text lists them.

ghost use Rattle.std.specs.Prelude.{◌<◌, IfOk};
ghost use Rattle.std.specs.Option.{option_copied};
ghost use Rattle.plural_checker.specs.Inner.ShortNumbers.{IsVerdictOn};
ghost use Rattle.plural_checker.specs.NumberChecks.{AreCheckedNumbers, IsCheckedBy, IsCheckedNumber, IsCheckedText};
ghost use Rattle.plural_checker.specs.SampleNumbers.{count_of, number_at};

use crate::fault::SampleFault;
use crate::reading::read_number;
use crate::sample_range::SampleNumbers;
use crate::short_number::{Verdict, verdict_at};
use icu_plurals::provider::rules::reference::ast::DecimalValue;
use icu_plurals::{AskedRules, CompactDecimal, PluralCategory, PluralOperands};
use number_categories::{NumberFault, category_fault};
use plural_base::laws::kept_choice_is_exact;
use std::alloc::{AllocError, Global};

// The fault of the first number that is wrong, if there is one.
pub(crate) fn check_numbers(
    alloc: Global,
    rules: Option<&AskedRules<'_>>,
    category: PluralCategory,
    numbers: &SampleNumbers,
) -> Result<Option<SampleFault>, AllocError>
    ensures { IfOk result (λ fault. AreCheckedNumbers (option_copied rules.entry) category numbers.now fault) }
{
    for index in 0..numbers.count() {
        let verdict = verdict_at(rules, category, numbers, index);
        if verdict.is_right() {
            continue;
        }
        let text = numbers.text(alloc, index)?;
        if let Some(fault) = fault_by(alloc, rules, category, &text, verdict)? {
            return Ok(Some(SampleFault::Number(text, fault)));
        }
    }
    Ok(None)
}

// The fault of a text that is listed under a category: that of the verdict, else of a check.
fn fault_by(
    alloc: Global,
    rules: Option<&AskedRules<'_>>,
    category: PluralCategory,
    text: &DecimalValue,
    verdict: Verdict,
) -> Result<Option<NumberFault>, AllocError>
    requires { IsVerdictOn (option_copied rules) category text.now verdict }
    ensures { IfOk result (λ fault. IsCheckedText (option_copied rules.entry) category text.now fault) }
{
    match verdict {
        Verdict::Right => Ok(None),
        Verdict::Wrong(fault) => Ok(Some(fault)),
        Verdict::Unknown => check_text(alloc, rules, category, text),
    }
}

// The fault of a text that is listed under a category.
fn check_text(
    alloc: Global,
    rules: Option<&AskedRules<'_>>,
    category: PluralCategory,
    text: &DecimalValue,
) -> Result<Option<NumberFault>, AllocError>
    ensures { IfOk result (λ fault. IsCheckedText (option_copied rules.entry) category text.now fault) }
{
    match read_number(alloc, text.0.as_str()) {
        Ok(Ok(number)) => Ok(check_number(rules, category, &number)),
        Ok(Err(error)) => Ok(Some(NumberFault::Text(error))),
        Err(error) => Err(error),
    }
}

// The fault of a number that is listed under a category; `None` without rules.
fn check_number(
    rules: Option<&AskedRules<'_>>,
    category: PluralCategory,
    number: &CompactDecimal,
) -> Option<NumberFault>
    ensures { IsCheckedNumber (option_copied rules.entry) category number.now result }
{
    match rules {
        Some(rules) => check_by(rules, category, number),
        None => None,
    }
}

// The fault of a number under these rules.
fn check_by(
    rules: &AskedRules<'_>,
    category: PluralCategory,
    number: &CompactDecimal,
) -> Option<NumberFault>
    ensures { IsCheckedBy rules.now category number.now result }
{
    if !rules.rules().is_exact_for(number) {
        return Some(NumberFault::Outside);
    }
    kept_choice_is_exact();
    category_fault(rules, category, PluralOperands::from(number))
}
