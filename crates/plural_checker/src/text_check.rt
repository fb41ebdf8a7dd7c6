//! One text of a language's rules.

ghost use Rattle.std.specs.Prelude.{OnOk};
ghost use Rattle.std.specs.Option.{option_copied};
ghost use Rattle.plural_checker.specs.Findings.{AddsFindings, GrowsBy};
ghost use Rattle.plural_checker.specs.Inner.TextReadings.{IsFoundInRead};
ghost use Rattle.plural_checker.specs.TextChecks.{condition_findings, IsFoundIn, IsFoundInReading, IsFoundInCategoryText};

use crate::fault::{Fault, TextFault};
use crate::list_order::is_out_of_order;
use crate::printed_rule::PrintedRule;
use crate::range_check::check_samples;
use crate::read_text::{ReadText, Reading};
use crate::report::Report;
use icu_plurals::provider::rules::reference::ast::{Condition, Rule};
use icu_plurals::{PluralCategory, PluralRules};
use std::alloc::{AllocError, Global};
use token_comparison::has_tokens_of;

// Adds the faults of a category's text, if it is present.
pub(crate) fn check_if_there(
    alloc: Global,
    rules: Option<&PluralRules<'_>>,
    category: PluralCategory,
    text: &Option<ReadText<'_>>,
    report: &mut Report,
) -> Result<(), AllocError>
    ensures { OnOk result (AddsFindings (IsFoundIn (option_copied rules.entry) category text.now) report.old report.new) }
{
    match text {
        Some(text) => check_text(alloc, rules, category, text, report),
        None => Ok(()),
    }
}

// Adds the faults of a category's text.
fn check_text(
    alloc: Global,
    rules: Option<&PluralRules<'_>>,
    category: PluralCategory,
    text: &ReadText<'_>,
    report: &mut Report,
) -> Result<(), AllocError>
    ensures { OnOk result (AddsFindings (IsFoundInCategoryText (option_copied rules.entry) category text.now) report.old report.new) }
{
    match text.reading() {
        Reading::Long => {
            let kind = TextFault::TooLong(text.as_str().len());
            report.add(Fault { category, kind })
        }
        Reading::Refused(fault) => {
            let kind = TextFault::Unread(fault.kind, fault.byte);
            report.add(Fault { category, kind })
        }
        Reading::Rule(rule) => check_rule(alloc, rules, category, text.as_str(), rule, report),
    }
}

// Adds the faults of a category's text that is read as this rule.
fn check_rule(
    alloc: Global,
    rules: Option<&PluralRules<'_>>,
    category: PluralCategory,
    text: &str,
    rule: &Rule,
    report: &mut Report,
) -> Result<(), AllocError>
    ensures { OnOk result (AddsFindings (IsFoundInRead (option_copied rules.entry) category text.now rule.now) report.old report.new) }
{
    check_reading(alloc, category, text, rule, report)?;
    check_condition(category, &rule.condition, report)?;
    check_samples(alloc, rules, category, &rule.samples, report)
}

// Adds a fault if part of the text isn't read, or if its lists of samples are out of order.
fn check_reading(
    alloc: Global,
    category: PluralCategory,
    text: &str,
    rule: &Rule,
    report: &mut Report,
) -> Result<(), AllocError>
    ensures { OnOk result (AddsFindings (IsFoundInReading category text.now rule.now) report.old report.new) }
{
    let printed = PrintedRule::of(alloc, rule)?;
    if has_tokens_of(text, printed.0.as_str()) {
        return Ok(());
    }
    if is_out_of_order(alloc, text)? {
        let kind = TextFault::Order;
        return report.add(Fault { category, kind });
    }
    let kind = TextFault::Partly(printed);
    report.add(Fault { category, kind })
}

// Adds a fault if this is the text of other and has a condition.
fn check_condition(
    category: PluralCategory,
    condition: &Condition,
    report: &mut Report,
) -> Result<(), AllocError>
    ensures { OnOk result (GrowsBy report.old (condition_findings category condition.now.0) report.new) }
{
    if category != PluralCategory::Other || condition.0.is_empty() {
        return Ok(());
    }
    let kind = TextFault::Condition;
    report.add(Fault { category, kind })
}
