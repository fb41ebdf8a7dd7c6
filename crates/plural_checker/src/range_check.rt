//! Checks the samples of a text against the text's category.

ghost use Rattle.std.specs.Prelude.{◌≡◌, List, ℕ, IfOk, OnOk, Some};
ghost use Rattle.std.specs.Option.{option_copied};
ghost use Rattle.plural_checker.specs.Findings.{AddsFindings, EachFinds, GrowsBy};
ghost use Rattle.plural_checker.specs.NumberChecks.{AreCheckedNumbers, IsCheckedRange};
ghost use Rattle.plural_checker.specs.SampleNumbers.{count_of};
ghost use Rattle.plural_checker.specs.declared.fault.SampleFault.TheVariants.{Range};
ghost use Rattle.plural_checker.specs.TextChecks.{IsFoundInList, IsFoundInRange, IsFoundInSamples, sample_findings};

use crate::fault::{Fault, RangeFault, SampleFault, SampleType, TextFault};
use crate::number_check::check_numbers;
use crate::number_count::number_count;
use crate::reading::compact_text;
use crate::report::Report;
use crate::sample_range::SampleNumbers;
use crate::short_number::{Verdict, verdict_on_single};
use icu_plurals::provider::rules::reference::ast::{SampleList, SampleRange, Samples};
use icu_plurals::{AskedRules, PluralCategory, PluralRules};
use std::alloc::{AllocError, Global};

// Adds the faults of the samples of a category's text.
pub(crate) fn check_samples(
    alloc: Global,
    rules: Option<&PluralRules<'_>>,
    category: PluralCategory,
    samples: &Option<Samples>,
    report: &mut Report,
) -> Result<(), AllocError>
    ensures { OnOk result (AddsFindings (IsFoundInSamples (option_copied rules.entry) category samples.now) report.old report.new) }
{
    let Some(lists) = samples else {
        return Ok(());
    };
    match rules {
        Some(rules) => check_under(alloc, rules, category, lists, report),
        None => check_lists(alloc, None, category, lists, report),
    }
}

// The same under rules, which are asked in the way that is best for so many samples.
fn check_under(
    alloc: Global,
    rules: &PluralRules<'_>,
    category: PluralCategory,
    lists: &Samples,
    report: &mut Report,
) -> Result<(), AllocError>
    ensures { OnOk result (AddsFindings (IsFoundInSamples (Some rules.now) category (Some lists.now)) report.old report.new) }
{
    let mut asked = AskedRules::of(rules.as_borrowed());
    let checked = check_asked(alloc, &mut asked, category, lists, report);
    drop(asked);
    checked
}

// The same under rules that can be put in order.
fn check_asked(
    alloc: Global,
    asked: &mut AskedRules<'_>,
    category: PluralCategory,
    lists: &Samples,
    report: &mut Report,
) -> Result<(), AllocError>
    ensures { OnOk result (AddsFindings (IsFoundInSamples (Some asked.old) category (Some lists.now)) report.old report.new) }
{
    if !asked.rules().has_few_ranges() {
        asked.put_in_order(alloc, number_count(lists))?;
    }
    check_lists(alloc, Some(asked), category, lists, report)
}

// Adds the faults of the lists of samples.
fn check_lists(
    alloc: Global,
    rules: Option<&AskedRules<'_>>,
    category: PluralCategory,
    lists: &Samples,
    report: &mut Report,
) -> Result<(), AllocError>
    ensures { OnOk result (AddsFindings (IsFoundInSamples (option_copied rules.entry) category (Some lists.now)) report.old report.new) }
{
    check_list(
        alloc,
        rules,
        category,
        SampleType::Integer,
        &lists.integer,
        report,
    )?;
    check_list(
        alloc,
        rules,
        category,
        SampleType::Decimal,
        &lists.decimal,
        report,
    )
}

// Adds the faults of a list of samples, if it is present.
fn check_list(
    alloc: Global,
    rules: Option<&AskedRules<'_>>,
    category: PluralCategory,
    sample_type: SampleType,
    list: &Option<SampleList>,
    report: &mut Report,
) -> Result<(), AllocError>
    ensures { OnOk result (AddsFindings (IsFoundInList (option_copied rules.entry) category sample_type list.now) report.old report.new) }
{
    let Some(list) = list else {
        return Ok(());
    };
    check_ranges(
        alloc,
        rules,
        category,
        sample_type,
        list.sample_ranges.as_slice(),
        report,
    )
}

// Adds the faults of ranges of samples.
fn check_ranges(
    alloc: Global,
    rules: Option<&AskedRules<'_>>,
    category: PluralCategory,
    sample_type: SampleType,
    ranges: &[SampleRange],
    report: &mut Report,
) -> Result<(), AllocError>
    ensures { OnOk result (AddsFindings
        (EachFinds (IsFoundInRange (option_copied rules.entry) category sample_type) ranges.now) report.old report.new) }
{
    for range in ranges {
        add_range(alloc, rules, category, sample_type, range, report)?;
    }
    Ok(())
}

// Adds the fault of a range of samples, if it has one, and the count of its numbers.
fn add_range(
    alloc: Global,
    rules: Option<&AskedRules<'_>>,
    category: PluralCategory,
    sample_type: SampleType,
    range: &SampleRange,
    report: &mut Report,
) -> Result<(), AllocError>
    ensures { OnOk result (AddsFindings (IsFoundInRange (option_copied rules.entry) category sample_type range.now) report.old report.new) }
{
    match check_range(alloc, rules, category, range) {
        Ok((fault, count)) => add_sample(category, sample_type, fault, count, report),
        Err(error) => Err(error),
    }
}

// The fault of a range of samples, and the count of its numbers.
fn check_range(
    alloc: Global,
    rules: Option<&AskedRules<'_>>,
    category: PluralCategory,
    range: &SampleRange,
) -> Result<(Option<SampleFault>, u64), AllocError>
    ensures { IfOk result (λ checked.
        IsCheckedRange (option_copied rules.entry) category range.now checked.0 checked.1) }
{
    match verdict_on_single(alloc, rules, category, range) {
        Verdict::Right => Ok((None, 1)),
        Verdict::Wrong(fault) => {
            let text = compact_text(alloc, &range.lower_val)?;
            Ok((Some(SampleFault::Number(text, fault)), 1))
        }
        Verdict::Unknown => check_by_text(alloc, rules, category, range),
    }
}

// The same by the numbers' texts.
fn check_by_text(
    alloc: Global,
    rules: Option<&AskedRules<'_>>,
    category: PluralCategory,
    range: &SampleRange,
) -> Result<(Option<SampleFault>, u64), AllocError>
    ensures { IfOk result (λ checked.
        IsCheckedRange (option_copied rules.entry) category range.now checked.0 checked.1) }
{
    match SampleNumbers::of(alloc, range) {
        Ok(Ok(numbers)) => check_counted(alloc, rules, category, &numbers),
        Ok(Err(fault)) => wrong_range(range, fault),
        Err(error) => Err(error),
    }
}

// The fault of the numbers of a range, if they have one, and their count.
fn check_counted(
    alloc: Global,
    rules: Option<&AskedRules<'_>>,
    category: PluralCategory,
    numbers: &SampleNumbers,
) -> Result<(Option<SampleFault>, u64), AllocError>
    ensures { IfOk result (λ checked. AreCheckedNumbers (option_copied rules.entry) category numbers.now checked.0
        × (checked.1 ≡ count_of numbers.now)) }
{
    match check_numbers(alloc, rules, category, numbers) {
        Ok(fault) => Ok((fault, numbers.count())),
        Err(error) => Err(error),
    }
}

// The fault of a range without numbers.
fn wrong_range(
    range: &SampleRange,
    fault: RangeFault,
) -> Result<(Option<SampleFault>, u64), AllocError>
    ensures { IfOk result (λ checked. (checked.0 ≡ Some (Range range.now fault)) × (checked.1 ≡ 0)) }
{
    match range.try_clone() {
        Ok(range) => {
            let fault = SampleFault::Range(range, fault);
            Ok((Some(fault), 0))
        }
        Err(error) => Err(error),
    }
}

// Adds the fault of a sample, if it has one, and the count of its numbers.
fn add_sample(
    category: PluralCategory,
    sample_type: SampleType,
    fault: Option<SampleFault>,
    count: u64,
    report: &mut Report,
) -> Result<(), AllocError>
    ensures { OnOk result (GrowsBy report.old (sample_findings category sample_type fault count) report.new) }
{
    report.count(count);
    match fault {
        Some(fault) => {
            let kind = TextFault::Sample(sample_type, fault);
            report.add(Fault { category, kind })
        }
        None => Ok(()),
    }
}
