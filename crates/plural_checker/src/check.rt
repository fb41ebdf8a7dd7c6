//! The six texts of a language's rules.

ghost use Rattle.std.specs.Prelude.{◌≡◌, IfErr, IfOk, IsSomeAnd, None, OnOk, Some};
ghost use Rattle.std.specs.Option.{option_copied};
ghost use Rattle.icu_plurals.specs.FiveRules.{rules_of};
ghost use Rattle.plural_checker.specs.Inner.TextReadings.{HasNoRule, IfRefused, IsShortRuleOf, six};
ghost use Rattle.plural_checker.specs.LanguageTexts.{six_texts};
ghost use Rattle.plural_checker.specs.Findings.{AddsFindings};
ghost use Rattle.plural_checker.specs.TextChecks.{AreFindingsOf, AreFindingsUnder, AreRulesIfRead, IsFoundInSix};

use crate::read_text::{NoRule, ReadText, packed_if_there, read_if_there};
use crate::report::Report;
use crate::text_check::check_if_there;
use crate::texts::LanguageTexts;
use icu_plurals::provider::PluralRulesData;
use icu_plurals::provider::rules::runtime::ast::Rule as PackedRule;
use icu_plurals::{Five, PluralCategory, PluralRules};
use plural_base::{for_five, put_five};
use std::alloc::{AllocError, Global};
use std::mem;

/// Returns the faults of the texts of a language's rules of one type, and how many numbers their
/// samples have.
///
/// The faults are in the order of the texts: zero, one, two, few, many, other. A text of more than
/// [`MOST_TEXT_BYTES`](crate::MOST_TEXT_BYTES) bytes has one fault, [`TextFault::TooLong`], and so
/// has one that gives no rule, [`TextFault::Unread`]. Otherwise, [`TextFault::Partly`] comes first
/// if part of the text isn't read, or [`TextFault::Order`] if all of it is read but its lists of
/// samples are out of order; then [`TextFault::Condition`] if it is the text of other and has a
/// condition; then the faults of its samples ([`TextFault::Sample`]), the list of integers before
/// that of decimals, each from left to right: for a range of samples, that it has no numbers, or
/// the first of its numbers that is wrong. A number is wrong if its text writes no number, if it is
/// outside the exactness bound, or if the five rules choose another category for it than the one
/// whose text lists it. If one of the five texts is too long or gives no rule, categories aren't
/// checked.
///
/// So the time that it takes is at most in proportion to the bytes of the six texts.
///
/// It allocates; the only error is out of memory.
///
/// [`TextFault::TooLong`]: crate::TextFault::TooLong
/// [`TextFault::Unread`]: crate::TextFault::Unread
/// [`TextFault::Partly`]: crate::TextFault::Partly
/// [`TextFault::Order`]: crate::TextFault::Order
/// [`TextFault::Condition`]: crate::TextFault::Condition
/// [`TextFault::Sample`]: crate::TextFault::Sample
pub fn check_texts(alloc: Global, texts: &LanguageTexts<'_>) -> Result<Report, AllocError>
    ensures { IfOk result (λ report. AreFindingsOf (six_texts texts.now) report) }
{
    match read_five(alloc, texts) {
        Ok(five) => {
            let report = check_five(alloc, &five, texts.other);
            drop(five);
            report
        }
        Err(error) => Err(error),
    }
}

// The faults of five texts that are read, and of that of other.
fn check_five(
    alloc: Global,
    five: &Five<Option<ReadText<'_>>>,
    other: Option<&str>,
) -> Result<Report, AllocError>
    ensures { IfOk result (λ report. AreFindingsOf (six five.now (option_copied other.entry)) report) }
{
    match read_if_there(alloc, other) {
        Ok(other) => {
            let report = check_six(alloc, five, &other);
            drop(other);
            report
        }
        Err(error) => Err(error),
    }
}

// The faults of six texts that are read.
fn check_six(
    alloc: Global,
    five: &Five<Option<ReadText<'_>>>,
    other: &Option<ReadText<'_>>,
) -> Result<Report, AllocError>
    ensures { IfOk result (λ report. AreFindingsOf (six five.now other.now) report) }
{
    match rules_of(alloc, five) {
        Ok(rules) => {
            let report = check_all(alloc, rules.as_ref(), five, other);
            drop(rules);
            report
        }
        Err(error) => Err(error),
    }
}

// The five texts, each read once.
fn read_five<'a>(
    alloc: Global,
    texts: &LanguageTexts<'a>,
) -> Result<Five<Option<ReadText<'a>>>, AllocError>
    ensures { IfOk result (λ five. five ≡ (six_texts texts.now).five) }
{
    let mut five = Five::none();
    put_read(alloc, texts, &mut five).and(Ok(five))
}

// Puts what the five texts are read as in their places.
fn put_read<'a>(
    alloc: Global,
    texts: &LanguageTexts<'a>,
    five: &mut Five<Option<ReadText<'a>>>,
) -> Result<(), AllocError>
    ensures { OnOk result (five.new ≡ (six_texts texts.now).five) }
{
    put_five!(five, texts, |place, text| put_text(alloc, *text, place)?);
    Ok(())
}

// Puts what a text is read as in its place.
fn put_text<'a>(
    alloc: Global,
    text: Option<&'a str>,
    place: &mut Option<ReadText<'a>>,
) -> Result<(), AllocError>
    ensures { OnOk result (place.new ≡ option_copied text.entry) }
{
    match read_if_there(alloc, text) {
        Ok(read) => {
            drop(mem::replace(place, read));
            Ok(())
        }
        Err(error) => Err(error),
    }
}

// The faults of the texts under these rules.
fn check_all(
    alloc: Global,
    rules: Option<&PluralRules<'_>>,
    five: &Five<Option<ReadText<'_>>>,
    other: &Option<ReadText<'_>>,
) -> Result<Report, AllocError>
    ensures { IfOk result (λ report. AreFindingsUnder (option_copied rules.entry) (six five.now other.now) report) }
{
    let mut report = Report::new(alloc);
    add_all(alloc, rules, five, other, &mut report).and(Ok(report))
}

// Adds the faults of the texts under these rules.
fn add_all(
    alloc: Global,
    rules: Option<&PluralRules<'_>>,
    five: &Five<Option<ReadText<'_>>>,
    other: &Option<ReadText<'_>>,
    report: &mut Report,
) -> Result<(), AllocError>
    ensures { OnOk result (AddsFindings (IsFoundInSix (option_copied rules.entry) (six five.now other.now)) report.old report.new) }
{
    for_five!(five, |text, category| {
        check_if_there(alloc, rules, category, text, report)?;
    });
    check_if_there(alloc, rules, PluralCategory::Other, other, report)
}

// The rules of the five texts, or `None` if one is too long or gives no rule.
fn rules_of(
    alloc: Global,
    five: &Five<Option<ReadText<'_>>>,
) -> Result<Option<PluralRules<'static>>, AllocError>
    ensures { IfOk result (λ rules. AreRulesIfRead five.now rules) }
{
    match packed_rules(alloc, five) {
        Ok(data) => Ok(Some(PluralRules::from_data(data))),
        Err(NoRule::Refused) => Ok(None),
        Err(NoRule::Memory) => Err(AllocError),
    }
}

// The packed rules of the five texts.
fn packed_rules(
    alloc: Global,
    five: &Five<Option<ReadText<'_>>>,
) -> Result<PluralRulesData<'static>, NoRule>
    ensures ok { IfOk result (λ packed. AreRulesIfRead five.now (Some (rules_of packed))) }
    ensures refused { IfErr result (λ why. IfRefused why (AreRulesIfRead five.now None)) }
{
    let mut packed = PluralRulesData::default();
    put_packed(alloc, five, &mut packed).and(Ok(packed))
}

// Puts the packed rules of the five texts in their places.
fn put_packed(
    alloc: Global,
    five: &Five<Option<ReadText<'_>>>,
    packed: &mut PluralRulesData<'static>,
) -> Result<(), NoRule>
    ensures ok { OnOk result (AreRulesIfRead five.now (Some (rules_of packed.new))) }
    ensures refused { IfErr result (λ why. IfRefused why (AreRulesIfRead five.now None)) }
{
    put_five!(packed, five, |place, text| put_rule(alloc, text, place)?);
    Ok(())
}

// Puts the packed rule of a text in its place.
fn put_rule(
    alloc: Global,
    text: &Option<ReadText<'_>>,
    place: &mut Option<PackedRule<'static>>,
) -> Result<(), NoRule>
    ensures ok { OnOk result (IsShortRuleOf text.now place.new) }
    ensures refused { IfErr result (λ why. IfRefused why (IsSomeAnd text.now HasNoRule)) }
{
    match packed_if_there(alloc, text) {
        Ok(rule) => {
            drop(mem::replace(place, rule));
            Ok(())
        }
        Err(error) => Err(error),
    }
}
