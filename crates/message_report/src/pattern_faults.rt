//! What is told of a pattern.

ghost use Rattle.std.specs.Prelude.{◌≡◌, ◌∷◌, [], IfOk, OnOk, map};
ghost use Rattle.message_pattern.specs.PatternParts.{parts_view, piece_view, selector_view};
ghost use Rattle.message_report.specs.FoundInMessages.{faults_of_severity, message_finding_at};
ghost use Rattle.message_report.specs.Inner.ArgumentViews.{plural_argument_view, languages_view};
ghost use Rattle.message_report.specs.Inner.FormSteps.{language_lent};
ghost use Rattle.message_report.specs.Inner.LanguageViews.{language_view};
ghost use Rattle.message_report.specs.Inner.ToldFindings.{TellsFindings, TellsThose, remembered};
ghost use Rattle.message_report.specs.MessagePlaces.{argument_place_view, pattern_place_view, place_view};
ghost use Rattle.message_report.specs.MessagesReport.{argument_findings, branch_findings, category_order, findings_at};
ghost use Rattle.message_report.specs.MessagesReport.{HasPatternFindings, HasPieceFindings, findings_under, language_findings, missing_findings};
ghost use Rattle.message_report.specs.PatternFaults.{type_of_kind};

use crate::argument::argument_at;
use crate::branch_fault::{BranchFault, branch_fault, missing_fault};
use crate::cause::Cause;
use crate::found::Found;
use crate::language::Language;
use crate::languages::Languages;
use crate::place::{ArgumentPlace, PatternPlace, Place};
use crate::plural_argument::Argument;
use crate::severity::Severity;
use icu_plurals::{PluralCategory, PluralRuleType};
use message_pattern::{ArgumentKind, Part, Piece, Selector};
use plural_documents::{MOST_TOLD, sum};
use std::alloc::{AllocError, Global};

// The most selectors of an argument with which a further one is compared.
const MOST_COMPARED: usize = 32;

// The categories in the order in which they are looked at.
const CATEGORY_ORDER: [PluralCategory; 6] = [
    PluralCategory::Zero,
    PluralCategory::One,
    PluralCategory::Two,
    PluralCategory::Few,
    PluralCategory::Many,
    PluralCategory::Other,
];

// Tells what is wrong with each argument of a pattern, the first ones by a finding, and returns how
// many faults there are.
pub(crate) fn tell_pattern<'a>(
    alloc: Global,
    languages: &Languages,
    place: PatternPlace<'a>,
    parts: &[Part<'a>],
    found: &mut Found<'a>,
) -> Result<u64, AllocError>
    ensures { IfOk result (λ count. TellsThose
        (HasPatternFindings (languages_view languages.now) (pattern_place_view place.entry) (parts_view parts.now))
        0 found.old count found.new) }
{
    let mut count = 0;
    let mut left = parts;
    while let [part, rest @ ..] = left {
        count = tell_part(alloc, languages, place, part, rest, count, found)?;
        left = rest;
    }
    Ok(count)
}

// Tells what is wrong with an argument, if this part begins one, and returns how many faults there
// are so far.
fn tell_part<'a>(
    alloc: Global,
    languages: &Languages,
    place: PatternPlace<'a>,
    part: &Part<'a>,
    parts: &[Part<'a>],
    before: u64,
    found: &mut Found<'a>,
) -> Result<u64, AllocError>
    ensures { IfOk result (λ count. TellsThose
        (HasPieceFindings (languages_view languages.now) (pattern_place_view place.entry) part.now.depth (piece_view part.now.piece) (parts_view parts.now))
        before found.old count found.new) }
{
    let Piece::Begin(kind, name, offset) = part.piece else {
        return Ok(before);
    };
    let argument = argument_at(alloc, name, offset.is_some(), part.depth, parts)?;
    tell_argument(
        alloc,
        languages,
        place,
        type_of_kind(kind),
        argument,
        before,
        found,
    )
}

// The type of the rules that choose a branch.
fn type_of_kind(kind: ArgumentKind) -> Option<PluralRuleType>
    ensures { result ≡ type_of_kind kind }
{
    match kind {
        ArgumentKind::Plural => Some(PluralRuleType::Cardinal),
        ArgumentKind::Ordinal => Some(PluralRuleType::Ordinal),
        ArgumentKind::Select => None,
    }
}

// Tells what is wrong with an argument, if it has rules of a type.
fn tell_argument<'a>(
    alloc: Global,
    languages: &Languages,
    place: PatternPlace<'a>,
    rule_type: Option<PluralRuleType>,
    argument: Argument<'a, '_>,
    before: u64,
    found: &mut Found<'a>,
) -> Result<u64, AllocError>
    ensures { IfOk result (λ count. TellsFindings before found.old count found.new
        (argument_findings (languages_view languages.now) (pattern_place_view place.entry) rule_type (plural_argument_view argument.entry))) }
{
    let Some(rule_type) = rule_type else {
        return Ok(before);
    };
    let place = ArgumentPlace {
        pattern: place,
        name: argument.name,
    };
    let language = languages.of(rule_type);
    tell_under(alloc, language, rule_type, place, argument, before, found)
}

// Tells what is wrong with an argument of a language, or that it isn't known.
fn tell_under<'a>(
    alloc: Global,
    language: Option<&Language>,
    rule_type: PluralRuleType,
    place: ArgumentPlace<'a>,
    argument: Argument<'a, '_>,
    before: u64,
    found: &mut Found<'a>,
) -> Result<u64, AllocError>
    ensures { IfOk result (λ count. TellsFindings before found.old count found.new
        (findings_under rule_type (argument_place_view place.entry) (language_lent language.entry) (plural_argument_view argument.entry))) }
{
    match language {
        Some(language) => tell_branches(alloc, language, place, argument, before, found),
        None => tell(
            Place::Argument(place),
            Cause::NoRules(rule_type),
            before,
            found,
        ),
    }
}

// Tells what is wrong with an argument of a language.
fn tell_branches<'a>(
    alloc: Global,
    language: &Language,
    place: ArgumentPlace<'a>,
    argument: Argument<'a, '_>,
    before: u64,
    found: &mut Found<'a>,
) -> Result<u64, AllocError>
    ensures { IfOk result (λ count. TellsFindings before found.old count found.new
        (language_findings (language_view language.now) (argument_place_view place.entry) (plural_argument_view argument.entry))) }
{
    let count = tell_missing(language, place, argument, before, found)?;
    tell_each_branch(alloc, language, place, argument, count, found)
}

// Tells the missing branches.
fn tell_missing<'a>(
    language: &Language,
    place: ArgumentPlace<'a>,
    argument: Argument<'a, '_>,
    before: u64,
    found: &mut Found<'a>,
) -> Result<u64, AllocError>
    ensures { IfOk result (λ count. TellsFindings before found.old count found.new
        (missing_findings (language_view language.now) (argument_place_view place.entry) (plural_argument_view argument.entry) category_order)) }
{
    let mut count = before;
    let mut left: &[PluralCategory] = &CATEGORY_ORDER;
    while let [category, rest @ ..] = left {
        let fault = missing_fault(language, argument, *category);
        let keyword = Selector::Keyword(category.as_str().as_bytes());
        count = tell_branch(place, keyword, fault, count, found)?;
        left = rest;
    }
    Ok(count)
}

// Tells what is wrong with each branch.
fn tell_each_branch<'a>(
    alloc: Global,
    language: &Language,
    place: ArgumentPlace<'a>,
    argument: Argument<'a, '_>,
    before: u64,
    found: &mut Found<'a>,
) -> Result<u64, AllocError>
    ensures { IfOk result (λ count. TellsFindings before found.old count found.new
        (branch_findings (language_view language.now) (argument_place_view place.entry) (plural_argument_view argument.entry) []
        (plural_argument_view argument.entry).branches)) }
{
    let mut seen = Vec::new(alloc);
    let mut count = before;
    let mut left = argument.parts;
    while let [part, rest @ ..] = left {
        left = rest;
        if part.depth > argument.depth {
            continue;
        }
        let Piece::Branch(selector) = part.piece else {
            return Ok(count);
        };
        let fault = branch_fault(language, argument, seen.as_slice(), selector, rest);
        count = tell_branch(place, selector, fault, count, found)?;
        remember(selector, &mut seen)?;
    }
    Ok(count)
}

// Remembers a selector, unless there are many.
fn remember<'p>(selector: Selector<'p>, seen: &mut Vec<Selector<'p>>) -> Result<(), AllocError>
    ensures { OnOk result (map selector_view seen.new.items ≡ remembered (map selector_view seen.old.items) (selector_view selector.entry)) }
{
    if seen.len() < MOST_COMPARED {
        seen.push(selector)?;
    }
    Ok(())
}

// Tells the fault of a branch, if it has one.
fn tell_branch<'a>(
    place: ArgumentPlace<'a>,
    selector: Selector<'a>,
    fault: Option<BranchFault>,
    before: u64,
    found: &mut Found<'a>,
) -> Result<u64, AllocError>
    ensures { IfOk result (λ count. TellsFindings before found.old count found.new
        (findings_at (argument_place_view place.entry) (selector_view selector.entry) fault)) }
{
    match fault {
        Some(fault) => tell(
            Place::Branch(place, selector),
            Cause::Branch(fault),
            before,
            found,
        ),
        None => Ok(before),
    }
}

// Tells a fault or a note: by a finding if at most nine come before it. Returns how many are told, and
// faults among the others.
fn tell<'a>(
    place: Place<'a>,
    cause: Cause,
    before: u64,
    found: &mut Found<'a>,
) -> Result<u64, AllocError>
    ensures { IfOk result (λ count. TellsFindings before found.old count found.new (message_finding_at (place_view place.entry) cause ∷ [])) }
{
    if before < MOST_TOLD {
        found.add(place, cause)?;
        return sum(before, 1);
    }
    let severity = cause.severity();
    found.count(severity)?;
    sum(before, faults_of(severity))
}

// How many faults are of a severity: one or none.
fn faults_of(severity: Severity) -> u64
    ensures { result ≡ faults_of_severity severity }
{
    match severity {
        Severity::Error => 1,
        Severity::Note => 0,
    }
}
