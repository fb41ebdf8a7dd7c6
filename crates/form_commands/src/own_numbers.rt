//! Findings of branches, told by the numbers that have no branch of their own.

use crate::excused::text_of;
use fixed_decimal::CompactDecimal;
use icu_plurals::{PluralCategory, PluralRuleType, PluralRules};
use message_format::has_branch_of_value;
use message_pattern::{ArgumentKind, Part, PatternError, Piece, StyledPattern};
use message_report::{ArgumentPlace, BranchFault, Cause, Finding, Place, RulesOfLocales};
use number_categories::{TwoNumbers, least_from};
use serde_json::Value;
use std::alloc::{AllocError, Global};

// The most numbers of a category that are looked at.
const MOST_NUMBERS: usize = 64;

// A category whose branch is missing, or doesn't say the number, and the numbers told of it.
#[derive(Clone, Copy)]
struct Asked<'a> {
    place: ArgumentPlace<'a>,
    category: PluralCategory,
    first: u16,
    second: Option<u16>,
}

// A finding by numbers that have no branch of their own, as `=2`; none, if none of its category is
// left, or one alone in a branch that doesn't say it.
pub(crate) fn with_left_numbers<'a, S: RulesOfLocales>(
    alloc: Global,
    source: &S,
    document: &Value,
    finding: &Finding<'a>,
) -> Result<Option<Finding<'a>>, AllocError> {
    let Some(asked) = asked_by(finding) else {
        return Ok(Some(*finding));
    };
    let Some(text) = text_of(document, &asked.place.pattern) else {
        return Ok(Some(*finding));
    };
    match StyledPattern::parse(alloc, text.as_bytes()) {
        Ok(styled) => {
            let pattern = styled.into_pattern();
            let left = left_in(alloc, source, pattern.parts(), &asked);
            drop(pattern);
            match left {
                Ok(left) => Ok(told_by(finding, left)),
                Err(error) => Err(error),
            }
        }
        Err(PatternError::Memory) => Err(AllocError),
        Err(PatternError::Fault(..)) => Ok(Some(*finding)),
    }
}

// What a finding tells of the numbers of a branch, if it does.
fn asked_by<'a>(finding: &Finding<'a>) -> Option<Asked<'a>> {
    let Place::Branch(place, _) = finding.place else {
        return None;
    };
    let (category, first, second) = match finding.cause {
        Cause::Branch(BranchFault::Missing(category, first, second)) => (category, first, second),
        Cause::Branch(BranchFault::NoHash(category, first, second)) => {
            (category, first, Some(second))
        }
        _ => return None,
    };
    Some(Asked {
        place,
        category,
        first,
        second,
    })
}

// A finding by these numbers.
fn told_by<'a>(finding: &Finding<'a>, left: TwoNumbers) -> Option<Finding<'a>> {
    let fault = match finding.cause {
        Cause::Branch(BranchFault::Missing(category, _, _)) => {
            BranchFault::Missing(category, left.first?, left.second)
        }
        Cause::Branch(BranchFault::NoHash(category, _, _)) => {
            BranchFault::NoHash(category, left.first?, left.second?)
        }
        _ => return Some(*finding),
    };
    Some(Finding {
        place: finding.place,
        cause: Cause::Branch(fault),
    })
}

// The two least numbers of a category without a branch of their own in each plural of the name.
fn left_in<S: RulesOfLocales>(
    alloc: Global,
    source: &S,
    parts: &[Part<'_>],
    asked: &Asked<'_>,
) -> Result<TwoNumbers, AllocError> {
    let given = TwoNumbers {
        first: Some(asked.first),
        second: asked.second,
    };
    let second = asked.second.unwrap_or(asked.first);
    let has_first = has_branch_in(alloc, parts, asked.place.name, asked.first)?;
    if !has_first && !has_branch_in(alloc, parts, asked.place.name, second)? {
        return Ok(given);
    }
    let Some(rule_type) = type_in(parts, asked.place.name) else {
        return Ok(given);
    };
    match source.rules_of(rule_type, asked.place.pattern.locale.locale) {
        Some(data) => {
            let rules = PluralRules::from_data(data);
            let left = left_by(alloc, &rules, parts, asked);
            drop(rules);
            left
        }
        None => Ok(given),
    }
}

// The same by the rules of a language.
fn left_by(
    alloc: Global,
    rules: &PluralRules<'_>,
    parts: &[Part<'_>],
    asked: &Asked<'_>,
) -> Result<TwoNumbers, AllocError> {
    let mut left = TwoNumbers {
        first: None,
        second: None,
    };
    let mut start = asked.first;
    for _ in 0..MOST_NUMBERS {
        let Some(number) = least_from(rules, asked.category, start) else {
            break;
        };
        if !has_branch_in(alloc, parts, asked.place.name, number)? {
            if left.first.is_some() {
                left.second = Some(number);
                break;
            }
            left.first = Some(number);
        }
        start = number.saturating_add(1);
    }
    Ok(left)
}

// The type of the rules of the plurals of a name, if it is one.
fn type_in(parts: &[Part<'_>], name: &[u8]) -> Option<PluralRuleType> {
    let mut found: Option<PluralRuleType> = None;
    for part in parts {
        let rule_type = match part.piece {
            Piece::Begin(ArgumentKind::Plural, other, _) if other == name => {
                PluralRuleType::Cardinal
            }
            Piece::Begin(ArgumentKind::Ordinal, other, _) if other == name => {
                PluralRuleType::Ordinal
            }
            _ => continue,
        };
        if found.is_some() && found != Some(rule_type) {
            return None;
        }
        found = Some(rule_type);
    }
    found
}

// Whether each plural of a name among parts has a branch of a number.
fn has_branch_in(
    alloc: Global,
    parts: &[Part<'_>],
    name: &[u8],
    number: u16,
) -> Result<bool, AllocError> {
    let text = number.to_string(alloc)?;
    match CompactDecimal::from_str(alloc, text.as_str()) {
        Ok(number) => have_branch(alloc, parts, name, &number),
        // A number's digits are one, so memory ran out.
        Err(_) => Err(AllocError),
    }
}

// Whether each plural of a name among parts, without an offset, has a branch of a number.
fn have_branch(
    alloc: Global,
    parts: &[Part<'_>],
    name: &[u8],
    number: &CompactDecimal,
) -> Result<bool, AllocError> {
    let mut has_all = false;
    for (index, part) in parts.iter().enumerate() {
        let Piece::Begin(kind, other, offset) = part.piece else {
            continue;
        };
        if kind == ArgumentKind::Select || other != name {
            continue;
        }
        let behind = parts.get(index.saturating_add(1)..).unwrap_or(&[]);
        if offset.is_some() || !has_branch_of_value(alloc, number, part.depth, behind)? {
            return Ok(false);
        }
        has_all = true;
    }
    Ok(has_all)
}
