//! What is wrong with the branches of a plural argument.

ghost use Rattle.std.specs.Prelude.{◌≡◌, Some, map};
ghost use Rattle.message_pattern.specs.PatternParts.{parts_view, selector_view};
ghost use Rattle.message_report.specs.Inner.ArgumentViews.{plural_argument_view};
ghost use Rattle.message_report.specs.Inner.LanguageViews.{language_view};
ghost use Rattle.message_report.specs.PatternBranches.{inside_of};
ghost use Rattle.message_report.specs.PatternFaults.{branch_fault, branch_fault_text, category_fault, category_fault_if, category_named};
ghost use Rattle.message_report.specs.PatternFaults.{missing_by, missing_fault, no_hash, numbers_of_branch, rare_by, selector_fault};
ghost use Rattle.message_report.specs.Inner.ArgumentViews.{branching};

use crate::argument::{has_number, stands_in};
use crate::fault::{write_missing, write_rare};
use crate::language::Language;
use crate::plural_argument::Argument;
use crate::rare_samples::TwoSamples;
use icu_plurals::PluralCategory;
use message_pattern::{Part, Selector};
use number_categories::TwoNumbers;
use plural_checker::Sample;
use std::fmt;

/// What is wrong with a branch of a plural argument.
#[derive(Clone, Copy, Debug, PartialEq, Eq)]
pub enum BranchFault {
    /// Its keyword is no category.
    NoCategory,
    /// Its selector stands before it, too.
    Twice,
    /// The language hasn't its category: no number chooses it.
    Unused(PluralCategory),
    /// It doesn't say the number, though these two choose it.
    NoHash(PluralCategory, u16, u16),
    /// There is none of the category. These are the two least numbers that would choose it, or one.
    Missing(PluralCategory, u16, Option<u16>),
    /// There is none of the category, which no whole number has. These are the first two samples of
    /// its rule that have it, as far as there are two.
    MissingRare(PluralCategory, Option<Sample>, Option<Sample>),
}

impl fmt::Display for BranchFault {
    ghost output = { λ fault. Some (branch_fault_text fault) };

    fn fmt<W: fmt::Write>(&self, f: &mut fmt::Formatter<W>) -> fmt::Result {
        match *self {
            BranchFault::NoCategory => f.write_str("not a category"),
            BranchFault::Twice => f.write_str("stands twice"),
            BranchFault::Unused(category) => write!(f, "no number is {category}"),
            BranchFault::NoHash(category, first, second) => {
                write!(f, "no #, but {first} and {second} are {category}")
            }
            BranchFault::Missing(category, first, second) => {
                write_missing(f, category, first, second)
            }
            BranchFault::MissingRare(category, first, second) => {
                write_rare(f, category, first, second)
            }
        }
    }
}

// The two least numbers that choose the branch of a category.
fn numbers_of(
    language: &Language,
    argument: Argument<'_, '_>,
    category: PluralCategory,
) -> TwoNumbers
    ensures { result ≡ numbers_of_branch (language_view language.now) (plural_argument_view argument.entry) category }
{
    language.numbers(category, argument.own_zero, argument.own_one)
}

// That a category has no branch, if numbers would choose it.
pub(crate) fn missing_fault(
    language: &Language,
    argument: Argument<'_, '_>,
    category: PluralCategory,
) -> Option<BranchFault>
    ensures { result ≡ missing_fault (language_view language.now) (plural_argument_view argument.entry) category }
{
    if argument.kinds.has(category) {
        return None;
    }
    if !language.has(category) {
        return None;
    }
    let least = language.numbers(category, false, false).first;
    missing_by(
        category,
        numbers_of(language, argument, category),
        least,
        language.samples(category),
    )
}

// That a category of these numbers has no branch, if numbers would choose it.
fn missing_by(
    category: PluralCategory,
    numbers: TwoNumbers,
    least: Option<u16>,
    samples: TwoSamples,
) -> Option<BranchFault>
    ensures { result ≡ missing_by category numbers.first numbers.second least samples }
{
    match numbers.first {
        Some(first) => Some(BranchFault::Missing(category, first, numbers.second)),
        None => rare_by(category, least, samples),
    }
}

// That a category of these samples has no branch, unless a whole number has it.
fn rare_by(category: PluralCategory, least: Option<u16>, samples: TwoSamples) -> Option<BranchFault>
    ensures { result ≡ rare_by category least samples }
{
    match least {
        Some(_) => None,
        None => Some(BranchFault::MissingRare(category, samples.first, samples.second)),
    }
}

// That a branch doesn't say the number, if two numbers choose it.
fn no_hash(category: PluralCategory, numbers: TwoNumbers) -> Option<BranchFault>
    ensures { result ≡ no_hash category numbers.first numbers.second }
{
    let first = numbers.first?;
    let second = numbers.second?;
    Some(BranchFault::NoHash(category, first, second))
}

// The fault of a category's branch, from whose parts on these are.
fn category_fault(
    language: &Language,
    argument: Argument<'_, '_>,
    parts: &[Part<'_>],
    category: PluralCategory,
) -> Option<BranchFault>
    ensures { result ≡ category_fault (language_view language.now) (plural_argument_view argument.entry)
        (inside_of argument.entry.depth (parts_view parts.now)) category }
{
    if !language.has(category) {
        return Some(BranchFault::Unused(category));
    }
    if argument.has_offset || has_number(argument.depth, argument.name, parts) {
        return None;
    }
    no_hash(category, numbers_of(language, argument, category))
}

// The category of a keyword.
fn category_named(word: &[u8]) -> Option<PluralCategory>
    ensures { result ≡ category_named word.now }
{
    PluralCategory::get_for_cldr_bytes(word)
}

// The fault of the branch of a category, or that its keyword is none.
fn category_fault_if(
    language: &Language,
    argument: Argument<'_, '_>,
    parts: &[Part<'_>],
    category: Option<PluralCategory>,
) -> Option<BranchFault>
    ensures { result ≡ category_fault_if (language_view language.now) (plural_argument_view argument.entry)
        (inside_of argument.entry.depth (parts_view parts.now)) category }
{
    match category {
        Some(category) => category_fault(language, argument, parts, category),
        None => Some(BranchFault::NoCategory),
    }
}

// The fault of a selector that stands once, from the parts of whose branch on these are.
fn selector_fault(
    language: &Language,
    argument: Argument<'_, '_>,
    selector: Selector<'_>,
    parts: &[Part<'_>],
) -> Option<BranchFault>
    ensures { result ≡ selector_fault (language_view language.now) (plural_argument_view argument.entry)
        (selector_view selector.entry) (inside_of argument.entry.depth (parts_view parts.now)) }
{
    match selector {
        Selector::Exactly(_) => None,
        Selector::Keyword(word) => {
            category_fault_if(language, argument, parts, category_named(word))
        }
    }
}

// The fault of a branch behind these selectors, from whose parts on these are.
pub(crate) fn branch_fault(
    language: &Language,
    argument: Argument<'_, '_>,
    before: &[Selector<'_>],
    selector: Selector<'_>,
    parts: &[Part<'_>],
) -> Option<BranchFault>
    ensures { result ≡ branch_fault (language_view language.now) (plural_argument_view argument.entry)
        (map selector_view before.now) (branching selector.entry parts.now) }
{
    if stands_in(selector, before) {
        return Some(BranchFault::Twice);
    }
    selector_fault(language, argument, selector, parts)
}
