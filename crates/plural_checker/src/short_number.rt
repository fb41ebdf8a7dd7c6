//! Checks short numbers by their operands: those of ranges without a text, and other samples
//! without a copy of theirs.

ghost use Rattle.std.specs.Prelude.{◌≡◌, ◌+◌, ◌-◌, ◌/◌, ◌^◌, ◌≤◌, ◌<◌, ℕ, List, IfSome, Some};
ghost use Rattle.std.specs.Bool.{OnTrue};
ghost use Rattle.std.specs.Int.{◌∣◌};
ghost use Rattle.std.specs.Option.{option_copied};
ghost use Rattle.plural_checker.specs.Inner.ShortNumbers.{IsVerdictOn, IsVerdictOnRange, WritesShortNumber};
ghost use Rattle.plural_checker.specs.SampleNumbers.{number_at, number_text, text_with_c};

use crate::reading::{MOST_DIGITS, split_at_e};
use crate::sample_range::{SampleNumbers, Steps};
use icu_plurals::provider::rules::reference::ast::{DecimalValue, Operand, SampleRange};
use icu_plurals::{AskedRules, DecimalError, PluralCategory, PluralOperands, RawPluralOperands};
use number_categories::{NumberFault, category_fault};
use plural_base::laws::kept_choice_is_exact;
use std::alloc::Global;

// A text of at most this many bytes is read without memory.
const MOST_BYTES: usize = 16;

// The least number of more than 18 digits.
const LONG: u64 = 1_000_000_000_000_000_000;

// What is known of a number under a category, whose text isn't needed for it if it is short.
#[derive(Drop)]
pub(crate) enum Verdict {
    // The number has no fault.
    Right,
    // The number has this fault.
    Wrong(NumberFault),
    // The number isn't short.
    Unknown,
}

impl Verdict {
    // Whether the number is known to have no fault.
    pub(crate) fn is_right(&self) -> bool
        ensures { OnTrue result (self.now ≡ Verdict.Right) }
    {
        match self {
            Verdict::Right => true,
            _ => false,
        }
    }
}

// The verdict on a sample; unknown on a range.
pub(crate) fn verdict_on_single(
    alloc: Global,
    rules: Option<&AskedRules<'_>>,
    category: PluralCategory,
    range: &SampleRange,
) -> Verdict
    ensures { IsVerdictOnRange (option_copied rules.entry) category range.now result }
{
    match &range.upper_val {
        Some(_) => Verdict::Unknown,
        None => verdict_on_sample(alloc, rules, category, &range.lower_val),
    }
}

// The verdict on the text of a sample. One with an exponent isn't short.
fn verdict_on_sample(
    alloc: Global,
    rules: Option<&AskedRules<'_>>,
    category: PluralCategory,
    sample: &DecimalValue,
) -> Verdict
    ensures { IsVerdictOn (option_copied rules.entry) category (text_with_c sample.now) result }
{
    match split_at_e(sample) {
        Some(_) => Verdict::Unknown,
        None => verdict_on_text(alloc, rules, category, sample.0.as_str()),
    }
}

// The verdict on a text of at most 16 bytes, which is read without memory; unknown on others.
fn verdict_on_text(
    alloc: Global,
    rules: Option<&AskedRules<'_>>,
    category: PluralCategory,
    text: &str,
) -> Verdict
    ensures { IsVerdictOn (option_copied rules.entry) category text.now result }
{
    if text.len() > MOST_BYTES {
        return Verdict::Unknown;
    }
    match PluralOperands::from_compact_text(alloc, text) {
        Ok(operands) => match without_exponent(operands) {
            Some(operands) => verdict_by(rules, category, operands),
            None => Verdict::Unknown,
        },
        Err(DecimalError::Syntax) => Verdict::Wrong(NumberFault::Text(DecimalError::Syntax)),
        Err(_) => Verdict::Unknown,
    }
}

// Operands without an exponent.
fn without_exponent(operands: PluralOperands) -> Option<PluralOperands>
    ensures { IfSome result (λ same. (same ≡ operands) × (operands.c ≡ 0)) }
{
    if operands.value(Operand::C) == Some(0) {
        Some(operands)
    } else {
        None
    }
}

// The verdict on a number of a range.
pub(crate) fn verdict_at(
    rules: Option<&AskedRules<'_>>,
    category: PluralCategory,
    numbers: &SampleNumbers,
    index: u64,
) -> Verdict
    ensures { IsVerdictOn (option_copied rules.entry) category (number_at numbers.now index) result }
{
    match numbers {
        SampleNumbers::Single(_) => Verdict::Unknown,
        SampleNumbers::Stepped(steps) => verdict_on_step(rules, category, steps, index),
    }
}

// The verdict on a number of steps.
fn verdict_on_step(
    rules: Option<&AskedRules<'_>>,
    category: PluralCategory,
    steps: &Steps,
    index: u64,
) -> Verdict
    ensures { let text = number_text steps.now.places (steps.now.first + index) steps.now.exponent in
        IsVerdictOn (option_copied rules.entry) category text result }
{
    match operands_at(steps, index) {
        Some(operands) => verdict_by(rules, category, operands),
        None => Verdict::Unknown,
    }
}

// The verdict on every short number of these operands: without rules no number is wrong.
fn verdict_by(
    rules: Option<&AskedRules<'_>>,
    category: PluralCategory,
    operands: PluralOperands,
) -> Verdict
    ensures { (text : List ℕ) → WritesShortNumber text operands → IsVerdictOn (option_copied rules.entry) category text result }
{
    match rules {
        Some(rules) => verdict_under(rules, category, operands),
        None => Verdict::Right,
    }
}

// The same under these rules.
fn verdict_under(
    rules: &AskedRules<'_>,
    category: PluralCategory,
    operands: PluralOperands,
) -> Verdict
    ensures { (text : List ℕ) → WritesShortNumber text operands → IsVerdictOn (Some rules.now) category text result }
{
    kept_choice_is_exact();
    match category_fault(rules, category, operands) {
        Some(fault) => Verdict::Wrong(fault),
        None => Verdict::Right,
    }
}

// The operands of a number of steps, if it has at most 18 digits and no exponent.
fn operands_at(steps: &Steps, index: u64) -> Option<PluralOperands>
    ensures { let text = number_text steps.now.places (steps.now.first + index) steps.now.exponent in
        IfSome result (λ operands. WritesShortNumber text operands) }
{
    if steps.exponent != 0 || steps.places > MOST_DIGITS {
        return None;
    }
    let parts = steps.first.checked_add(index)?;
    if parts >= LONG {
        return None;
    }
    Some(operands_of(steps.places, parts))
}

// The operands of `parts / 10^places`.
fn operands_of(places: usize, parts: u64) -> PluralOperands
    requires places { places ≤ 18 }
    requires parts { parts < 10 ^ 18 }
    ensures { WritesShortNumber (number_text places parts 0) result }
{
    let unit = 10_u64.pow(places as u32);
    let written = parts % unit;
    let (w, t) = without_zeros(places, written);
    PluralOperands::from(RawPluralOperands {
        i: parts / unit,
        v: places,
        w,
        f: written,
        t,
        c: 0,
    })
}

// How many of the digits that are shown are left without the zeros at their end, and what these
// write.
fn without_zeros(shown: usize, written: u64) -> (usize, u64)
    ensures divides { 10 ^ (shown - result.0) ∣ written }
    ensures least { (k : ℕ) → 10 ^ (shown - k) ∣ written → result.0 ≤ k }
    ensures number { result.1 ≡ written / 10 ^ (shown - result.0) }
{
    if written == 0 {
        return (0, 0);
    }
    let mut left = shown;
    let mut rest = written;
    while left > 0 && rest % 10 == 0 {
        left -= 1;
        rest /= 10;
    }
    (left, rest)
}
