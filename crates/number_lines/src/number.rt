//! The categories of numbers.

ghost use Rattle.std.specs.Prelude.{◌≡◌, IfOk, OnOk};
ghost use Rattle.number_lines.specs.Inner.LineSteps.{AddsPrinted};
ghost use Rattle.number_lines.specs.NumberAnswers.{command_words_view, AreNumberAnswers, IsAnswerAt, IsCategoryOf, IsShortCategoryOf, answer_text, next_place};
ghost use Rattle.number_lines.specs.PrintedTexts.{both_printed};

use crate::printed::{NumberFault, Place, Printed};
use icu_plurals::{AskedRules, DecimalError, PluralCategory, PluralRules};
use std::alloc::{AllocError, Global};
use std::str;

// The most bytes of a number within the limits.
pub(crate) const MOST_NUMBER_BYTES: usize = 65_540;

/// Returns a line for each of these numbers: the category that the rules choose for it, or why it has
/// none.
///
/// It allocates.
pub fn numbers_text(
    alloc: Global,
    rules: &PluralRules<'_>,
    numbers: &[&str],
) -> Result<Printed, AllocError>
    ensures { IfOk result (λ printed. AreNumberAnswers rules.now (command_words_view numbers.now) printed) }
{
    let mut asked = AskedRules::of(rules.as_borrowed());
    asked.prepare(numbers.len() as u64);
    let printed = numbers_by(alloc, &asked, numbers);
    drop(asked);
    printed
}

// The lines of numbers by these rules.
fn numbers_by(
    alloc: Global,
    rules: &AskedRules<'_>,
    numbers: &[&str],
) -> Result<Printed, AllocError>
    ensures { IfOk result (λ printed. AreNumberAnswers rules.now (command_words_view numbers.now) printed) }
{
    let mut printed = Printed::new(alloc);
    let mut place = 1;
    let mut rest = numbers;
    while let [number, after @ ..] = rest {
        push_answer(
            alloc,
            rules,
            Place::Number(place),
            number.as_bytes(),
            &mut printed,
        )?;
        place = next_place(place);
        rest = after;
    }
    Ok(printed)
}

// The place after a place.
#[inline]
pub(crate) fn next_place(place: u64) -> u64
    ensures { result ≡ next_place place }
{
    if place < u64::MAX { place + 1 } else { place }
}

// Appends the line of a number.
pub(crate) fn push_answer(
    alloc: Global,
    rules: &AskedRules<'_>,
    place: Place,
    number: &[u8],
    printed: &mut Printed,
) -> Result<(), AllocError>
    ensures { OnOk result (AddsPrinted (IsAnswerAt rules.now place number.now) printed.old printed.new) }
{
    let answer = category_of(alloc, rules, number)?;
    push_line(alloc, place, answer, printed)
}

// Appends the line of an answer.
#[inline]
fn push_line(
    alloc: Global,
    place: Place,
    answer: Result<PluralCategory, NumberFault>,
    printed: &mut Printed,
) -> Result<(), AllocError>
    ensures { OnOk result (printed.new ≡ both_printed printed.old (answer_text place answer)) }
{
    match answer {
        Ok(category) => printed.push_category(category),
        Err(fault) => printed.push_fault(alloc, place, fault),
    }
}

// The category of a number, or why it has none.
fn category_of(
    alloc: Global,
    rules: &AskedRules<'_>,
    number: &[u8],
) -> Result<Result<PluralCategory, NumberFault>, AllocError>
    ensures { IfOk result (λ answer. IsCategoryOf rules.now number.now answer) }
{
    if number.len() > MOST_NUMBER_BYTES {
        return Ok(Err(NumberFault::TooLong));
    }
    match str::from_utf8(number) {
        Ok(text) => category_of_short_text(alloc, rules, text),
        Err(_) => Ok(Err(NumberFault::NotText)),
    }
}

// The category of a number as a text that isn't too long, or why it has none.
#[inline]
fn category_of_short_text(
    alloc: Global,
    rules: &AskedRules<'_>,
    text: &str,
) -> Result<Result<PluralCategory, NumberFault>, AllocError>
    ensures { IfOk result (λ answer. IsShortCategoryOf rules.now text.now answer) }
{
    match rules.category_for_text(alloc, text) {
        Ok(category) => Ok(Ok(category)),
        Err(DecimalError::Syntax) => Ok(Err(NumberFault::Syntax)),
        Err(DecimalError::Limit) => Ok(Err(NumberFault::Limit)),
        Err(DecimalError::Memory) => Err(AllocError),
    }
}
