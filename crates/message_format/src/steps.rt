//! What an argument chooses.

ghost use Rattle.std.specs.Prelude.{◌≡◌, ◌≢◌, Err, None};
ghost use Rattle.fixed_decimal.specs.Written.{CompactNumber, WritesCompact};
ghost use Rattle.message_pattern.specs.PatternParts.{offset_view};
ghost use Rattle.message_format.specs.FormatBranches.{Equals};
ghost use Rattle.message_format.specs.FormatParts.{branches_at, AreLeftOf, IsFirstChosen};
ghost use Rattle.message_format.specs.FormatSteps.{both, shown_value, selected, IsCounted, IsPlural, IsChoice};
ghost use Rattle.message_format.specs.Inner.FormatViews.{any_value, GivesStep, GivesText, ChoosesWithin};

use crate::arguments::Value;
use crate::branches::branch_of_number;
use crate::error::{ArgumentFault, FormatError};
use crate::offsets::counted_less;
use crate::plain::Plain;
use crate::shown::Shown;
use crate::source::{Found, MessageParts};
use crate::text_rules::TextRules;
use fixed_decimal::CompactDecimal;
use fixed_decimal::laws::texts_write_one_number;
use message_pattern::ArgumentKind;
use plural_base::PluralRules;
use std::alloc::Global;

/// The rules of a language, for cardinal and for ordinal numbers.
#[derive(Clone, Copy, Debug)]
pub struct Rules<'r, 'data> {
    /// The rules of `plural`.
    pub cardinal: &'r PluralRules<'data>,
    /// The rules of `selectordinal`.
    pub ordinal: &'r PluralRules<'data>,
}

/// Returns the text that `{name}` prints. The error is that the argument is missing.
#[inline(always)]
pub fn shown_value<'s, 'p>(
    name: &'p [u8],
    value: Option<Value<'s>>,
) -> Result<&'s [u8], FormatError<'p>>
    ensures text { GivesText (λ step. step ≡ shown_value name.now (any_value value.entry)) result }
    ensures memory { result ≢ Err FormatError.Memory }
{
    match value {
        Some(Value::Number(number)) => Ok(number.as_bytes()),
        Some(Value::Text(text)) => Ok(text.as_bytes()),
        None => Err(FormatError::Argument(ArgumentFault::Missing, name)),
    }
}

// A select of a value.
#[inline(always)]
fn selected<'s, 'p, P: MessageParts<'p>>(
    hash: &'s [u8],
    name: &'p [u8],
    argument: P,
    value: Option<Value<'s>>,
) -> Result<(Shown<'s>, Found<P>), FormatError<'p>>
    ensures step { GivesStep P.parts (λ step. step ≡ selected hash.now name.now (branches_at (P.parts argument)) (any_value value.entry)) result }
    ensures within { ChoosesWithin P.parts (P.parts argument) result }
{
    match value {
        Some(Value::Text(text)) => {
            let found = argument.branch_of_word(text.as_bytes());
            Ok((Shown::Given(hash), found))
        }
        Some(Value::Number(_)) => Err(FormatError::Argument(ArgumentFault::WrongKind, name)),
        None => Err(FormatError::Argument(ArgumentFault::Missing, name)),
    }
}

// A plural without an offset, of the text of a number, by its digits.
#[inline(never)]
fn counted_by_digits<'s, 'p, R: TextRules, P: MessageParts<'p>>(
    alloc: Global,
    rules: &R,
    name: &'p [u8],
    argument: P,
    text: &'s str,
) -> Result<(Shown<'s>, Found<P>), FormatError<'p>>
    ensures step { GivesStep P.parts (λ step. IsCounted (R.rules rules.now) name.now (branches_at (P.parts argument)) text.now step) result }
    ensures within { ChoosesWithin P.parts (P.parts argument) result }
{
    match CompactDecimal::from_str(alloc, text) {
        Ok(number) => {
            let found = branch_of_number(alloc, rules, &number, &number, argument)?;
            Ok((Shown::Given(text.as_bytes()), found))
        }
        Err(error) => Err(FormatError::of_number(name, error)),
    }
}

// A plural without an offset, of the text of a number that no branch has the value of, by its
// category.
#[inline(always)]
fn counted_by_category<'s, 'p, R: TextRules, P: MessageParts<'p>>(
    alloc: Global,
    rules: &R,
    name: &'p [u8],
    argument: P,
    left: P,
    text: &'s str,
) -> Result<(Shown<'s>, Found<P>), FormatError<'p>>
    requires none { (x : CompactNumber) → WritesCompact text.now x → IsFirstChosen (λ s. Equals x s) (branches_at (P.parts argument)) None }
    requires left { AreLeftOf (P.parts argument) (P.parts left) }
    ensures step { GivesStep P.parts (λ step. IsCounted (R.rules rules.now) name.now (branches_at (P.parts argument)) text.now step) result }
    ensures within { ChoosesWithin P.parts (P.parts argument) result }
{
    let category = match rules.category_for_text(alloc, text) {
        Ok(category) => category,
        Err(error) => return Err(FormatError::of_number(name, error)),
    };
    let branch = argument.branch_of_category(category);
    Ok((Shown::Given(text.as_bytes()), Found { branch, left }))
}

// A plural without an offset, of the text of a number.
#[inline(always)]
fn counted<'s, 'p, R: TextRules, P: MessageParts<'p>>(
    alloc: Global,
    rules: &R,
    name: &'p [u8],
    argument: P,
    text: &'s str,
) -> Result<(Shown<'s>, Found<P>), FormatError<'p>>
    ensures step { GivesStep P.parts (λ step. IsCounted (R.rules rules.now) name.now (branches_at (P.parts argument)) text.now step) result }
    ensures within { ChoosesWithin P.parts (P.parts argument) result }
{
    // A text writes one number at most.
    texts_write_one_number();
    let written = text.as_bytes();
    let Some(plain) = Plain::of(written) else {
        return counted_by_digits(alloc, rules, name, argument, text);
    };
    match argument.first_chosen(&plain) {
        Ok(seen) => match seen.branch {
            Some(branch) => {
                let left = seen.left;
                Ok((Shown::Given(written), Found { branch, left }))
            }
            None => counted_by_category(alloc, rules, name, argument, seen.left, text),
        },
        Err(_) => counted_by_digits(alloc, rules, name, argument, text),
    }
}

// A plural of a value.
#[inline(always)]
fn plural<'s, 'p, R: TextRules, P: MessageParts<'p>>(
    alloc: Global,
    rules: &R,
    name: &'p [u8],
    offset: Option<&'p [u8]>,
    argument: P,
    value: Option<Value<'s>>,
) -> Result<(Shown<'s>, Found<P>), FormatError<'p>>
    ensures step { GivesStep P.parts
        (λ step. IsPlural (R.rules rules.now) name.now (offset_view offset.entry) (branches_at (P.parts argument)) (any_value value.entry) step) result }
    ensures within { ChoosesWithin P.parts (P.parts argument) result }
{
    match value {
        Some(Value::Number(text)) => match offset {
            None => counted(alloc, rules, name, argument, text),
            Some(digits) => counted_less(alloc, rules, name, digits, argument, text),
        },
        Some(Value::Text(_)) => Err(FormatError::Argument(ArgumentFault::WrongKind, name)),
        None => Err(FormatError::Argument(ArgumentFault::Missing, name)),
    }
}

// What an argument chooses.
#[inline(always)]
pub(crate) fn chosen<'s, 'p, R: TextRules, P: MessageParts<'p>>(
    alloc: Global,
    cardinal: &R,
    ordinal: &R,
    hash: &'s [u8],
    kind: ArgumentKind,
    name: &'p [u8],
    offset: Option<&'p [u8]>,
    argument: P,
    value: Option<Value<'s>>,
) -> Result<(Shown<'s>, Found<P>), FormatError<'p>>
    ensures step { GivesStep P.parts (λ step. IsChoice (both (R.rules cardinal.now) (R.rules ordinal.now)) hash.now kind name.now
        (offset_view offset.entry) (branches_at (P.parts argument)) (any_value value.entry) step) result }
    ensures within { ChoosesWithin P.parts (P.parts argument) result }
{
    match kind {
        ArgumentKind::Plural => plural(alloc, cardinal, name, offset, argument, value),
        ArgumentKind::Ordinal => plural(alloc, ordinal, name, offset, argument, value),
        ArgumentKind::Select => selected(hash, name, argument, value),
    }
}
