//! What a packed pattern says.

ghost use Rattle.std.specs.Prelude.{[], ℕ, List};
ghost use Rattle.message_format.specs.FormatArguments.{named_values_view};
ghost use Rattle.message_format.specs.FormatMeaning.{SaysExactly};
ghost use Rattle.message_format.specs.FormatSteps.{both};
ghost use Rattle.message_format.specs.Inner.FormatViews.{GivesOutcome, outcome_of, two_rules};
ghost use Rattle.packed_format.specs.Inner.FoundNames.{placed_arguments};

use crate::by_place::PlacedValues;
use crate::saying::say_from;
use arrayvec::ArrayVec;
use message_format::laws::one_outcome;
use message_format::{Argument, Arguments, FormatError, Rules, Sink, TextLength, TextRules};
use packed_pattern::PackedPattern;
use plural_base::PreparedRules;
use std::alloc::Global;

// How many bytes a text has at most that is said once, and then copied.
const SHORT: usize = 240;

/// Says a packed pattern with its arguments, under the rules of a language, behind what was said
/// before. It reads the block in place: the parts of a branch that isn't chosen aren't read. It
/// allocates the digits of long numbers and the texts of differences.
///
/// The errors are those of [`format`](message_format::format), or `Memory` if the sink is full. What
/// the sink holds after an error is left open.
pub fn say_packed<'a, W: Sink>(
    alloc: Global,
    pattern: &PackedPattern<'a>,
    arguments: &[Argument<'_>],
    rules: &Rules<'_, '_>,
    said: &mut W,
) -> Result<(), FormatError<'a>>
    ensures { (before : List ℕ) → W.IsSaid said.old before
        → GivesOutcome (λ f. f) (named_values_view arguments.now) (two_rules rules.now) [] pattern.now before (W.IsSaid said.new) result }
{
    say_by(
        alloc,
        pattern,
        &arguments,
        rules.cardinal,
        rules.ordinal,
        said,
    )
}

/// Says a packed pattern as [`say_packed`] does, under prepared rules.
pub fn say_prepared<'a, 'r, W: Sink>(
    alloc: Global,
    pattern: &PackedPattern<'a>,
    arguments: &[Argument<'_>],
    cardinal: &PreparedRules<'r>,
    ordinal: &PreparedRules<'r>,
    said: &mut W,
) -> Result<(), FormatError<'a>>
    ensures { (before : List ℕ) → W.IsSaid said.old before
        → GivesOutcome (λ f. f) (named_values_view arguments.now) (both cardinal.now ordinal.now) [] pattern.now before (W.IsSaid said.new) result }
{
    say_by(alloc, pattern, &arguments, cardinal, ordinal, said)
}

/// Returns what a packed pattern says with its arguments, as [`format`](message_format::format) does
/// of the pattern that it was packed from, with its errors. The text is allocated once, at its
/// length; beside that what [`say_packed`] allocates.
pub fn format_packed<'a>(
    alloc: Global,
    pattern: &PackedPattern<'a>,
    arguments: &[Argument<'_>],
    rules: &Rules<'_, '_>,
) -> Result<Vec<u8>, FormatError<'a>>
    ensures { SaysExactly (named_values_view arguments.now) (two_rules rules.now) pattern.now (outcome_of result) }
{
    format_by(alloc, pattern, &arguments, rules.cardinal, rules.ordinal)
}

/// Returns what a packed pattern says as [`format_packed`] does, under prepared rules.
pub fn format_prepared<'a, 'r>(
    alloc: Global,
    pattern: &PackedPattern<'a>,
    arguments: &[Argument<'_>],
    cardinal: &PreparedRules<'r>,
    ordinal: &PreparedRules<'r>,
) -> Result<Vec<u8>, FormatError<'a>>
    ensures { SaysExactly (named_values_view arguments.now) (both cardinal.now ordinal.now) pattern.now (outcome_of result) }
{
    format_by(alloc, pattern, &arguments, cardinal, ordinal)
}

/// Says a packed pattern as [`say_prepared`] does, with arguments by the places of their names.
pub fn say_by_place<'a, 'r, W: Sink>(
    alloc: Global,
    pattern: &PackedPattern<'a>,
    placed: PlacedValues<'_>,
    cardinal: &PreparedRules<'r>,
    ordinal: &PreparedRules<'r>,
    said: &mut W,
) -> Result<(), FormatError<'a>>
    ensures { (before : List ℕ) → W.IsSaid said.old before
        → GivesOutcome (λ f. f) (placed_arguments placed.entry) (both cardinal.now ordinal.now) [] pattern.now before (W.IsSaid said.new) result }
{
    say_by(alloc, pattern, &placed, cardinal, ordinal, said)
}

/// Returns what a packed pattern says as [`format_prepared`] does, with arguments by the places of
/// their names: what it says with the arguments that have these names and values.
pub fn format_by_place<'a, 'r>(
    alloc: Global,
    pattern: &PackedPattern<'a>,
    placed: PlacedValues<'_>,
    cardinal: &PreparedRules<'r>,
    ordinal: &PreparedRules<'r>,
) -> Result<Vec<u8>, FormatError<'a>>
    ensures { SaysExactly (placed_arguments placed.entry) (both cardinal.now ordinal.now) pattern.now (outcome_of result) }
{
    format_by(alloc, pattern, &placed, cardinal, ordinal)
}

// Says a packed pattern under rules of either form.
#[inline(always)]
fn say_by<'a, R: TextRules, A: Arguments, W: Sink>(
    alloc: Global,
    pattern: &PackedPattern<'a>,
    arguments: &A,
    cardinal: &R,
    ordinal: &R,
    said: &mut W,
) -> Result<(), FormatError<'a>>
    ensures { (before : List ℕ) → W.IsSaid said.old before
        → GivesOutcome (λ f. f) (A.arguments arguments.now) (both (R.rules cardinal.now) (R.rules ordinal.now)) [] pattern.now before
        (W.IsSaid said.new) result }
{
    // A block has at most 65535 parts, in their order.
    let _ = pattern.as_bytes();
    say_from(alloc, arguments, cardinal, ordinal, b"", pattern, 0, said)
}

// What a packed pattern says under rules of either form.
#[inline(always)]
fn format_by<'a, R: TextRules, A: Arguments>(
    alloc: Global,
    pattern: &PackedPattern<'a>,
    arguments: &A,
    cardinal: &R,
    ordinal: &R,
) -> Result<Vec<u8>, FormatError<'a>>
    ensures { SaysExactly (A.arguments arguments.now) (both (R.rules cardinal.now) (R.rules ordinal.now)) pattern.now (outcome_of result) }
{
    one_outcome();
    let mut short = ArrayVec::<u8, SHORT>::new();
    match say_by(alloc, pattern, arguments, cardinal, ordinal, &mut short) {
        Ok(()) => {
            let mut said = Vec::with_capacity(alloc, short.len())?;
            said.extend_from_slice(short.as_slice())?;
            Ok(said)
        }
        Err(FormatError::Memory) => format_long(alloc, pattern, arguments, cardinal, ordinal),
        Err(fault) => Err(fault),
    }
}

// The same of a text that may be long: it is said twice, the first time to count its bytes.
#[inline(never)]
fn format_long<'a, R: TextRules, A: Arguments>(
    alloc: Global,
    pattern: &PackedPattern<'a>,
    arguments: &A,
    cardinal: &R,
    ordinal: &R,
) -> Result<Vec<u8>, FormatError<'a>>
    ensures { SaysExactly (A.arguments arguments.now) (both (R.rules cardinal.now) (R.rules ordinal.now)) pattern.now (outcome_of result) }
{
    one_outcome();
    let mut length = TextLength { count: 0 };
    say_by(alloc, pattern, arguments, cardinal, ordinal, &mut length)?;
    let mut said = Vec::with_capacity(alloc, length.count)?;
    say_by(alloc, pattern, arguments, cardinal, ordinal, &mut said)?;
    Ok(said)
}
