//! What an argument of a block chooses at sight.

ghost use Rattle.std.specs.Prelude.{◌≡◌, ◌≤◌, ◌<◌, ◌+◌, ℕ, List, drop, length, IfSome, None, Some};
ghost use Rattle.message_pattern.specs.PatternParts.{branches_of, offset_view};
ghost use Rattle.message_format.specs.FormatArguments.{value_view};
ghost use Rattle.message_format.specs.FormatSteps.{Chooses, IsChoice, IsCounted, both};
ghost use Rattle.message_format.specs.Inner.FormatViews.{any_value};
ghost use Rattle.packed_pattern.specs.PartPlaces.{IsPlaced};
ghost use Rattle.packed_pattern.specs.Inner.PlacesAhead.{placed_view};

use crate::branches::{branch_of_category, branch_of_word, first_chosen};
use fixed_decimal::laws::texts_write_one_number;
use message_format::{Plain, TextRules, Value};
use message_pattern::ArgumentKind;
use packed_pattern::{PackedPattern, PlacedPart};
use std::alloc::Global;

// Where the branch of a number is that is written plainly, of a plural without an offset that begins
// at a place.
#[inline(always)]
fn counted<R: TextRules>(
    alloc: Global,
    rules: &R,
    text: &str,
    pattern: &PackedPattern<'_>,
    index: usize,
    begin: &PlacedPart<'_>,
) -> Option<usize>
    requires few { length pattern.now ≤ 65535 }
    requires placed { IsPlaced (placed_view begin.now) pattern.now index }
    requires within { index < length pattern.now }
    ensures branch { IfSome result (λ at. (name : List ℕ) → IsCounted (R.rules rules.now) name
        (branches_of (placed_view begin.now).part.depth (drop (index + 1) pattern.now)) text.now (Chooses text.now (drop at pattern.now))) }
    ensures behind { IfSome result (λ at. index < at) }
{
    // A text writes one number at most.
    texts_write_one_number();
    let plain = Plain::of(text.as_bytes())?;
    match first_chosen(pattern, &plain, index, begin) {
        Ok(Some(at)) => Some(at),
        Ok(None) => match rules.category_for_text(alloc, text) {
            Ok(category) => Some(branch_of_category(pattern, category, index, begin)),
            Err(_) => None,
        },
        Err(_) => None,
    }
}

// The text of `#` in the branch that a value chooses, of an argument without an offset that begins at
// a place, and where this branch is. None if it isn't told at sight.
#[inline(always)]
fn chosen_by_value<'s, R: TextRules>(
    alloc: Global,
    cardinal: &R,
    ordinal: &R,
    hash: &'s [u8],
    kind: ArgumentKind,
    value: Value<'s>,
    pattern: &PackedPattern<'_>,
    index: usize,
    begin: &PlacedPart<'_>,
) -> Option<(&'s [u8], usize)>
    requires few { length pattern.now ≤ 65535 }
    requires placed { IsPlaced (placed_view begin.now) pattern.now index }
    requires within { index < length pattern.now }
    ensures branch { IfSome result (λ it. (name : List ℕ) → IsChoice (both (R.rules cardinal.now) (R.rules ordinal.now)) hash.now kind name None
        (branches_of (placed_view begin.now).part.depth (drop (index + 1) pattern.now)) (Some (value_view value.entry))
        (Chooses it.0.now (drop it.1 pattern.now))) }
    ensures behind { IfSome result (λ it. index < it.1) }
{
    match (kind, value) {
        (ArgumentKind::Plural, Value::Number(text)) => {
            let at = counted(alloc, cardinal, text, pattern, index, begin)?;
            Some((text.as_bytes(), at))
        }
        (ArgumentKind::Ordinal, Value::Number(text)) => {
            let at = counted(alloc, ordinal, text, pattern, index, begin)?;
            Some((text.as_bytes(), at))
        }
        (ArgumentKind::Select, Value::Text(word)) => {
            let at = branch_of_word(pattern, word.as_bytes(), index, begin);
            Some((hash, at))
        }
        _ => None,
    }
}

// The text of `#` in the branch that an argument chooses, which begins at a place, and where this
// branch is. None if it isn't told at sight.
#[inline(always)]
pub(crate) fn chosen_at_sight<'s, R: TextRules>(
    alloc: Global,
    cardinal: &R,
    ordinal: &R,
    hash: &'s [u8],
    kind: ArgumentKind,
    offset: Option<&[u8]>,
    value: Option<Value<'s>>,
    pattern: &PackedPattern<'_>,
    index: usize,
    begin: &PlacedPart<'_>,
) -> Option<(&'s [u8], usize)>
    requires few { length pattern.now ≤ 65535 }
    requires placed { IsPlaced (placed_view begin.now) pattern.now index }
    requires within { index < length pattern.now }
    ensures branch { IfSome result (λ it. (name : List ℕ) → IsChoice (both (R.rules cardinal.now) (R.rules ordinal.now)) hash.now kind name
        (offset_view offset.entry) (branches_of (placed_view begin.now).part.depth (drop (index + 1) pattern.now)) (any_value value.entry)
        (Chooses it.0.now (drop it.1 pattern.now))) }
    ensures behind { IfSome result (λ it. index < it.1) }
{
    match (offset, value) {
        (None, Some(value)) => chosen_by_value(
            alloc, cardinal, ordinal, hash, kind, value, pattern, index, begin,
        ),
        _ => None,
    }
}
