//! The branches of an argument of a block.

ghost use Rattle.std.specs.Prelude.{◌≡◌, ◌≤◌, ◌<◌, ◌+◌, ℕ, List, drop, length, IfOk, IfSome, option_map, codes};
ghost use Rattle.plural_base.specs.Categories.{name_of};
ghost use Rattle.message_pattern.specs.PatternParts.{Keyword, branches_of};
ghost use Rattle.message_format.specs.FormatBranches.{branch_of_keyword, branch_or_other, parts_or_none};
ghost use Rattle.message_format.specs.FormatParts.{IsFirstChosen};
ghost use Rattle.packed_pattern.specs.PartPlaces.{IsPlaced};
ghost use Rattle.packed_pattern.specs.Inner.PlacesAhead.{placed_view};

use crate::steps::{category_index, next_number, next_selector, place_behind};
use message_format::Chooser;
use message_pattern::{ArgumentKind, Piece, Selector};
use packed_pattern::{PackedPattern, PlacedPart};
use plural_base::PluralCategory;

// Where the first branch of a keyword is, of an argument at this depth that begins at a place.
#[inline(always)]
fn branch_of_keyword(
    pattern: &PackedPattern<'_>,
    word: &[u8],
    depth: usize,
    index: usize,
) -> Option<usize>
    requires few { length pattern.now ≤ 65535 }
    requires index { index < length pattern.now }
    ensures branch { option_map (λ at. drop at pattern.now) result ≡ branch_of_keyword word.now (branches_of depth (drop (index + 1) pattern.now)) }
    ensures behind { IfSome result (λ at. index < at) }
{
    let mut at = index + 1;
    while let Some(placed) = pattern.placed(at) {
        let here = at;
        at = next_selector(here, &placed, depth);
        if placed.depth() <= depth {
            let Some(selector) = placed.selector() else {
                return None;
            };
            if let Selector::Keyword(other) = selector {
                if other == word {
                    return Some(here + 1);
                }
            }
        }
    }
    None
}

// Where the branch `other` is, of an argument that begins at a place. Behind all parts, if there is
// none.
#[inline(always)]
fn branch_other(pattern: &PackedPattern<'_>, index: usize, begin: &PlacedPart<'_>) -> usize
    requires few { length pattern.now ≤ 65535 }
    requires placed { IsPlaced (placed_view begin.now) pattern.now index }
    requires within { index < length pattern.now }
    ensures branch { drop result pattern.now
        ≡ parts_or_none (branch_of_keyword (codes "other") (branches_of (placed_view begin.now).part.depth (drop (index + 1) pattern.now))) }
    ensures behind { index < result }
{
    let part = begin.part();
    match part.piece {
        Piece::Begin(ArgumentKind::Select, _, _) => place_behind(pattern, index, begin.place(1)),
        _ => match branch_of_keyword(pattern, b"other", part.depth, index) {
            Some(place) => place,
            None => pattern.len(),
        },
    }
}

// Where the branch of a keyword is, or that of `other` if there is none. Behind all parts, if there
// is neither.
#[inline(always)]
pub(crate) fn branch_of_word(
    pattern: &PackedPattern<'_>,
    word: &[u8],
    index: usize,
    begin: &PlacedPart<'_>,
) -> usize
    requires few { length pattern.now ≤ 65535 }
    requires placed { IsPlaced (placed_view begin.now) pattern.now index }
    requires within { index < length pattern.now }
    ensures branch { drop result pattern.now ≡ branch_or_other word.now (branches_of (placed_view begin.now).part.depth (drop (index + 1) pattern.now)) }
    ensures behind { index < result }
{
    match branch_of_keyword(pattern, word, begin.part().depth, index) {
        Some(place) => place,
        None => branch_other(pattern, index, begin),
    }
}

// Where the branch of a category is, or that of `other` if there is none. Behind all parts, if there
// is neither.
#[inline(always)]
pub(crate) fn branch_of_category(
    pattern: &PackedPattern<'_>,
    category: PluralCategory,
    index: usize,
    begin: &PlacedPart<'_>,
) -> usize
    requires few { length pattern.now ≤ 65535 }
    requires placed { IsPlaced (placed_view begin.now) pattern.now index }
    requires within { index < length pattern.now }
    ensures branch { drop result pattern.now
        ≡ branch_or_other (name_of category) (branches_of (placed_view begin.now).part.depth (drop (index + 1) pattern.now)) }
    ensures behind { index < result }
{
    if begin.is_plural() {
        place_behind(pattern, index, begin.place(category_index(category)))
    } else {
        branch_of_word(pattern, category.as_str().as_bytes(), index, begin)
    }
}

// Where the first branch by a number is that is chosen.
#[inline(always)]
pub(crate) fn first_chosen<C: Chooser>(
    pattern: &PackedPattern<'_>,
    chooser: &C,
    index: usize,
    begin: &PlacedPart<'_>,
) -> Result<Option<usize>, C::Stop>
    requires ready { C.IsReady chooser.now }
    requires numbers { (word : List ℕ) → C.IsChosen chooser.now (Keyword word) → ⊥ }
    requires few { length pattern.now ≤ 65535 }
    requires placed { IsPlaced (placed_view begin.now) pattern.now index }
    requires within { index < length pattern.now }
    ensures first { IfOk result (λ found. IsFirstChosen (C.IsChosen chooser.now)
        (branches_of (placed_view begin.now).part.depth (drop (index + 1) pattern.now)) (option_map (λ at. drop at pattern.now) found)) }
    ensures behind { IfOk result (λ found. IfSome found (λ at. index < at)) }
{
    let depth = begin.depth();
    let mut next = next_number(index, begin, depth);
    while let Some(at) = next {
        let Some(placed) = pattern.placed(at) else {
            return Ok(None);
        };
        next = next_number(at, &placed, depth);
        if placed.depth() <= depth {
            let Some(selector) = placed.selector() else {
                return Ok(None);
            };
            let chosen = match chooser.chooses(selector) {
                Ok(chosen) => chosen,
                Err(stop) => return Err(stop),
            };
            if chosen {
                return Ok(Some(at + 1));
            }
        }
    }
    Ok(None)
}
