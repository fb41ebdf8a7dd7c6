//! Steps from a part of a block to what stands behind it.

ghost use Rattle.std.specs.Prelude.{◌≡◌, ◌≤◌, ◌<◌, ◌+◌, ℕ, List, drop, length, slice_index};
ghost use Rattle.plural_base.specs.Categories.{name_of};
ghost use Rattle.message_pattern.specs.PatternParts.{Part as SpecPart, branches_of};
ghost use Rattle.message_pattern.specs.declared.part.ArgumentKind.TheVariants.{Plural};
ghost use Rattle.packed_pattern.specs.PartPlaces.{IsPlaced, argument_places, place_or_other};
ghost use Rattle.packed_pattern.specs.Inner.PlacesAhead.{placed_view};
ghost use Rattle.packed_format.specs.Inner.PackedSteps.{AreNext, has_next_number, parts_behind};

use message_pattern::Selector;
use packed_pattern::{PackedPattern, PlacedPart};
use plural_base::PluralCategory;

// Where the next selector of this depth is sought, behind a part. It is behind the branch of a
// selector.
#[inline(always)]
pub(crate) fn next_selector(index: usize, placed: &PlacedPart<'_>, depth: usize) -> usize
    requires { index ≤ 65535 }
    ensures branches { (parts : List SpecPart) → IsPlaced (placed_view placed.now) parts index → branches_of depth (drop result parts)
        ≡ branches_of depth (drop (index + 1) parts) }
    ensures behind { index < result }
    ensures few { result ≤ index + 65536 }
{
    match placed.selector() {
        Some(_) if placed.depth() == depth => index + 1 + placed.place(0),
        _ => index + 1,
    }
}

// Whether a part has the place of the first branch by a number, or of the next.
#[inline(always)]
fn has_next_number(placed: &PlacedPart<'_>) -> bool
    ensures { result ≡ has_next_number (placed_view placed.now).part.piece }
{
    match placed.selector() {
        Some(Selector::Exactly(_)) => true,
        _ => placed.is_plural(),
    }
}

// Where the next selector of this depth is sought that is a number, behind a part.
#[inline(always)]
pub(crate) fn next_number(index: usize, placed: &PlacedPart<'_>, depth: usize) -> Option<usize>
    requires { index ≤ 65535 }
    ensures { (parts : List SpecPart) → IsPlaced (placed_view placed.now) parts index → AreNext depth parts index result }
{
    if placed.depth() != depth || !has_next_number(placed) {
        return Some(next_selector(index, placed, depth));
    }
    let place = placed.place(1);
    if place == 0 {
        None
    } else {
        Some(index + place)
    }
}

// Where the parts from a branch on are, so many behind the part at a place. Behind all parts, if
// there is none.
#[inline(always)]
pub(crate) fn place_behind(pattern: &PackedPattern<'_>, index: usize, place: usize) -> usize
    requires index { index < length pattern.now }
    requires few { index ≤ 65535 }
    requires place { place ≤ 65535 }
    ensures parts { drop result pattern.now ≡ parts_behind place (drop (index + 1) pattern.now) }
    ensures behind { index < result }
{
    if place == 0 {
        pattern.len()
    } else {
        index + 1 + place
    }
}

// Which of the places of a plural is that of a category.
#[inline(always)]
pub(crate) fn category_index(category: PluralCategory) -> usize
    ensures { (depth : ℕ) (rest : List SpecPart) → slice_index (argument_places Plural depth rest) result ≡ place_or_other (name_of category) depth rest }
{
    match category {
        PluralCategory::Zero => 2,
        PluralCategory::One => 3,
        PluralCategory::Two => 4,
        PluralCategory::Few => 5,
        PluralCategory::Many => 6,
        PluralCategory::Other => 7,
    }
}
