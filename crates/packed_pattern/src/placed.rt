//! A part of a block, with its places.

ghost use Rattle.std.specs.Prelude.{◌≡◌, ◌≤◌, ◌<◌, ℕ, slice_index, MatchOption};
ghost use Rattle.message_pattern.specs.PatternParts.{Branch, Selector as SpecSelector, part_view, selector_view};
ghost use Rattle.packed_list.specs.Inner.ListReading.{numbers};

use message_pattern::{Part, Selector};
use packed_part::{depth_in, is_plural_in, part_in, place_count, selector_in};

/// A part of a packed pattern, and its places: of an argument its length, of a plural then the place
/// of the first branch by a number, and those of the branches of the categories zero, one, two, few,
/// many and other, of a select that of the branch `other`; of a selector the length of its branch,
/// and if it is a number the place of the next branch by a number.
///
/// The length counts the parts before the end of an argument, or of a branch. The place of a branch
/// counts the parts from this one up to its selector; 0 is no branch.
#[derive(Clone, Copy, Debug)]
pub struct PlacedPart<'a> {
    pub(crate) item: &'a [u8],
}

impl<'a> PlacedPart<'a> {
    ghost use Rattle.packed_part.specs.Inner.PartReading.{is_plural};
    ghost use Rattle.packed_pattern.specs.Inner.PlacesAhead.{placed_view};

    /// Returns the part.
    #[inline(always)]
    pub fn part(&self) -> Part<'a>
        ensures { part_view result ≡ (placed_view self.now).part }
    {
        part_in(self.item)
    }

    /// Returns the depth of the part.
    #[inline(always)]
    pub fn depth(&self) -> usize
        ensures { result ≡ (placed_view self.now).part.depth }
    {
        depth_in(self.item)
    }

    /// Returns the selector, if the part is one.
    #[inline(always)]
    pub fn selector(&self) -> Option<Selector<'a>>
        ensures { MatchOption result
            ((s : SpecSelector) → (placed_view self.now).part.piece ≡ Branch s → ⊥)
            (λ s. (placed_view self.now).part.piece ≡ Branch (selector_view s)) }
    {
        selector_in(self.item)
    }

    /// Returns whether the part begins a plural or an ordinal.
    #[inline(always)]
    pub fn is_plural(&self) -> bool
        ensures { result ≡ is_plural (placed_view self.now).part.piece }
    {
        is_plural_in(self.item)
    }

    /// Returns a place, and 0 if there are fewer.
    #[inline(always)]
    pub fn place(&self, index: usize) -> usize
        ensures place { result ≡ slice_index (placed_view self.now).places index }
        ensures few { result ≤ 65535 }
    {
        match self.item {
            [tag, _, content @ ..] if index < place_count(*tag) => number_at(content, index),
            _ => 0,
        }
    }
}

// The number in the pair of bytes at a place, and 0 if there are fewer.
#[inline(always)]
fn number_at(content: &[u8], index: usize) -> usize
    requires { index < 8 }
    ensures number { (count : ℕ) → index < count → result ≡ slice_index (numbers count content.now) index }
    ensures few { result ≤ 65535 }
{
    if 2 * index + 1 < content.len() {
        usize::from(content[2 * index]) + 256 * usize::from(content[2 * index + 1])
    } else {
        0
    }
}
