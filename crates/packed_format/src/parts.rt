//! The parts of a block, which a message is said from.

ghost use Rattle.std.specs.Prelude.{◌≡◌, ◌≤◌, length, slice_get, MatchOption, None};
ghost use Rattle.packed_pattern.specs.PartOrder.{before_all, first_misplaced};
ghost use Rattle.packed_pattern.specs.PartPlaces.{IsPlaced};
ghost use Rattle.packed_pattern.specs.Inner.PlacesAhead.{placed_view};

use crate::branches::{branch_of_category, branch_of_word, first_chosen};
use message_format::{
    Arguments, Chooser, FormatError, Found, MessageParts, MessageSteps, Next, Seen, Sink,
    TextRules, step_of,
};
use message_pattern::Part;
use packed_pattern::{PackedPattern, PlacedPart};
use plural_base::PluralCategory;
use std::alloc::Global;

// The parts of a block, from a place on.
#[derive(Clone, Copy)]
pub(crate) struct BlockParts<'l, 'a> {
    pattern: &'l PackedPattern<'a>,
    next: usize,
    ghost few: { length pattern.now ≤ 65535 },
    ghost ordered: { first_misplaced 0 before_all pattern.now ≡ None },
}

impl<'l, 'a> BlockParts<'l, 'a> {
    ghost use Rattle.std.specs.Prelude.{◌≡◌, drop};

    // All parts.
    #[inline(always)]
    pub(crate) fn of(pattern: &'l PackedPattern<'a>) -> Self
        ensures pattern { result.pattern.now ≡ pattern.now }
        ensures first { result.next ≡ 0 }
    {
        // A block has at most 65535 parts, in their order.
        let _ = pattern.as_bytes();
        BlockParts::at(pattern, 0)
    }

    // The parts from a place on.
    #[inline(always)]
    pub(crate) fn at(pattern: &'l PackedPattern<'a>, next: usize) -> Self
        requires few { length pattern.now ≤ 65535 }
        requires ordered { first_misplaced 0 before_all pattern.now ≡ None }
        ensures pattern { result.pattern.now ≡ pattern.now }
        ensures next { result.next ≡ next }
    {
        BlockParts { pattern, next }
    }

    // The part at this place, with its places.
    #[inline(always)]
    fn placed(self) -> Option<PlacedPart<'a>>
        ensures { MatchOption result (slice_get self.entry.pattern.now self.entry.next ≡ None)
            (λ it. IsPlaced (placed_view it) self.entry.pattern.now self.entry.next) }
    {
        self.pattern.placed(self.next)
    }
}

impl<'l, 'a> MessageParts<'a> for BlockParts<'l, 'a> {
    ghost use Rattle.std.specs.Prelude.{drop};

    ghost parts = { λ it. drop it.next it.pattern.now };

    #[inline(always)]
    fn first(self) -> Option<(Part<'a>, Self)> {
        match self.placed() {
            Some(placed) => {
                let rest = BlockParts::at(self.pattern, self.next + 1);
                Some((placed.part(), rest))
            }
            None => None,
        }
    }

    #[inline(always)]
    fn branch_of_word(self, word: &[u8]) -> Found<Self> {
        let Some(begin) = self.placed() else {
            return Found {
                branch: self,
                left: self,
            };
        };
        let found = branch_of_word(self.pattern, word, self.next, &begin);
        let branch = BlockParts::at(self.pattern, found);
        let left = BlockParts::at(self.pattern, self.next + 1);
        Found { branch, left }
    }

    #[inline(always)]
    fn branch_of_category(self, category: PluralCategory) -> Self {
        let Some(begin) = self.placed() else {
            return self;
        };
        let found = branch_of_category(self.pattern, category, self.next, &begin);
        BlockParts::at(self.pattern, found)
    }

    #[inline(always)]
    fn first_chosen<C: Chooser>(self, chooser: &C) -> Result<Seen<Self>, C::Stop> {
        let Some(begin) = self.placed() else {
            return Ok(Seen {
                branch: None,
                left: self,
            });
        };
        let left = BlockParts::at(self.pattern, self.next + 1);
        match first_chosen(self.pattern, chooser, self.next, &begin) {
            Ok(Some(at)) => {
                let branch = BlockParts::at(self.pattern, at);
                let branch = Some(branch);
                Ok(Seen { branch, left })
            }
            Ok(None) => Ok(Seen { branch: None, left }),
            Err(stop) => Err(stop),
        }
    }

    #[inline(always)]
    fn behind(self, left: Self) -> Self {
        let Some(begin) = self.placed() else {
            return left;
        };
        let length = begin.place(0);
        BlockParts::at(self.pattern, self.next + 2 + length)
    }
}

impl<'l, 'a> MessageSteps for BlockParts<'l, 'a> {
    ghost use Rattle.std.specs.Prelude.{drop};

    type Fault = FormatError<'a>;

    ghost parts = { λ it. drop it.next it.pattern.now };

    ghost error = { λ f. f };

    #[inline(always)]
    fn step<'s, R: TextRules, A: Arguments, W: Sink>(
        self,
        alloc: Global,
        arguments: &'s A,
        cardinal: &R,
        ordinal: &R,
        hash: &'s [u8],
        said: &mut W,
    ) -> Result<Option<Next<'s, Self>>, FormatError<'a>> {
        step_of(self, alloc, arguments, cardinal, ordinal, hash, said)
    }
}
