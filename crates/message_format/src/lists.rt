//! A list of parts, which a message is said from.

ghost use Rattle.std.specs.Prelude.{◌≡◌, drop};
ghost use Rattle.message_pattern.specs.PatternParts.{parts_view};
ghost use Rattle.message_format.specs.FormatParts.{first_depth};

use crate::source::{Chooser, Found, MessageParts, Seen};
use crate::walks::{behind_end, branch_or_other, first_chosen};
use message_pattern::Part;
use plural_base::PluralCategory;

// The depth of the first part, and the parts behind it.
#[inline(always)]
fn begun<'s, 'p>(parts: &'s [Part<'p>]) -> (usize, &'s [Part<'p>])
    ensures depth { result.0 ≡ first_depth (parts_view parts.now) }
    ensures rest { parts_view result.1.now ≡ drop 1 (parts_view parts.now) }
{
    match parts {
        [first, rest @ ..] => (first.depth, rest),
        [] => (0, parts),
    }
}

impl<'s, 'p> MessageParts<'p> for &'s [Part<'p>] {
    ghost use Rattle.message_pattern.specs.PatternParts.{parts_view};

    ghost parts = { λ parts. parts_view parts.now };

    #[inline(always)]
    fn first(self) -> Option<(Part<'p>, Self)> {
        let [first, rest @ ..] = self else {
            return None;
        };
        Some((*first, rest))
    }

    #[inline(always)]
    fn branch_of_word(self, word: &[u8]) -> Found<Self> {
        let (depth, rest) = begun(self);
        branch_or_other(word, depth, rest)
    }

    #[inline(always)]
    fn branch_of_category(self, category: PluralCategory) -> Self {
        let (depth, rest) = begun(self);
        branch_or_other(category.as_str().as_bytes(), depth, rest).branch
    }

    #[inline(always)]
    fn first_chosen<C: Chooser>(self, chooser: &C) -> Result<Seen<Self>, C::Stop> {
        let (depth, rest) = begun(self);
        first_chosen(chooser, depth, rest)
    }

    #[inline(always)]
    fn behind(self, left: Self) -> Self {
        let (depth, _) = begun(self);
        behind_end(depth, left)
    }
}
