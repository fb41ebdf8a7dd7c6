//! The check of the items of a block, from the last to the first.

ghost use Rattle.std.specs.Prelude.{◌≡◌, ◌∷◌, ◌+◌, ◌<◌, ◌≤◌, ℕ, [], List, Option, IsTrue, drop, length, true, false};
ghost use Rattle.message_pattern.specs.PatternParts.{Begin, Branch, End, Exactly, Keyword};
ghost use Rattle.message_pattern.specs.declared.part.ArgumentKind.TheVariants.{Plural, Select};
ghost use Rattle.packed_part.specs.Inner.PartReading.{AreBlockItems};
ghost use Rattle.packed_pattern.specs.Inner.PlacesAhead.{AreWalked, GoesOnTo};

use crate::ahead::{Ahead, ended_at};
use message_pattern::DEPTH_LIMIT;
use packed_list::PackedList;

// How many depths there are.
const DEPTHS: usize = DEPTH_LIMIT + 1;

// What stands ahead of an index, at each depth at which an argument is open there.
#[derive(Drop)]
struct Walk {
    levels: [Ahead; DEPTHS],
    // How many of the levels stand.
    count: usize,
    // Whether the part at the index is a selector or an end, so that the beginning of an argument may
    // stand before it.
    ends_branch: bool,
}

impl Walk {
    // Behind the last part.
    fn at_end() -> Walk
        ensures { (index : ℕ) → AreWalked result index [] }
    {
        Walk {
            levels: [ended_at(0); DEPTHS],
            count: 0,
            ends_branch: false,
        }
    }

    // Goes on to the item at an index, before those that were looked at. Returns whether it is that of
    // a part that may stand there, with its places.
    #[inline(always)]
    fn take(&mut self, item: &[u8], index: usize) -> bool
        requires { index < 65535 }
        ensures { (items : List (List ℕ)) → AreWalked self.old (index + 1) items → IsTrue result → AreWalked self.new index (item.now ∷ items) }
    {
        let [tag, depth, content @ ..] = item else {
            return false;
        };
        let depth = usize::from(*depth);
        if depth > DEPTH_LIMIT {
            return false;
        }
        // The forms: text, `#`, argument, plural, ordinal, select, keyword, number, end.
        match *tag {
            0 | 2 => self.take_plain(depth),
            1 => content.is_empty() && self.take_plain(depth),
            3 => self.take_plural(depth, content, index),
            4 => self.take_plural(depth, content, index),
            5 => self.take_select(depth, content, index),
            6 => self.take_keyword(depth, content, index),
            7 => self.take_number(depth, content, index),
            8 => content.is_empty() && self.take_end(depth, index as u16),
            _ => false,
        }
    }

    // Goes on to a text, `#` or an argument that chooses nothing.
    #[inline(always)]
    fn take_plain(&mut self, depth: usize) -> bool
        ensures { IsTrue result → (self.old.count ≡ depth) × (self.new ≡ record { levels = self.old.levels; count = depth; ends_branch = false }) }
    {
        self.ends_branch = false;
        depth == self.count
    }

    // Goes on to the beginning of an argument.
    #[inline(always)]
    fn take_begin(&mut self, depth: usize) -> bool
        requires { depth ≤ 32 }
        ensures { IsTrue result → (self.old.count ≡ depth + 1) × (self.old.ends_branch ≡ true)
            × (self.new ≡ record { levels = self.old.levels; count = depth; ends_branch = false }) }
    {
        if !self.ends_branch || depth + 1 != self.count {
            return false;
        }
        self.count = depth;
        self.ends_branch = false;
        true
    }

    // Goes on to a plural or an ordinal.
    #[inline(always)]
    fn take_plural(&mut self, depth: usize, content: &[u8], index: usize) -> bool
        requires depth { depth ≤ 32 }
        requires index { index < 65535 }
        ensures { IsTrue result → (name : List ℕ) × (offset : Option (List ℕ))
            × GoesOnTo (record { depth = depth; piece = Begin Plural name offset }) index content.now self.old self.new }
    {
        self.take_begin(depth) && self.levels[depth].is_plural(content, index)
    }

    // Goes on to a select.
    #[inline(always)]
    fn take_select(&mut self, depth: usize, content: &[u8], index: usize) -> bool
        requires depth { depth ≤ 32 }
        requires index { index < 65535 }
        ensures { IsTrue result → (name : List ℕ) × (offset : Option (List ℕ))
            × GoesOnTo (record { depth = depth; piece = Begin Select name offset }) index content.now self.old self.new }
    {
        self.take_begin(depth) && self.levels[depth].is_select(content, index)
    }

    // Goes on to the selector of a keyword.
    #[inline(always)]
    fn take_keyword(&mut self, depth: usize, content: &[u8], index: usize) -> bool
        requires depth { depth ≤ 32 }
        requires index { index < 65535 }
        ensures { IsTrue result → (word : List ℕ)
            × GoesOnTo (record { depth = depth; piece = Branch (Keyword word) }) index content.now self.old self.new }
    {
        self.ends_branch = true;
        depth + 1 == self.count && self.levels[depth].take_keyword(content, index)
    }

    // Goes on to the selector of a number.
    #[inline(always)]
    fn take_number(&mut self, depth: usize, content: &[u8], index: usize) -> bool
        requires depth { depth ≤ 32 }
        requires index { index < 65535 }
        ensures { IsTrue result → (number : List ℕ)
            × GoesOnTo (record { depth = depth; piece = Branch (Exactly number) }) index content.now self.old self.new }
    {
        self.ends_branch = true;
        depth + 1 == self.count && self.levels[depth].take_number(content, index)
    }

    // Goes on to the end of an argument.
    #[inline(always)]
    fn take_end(&mut self, depth: usize, index: u16) -> bool
        requires { depth ≤ 32 }
        ensures { IsTrue result → GoesOnTo (record { depth = depth; piece = End }) index [] self.old self.new }
    {
        if depth != self.count {
            return false;
        }
        self.levels[depth] = ended_at(index);
        self.count = depth + 1;
        self.ends_branch = true;
        true
    }
}

// Whether the items are those of a block. Each is looked at once.
pub(crate) fn is_block(list: &PackedList<'_>) -> bool
    requires { length list.now ≤ 65535 }
    ensures { IsTrue result → AreBlockItems list.now }
{
    let mut left = list.len();
    let mut walk = Walk::at_end();
    while left > 0 {
        left -= 1;
        let Some(item) = list.get(left) else {
            return false;
        };
        if !walk.take(item, left) {
            return false;
        }
    }
    walk.count == 0
}
