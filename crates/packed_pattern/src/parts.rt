//! The parts of a block, one after another.

ghost use Rattle.std.specs.Prelude.{◌≡◌, ◌∷◌, [], map, drop, length, MatchOption};

use message_pattern::Part;
use packed_list::PackedList;
use packed_part::{PartSource, part_in};

// The parts in the items of a list, from a place on.
#[derive(Clone, Copy)]
pub(crate) struct ItemParts<'l, 'a> {
    pub(crate) list: &'l PackedList<'a>,
    pub(crate) next: usize,
}

impl<'l, 'a> PartSource<'a> for ItemParts<'l, 'a> {
    ghost use Rattle.std.specs.Prelude.{map, drop};
    ghost use Rattle.packed_part.specs.Inner.PartReading.{part_in};

    ghost parts = { λ walk. map part_in (drop walk.next walk.list.now) };

    fn next_part(&mut self) -> Option<Part<'a>> {
        if self.next >= self.list.len() {
            return None;
        }
        let item = self.list.get(self.next)?;
        self.next += 1;
        Some(part_in(item))
    }
}
