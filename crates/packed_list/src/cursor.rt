//! A cursor over the items of a list.

ghost use Rattle.std.specs.Prelude.{◌≡◌, [], ◌∷◌, IsFalse, IsTrue, MatchOption};

use crate::list::PackedList;
use crate::starts::part;
use std::marker::Model;

/// One item of a list, with those after it, each borrowed from the bytes of the list. Unlike
/// [`Items`](crate::Items), it reads where an item ends only if the item is asked for.
#[derive(Debug, Drop)]
pub struct Cursor<'a> {
    list: PackedList<'a>,
    // The length of the header, and the data after it.
    header: usize,
    content: &'a [u8],
    // Where the start of the next item is in the header, or would be.
    place: usize,
    // Where the item starts in the data.
    start: usize,
}

impl<'a> Model for Cursor<'a> {
    ghost use Rattle.packed_list.specs.ListBytes.{ItemAndRest};

    ghost Value = { ItemAndRest };

    ghost use Rattle.std.specs.Prelude.{◌≡◌, ◌-◌, ◌*◌, ◌/◌, ◌≤◌, length, take};
    ghost use Rattle.std.specs.List.{concat};
    ghost use Rattle.packed_list.specs.ListBytes.{item_and_rest};

    ghost view = { λ cursor. item_and_rest cursor.list (cursor.place / 2 - 1) };

    ghost invariant = { λ cursor. record {
      some : 2 ≤ cursor.place;
      even : cursor.place ≡ 2 * (cursor.place / 2);
      header : cursor.header ≡ 2 * length cursor.list;
      within : cursor.place ≤ cursor.header;
      content : cursor.content.now ≡ concat cursor.list;
      start : cursor.start ≡ length (concat (take (cursor.place / 2 - 1) cursor.list));
    } };
}

impl<'a> PackedList<'a> {
    /// Returns a cursor at the first item, or `None` if there is no item.
    #[inline]
    pub fn cursor(&self) -> Option<Cursor<'a>>
        ensures { MatchOption result (self.now ≡ []) (λ cursor. self.now ≡ cursor.item ∷ cursor.rest) }
    {
        Cursor::of(PackedList { bytes: self.bytes })
    }
}

impl<'a> Cursor<'a> {
    // The cursor at the first item of a list.
    #[inline]
    fn of(list: PackedList<'a>) -> Option<Cursor<'a>>
        ensures { MatchOption result (list.entry ≡ []) (λ cursor. list.entry ≡ cursor.item ∷ cursor.rest) }
    {
        if list.has_no_byte() {
            return None;
        }
        Some(Cursor {
            header: 2 * list.len(),
            content: list.data(),
            list,
            place: 2,
            start: 0,
        })
    }

    /// Returns the item.
    #[inline]
    pub fn item(&self) -> &'a [u8]
        ensures { result.now ≡ self.now.item }
    {
        let end = self.list.end_before(self.place, self.header, self.content);
        part(self.content, self.start, end)
    }

    /// Moves to the next item. Returns whether there is one; otherwise it stays.
    #[inline]
    pub fn advance(&mut self) -> bool
        ensures moved { IsTrue result → self.old.rest ≡ self.new.item ∷ self.new.rest }
        ensures last { IsFalse result → self.old.rest ≡ [] }
        ensures stays { IsFalse result → self.new ≡ self.old }
    {
        if self.place >= self.header {
            return false;
        }
        self.start = self.list.start_at(self.place);
        self.place += 2;
        true
    }
}
