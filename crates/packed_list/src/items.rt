//! The iterator over the items of a list.

ghost use Rattle.std.specs.Prelude.{◌≡◌, length, Some, IfSome, ◌≤◌};
ghost use Rattle.std.specs.Iterator.{YieldsFirstRef, item_count, UpTo, at_most};

use crate::list::PackedList;
use crate::starts::part;
use std::marker::Model;

/// The remaining items of a list, each borrowed from the bytes of the list.
#[derive(Debug, Drop)]
pub struct Items<'a> {
    list: PackedList<'a>,
    // The count of the items and their data, so that the header isn't read for each.
    count: usize,
    content: &'a [u8],
    next: usize,
    // Where the next item starts, so that its start isn't read again.
    start: usize,
}

impl<'a> Model for Items<'a> {
    ghost use Rattle.std.specs.Prelude.{◌≡◌, ℕ, List, drop, length, take, ◌≤◌};
    ghost use Rattle.std.specs.List.{concat};

    ghost Value = { List (List ℕ) };

    ghost view = { λ items. drop items.next items.list };

    ghost invariant = { λ items. record {
      within : items.next ≤ length items.list;
      count : items.count ≡ length items.list;
      content : items.content.now ≡ concat items.list;
      start : items.start ≡ length (concat (take items.next items.list));
    } };
}

impl<'a> PackedList<'a> {
    /// Returns the items, from the first one on.
    #[inline]
    pub fn iter(&self) -> Items<'a>
        ensures { result ≡ self.now }
    {
        Items::of(PackedList { bytes: self.bytes })
    }
}

impl<'a> Items<'a> {
    // All items of a list.
    #[inline]
    fn of(list: PackedList<'a>) -> Items<'a>
        ensures { result ≡ list.entry }
    {
        Items {
            count: list.len(),
            content: list.data(),
            list,
            next: 0,
            start: 0,
        }
    }
}

impl<'a> Iterator for Items<'a> {
    type Item = &'a [u8];

    ghost next_gives = { YieldsFirstRef (λ items. items) };

    ghost remaining = { item_count (λ items. items) };

    #[inline]
    fn next(&mut self) -> Option<&'a [u8]> {
        if self.next >= self.count {
            return None;
        }
        let end = self.list.end_in(self.next, self.count, self.content);
        let item = part(self.content, self.start, end);
        self.next += 1;
        self.start = end;
        Some(item)
    }

    // Exact: the count of the remaining items.
    #[inline]
    fn size_hint(&self) -> (usize, Option<usize>)
        ensures exact { result ≡ (length self.now, Some (length self.now)) }
        ensures lower { result.0 ≤ length self.now }
        ensures upper { IfSome result.1 (UpTo (at_most (length self.now))) }
    {
        let left = self.count - self.next;
        (left, Some(left))
    }
}
