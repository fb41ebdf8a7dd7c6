//! A list of byte items, borrowed from the bytes that it is packed in.

ghost use Rattle.std.specs.Prelude.{◌≡◌, ◌↔◌, ◌+◌, ◌*◌, ◌/◌, ◌<◌, ◌≤◌, ◌==◌, ℕ, List, length, slice_get, IfOk, Ok, Err, Some, option_map, unwrap_or};
ghost use Rattle.std.specs.List.{concat};
ghost use Rattle.packed_list.specs.ListBytes.{ListBytes, item_starts, HasFault};
ghost use Rattle.packed_list.specs.Inner.ListReading.{IsList, items_in};

use crate::error::ListError;
use crate::starts::{are_starts, number, part};
use std::marker::Model;

/// A list of byte items, borrowed from the bytes that it is packed in.
///
/// The empty list has no bytes. Otherwise the bytes are the count of items (at most 65535), where
/// each item but the first starts (at most 65535, counted from the first byte of the data), each
/// number in two bytes with the low byte first, and then the items without gaps.
///
/// <!-- snippet crates/tests_libraries/src/tests/packed_list_lists.rt:
/// const THREE_ITEMS; example "let list" to "holds!(rt; list.as_bytes()" of fn gives_the_items_and_their_starts -->
/// ```
/// const THREE_ITEMS: &[u8] = b"\x03\x00\x02\x00\x02\x00abcd";
///
/// let list = PackedList::parse_bytes(THREE_ITEMS)?;
/// assert!(rt; list.len() == 3);
/// assert!(rt; list.as_bytes() == THREE_ITEMS);
/// ```
#[derive(Debug, Drop)]
pub struct PackedList<'a> {
    pub(crate) bytes: &'a [u8],
}

impl<'a> Model for PackedList<'a> {
    ghost use Rattle.std.specs.Prelude.{ℕ, List};
    ghost use Rattle.packed_list.specs.Inner.ListReading.{IsList, items_in};

    ghost Value = { List (List ℕ) };

    ghost view = { λ list. items_in list.bytes.now };

    ghost invariant = { λ list. IsList list.bytes.now };
}

impl<'a> PackedList<'a> {
    /// Reads bytes as a packed list. It allocates nothing.
    ///
    /// The errors, in the order in which they are looked for: one byte, or fewer bytes than the
    /// count and the starts take ([`ListError::Header`]); a count of 0 ([`ListError::ZeroCount`]);
    /// a start that is below the previous one or after the data ([`ListError::Start`]).
    ///
    /// <!-- snippet crates/example_calls/src/calls/lists.rt: fn show_list; fn print_list -->
    /// ```
    /// fn show_list(rt: &HostRuntime, alloc: Global) -> anyhow::Result<()> {
    ///     let items: [&[u8]; 3] = [b"ab", b"", b"cd"];
    ///     let bytes = PackedList::encode(alloc, &items)?;
    ///     print_list(rt, bytes.as_slice())
    /// }
    ///
    /// fn print_list(rt: &HostRuntime, bytes: &[u8]) -> anyhow::Result<()> {
    ///     let list = PackedList::parse_bytes(bytes)?;
    ///     println!(rt; "{} items in {} bytes", list.len(), bytes.len())?;
    ///     if let Some(item) = list.get(2) {
    ///         println!(rt; "the last one has {} bytes", item.len())?;
    ///     }
    ///     Ok(())
    /// }
    /// ```
    ///
    /// This prints
    ///
    /// <!-- snippet crates/example_calls/stdout: section a list -->
    /// ```text
    /// 3 items in 10 bytes
    /// the last one has 2 bytes
    /// ```
    pub fn parse_bytes(bytes: &'a [u8]) -> Result<PackedList<'a>, ListError>
        ensures ok { IfOk result (λ list. ListBytes list bytes.now) }
        ensures accepted { (items : List (List ℕ)) → ListBytes items bytes.now → result ≡ Ok items }
        ensures refused { (fault : ListError) → (result ≡ Err fault) ↔ HasFault bytes.now fault }
    {
        if bytes.is_empty() {
            return Ok(PackedList { bytes });
        }
        if bytes.len() == 1 {
            return Err(ListError::Header);
        }
        let count = number(bytes, 0);
        if count == 0 {
            return Err(ListError::ZeroCount);
        }
        if bytes.len() < 2 * count {
            return Err(ListError::Header);
        }
        if !are_starts(bytes, count) {
            return Err(ListError::Start);
        }
        Ok(PackedList::from_checked(bytes))
    }

    /// Returns the list in bytes that are known to be one, without reading them. Such bytes were
    /// taken by [`parse_bytes`], or returned by [`as_bytes`] or [`encode`] ([`read_again`]).
    ///
    /// [`parse_bytes`]: PackedList::parse_bytes
    /// [`as_bytes`]: PackedList::as_bytes
    /// [`encode`]: PackedList::encode
    /// [`read_again`]: crate::laws::read_again
    #[inline]
    pub fn from_checked(bytes: &'a [u8]) -> PackedList<'a>
        requires { IsList bytes.now }
        ensures { ListBytes result bytes.now }
    {
        PackedList { bytes }
    }

    /// Returns the bytes that the list is packed in.
    #[inline]
    pub fn as_bytes(&self) -> &'a [u8]
        ensures { ListBytes self.now result.now }
    {
        self.bytes
    }

    /// Returns the number of items.
    #[inline]
    pub fn len(&self) -> usize
        ensures { result ≡ length self.now }
    {
        if self.bytes.is_empty() {
            0
        } else {
            number(self.bytes, 0)
        }
    }

    /// Returns whether the list has no item.
    #[inline]
    pub fn is_empty(&self) -> bool
        ensures { result ≡ (length self.now == 0) }
    {
        self.len() == 0
    }

    /// Returns where the item at a place starts, counted from the first byte of the data; the first
    /// one starts at 0.
    #[inline]
    pub fn start(&self, index: usize) -> Option<usize>
        ensures { result ≡ slice_get (item_starts self.now) index }
    {
        if index >= self.len() {
            return None;
        }
        Some(self.place(index))
    }

    /// Returns the item at a place.
    #[inline]
    pub fn get(&self, index: usize) -> Option<&'a [u8]>
        ensures { option_map (λ item. item.now) result ≡ slice_get self.now index }
    {
        if index < self.len() {
            Some(part(self.data(), self.place(index), self.end(index)))
        } else {
            None
        }
    }

    // Returns whether it has no byte, which is so if and only if it has no item.
    #[inline]
    pub(crate) fn has_no_byte(&self) -> bool
        ensures { result ≡ (length self.now == 0) }
    {
        let bytes = self.bytes;
        bytes.is_empty()
    }

    // The items, without the header.
    #[inline]
    pub(crate) fn data(&self) -> &'a [u8]
        ensures { result.now ≡ concat self.now }
    {
        let bytes = self.bytes;
        part(bytes, 2 * self.len(), bytes.len())
    }

    // Where the item at a place starts in the data.
    #[inline]
    fn place(&self, index: usize) -> usize
        requires { index < length self.now }
        ensures { slice_get (item_starts self.now) index ≡ Some result }
    {
        if index == 0 {
            0
        } else {
            number(self.bytes, 2 * index)
        }
    }

    // Where the item at a place ends in the data.
    #[inline]
    fn end(&self, index: usize) -> usize
        requires { index < length self.now }
        ensures { result ≡ unwrap_or (slice_get (item_starts self.now) (index + 1)) (length (concat self.now)) }
    {
        self.end_in(index, self.len(), self.data())
    }

    // As `end`, if the count of items and their data are known.
    #[inline]
    pub(crate) fn end_in(&self, index: usize, count: usize, content: &[u8]) -> usize
        requires index { index < length self.now }
        requires count { count ≡ length self.now }
        requires content { content.now ≡ concat self.now }
        ensures { result ≡ unwrap_or (slice_get (item_starts self.now) (index + 1)) (length (concat self.now)) }
    {
        if index + 1 < count {
            self.place(index + 1)
        } else {
            content.len()
        }
    }

    // Where the item starts whose start is at a place of the header.
    #[inline]
    pub(crate) fn start_at(&self, place: usize) -> usize
        requires some { 2 ≤ place }
        requires even { place ≡ 2 * (place / 2) }
        requires within { place < 2 * length self.now }
        ensures { slice_get (item_starts self.now) (place / 2) ≡ Some result }
    {
        number(self.bytes, place)
    }

    // Where the item ends that is before the one whose start is at a place of the header.
    #[inline]
    pub(crate) fn end_before(&self, place: usize, header: usize, content: &[u8]) -> usize
        requires some { 2 ≤ place }
        requires even { place ≡ 2 * (place / 2) }
        requires header { header ≡ 2 * length self.now }
        requires within { place ≤ header }
        requires content { content.now ≡ concat self.now }
        ensures { result ≡ unwrap_or (slice_get (item_starts self.now) (place / 2)) (length (concat self.now)) }
    {
        if place >= header {
            return content.len();
        }
        self.start_at(place)
    }
}
