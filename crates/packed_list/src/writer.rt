//! Writes items as the bytes of a list.

ghost use Rattle.std.specs.Prelude.{◌≡◌, ◌≢◌, ◌⊎◌, ◌↔◌, ◌+◌, ◌*◌, ◌++◌, ◌^◌, ◌<◌, ◌≤◌, Err, IfOk, IfSome, IfNone, IsTrue, IsFalse, OnOk, flat_map, length, nat_lt};
ghost use Rattle.std.specs.List.{concat, list_any};
ghost use Rattle.std.specs.Result.{OnErr};
ghost use Rattle.std.specs.Vec.{vec_capacity, vec_len};
ghost use Rattle.packed_list.specs.ListBytes.{CanPack, ListBytes, StaysInFront, has_high_start, list_bytes, starts_from, two_bytes};

use crate::error::PackError;
use crate::items_to_pack::{ByteItem, ByteItems};
use std::alloc::{AllocError, Global};
use std::marker::Model;

/// Items that can be packed, with their count and their length in bytes.
#[derive(Drop)]
pub struct ListWriter<I: ByteItems> {
    items: I,
    count: usize,
    // How many bytes the items take, without the header.
    total: usize,
}

impl<I: ByteItems> Model for ListWriter<I> {
    ghost use Rattle.std.specs.Prelude.{◌≡◌, ◌+◌, ◌^◌, ◌<◌, ℕ, List, length};
    ghost use Rattle.std.specs.List.{concat};
    ghost use Rattle.packed_list.specs.ListBytes.{CanPack};

    ghost Value = { List (List ℕ) };

    ghost view = { λ list. I.items list.items };

    ghost invariant = { λ list. record {
      can_pack : CanPack (I.items list.items);
      count : list.count ≡ length (I.items list.items);
      total : list.total ≡ length (concat (I.items list.items));
      room : list.total < 2 ^ 63 + 131072;
    } };
}

impl<I: ByteItems> ListWriter<I> {
    /// Adds up the lengths of the items. It allocates nothing.
    ///
    /// The errors, in the order in which they are looked for: more than 65535 items
    /// ([`PackError::CountLimit`]); an item that would start after place 65535 of the data
    /// ([`PackError::StartLimit`]).
    pub fn new(items: I) -> Result<ListWriter<I>, PackError>
        ensures ok { IfOk result (λ list. list ≡ I.items items) }
        ensures can_pack { IfOk result (λ _. CanPack (I.items items)) }
        ensures count_limit { (result ≡ Err PackError.CountLimit) ↔ (65535 < length (I.items items)) }
        ensures start_limit { (result ≡ Err PackError.StartLimit) ↔ ((length (I.items items) ≤ 65535) × IsTrue (has_high_start (I.items items))) }
        ensures memory { result ≢ Err PackError.Memory }
    {
        match sizes(items) {
            Some((count, total)) => Ok(ListWriter {
                items,
                count,
                total,
            }),
            None if is_many(items) => Err(PackError::CountLimit),
            None => Err(PackError::StartLimit),
        }
    }

    /// Returns how many bytes the list takes.
    pub fn byte_count(&self) -> usize
        ensures count { result ≡ length (list_bytes self.now) }
        ensures can_pack { CanPack self.now }
        ensures room { result < 2 ^ 63 + 262144 }
    {
        2 * self.count + self.total
    }

    /// Appends the list to the bytes. If memory runs out, what stood there stays, and some bytes
    /// may follow.
    pub fn write_to(&self, bytes: &mut Vec<u8>) -> Result<(), AllocError>
        ensures written { OnOk result (bytes.new.items ≡ bytes.old.items ++ list_bytes self.now) }
        ensures kept { OnErr result (StaysInFront bytes.old.items bytes.new.items) }
    {
        let mut others = self.items;
        let Some(first) = others.next_item() else {
            return Ok(());
        };
        bytes.reserve(2 * self.count)?;
        push_number(bytes, self.count);
        push_starts(bytes, first.byte_count(), others);
        push_items(bytes, self.items)
    }

    /// Returns the bytes of the list, made by one allocation.
    pub fn to_bytes(&self, alloc: Global) -> Result<Vec<u8>, AllocError>
        ensures { IfOk result (λ bytes. ListBytes self.now bytes.items) }
    {
        let mut bytes = Vec::with_capacity(alloc, self.byte_count())?;
        self.write_to(&mut bytes)?;
        Ok(bytes)
    }
}

// The count of the items and the length of their data, if they can be packed.
fn sizes<I: ByteItems>(items: I) -> Option<(usize, usize)>
    ensures some { IfSome result (λ sizes. CanPack (I.items items)) }
    ensures count { IfSome result (λ sizes. sizes.0 ≡ length (I.items items)) }
    ensures total { IfSome result (λ sizes. sizes.1 ≡ length (concat (I.items items))) }
    ensures room { IfSome result (λ sizes. sizes.1 < 2 ^ 63 + 131072) }
    ensures none { IfNone result ((65535 < length (I.items items)) ⊎ IsTrue (has_high_start (I.items items))) }
{
    let mut left = items;
    let mut count = 0;
    let mut start = 0;
    while let Some(item) = left.next_item() {
        if count == 65535 || is_high(start) {
            return None;
        }
        count += 1;
        start += item.byte_count();
    }
    Some((count, start))
}

// Whether the items are more than 65535.
#[cold]
fn is_many<I: ByteItems>(items: I) -> bool
    ensures { IsTrue result ↔ (65535 < length (I.items items)) }
{
    let mut left = items;
    let mut count: usize = 0;
    while let Some(_) = left.next_item() {
        if count == 65535 {
            return true;
        }
        count += 1;
    }
    false
}

// Whether a start is above what two bytes hold.
#[inline]
fn is_high(start: usize) -> bool
    ensures { IsTrue result ↔ (65535 < start) }
{
    start > 65535
}

// Writes a number as two bytes, low byte first, for which there is room.
#[inline]
fn push_number(bytes: &mut Vec<u8>, n: usize)
    requires small { n ≤ 65535 }
    requires room { vec_len bytes.old + 2 ≤ vec_capacity bytes.old }
    ensures items { bytes.new.items ≡ bytes.old.items ++ two_bytes n }
    ensures len { vec_len bytes.new ≡ vec_len bytes.old + 2 }
    ensures capacity { vec_capacity bytes.new ≡ vec_capacity bytes.old }
{
    bytes.push_reserved((n % 256) as u8);
    bytes.push_reserved((n / 256) as u8);
}

// Writes where each item starts, if the first one starts at a given place. There is room for two
// bytes each.
fn push_starts<I: ByteItems>(bytes: &mut Vec<u8>, place: usize, items: I)
    requires low { IsFalse (list_any (λ start. nat_lt 65535 start) (starts_from place (I.items items))) }
    requires room { vec_len bytes.old + 2 * length (I.items items) ≤ vec_capacity bytes.old }
    ensures { bytes.new.items ≡ bytes.old.items ++ flat_map two_bytes (starts_from place (I.items items)) }
{
    let mut left = items;
    let mut start = place;
    while let Some(item) = left.next_item() {
        push_number(bytes, start);
        start += item.byte_count();
    }
}

// Writes the items without gaps.
fn push_items<I: ByteItems>(bytes: &mut Vec<u8>, items: I) -> Result<(), AllocError>
    ensures written { OnOk result (bytes.new.items ≡ bytes.old.items ++ concat (I.items items)) }
    ensures kept { OnErr result (StaysInFront bytes.old.items bytes.new.items) }
{
    let mut left = items;
    while let Some(item) = left.next_item() {
        item.write_to(bytes)?;
    }
    Ok(())
}
