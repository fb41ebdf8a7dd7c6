//! A packed pattern.

ghost use Rattle.std.specs.Prelude.{◌≡◌, ◌↔◌, ◌≤◌, ◌<◌, ◌+◌, ℕ, List, map, drop, length, slice_get, option_map, IfOk, MatchOption, Ok, Err, Some, None};
ghost use Rattle.message_pattern.specs.PatternParts.{Part as SpecPart, part_view, parts_view};
ghost use Rattle.message_pattern.specs.PatternPrinting.{PrintsExactly};
ghost use Rattle.packed_part.specs.PartPlaces.{IsPlaced};
ghost use Rattle.packed_pattern.specs.PatternBlocks.{HasBlockFault, IsPatternBlock, PatternBlock, first_item_fault, item_fault, items_fault};
ghost use Rattle.packed_part.specs.Inner.PartReading.{part_in};
ghost use Rattle.packed_pattern.specs.Inner.PlacesAhead.{placed_view};

use crate::error::BlockError;
use crate::parts::ItemParts;
use crate::placed::PlacedPart;
use crate::walk::is_block;
use message_pattern::{Part, Pattern};
use packed_list::PackedList;
use packed_list::laws::read_again;
use packed_part::{
    PartSource, first_misplaced, is_item_before, is_item_with, is_packable, part_in, places_in,
};
use std::alloc::{AllocError, Global};
use std::marker::Model;

/// A pattern of messages in a block of bytes, read in place.
#[derive(Debug, Drop)]
pub struct PackedPattern<'a> {
    list: PackedList<'a>,
}

impl<'a> Model for PackedPattern<'a> {
    ghost use Rattle.std.specs.Prelude.{List, map};
    ghost use Rattle.message_pattern.specs.PatternParts.{Part as SpecPart};

    ghost Value = { List SpecPart };

    ghost use Rattle.packed_part.specs.Inner.PartReading.{part_in, AreBlockItems};

    ghost view = { λ pattern. map part_in pattern.list };

    ghost invariant = { λ pattern. AreBlockItems pattern.list };
}

impl<'a> PackedPattern<'a> {
    /// Reads bytes as a packed pattern. It allocates nothing.
    ///
    /// The error is that the bytes aren't a packed list ([`BlockError::List`]), or the fault of the
    /// first bad item: it isn't a part ([`BlockError::Part`]), or what it begins doesn't end, or has
    /// no branch, where it says ([`BlockError::Place`]); or else the first part that may not stand
    /// where it does ([`BlockError::Order`]).
    pub fn parse_bytes(bytes: &'a [u8]) -> Result<PackedPattern<'a>, BlockError>
        ensures ok { IfOk result (λ pattern. PatternBlock pattern bytes.now) }
        ensures accepted { (parts : List SpecPart) → PatternBlock parts bytes.now → result ≡ Ok parts }
        ensures refused { (fault : BlockError) → (result ≡ Err fault) ↔ HasBlockFault bytes.now fault }
    {
        read_again();
        let list = match PackedList::parse_bytes(bytes) {
            Ok(list) => list,
            Err(fault) => return Err(BlockError::List(fault)),
        };
        if let Some(fault) = items_fault(&list) {
            return Err(fault);
        }
        Ok(PackedPattern { list })
    }

    /// Returns the pattern in bytes that are known to be one, without reading them. Such bytes were
    /// taken by [`parse_bytes`], or returned by [`as_bytes`] or [`pack`] ([`read_again`]).
    ///
    /// [`parse_bytes`]: PackedPattern::parse_bytes
    /// [`as_bytes`]: PackedPattern::as_bytes
    /// [`pack`]: crate::pack
    /// [`read_again`]: crate::laws::read_again
    #[inline]
    pub fn from_checked(bytes: &'a [u8]) -> PackedPattern<'a>
        requires { IsPatternBlock bytes.now }
        ensures { PatternBlock result bytes.now }
    {
        read_again();
        let list = PackedList::from_checked(bytes);
        PackedPattern { list }
    }

    /// Returns the bytes of the block.
    pub fn as_bytes(&self) -> &'a [u8]
        ensures { PatternBlock self.now result.now }
    {
        self.list.as_bytes()
    }

    /// Returns the number of parts.
    #[inline]
    pub fn len(&self) -> usize
        ensures { result ≡ length self.now }
    {
        self.list.len()
    }

    /// Returns the part at a place.
    #[inline(always)]
    pub fn get(&self, index: usize) -> Option<Part<'a>>
        ensures { option_map part_view result ≡ slice_get self.now index }
    {
        let item = self.list.get(index)?;
        Some(part_in(item))
    }

    /// Returns the part at a place, with its places.
    #[inline(always)]
    pub fn placed(&self, index: usize) -> Option<PlacedPart<'a>>
        ensures { MatchOption result (slice_get self.now index ≡ None) (λ placed. IsPlaced (placed_view placed) self.now index) }
    {
        let item = self.list.get(index)?;
        Some(PlacedPart { item })
    }

    /// Returns the pattern, as a list of parts. It allocates the list; the error is out of memory.
    pub fn to_pattern(&self, alloc: Global) -> Result<Pattern<'a>, AllocError>
        ensures { IfOk result (λ pattern. pattern ≡ self.now) }
    {
        let parts = parts_of(alloc, &self.list)?;
        Ok(Pattern::from_parts(parts))
    }

    /// Returns the pattern's text in one form, as [`Pattern::to_text`] does. It allocates the list
    /// of parts, and what that call does; the error is out of memory.
    pub fn to_text(&self, alloc: Global) -> Result<Vec<u8>, AllocError>
        ensures { IfOk result (λ text. PrintsExactly self.now text.items) }
    {
        self.to_pattern(alloc)?.to_text(alloc)
    }
}

// The parts in the items of a list.
fn parts_of<'a>(alloc: Global, list: &PackedList<'a>) -> Result<Vec<Part<'a>>, AllocError>
    ensures { IfOk result (λ parts. parts_view parts.items ≡ map part_in list.now) }
{
    let mut parts = Vec::with_capacity(alloc, list.len())?;
    let mut left = ItemParts { list, next: 0 };
    while let Some(part) = left.next_part() {
        parts.push(part)?;
    }
    Ok(parts)
}

// What is wrong with the first bad item, or else with the order of the parts. A block is told by one
// look at each item.
fn items_fault(list: &PackedList<'_>) -> Option<BlockError>
    requires { length list.now ≤ 65535 }
    ensures { result ≡ items_fault list.now }
{
    if is_block(list) {
        return None;
    }
    if let Some(fault) = first_fault_of(list) {
        return Some(fault);
    }
    match first_misplaced(ItemParts { list, next: 0 }) {
        Some(place) => Some(BlockError::Order(place)),
        None => None,
    }
}

// What is wrong with the first bad item.
fn first_fault_of(list: &PackedList<'_>) -> Option<BlockError>
    requires { length list.now ≤ 65535 }
    ensures { result ≡ first_item_fault 0 list.now }
{
    for place in 0..list.len() {
        let fault = fault_at(list, place);
        if fault.is_some() {
            return fault;
        }
    }
    None
}

// What is wrong with the item at a place, before those that follow it.
fn fault_at(list: &PackedList<'_>, place: usize) -> Option<BlockError>
    requires few { length list.now ≤ 65535 }
    requires within { place < length list.now }
    ensures { (item : List ℕ) → Some item ≡ slice_get list.now place → result ≡ item_fault place item (drop (place + 1) list.now) }
{
    let item = list.get(place)?;
    let rest = ItemParts {
        list,
        next: place + 1,
    };
    fault_of(place, item, rest)
}

// What is wrong with an item at a place, before these parts.
fn fault_of(place: usize, item: &[u8], rest: ItemParts<'_, '_>) -> Option<BlockError>
    requires { length rest.list.now ≤ 65535 }
    ensures { result ≡ item_fault place item.now (drop rest.entry.next rest.entry.list.now) }
{
    let part = part_in(item);
    if !is_packable(part) || !is_item_with(item, places_in(item)) {
        return Some(BlockError::Part(place));
    }
    if !is_item_before(item, part, rest) {
        return Some(BlockError::Place(place));
    }
    None
}
