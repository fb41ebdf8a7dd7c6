//! Packs a pattern.

ghost use Rattle.std.specs.Prelude.{◌≡◌, ◌↔◌, ◌≤◌, ◌<◌, ◌+◌, ◌^◌, ◌++◌, ◌∷◌, ℕ, true, Err, Some, None, IfOk, IsTrue, OnOk, length};
ghost use Rattle.std.specs.Result.{OnErr};
ghost use Rattle.std.specs.List.{list_all};
ghost use Rattle.message_pattern.specs.PatternParts.{part_view, parts_view, piece_view};
ghost use Rattle.packed_list.specs.ListBytes.{StaysInFront, has_high_start};
ghost use Rattle.packed_part.specs.PartOrder.{before_all, first_misplaced};
ghost use Rattle.packed_part.specs.PackedParts.{is_packable, is_packable_piece, part_items_of, own_bytes};
ghost use Rattle.packed_pattern.specs.PatternBlocks.{PatternBlock, first_unpackable};

use crate::error::PackPatternError;
use message_pattern::{Part, Pattern, Piece};
use packed_list::{ByteItem, ByteItems, ListWriter, PackError};
use packed_part::{
    PlaceBytes, first_misplaced, is_packable, offset_digits, piece_tag, places_of, selector_bytes,
};
use std::alloc::{AllocError, Global};

// A part that is packed, and its places.
#[derive(Clone, Copy)]
struct PartItem<'p> {
    part: Part<'p>,
    places: PlaceBytes,
    ghost packable: { is_packable (part_view part) ≡ true },
}

impl<'p> ByteItem for PartItem<'p> {
    ghost use Rattle.message_pattern.specs.PatternParts.{part_view};
    ghost use Rattle.packed_part.specs.PackedParts.{part_item_bytes};
    ghost use Rattle.packed_part.specs.Inner.PartViews.{places_view};

    ghost item_bytes = { λ item. part_item_bytes (part_view item.part) (places_view item.places) };

    fn byte_count(&self) -> usize {
        2 + self.places.as_slice().len() + own_count(self.part.piece)
    }

    fn write_to(&self, bytes: &mut Vec<u8>) -> Result<(), AllocError> {
        bytes.extend_from_slice(&[piece_tag(self.part.piece), self.part.depth as u8])?;
        bytes.extend_from_slice(self.places.as_slice())?;
        write_own(self.part.piece, bytes)
    }
}

// How many bytes a piece has of its own.
fn own_count(piece: Piece<'_>) -> usize
    requires { is_packable_piece (piece_view piece) ≡ true }
    ensures count { result ≡ length (own_bytes (piece_view piece.entry)) }
    ensures room { result < 2 ^ 63 + 300 }
{
    match piece {
        Piece::Text(text) => text.len(),
        Piece::Hash | Piece::End => 0,
        Piece::Argument(name) => name.len(),
        Piece::Begin(_, name, offset) => 1 + name.len() + offset_digits(offset).len(),
        Piece::Branch(selector) => selector_bytes(selector).len(),
    }
}

// Writes a name behind its length, and the digits of an offset.
fn write_begin(name: &[u8], digits: &[u8], bytes: &mut Vec<u8>) -> Result<(), AllocError>
    requires { length name.now ≤ 255 }
    ensures written { OnOk result (bytes.new.items ≡ bytes.old.items ++ length name.now ∷ (name.now ++ digits.now)) }
    ensures kept { OnErr result (StaysInFront bytes.old.items bytes.new.items) }
{
    bytes.push(name.len() as u8)?;
    bytes.extend_from_slice(name)?;
    bytes.extend_from_slice(digits)
}

// Writes what a piece has of its own.
fn write_own(piece: Piece<'_>, bytes: &mut Vec<u8>) -> Result<(), AllocError>
    requires { is_packable_piece (piece_view piece) ≡ true }
    ensures written { OnOk result (bytes.new.items ≡ bytes.old.items ++ own_bytes (piece_view piece.entry)) }
    ensures kept { OnErr result (StaysInFront bytes.old.items bytes.new.items) }
{
    match piece {
        Piece::Text(text) => bytes.extend_from_slice(text),
        Piece::Hash | Piece::End => Ok(()),
        Piece::Argument(name) => bytes.extend_from_slice(name),
        Piece::Begin(_, name, offset) => write_begin(name, offset_digits(offset), bytes),
        Piece::Branch(selector) => bytes.extend_from_slice(selector_bytes(selector)),
    }
}

// The parts that are left to be packed.
#[derive(Clone, Copy)]
struct PartItems<'s, 'p> {
    parts: &'s [Part<'p>],
    ghost packable: { list_all is_packable (parts_view parts.now) ≡ true },
    ghost few: { length parts.now ≤ 65535 },
}

impl<'s, 'p> ByteItems for PartItems<'s, 'p> {
    ghost use Rattle.message_pattern.specs.PatternParts.{parts_view};
    ghost use Rattle.packed_part.specs.PackedParts.{part_items_of};

    type Item = PartItem<'p>;

    ghost items = { λ items. part_items_of (parts_view items.parts.now) };

    fn next_item(&mut self) -> Option<PartItem<'p>> {
        let [first, others @ ..] = self.parts else {
            return None;
        };
        let part = *first;
        self.parts = others;
        Some(PartItem {
            part,
            places: places_of(part, others),
        })
    }
}

// The place of the first part that can't be packed.
fn first_unpackable(parts: &[Part<'_>]) -> Option<usize>
    ensures { result ≡ first_unpackable 0 (parts_view parts.now) }
{
    for i in 0..parts.len() {
        if !is_packable(parts[i]) {
            return Some(i);
        }
    }
    None
}

/// Returns the bytes of a pattern, made by one allocation.
///
/// The errors, in the order in which they are looked for: more than 65535 parts
/// ([`PackPatternError::CountLimit`]); the first part that is more than 32 branches deep, or begins
/// an argument whose name has more than 255 bytes ([`PackPatternError::Part`]); the first part that
/// may not stand where it does, as an end without a beginning ([`PackPatternError::Order`]), which no
/// pattern that was read has; a part that would start after place 65535 of the data
/// ([`PackPatternError::StartLimit`]); out of memory ([`PackPatternError::Memory`]).
pub fn pack(alloc: Global, pattern: &Pattern<'_>) -> Result<Vec<u8>, PackPatternError>
    ensures ok { IfOk result (λ bytes. PatternBlock pattern.now bytes.items) }
    ensures count_limit { (result ≡ Err PackPatternError.CountLimit) ↔ (65535 < length pattern.now) }
    ensures part { (place : ℕ) → (result ≡ Err (PackPatternError.Part place)) ↔ ((length pattern.now ≤ 65535) × (first_unpackable 0 pattern.now ≡ Some place)) }
    ensures order { (place : ℕ) → (result ≡ Err (PackPatternError.Order place))
        ↔ ((length pattern.now ≤ 65535) × (first_unpackable 0 pattern.now ≡ None) × (first_misplaced 0 before_all pattern.now ≡ Some place)) }
    ensures start_limit { (result ≡ Err PackPatternError.StartLimit)
        ↔ ((length pattern.now ≤ 65535) × (first_unpackable 0 pattern.now ≡ None) × (first_misplaced 0 before_all pattern.now ≡ None)
        × IsTrue (has_high_start (part_items_of pattern.now))) }
{
    let parts = pattern.parts();
    if parts.len() > 65535 {
        return Err(PackPatternError::CountLimit);
    }
    if let Some(place) = first_unpackable(parts) {
        return Err(PackPatternError::Part(place));
    }
    if let Some(place) = first_misplaced(parts) {
        return Err(PackPatternError::Order(place));
    }
    match ListWriter::new(PartItems { parts }) {
        Ok(list) => match list.to_bytes(alloc) {
            Ok(bytes) => Ok(bytes),
            Err(_) => Err(PackPatternError::Memory),
        },
        Err(PackError::CountLimit) => Err(PackPatternError::CountLimit),
        Err(PackError::StartLimit) => Err(PackPatternError::StartLimit),
        Err(PackError::Memory) => Err(PackPatternError::Memory),
    }
}
