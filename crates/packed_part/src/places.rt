//! Where arguments and branches end, and where branches begin.

ghost use Rattle.std.specs.Prelude.{◌≡◌, ◌≤◌, bytes_eq, length, flat_map};
ghost use Rattle.packed_list.specs.ListBytes.{two_bytes};
ghost use Rattle.message_pattern.specs.declared.part.ArgumentKind.TheVariants.{Plural};
ghost use Rattle.message_pattern.specs.PatternParts.{part_view, piece_view};
ghost use Rattle.packed_part.specs.PartPlaces.{Word, branch_length, argument_length, argument_places, is_sought_branch, branch_place, or_place};
ghost use Rattle.packed_part.specs.PackedParts.{part_item_bytes, place_bytes};
ghost use Rattle.packed_part.specs.Inner.PartViews.{sought_view, places_view};

use crate::item::is_item_of;
use crate::order::is_selector;
use crate::place_bytes::{PlaceBytes, two_bytes};
use crate::source::PartSource;
use message_pattern::{ArgumentKind, Part, Piece, Selector};

// How many parts at the front are deeper.
fn branch_length<'p, P: PartSource<'p>>(depth: usize, parts: P) -> usize
    requires { length (P.parts parts) ≤ 65535 }
    ensures length { result ≡ branch_length depth (P.parts parts) }
    ensures few { result ≤ 65535 }
{
    let mut left = parts;
    let mut count: usize = 0;
    while let Some(part) = left.next_part() {
        if part.depth <= depth {
            return count;
        }
        count += 1;
    }
    count
}

// How many parts at the front are deeper, or selectors.
fn argument_length<'p, P: PartSource<'p>>(depth: usize, parts: P) -> usize
    requires { length (P.parts parts) ≤ 65535 }
    ensures length { result ≡ argument_length depth (P.parts parts) }
    ensures few { result ≤ 65535 }
{
    let mut left = parts;
    let mut count: usize = 0;
    while let Some(part) = left.next_part() {
        if part.depth <= depth && !is_selector(part.piece) {
            return count;
        }
        count += 1;
    }
    count
}

// A branch that is sought.
#[derive(Clone, Copy)]
pub(crate) enum Sought<'w> {
    // The next one by a number.
    AnyNumber,
    // That of a keyword.
    Word(&'w [u8]),
}

// Whether a piece is the selector of a branch that is sought.
fn is_sought(sought: Sought<'_>, piece: Piece<'_>) -> bool
    ensures { result ≡ is_sought_branch (sought_view sought.entry) (piece_view piece.entry) }
{
    match (sought, piece) {
        (Sought::AnyNumber, Piece::Branch(Selector::Exactly(_))) => true,
        (Sought::Word(word), Piece::Branch(Selector::Keyword(other))) => other == word,
        _ => false,
    }
}

// The place of the first branch that is sought.
fn branch_place<'p, P: PartSource<'p>>(sought: Sought<'_>, depth: usize, parts: P) -> usize
    requires { length (P.parts parts) ≤ 65535 }
    ensures place { result ≡ branch_place (sought_view sought.entry) depth (P.parts parts) }
    ensures few { result ≤ 65535 }
{
    let mut left = parts;
    let mut count: usize = 0;
    while let Some(part) = left.next_part() {
        count += 1;
        if part.depth <= depth {
            if is_sought(sought, part.piece) {
                return count;
            }
            if !is_selector(part.piece) {
                return 0;
            }
        }
    }
    0
}

// The place of the branch of a keyword, or of `other` if there is none, as two bytes.
fn category_bytes<'p, P: PartSource<'p>>(
    word: &[u8],
    depth: usize,
    parts: P,
    other: usize,
) -> [u8; 2]
    requires few { length (P.parts parts) ≤ 65535 }
    requires other { other ≤ 65535 }
    ensures { result ≡ two_bytes (or_place (branch_place (Word word.now) depth (P.parts parts)) other) }
{
    let place = branch_place(Sought::Word(word), depth, parts);
    two_bytes(if place == 0 { other } else { place })
}

// The places of a plural or an ordinal: its end, the first branch by a number, and each category's.
fn plural_places<'p, P: PartSource<'p>>(depth: usize, parts: P) -> PlaceBytes
    requires { length (P.parts parts) ≤ 65535 }
    ensures { places_view result ≡ flat_map two_bytes (argument_places Plural depth (P.parts parts)) }
{
    let other = branch_place(Sought::Word(b"other"), depth, parts);
    let end = two_bytes(argument_length(depth, parts));
    let number = two_bytes(branch_place(Sought::AnyNumber, depth, parts));
    let zero = category_bytes(b"zero", depth, parts, other);
    let one = category_bytes(b"one", depth, parts, other);
    let two = category_bytes(b"two", depth, parts, other);
    let few = category_bytes(b"few", depth, parts, other);
    let many = category_bytes(b"many", depth, parts, other);
    let last = two_bytes(other);
    PlaceBytes::of([
        end[0], end[1], number[0], number[1], zero[0], zero[1], one[0], one[1], two[0], two[1],
        few[0], few[1], many[0], many[1], last[0], last[1],
    ])
}

/// Returns the places of a part, which these parts follow.
pub fn places_of<'p, P: PartSource<'p>>(part: Part<'_>, rest: P) -> PlaceBytes
    requires { length (P.parts rest) ≤ 65535 }
    ensures { places_view result ≡ place_bytes (part_view part.entry) (P.parts rest) }
{
    let depth = part.depth;
    match part.piece {
        Piece::Begin(ArgumentKind::Select, _, _) => PlaceBytes::of_two(
            argument_length(depth, rest),
            branch_place(Sought::Word(b"other"), depth, rest),
        ),
        Piece::Begin(ArgumentKind::Plural, _, _) => plural_places(depth, rest),
        Piece::Begin(ArgumentKind::Ordinal, _, _) => plural_places(depth, rest),
        Piece::Branch(Selector::Exactly(_)) => PlaceBytes::of_two(
            branch_length(depth, rest),
            branch_place(Sought::AnyNumber, depth, rest),
        ),
        Piece::Branch(Selector::Keyword(_)) => PlaceBytes::of_one(branch_length(depth, rest)),
        _ => PlaceBytes::none(),
    }
}

/// Returns whether an item is that of a part which these parts follow.
pub fn is_item_before<'p, P: PartSource<'p>>(item: &[u8], part: Part<'_>, rest: P) -> bool
    requires { length (P.parts rest) ≤ 65535 }
    ensures { result ≡ bytes_eq item.now (part_item_bytes (part_view part.entry) (place_bytes (part_view part.entry) (P.parts rest))) }
{
    is_item_of(item, part, places_of(part, rest).as_slice())
}
