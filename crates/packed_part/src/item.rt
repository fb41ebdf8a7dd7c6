//! The item of a part.

ghost use Rattle.std.specs.Prelude.{◌≡◌, ◌≢◌, ◌∷◌, ◌++◌, ◌↔◌, ◌≤◌, take, drop, bytes_eq, length, IsTrue, MatchOption};
ghost use Rattle.message_pattern.specs.PatternParts.{Branch, Selector as SpecSelector, part_view, piece_view, selector_view, offset_view};
ghost use Rattle.packed_part.specs.PackedParts.{has_digits, is_packable, is_packable_piece, part_item_bytes, kind_tag, offset_digits, own_bytes, piece_tag, selector_bytes};
ghost use Rattle.packed_part.specs.Inner.ItemForms.{IsBeginForm, IsForm, IsOwnForm};
ghost use Rattle.packed_part.specs.Inner.PartReading.{begin_in, is_plural, kind_in, offset_in, part_in, piece_in_form, place_count, place_room, places_in};

use message_pattern::{ArgumentKind, DEPTH_LIMIT, Part, Piece, Selector};

// The number of an argument's kind.
#[inline(always)]
fn kind_tag(kind: ArgumentKind) -> u8
    ensures { result ≡ kind_tag kind }
{
    match kind {
        ArgumentKind::Plural => 3,
        ArgumentKind::Ordinal => 4,
        ArgumentKind::Select => 5,
    }
}

/// Returns the number of a piece's form, with which its item begins.
#[inline(always)]
pub fn piece_tag(piece: Piece<'_>) -> u8
    ensures { result ≡ piece_tag (piece_view piece.entry) }
{
    match piece {
        Piece::Text(_) => 0,
        Piece::Hash => 1,
        Piece::Argument(_) => 2,
        Piece::Begin(kind, _, _) => kind_tag(kind),
        Piece::Branch(Selector::Keyword(_)) => 6,
        Piece::Branch(Selector::Exactly(_)) => 7,
        Piece::End => 8,
    }
}

/// Returns the keyword or the number of a selector.
#[inline(always)]
pub fn selector_bytes<'p>(selector: Selector<'p>) -> &'p [u8]
    ensures { result.now ≡ selector_bytes (selector_view selector.entry) }
{
    match selector {
        Selector::Exactly(number) => number,
        Selector::Keyword(word) => word,
    }
}

/// Returns the digits of an offset, and none if there is no offset.
#[inline(always)]
pub fn offset_digits<'p>(offset: Option<&'p [u8]>) -> &'p [u8]
    ensures { result.now ≡ offset_digits (offset_view offset.entry) }
{
    match offset {
        Some(digits) => digits,
        None => &[],
    }
}

/// Returns whether a part can be packed: it is at most 32 branches deep, the name of an argument that
/// it begins has at most 255 bytes, and its offset has digits.
#[inline(always)]
pub fn is_packable(part: Part<'_>) -> bool
    ensures { result ≡ is_packable (part_view part.entry) }
{
    part.depth <= DEPTH_LIMIT && is_packable_piece(part.piece)
}

// Whether the length of a name fits its byte, and an offset has digits.
#[inline(always)]
fn is_packable_piece(piece: Piece<'_>) -> bool
    ensures { result ≡ is_packable_piece (piece_view piece.entry) }
{
    match piece {
        Piece::Begin(_, name, offset) => name.len() <= 255 && has_digits(offset),
        _ => true,
    }
}

// Whether an offset has digits.
#[inline(always)]
fn has_digits(offset: Option<&[u8]>) -> bool
    ensures { result ≡ has_digits (offset_view offset.entry) }
{
    match offset {
        Some(digits) => !digits.is_empty(),
        None => true,
    }
}

// The kind that a number names.
#[inline(always)]
fn kind_in(tag: u8) -> ArgumentKind
    ensures { result ≡ kind_in tag }
{
    match tag {
        3 => ArgumentKind::Plural,
        4 => ArgumentKind::Ordinal,
        _ => ArgumentKind::Select,
    }
}

// No digits are no offset.
#[inline(always)]
fn offset_in(digits: &[u8]) -> Option<&[u8]>
    ensures { offset_view result ≡ offset_in digits.now }
{
    match digits {
        [] => None,
        _ => Some(digits),
    }
}

// The beginning of an argument.
#[inline(always)]
fn begin_in(kind: ArgumentKind, content: &[u8]) -> Piece<'_>
    ensures { piece_view result ≡ begin_in kind content.now }
{
    match content {
        [] => Piece::End,
        [count, rest @ ..] => {
            let (name, digits) = rest.split_at(usize::from(*count).min(rest.len()));
            Piece::Begin(kind, name, offset_in(digits))
        }
    }
}

/// Returns how many places a form has, by its number.
#[inline(always)]
pub fn place_count(tag: u8) -> usize
    ensures count { result ≡ place_count tag }
    ensures few { result ≤ 8 }
{
    match tag {
        3 | 4 => 8,
        5 | 7 => 2,
        6 => 1,
        _ => 0,
    }
}

// The piece of a form in what it has of its own.
#[inline(always)]
fn piece_in(tag: u8, own: &[u8]) -> Piece<'_>
    ensures { piece_view result ≡ piece_in_form tag own.now }
{
    match tag {
        0 => Piece::Text(own),
        1 => Piece::Hash,
        2 => Piece::Argument(own),
        6 => Piece::Branch(Selector::Keyword(own)),
        7 => Piece::Branch(Selector::Exactly(own)),
        8 => Piece::End,
        _ => begin_in(kind_in(tag), own),
    }
}

// The bytes of the places of a form, as many as there are, and what stands behind them.
#[inline(always)]
fn split_places(tag: u8, content: &[u8]) -> (&[u8], &[u8])
    ensures places { result.0.now ≡ take (place_room tag) content.now }
    ensures own { result.1.now ≡ drop (place_room tag) content.now }
{
    content.split_at((2 * place_count(tag)).min(content.len()))
}

// The piece of a form in what follows the depth. A form without places has no bytes of theirs.
#[inline(always)]
fn piece_of(tag: u8, content: &[u8]) -> Piece<'_>
    ensures { piece_view result ≡ piece_in_form tag (drop (place_room tag) content.now) }
{
    match tag {
        0 => Piece::Text(content),
        1 => Piece::Hash,
        2 => Piece::Argument(content),
        8 => Piece::End,
        _ => piece_in(tag, split_places(tag, content).1),
    }
}

/// Returns the part that an item holds, if it is one.
#[inline(always)]
pub fn part_in(item: &[u8]) -> Part<'_>
    ensures { part_view result ≡ part_in item.now }
{
    match item {
        [tag, depth, content @ ..] => Part {
            depth: usize::from(*depth),
            piece: piece_of(*tag, content),
        },
        _ => Part {
            depth: 0,
            piece: Piece::End,
        },
    }
}

/// Returns the depth of the part that an item holds.
#[inline(always)]
pub fn depth_in(item: &[u8]) -> usize
    ensures { result ≡ (part_in item.now).depth }
{
    match item {
        [_, depth, ..] => usize::from(*depth),
        _ => 0,
    }
}

/// Returns the selector that an item holds, if it holds one.
#[inline(always)]
pub fn selector_in(item: &[u8]) -> Option<Selector<'_>>
    ensures { MatchOption result ((s : SpecSelector) → (part_in item.now).piece ≡ Branch s → ⊥)
        (λ s. (part_in item.now).piece ≡ Branch (selector_view s)) }
{
    match item {
        [6, _, content @ ..] => Some(Selector::Keyword(split_places(6, content).1)),
        [7, _, content @ ..] => Some(Selector::Exactly(split_places(7, content).1)),
        _ => None,
    }
}

/// Returns whether the part that an item holds begins a plural or an ordinal.
#[inline(always)]
pub fn is_plural_in(item: &[u8]) -> bool
    ensures { result ≡ is_plural (part_in item.now).piece }
{
    match item {
        [3, _, content @ ..] => content.len() > 2 * place_count(3),
        [4, _, content @ ..] => content.len() > 2 * place_count(4),
        _ => false,
    }
}

/// Returns the bytes of the places that an item has.
pub fn places_in(item: &[u8]) -> &[u8]
    ensures { result.now ≡ places_in item.now }
{
    match item {
        [tag, _, content @ ..] => split_places(*tag, content).0,
        _ => &[],
    }
}

// Whether a text is one behind another.
#[inline(always)]
fn is_joined(text: &[u8], first: &[u8], second: &[u8]) -> bool
    ensures { IsTrue result ↔ (text.now ≡ first.now ++ second.now) }
{
    if text.len() < first.len() {
        return false;
    }
    let (front, rest) = text.split_at(first.len());
    front == first && rest == second
}

// Whether these bytes are the name and the offset of an argument.
#[inline(always)]
fn is_begin(bytes: &[u8], name: &[u8], offset: Option<&[u8]>) -> bool
    ensures { IsTrue result ↔ (bytes.now ≡ length name.now ∷ (name.now ++ offset_digits (offset_view offset.entry))) }
{
    match bytes {
        [count, rest @ ..] => {
            usize::from(*count) == name.len() && is_joined(rest, name, offset_digits(offset))
        }
        [] => false,
    }
}

// Whether these bytes are what a piece has of its own.
#[inline(always)]
fn is_own(bytes: &[u8], piece: Piece<'_>) -> bool
    ensures { IsTrue result ↔ (bytes.now ≡ own_bytes (piece_view piece.entry)) }
{
    match piece {
        Piece::Text(text) => bytes == text,
        Piece::Hash | Piece::End => bytes.is_empty(),
        Piece::Argument(name) => bytes == name,
        Piece::Begin(_, name, offset) => is_begin(bytes, name, offset),
        Piece::Branch(selector) => bytes == selector_bytes(selector),
    }
}

// Whether these bytes are places and what a piece has of its own.
#[inline(always)]
fn is_content(content: &[u8], places: &[u8], piece: Piece<'_>) -> bool
    ensures { IsTrue result ↔ (content.now ≡ places.now ++ own_bytes (piece_view piece.entry)) }
{
    if content.len() < places.len() {
        return false;
    }
    let (front, own) = content.split_at(places.len());
    front == places && is_own(own, piece)
}

// Whether an item is that of a part with these places.
#[inline(always)]
fn holds(item: &[u8], part: Part<'_>, places: &[u8]) -> bool
    ensures { IsTrue result ↔ (item.now ≡ part_item_bytes (part_view part.entry) places.now) }
{
    match item {
        [tag, depth, content @ ..] => {
            *tag == piece_tag(part.piece)
                && usize::from(*depth) == part.depth
                && is_content(content, places, part.piece)
        }
        _ => false,
    }
}

// Whether an item is that of a part with these bytes of places.
#[inline(always)]
pub(crate) fn is_item_of(item: &[u8], part: Part<'_>, places: &[u8]) -> bool
    ensures { result ≡ bytes_eq item.now (part_item_bytes (part_view part.entry) places.now) }
{
    holds(item, part, places)
}

// Whether the bytes that a form has of its own are those of the piece that they are read as, if this
// isn't one without any.
#[inline(always)]
fn is_own_form(tag: u8, own: &[u8]) -> bool
    requires hash { tag ≢ 1 }
    requires end { tag ≢ 8 }
    ensures { IsTrue result ↔ IsOwnForm tag own.now }
{
    match tag {
        0 => true,
        2 => true,
        6 => true,
        7 => true,
        3 => is_begin_form(own),
        4 => is_begin_form(own),
        5 => is_begin_form(own),
        _ => false,
    }
}

// Whether the length of a name is there, and the name.
#[inline(always)]
fn is_begin_form(own: &[u8]) -> bool
    ensures { IsTrue result ↔ IsBeginForm own.now }
{
    match own {
        [count, rest @ ..] => usize::from(*count) <= rest.len(),
        [] => false,
    }
}

// Whether bytes of content are these bytes of places and what the piece has of its own that the
// content is read as.
#[inline(always)]
fn is_form(tag: u8, content: &[u8], places: &[u8]) -> bool
    ensures { IsTrue result ↔ IsForm tag content.now places.now }
{
    match tag {
        1 => content == places,
        8 => content == places,
        _ => {
            let (front, own) = split_places(tag, content);
            is_own_form(tag, own) && front == places
        }
    }
}

// Whether an item is that of the part that it holds, with these bytes of places.
#[inline(always)]
fn is_with(item: &[u8], places: &[u8]) -> bool
    ensures { IsTrue result ↔ (item.now ≡ part_item_bytes (part_in item.now) places.now) }
{
    match item {
        [tag, _, content @ ..] => is_form(*tag, content, places),
        _ => false,
    }
}

/// Returns whether an item is that of the part that it holds, with these bytes of places.
#[inline(always)]
pub fn is_item_with(item: &[u8], places: &[u8]) -> bool
    ensures { result ≡ bytes_eq item.now (part_item_bytes (part_in item.now) places.now) }
{
    is_with(item, places)
}
