//! Printing a pattern, part by part.

ghost use Rattle.std.specs.Prelude.{◌≡◌, ◌∷◌, [], ◌++◌, false, reverse, IfOk, OnOk};
ghost use Rattle.pattern_bytes.specs.PatternBytes.{comma, opening, closing};
ghost use Rattle.message_pattern.specs.PatternParts.{piece_view, offset_view, selector_view, parts_view};
ghost use Rattle.message_pattern.specs.PatternPrinting.{byte_text, text_text, quoted_behind, kind_text, offset_text, selector_text};
ghost use Rattle.message_pattern.specs.Inner.PatternFold.{is_quoted, end_of_text, end_of_branch, end_before, piece_text, spot_behind, context_behind, outer_behind, fold};

use crate::part::{ArgumentKind, Part, Piece, Selector};
use crate::text::Context;
use std::alloc::{AllocError, Global};

// Where the printed text stands.
#[derive(Clone, Copy)]
enum Spot {
    // In a message, in quoted text or not.
    Message(bool),
    // In an argument, before its first branch.
    Branches,
}

impl Spot {
    // In quoted text.
    fn is_quoted(self) -> bool
        ensures { result ≡ is_quoted self }
    {
        match self {
            Spot::Message(quoted) => quoted,
            Spot::Branches => false,
        }
    }

    // What ends the text of a message.
    fn end_of_text(self) -> &'static [u8]
        ensures { result.now ≡ end_of_text self }
    {
        match self {
            Spot::Message(true) => b"'",
            Spot::Message(false) | Spot::Branches => b"",
        }
    }

    // What ends a branch, if one stands there.
    fn end_of_branch(self) -> &'static [u8]
        ensures { result.now ≡ end_of_branch self }
    {
        match self {
            Spot::Message(true) => b"'}",
            Spot::Message(false) => b"}",
            Spot::Branches => b"",
        }
    }

    // What ends there before a piece: its text, or its branch.
    fn end_before(self, piece: Piece<'_>) -> &'static [u8]
        ensures { result.now ≡ end_before self (piece_view piece.entry) }
    {
        match piece {
            Piece::Text(_) => b"",
            Piece::Hash | Piece::Argument(_) | Piece::Begin(..) => self.end_of_text(),
            Piece::Branch(_) | Piece::End => self.end_of_branch(),
        }
    }
}

// Adds bytes.
fn add(bytes: &[u8], text: &mut Vec<u8>) -> Result<(), AllocError>
    ensures { OnOk result (text.new.items ≡ text.old.items ++ bytes.now) }
{
    text.extend_from_slice(bytes)
}

// Adds bytes, and others behind them.
fn add_both(first: &[u8], second: &[u8], text: &mut Vec<u8>) -> Result<(), AllocError>
    ensures { OnOk result (text.new.items ≡ text.old.items ++ (first.now ++ second.now)) }
{
    add(first, text)?;
    add(second, text)
}

// Adds a sign, behind which a message goes on.
fn print_sign(sign: &[u8], text: &mut Vec<u8>) -> Result<Spot, AllocError>
    ensures spot { IfOk result (λ behind. behind ≡ Spot.Message false) }
    ensures text { OnOk result (text.new.items ≡ text.old.items ++ sign.now) }
{
    add(sign, text)?;
    Ok(Spot::Message(false))
}

// Prints a byte of a text, and the apostrophe before it.
fn print_byte(
    context: Context,
    quoted: bool,
    byte: u8,
    text: &mut Vec<u8>,
) -> Result<(), AllocError>
    ensures { OnOk result (text.new.items ≡ text.old.items ++ byte_text context quoted byte) }
{
    if byte == b'\'' {
        add(b"''", text)
    } else if context.is_quotable(byte) && !quoted {
        add(&[b'\'', byte], text)
    } else {
        add(&[byte], text)
    }
}

// Prints a text.
fn print_text(
    context: Context,
    spot: Spot,
    bytes: &[u8],
    text: &mut Vec<u8>,
) -> Result<Spot, AllocError>
    ensures spot { IfOk result (λ behind. behind ≡ Spot.Message (quoted_behind context (is_quoted spot) bytes.now)) }
    ensures text { OnOk result (text.new.items ≡ text.old.items ++ text_text context (is_quoted spot) bytes.now) }
{
    let mut quoted = spot.is_quoted();
    let mut rest = bytes;
    while let [byte, after @ ..] = rest {
        print_byte(context, quoted, *byte, text)?;
        quoted = quoted || context.is_quotable(*byte);
        rest = after;
    }
    Ok(Spot::Message(quoted))
}

// Prints an argument that is shown as it is.
fn print_argument(name: &[u8], text: &mut Vec<u8>) -> Result<Spot, AllocError>
    ensures spot { IfOk result (λ behind. behind ≡ Spot.Message false) }
    ensures text { OnOk result (text.new.items ≡ text.old.items ++ opening ∷ (name.now ++ closing ∷ [])) }
{
    add_both(b"{", name, text)?;
    print_sign(b"}", text)
}

impl ArgumentKind {
    // The type between its space and its comma.
    fn text(self) -> &'static [u8]
        ensures { result.now ≡ kind_text self }
    {
        match self {
            ArgumentKind::Plural => b" plural,",
            ArgumentKind::Ordinal => b" selectordinal,",
            ArgumentKind::Select => b" select,",
        }
    }
}

// Prints an offset, if there is one, behind which the branches stand.
fn print_offset(offset: Option<&[u8]>, text: &mut Vec<u8>) -> Result<Spot, AllocError>
    ensures spot { IfOk result (λ behind. behind ≡ Spot.Branches) }
    ensures text { OnOk result (text.new.items ≡ text.old.items ++ offset_text (offset_view offset.entry)) }
{
    if let Some(digits) = offset {
        add_both(b" offset:", digits, text)?;
    }
    Ok(Spot::Branches)
}

// Prints the head of an argument that chooses.
fn print_head(
    kind: ArgumentKind,
    name: &[u8],
    offset: Option<&[u8]>,
    text: &mut Vec<u8>,
) -> Result<Spot, AllocError>
    ensures spot { IfOk result (λ behind. behind ≡ Spot.Branches) }
    ensures text { OnOk result (text.new.items ≡ text.old.items ++ opening ∷ (name.now ++ comma ∷ (kind_text kind ++ offset_text (offset_view offset.entry)))) }
{
    add_both(b"{", name, text)?;
    add_both(b",", kind.text(), text)?;
    print_offset(offset, text)
}

// Prints a selector behind its front, and the brace that begins its branch.
fn print_opening(front: &[u8], selector: &[u8], text: &mut Vec<u8>) -> Result<Spot, AllocError>
    ensures spot { IfOk result (λ behind. behind ≡ Spot.Message false) }
    ensures text { OnOk result (text.new.items ≡ text.old.items ++ (front.now ++ (selector.now ++ 32 ∷ opening ∷ []))) }
{
    add_both(front, selector, text)?;
    print_sign(b" {", text)
}

// Prints what stands before a branch.
fn print_front(selector: Selector<'_>, text: &mut Vec<u8>) -> Result<Spot, AllocError>
    ensures spot { IfOk result (λ behind. behind ≡ Spot.Message false) }
    ensures text { OnOk result (text.new.items ≡ text.old.items ++ 32 ∷ (selector_text (selector_view selector.entry) ++ 32 ∷ opening ∷ [])) }
{
    match selector {
        Selector::Exactly(number) => print_opening(b" =", number, text),
        Selector::Keyword(word) => print_opening(b" ", word, text),
    }
}

// Prints a piece.
fn print_piece(
    context: Context,
    spot: Spot,
    piece: Piece<'_>,
    text: &mut Vec<u8>,
) -> Result<Spot, AllocError>
    ensures spot { IfOk result (λ behind. behind ≡ spot_behind context spot (piece_view piece.entry)) }
    ensures text { OnOk result (text.new.items ≡ text.old.items ++ piece_text context spot (piece_view piece.entry)) }
{
    add(spot.end_before(piece), text)?;
    match piece {
        Piece::Text(bytes) => print_text(context, spot, bytes, text),
        Piece::Hash => print_sign(b"#", text),
        Piece::Argument(name) => print_argument(name, text),
        Piece::Begin(kind, name, offset) => print_head(kind, name, offset, text),
        Piece::Branch(selector) => print_front(selector, text),
        Piece::End => print_sign(b"}", text),
    }
}

// The context behind a piece: an argument that chooses begins one in the others, and its end
// leaves it.
fn context_behind(
    context: Context,
    piece: Piece<'_>,
    outer: &mut Vec<Context>,
) -> Result<Context, AllocError>
    ensures context { IfOk result (λ behind. behind ≡ context_behind context (reverse outer.old.items) (piece_view piece.entry)) }
    ensures outer { OnOk result (reverse outer.new.items ≡ outer_behind context (reverse outer.old.items) (piece_view piece.entry)) }
{
    match piece {
        Piece::Begin(kind, _, _) => {
            outer.push(context)?;
            Ok(kind.context())
        }
        Piece::End => Ok(outer.pop().unwrap_or(Context::Whole)),
        _ => Ok(context),
    }
}

// Prints parts, one after the other.
fn print_parts(alloc: Global, parts: &[Part<'_>], text: &mut Vec<u8>) -> Result<(), AllocError>
    ensures { OnOk result (text.new.items ≡ text.old.items ++ fold Context.Whole [] (Spot.Message false) (parts_view parts.now)) }
{
    let mut outer = Vec::new(alloc);
    let mut context = Context::Whole;
    let mut spot = Spot::Message(false);
    let mut rest = parts;
    while let [part, after @ ..] = rest {
        spot = print_piece(context, spot, part.piece, text)?;
        context = context_behind(context, part.piece, &mut outer)?;
        rest = after;
    }
    add(spot.end_of_text(), text)
}

// The text of parts.
pub(crate) fn print(alloc: Global, parts: &[Part<'_>]) -> Result<Vec<u8>, AllocError>
    ensures { IfOk result (λ text. text.items ≡ fold Context.Whole [] (Spot.Message false) (parts_view parts.now)) }
{
    let mut text = Vec::new(alloc);
    print_parts(alloc, parts, &mut text)?;
    Ok(text)
}
