//! Patterns of messages.

use message_pattern::{ArgumentKind, Part, Pattern, PatternError, Piece, Selector};
use row_calls::call::Call;
use std::alloc::AllocError;
use std::fmt::Write;

/// Makes the call of a kind of this file. Returns whether there is such a kind.
pub fn make(kind: &str, call: &mut Call) -> bool {
    match kind {
        "pattern" => pattern(call),
        "pattern_error" => pattern_error(call),
        "pattern_print" => pattern_print(call),
        "nested_pattern" => nested_pattern(call),
        _ => return false,
    }
    true
}

// The parts of a pattern.
fn pattern(call: &mut Call) {
    let text = call.text();
    match Pattern::parse(call.alloc, text.as_bytes()) {
        Ok(pattern) => print_parts(call, pattern.parts()),
        Err(fault) => call.print_error(&fault),
    }
}

// The text of an error.
fn pattern_error(call: &mut Call) {
    let text = call.text();
    match Pattern::parse(call.alloc, text.as_bytes()) {
        Ok(_) => call.print("none"),
        Err(fault) => call.print_value(&fault),
    }
}

// The text that a pattern is printed as.
fn pattern_print(call: &mut Call) {
    let text = call.text();
    match Pattern::parse(call.alloc, text.as_bytes()) {
        Ok(pattern) => print_back_text(call, pattern.to_text(call.alloc)),
        Err(fault) => call.print_error(&fault),
    }
}

/// Prints the text of a pattern.
pub fn print_back_text(call: &mut Call, text: Result<Vec<u8>, AllocError>) {
    match text {
        Ok(text) => call.print_quoted(shown(text.as_slice())),
        Err(_) => call.out_of_memory(),
    }
}

// How many parts a pattern has.
fn nested_pattern(call: &mut Call) {
    let text = call.text();
    match Pattern::parse(call.alloc, text.as_bytes()) {
        Ok(pattern) => {
            let count = pattern.parts().len();
            let _ = write!(call, "{count} parts");
        }
        Err(PatternError::Fault(kind, place)) => {
            let _ = write!(call, "{kind:?} at {place}");
        }
        Err(PatternError::Memory) => call.out_of_memory(),
    }
}

/// Prints each part behind its depth.
pub fn print_parts(call: &mut Call, parts: &[Part<'_>]) {
    for part in parts {
        call.separate(" ");
        let depth = part.depth;
        let _ = write!(call, "{depth}:");
        print_piece(call, part.piece);
    }
    call.print_none_if_empty();
}

/// Prints a piece.
pub fn print_piece(call: &mut Call, piece: Piece<'_>) {
    match piece {
        Piece::Text(text) => call.print_quoted(shown(text)),
        Piece::Hash => call.print("#"),
        Piece::Argument(name) => print_between(call, "{", name, "}"),
        Piece::Begin(kind, name, offset) => print_begin(call, kind, name, offset),
        Piece::Branch(Selector::Exactly(number)) => print_between(call, "=", number, ""),
        Piece::Branch(Selector::Keyword(word)) => print_between(call, "", word, ""),
        Piece::End => call.print("/"),
    }
}

// Prints the beginning of an argument that chooses.
fn print_begin(call: &mut Call, kind: ArgumentKind, name: &[u8], offset: Option<&[u8]>) {
    call.print(match kind {
        ArgumentKind::Plural => "plural",
        ArgumentKind::Ordinal => "ordinal",
        ArgumentKind::Select => "select",
    });
    print_between(call, "(", name, ")");
    if let Some(digits) = offset {
        print_between(call, "-", digits, "");
    }
}

// Prints bytes between two texts.
fn print_between(call: &mut Call, before: &str, bytes: &[u8], after: &str) {
    call.print(before);
    call.print(shown(bytes));
    call.print(after);
}

/// Bytes as a text.
pub fn shown(bytes: &[u8]) -> &str {
    std::str::from_utf8(bytes).unwrap_or("?")
}
