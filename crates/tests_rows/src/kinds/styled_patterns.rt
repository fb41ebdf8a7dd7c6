//! Patterns of messages with simple formats.

use crate::kinds::patterns::{print_back_text, print_parts, print_piece, shown};
use message_pattern::{Part, Piece, StyledArgument, StyledPattern};
use row_calls::call::Call;
use std::fmt::Write;

/// Makes the call of a kind of this file. Returns whether there is such a kind.
pub fn make(kind: &str, call: &mut Call) -> bool {
    match kind {
        "styled_pattern" => styled_pattern(call),
        "styled_print" => styled_print(call),
        "unstyled_pattern" => unstyled_pattern(call),
        _ => return false,
    }
    true
}

// The parts of a pattern with simple formats, each of which is taken apart.
fn styled_pattern(call: &mut Call) {
    let text = call.text();
    match StyledPattern::parse(call.alloc, text.as_bytes()) {
        Ok(pattern) => print_styled(call, pattern.parts()),
        Err(fault) => call.print_error(&fault),
    }
}

// The text that a pattern with simple formats is printed as.
fn styled_print(call: &mut Call) {
    let text = call.text();
    match StyledPattern::parse(call.alloc, text.as_bytes()) {
        Ok(pattern) => print_back_text(call, pattern.to_text(call.alloc)),
        Err(fault) => call.print_error(&fault),
    }
}

// The parts of a pattern with simple formats, without these.
fn unstyled_pattern(call: &mut Call) {
    let text = call.text();
    match StyledPattern::parse(call.alloc, text.as_bytes()) {
        Ok(pattern) => {
            let plain = pattern.into_pattern();
            print_parts(call, plain.parts());
        }
        Err(fault) => call.print_error(&fault),
    }
}

// Prints each part behind its depth.
fn print_styled(call: &mut Call, parts: &[Part<'_>]) {
    for part in parts {
        call.separate(" ");
        let depth = part.depth;
        let _ = write!(call, "{depth}:");
        match part.piece {
            Piece::Argument(text) => print_argument(call, StyledArgument::of(text)),
            piece => print_piece(call, piece),
        }
    }
    call.print_none_if_empty();
}

// Prints an argument: its name, and the type and the style of its format.
fn print_argument(call: &mut Call, argument: StyledArgument<'_>) {
    call.print("{");
    call.print(shown(argument.name));
    if let Some(format) = argument.format {
        call.print("|");
        call.print(shown(format.format_type));
        if let Some(style) = format.style {
            call.print("|");
            call.print_quoted(shown(style));
        }
    }
    call.print("}");
}
