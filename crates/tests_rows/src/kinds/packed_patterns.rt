//! Patterns as packed bytes.

use crate::kinds::patterns::{print_back_text, print_parts};
use message_pattern::Pattern;
use packed_pattern::{PackedPattern, PlacedPart, pack};
use row_calls::call::Call;
use std::fmt::Write;

/// Makes the call of a kind of this file. Returns whether there is such a kind.
pub fn make(kind: &str, call: &mut Call) -> bool {
    match kind {
        "packed_pattern" => packed_pattern(call),
        "packed_pattern_size" => packed_pattern_size(call),
        "packed_parts" => packed_parts(call),
        "packed_places" => packed_places(call),
        "packed_pattern_print" => packed_pattern_print(call),
        "packed_pattern_error" => packed_pattern_error(call),
        "packed_pattern_beginnings" => packed_pattern_beginnings(call),
        "packed_pattern_changes" => packed_pattern_changes(call),
        _ => return false,
    }
    true
}

// The bytes of a pattern.
fn block(call: &mut Call) -> Option<Vec<u8>> {
    let text = call.text();
    let alloc = call.alloc;
    let pattern = match Pattern::parse(alloc, text.as_bytes()) {
        Ok(pattern) => pattern,
        Err(fault) => {
            call.print_error(&fault);
            return None;
        }
    };
    match pack(alloc, &pattern) {
        Ok(bytes) => Some(bytes),
        Err(error) => {
            call.print_error(&error);
            None
        }
    }
}

// The bytes of a pattern, if these are read as its parts.
fn packed_pattern(call: &mut Call) {
    if let Some(bytes) = block(call) {
        match PackedPattern::parse_bytes(&bytes) {
            Ok(pattern) if pattern.as_bytes() != bytes.as_slice() => call.print("other bytes"),
            Ok(_) => call.print_bytes(&bytes),
            Err(error) => call.print_error(&error),
        }
    }
}

// How many bytes a pattern has.
fn packed_pattern_size(call: &mut Call) {
    if let Some(bytes) = block(call) {
        call.print_size(&bytes);
    }
}

// The parts in bytes.
fn packed_parts(call: &mut Call) {
    let bytes = call.bytes();
    match PackedPattern::parse_bytes(&bytes) {
        Ok(pattern) => match pattern.to_pattern(call.alloc) {
            Ok(list) => {
                if are_those_by_place(&pattern, &list) {
                    print_parts(call, list.parts());
                } else {
                    call.print("other parts by place");
                }
            }
            Err(_) => call.out_of_memory(),
        },
        Err(error) => call.print_error(&error),
    }
}

// The places of the parts of a pattern that have some.
fn packed_places(call: &mut Call) {
    if let Some(bytes) = block(call) {
        match PackedPattern::parse_bytes(&bytes) {
            Ok(pattern) => {
                for index in 0..pattern.len() {
                    if let Some(placed) = pattern.placed(index) {
                        print_places(call, index, &placed);
                    }
                }
                call.print_none_if_empty();
            }
            Err(error) => call.print_error(&error),
        }
    }
}

// The places of a part up to the last that isn't 0, and its depth, if it has such a place.
fn print_places(call: &mut Call, index: usize, placed: &PlacedPart<'_>) {
    let mut count = 0;
    for which in 0..9usize {
        if placed.place(which) != 0 {
            count = which + 1;
        }
    }
    if count > 0 {
        call.separate(" ");
        let depth = placed.part().depth;
        let _ = write!(call, "{index}:{depth}");
        for which in 0..count {
            let place = placed.place(which);
            let _ = write!(call, ",{place}");
        }
    }
}

// Whether the parts by place are as many, and at the same depths.
fn are_those_by_place(pattern: &PackedPattern<'_>, list: &Pattern<'_>) -> bool {
    for place in 0..list.parts().len() {
        match pattern.get(place) {
            Some(part) if part.depth == list.parts()[place].depth => {}
            _ => return false,
        }
    }
    pattern.len() == list.parts().len() && pattern.get(pattern.len()).is_none()
}

// The text of the pattern in a pattern's bytes.
fn packed_pattern_print(call: &mut Call) {
    if let Some(bytes) = block(call) {
        match PackedPattern::parse_bytes(&bytes) {
            Ok(pattern) => print_back_text(call, pattern.to_text(call.alloc)),
            Err(error) => call.print_error(&error),
        }
    }
}

// The text of an error.
fn packed_pattern_error(call: &mut Call) {
    let bytes = call.bytes();
    match PackedPattern::parse_bytes(&bytes) {
        Ok(_) => call.print("none"),
        Err(error) => call.print_value(&error),
    }
}

// What the beginnings of a pattern's bytes are, from none to all but the last byte: how many are
// refused, and how many are patterns.
fn packed_pattern_beginnings(call: &mut Call) {
    if let Some(bytes) = block(call) {
        let mut refused: u64 = 0;
        let mut accepted: u64 = 0;
        for count in 0..bytes.len() {
            match PackedPattern::parse_bytes(&bytes[..count]) {
                Ok(_) => accepted = accepted.wrapping_add(1),
                Err(_) => refused = refused.wrapping_add(1),
            }
        }
        let _ = write!(call, "{refused} refused, {accepted} patterns");
    }
}

// What a pattern's bytes are with one byte changed to another by a bit, for each bit of each byte:
// how many are refused, and how many are patterns.
fn packed_pattern_changes(call: &mut Call) {
    if let Some(mut bytes) = block(call) {
        let mut refused: u64 = 0;
        let mut accepted: u64 = 0;
        for place in 0..bytes.len() {
            for bit in [1u8, 2, 4, 8, 16, 32, 64, 128] {
                flip(&mut bytes, place, bit);
                match PackedPattern::parse_bytes(&bytes) {
                    Ok(_) => accepted = accepted.wrapping_add(1),
                    Err(_) => refused = refused.wrapping_add(1),
                }
                flip(&mut bytes, place, bit);
            }
        }
        let _ = write!(call, "{refused} refused, {accepted} patterns");
    }
}

// Changes a byte by a bit.
fn flip(bytes: &mut Vec<u8>, place: usize, bit: u8) {
    if let Some(byte) = bytes.get_mut(place) {
        *byte ^= bit;
    }
}
