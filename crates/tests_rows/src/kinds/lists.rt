//! Packed lists of byte items.

use crate::kinds::runs::Runs;
use packed_list::{PackError, PackedList};
use row_calls::call::Call;
use std::fmt::Write;

/// Makes the call of a kind of this file. Returns whether there is such a kind.
pub fn make(kind: &str, call: &mut Call) -> bool {
    match kind {
        "list" => list(call),
        "list_beginnings" => list_beginnings(call),
        "list_bytes" => list_bytes(call),
        "list_size" => list_size(call),
        "list_of_copies" => list_of_copies(call),
        _ => return false,
    }
    true
}

// The items of the list that bytes are.
fn list(call: &mut Call) {
    let bytes = call.bytes();
    match PackedList::parse_bytes(&bytes) {
        Ok(list) if list.as_bytes() != bytes.as_slice() => call.print("other bytes"),
        Ok(list) if !is_walked(&list) => call.print("other items by a cursor"),
        Ok(list) => print_items(call, &list),
        Err(error) => call.print_error(&error),
    }
}

// Returns whether a cursor comes by the items in turn, and stays at the last one.
fn is_walked(list: &PackedList<'_>) -> bool {
    let Some(mut cursor) = list.cursor() else {
        return list.is_empty();
    };
    let mut is_last = false;
    for item in list.iter() {
        if is_last || cursor.item() != item {
            return false;
        }
        is_last = !cursor.advance();
    }
    is_last && !cursor.advance()
}

// Prints the start and the bytes of each item, if those by place are those in turn and no item
// comes after them.
fn print_items(call: &mut Call, list: &PackedList<'_>) {
    let mut in_turn = list.iter();
    let count = list.len();
    for place in 0..count {
        let item = list.get(place);
        if in_turn.next() != item {
            return call.print_alone("other items in turn");
        }
        print_item(call, list.start(place), item);
    }
    if list.start(count).is_some() || list.get(count).is_some() || in_turn.next().is_some() {
        return call.print_alone("an item after the last one");
    }
    if count == 0 {
        call.print("no items");
    }
}

// Prints an item after its start.
fn print_item(call: &mut Call, start: Option<usize>, item: Option<&[u8]>) {
    call.separate(", ");
    match (start, item) {
        (Some(start), Some(item)) => {
            let _ = write!(call, "{start} \"");
            call.print_digits(item);
            call.print("\"");
        }
        _ => call.print("no item"),
    }
}

// What each beginning of bytes is.
fn list_beginnings(call: &mut Call) {
    let bytes = call.bytes();
    let bytes = bytes.as_slice();
    let mut runs = Runs::new(call);
    for end in 0..=bytes.len() {
        match PackedList::parse_bytes(&bytes[..end]) {
            Ok(_) => call.print("list"),
            Err(error) => call.print_error(&error),
        }
        runs.take(call);
    }
    runs.print(call);
}

// The list of the items that hexadecimal digits write.
fn packed(call: &mut Call) -> Result<Vec<u8>, PackError> {
    let mut owned: Vec<Vec<u8>> = Vec::new(call.alloc);
    for item in &call.list() {
        let bytes = call.bytes_of(item);
        call.add_item(&mut owned, bytes);
    }
    let mut lent: Vec<&[u8]> = Vec::new(call.alloc);
    for item in &owned {
        call.add_item(&mut lent, item.as_slice());
    }
    PackedList::encode(call.alloc, lent.as_slice())
}

// The bytes of a list.
fn list_bytes(call: &mut Call) {
    match packed(call) {
        Ok(bytes) => call.print_bytes(&bytes),
        Err(error) => call.print_error(&error),
    }
}

// How many bytes a list has, and the first of them.
fn list_size(call: &mut Call) {
    let shown = call.size();
    match packed(call) {
        Ok(bytes) => {
            let bytes = bytes.as_slice();
            call.print_size(bytes);
            call.print(": ");
            call.print_digits(bytes.get(..shown).unwrap_or(bytes));
        }
        Err(error) => call.print_error(&error),
    }
}

// How many bytes a list of equal items has, which is read again.
fn list_of_copies(call: &mut Call) {
    let count = call.number();
    let item = call.bytes();
    let mut items: Vec<&[u8]> = Vec::new(call.alloc);
    for _ in 0..count {
        call.add_item(&mut items, item.as_slice());
    }
    match PackedList::encode(call.alloc, items.as_slice()) {
        Ok(bytes) => {
            call.print_size(&bytes);
            let read = match PackedList::parse_bytes(&bytes) {
                Ok(list) => list.len(),
                Err(_) => 0,
            };
            let _ = write!(call, ", {read} items");
        }
        Err(error) => call.print_error(&error),
    }
}
