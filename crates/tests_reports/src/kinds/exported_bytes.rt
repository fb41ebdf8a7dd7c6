//! What the library for C exports: results that are written into a buffer, which is of the size of
//! the last argument and full of sevens.

use crate::kinds::exports::{given_of, next_given, print_told};
use plural_exports::GivenArgument;
use row_calls::call::Call;
use serde_json::Value;

/// Makes the call of a kind of this file. Returns whether there is such a kind.
pub fn make(kind: &str, call: &mut Call) -> bool {
    match kind {
        "exported_rules" => rules(call),
        "exported_document" => document(call),
        "exported_ranges" => ranges(call),
        "exported_locale" => locale(call),
        "exported_table" => table(call),
        "exported_categories" => categories(call),
        "exported_elements" => elements(call),
        "exported_texts" => texts(call),
        "exported_element" => element(call),
        "exported_message" => message(call),
        "exported_pattern" => pattern(call),
        "exported_pack" => pack(call),
        "exported_packed" => packed(call),
        "exported_messages" => messages(call),
        "exported_say" => say(call),
        _ => return false,
    }
    true
}

// The buffer.
fn next_room(call: &mut Call) -> Vec<u8> {
    let size = call.size();
    room_of(call, size)
}

// A buffer of a size.
fn room_of(call: &mut Call, size: usize) -> Vec<u8> {
    let mut room = Vec::new(call.alloc);
    for _ in 0..size {
        call.add_item(&mut room, 7u8);
    }
    room
}

// The bytes of the texts of a list.
fn next_texts(call: &mut Call) -> Vec<Vec<u8>> {
    let mut texts = Vec::new(call.alloc);
    for value in &call.list() {
        let text = given_of(call, value);
        call.add_item(&mut texts, text);
    }
    texts
}

// Prints a result, and returns what was written: all bytes at the front of the buffer, or none.
fn written<'a>(call: &mut Call, told: i64, room: &'a [u8]) -> &'a [u8] {
    if is_untouched(room) {
        print_told(call, told);
    } else {
        call.print_value(&told);
    }
    match usize::try_from(told) {
        Ok(length) if length <= room.len() => {
            look_behind(call, &room[length..]);
            &room[..length]
        }
        _ => {
            look_behind(call, room);
            &[]
        }
    }
}

// Says so if the rest of the buffer isn't as it was.
fn look_behind(call: &mut Call, rest: &[u8]) {
    if !is_untouched(rest) {
        call.print(", written behind");
    }
}

// Whether the rest of a buffer is as it was.
fn is_untouched(rest: &[u8]) -> bool {
    rest.iter().all(|byte| *byte == 7)
}

// Prints a result, and the bytes that were written.
fn print_bytes(call: &mut Call, told: i64, room: &[u8]) {
    let bytes = written(call, told, room);
    if !bytes.is_empty() {
        call.print(" ");
        call.print_digits(bytes);
    }
}

// Prints a result, and the text that was written.
fn print_text(call: &mut Call, told: i64, room: &[u8]) {
    let bytes = written(call, told, room);
    if let Ok(text) = std::str::from_utf8(bytes) {
        call.print(" ");
        call.print_quoted(text);
    }
}

// The block of the rules of five texts.
fn rules(call: &mut Call) {
    let texts = next_texts(call);
    let mut room = next_room(call);
    let [zero, one, two, few, many] = texts.as_slice() else {
        return call.not("five texts");
    };
    let told = plural_exports::rules_from_texts(call.alloc, zero, one, two, few, many, &mut room);
    print_bytes(call, told, &room);
}

// The block of the rules of a document.
fn document(call: &mut Call) {
    let json = next_given(call);
    let locale = next_given(call);
    let rule_type = call.byte();
    let mut room = next_room(call);
    let told = plural_exports::rules_from_document(
        call.alloc, &json, &locale, rule_type, &mut room,
    );
    print_bytes(call, told, &room);
}

// The table of the ranges of a document.
fn ranges(call: &mut Call) {
    let json = next_given(call);
    let locale = next_given(call);
    let mut room = next_room(call);
    let told = plural_exports::ranges_from_document(call.alloc, &json, &locale, &mut room);
    print_bytes(call, told, &room);
}

// The key of a locale in a document.
fn locale(call: &mut Call) {
    let json = next_given(call);
    let locale = next_given(call);
    let part = call.byte();
    let mut room = next_room(call);
    let told = plural_exports::find_locale(call.alloc, &json, &locale, part, &mut room);
    print_text(call, told, &room);
}

// The table of the categories of integers.
fn table(call: &mut Call) {
    let rules = call.bytes();
    let mut room = next_room(call);
    let told = plural_exports::table_of_rules(&rules, &mut room);
    print_bytes(call, told, &room);
}

// The categories of many integers.
fn categories(call: &mut Call) {
    let rules = call.bytes();
    let mut numbers = Vec::new(call.alloc);
    for value in &call.list() {
        let number = call.number_of(value);
        call.add_item(&mut numbers, number);
    }
    let mut room = next_room(call);
    let told = plural_exports::categories_of_integers(&rules, &numbers, &mut room);
    print_bytes(call, told, &room);
}

// The bytes of the elements of a JSON text.
fn elements(call: &mut Call) {
    let json = next_given(call);
    let mut room = next_room(call);
    let told = plural_exports::elements_from_json(call.alloc, &json, &mut room);
    print_bytes(call, told, &room);
}

// The bytes of the elements of eight texts.
fn texts(call: &mut Call) {
    let texts = next_texts(call);
    let mut room = next_room(call);
    let [other, zero, one, two, few, many, exactly_0, exactly_1] = texts.as_slice() else {
        return call.not("eight texts");
    };
    let told = plural_exports::elements_from_texts(
        call.alloc, other, zero, one, two, few, many, exactly_0, exactly_1, &mut room,
    );
    print_bytes(call, told, &room);
}

// The text of a number's element.
fn element(call: &mut Call) {
    let rules = call.bytes();
    let elements = call.bytes();
    let number = next_given(call);
    let mut room = next_room(call);
    let told = plural_exports::element(call.alloc, &rules, &elements, &number, &mut room);
    print_text(call, told, &room);
}

// The message of a number.
fn message(call: &mut Call) {
    let rules = call.bytes();
    let elements = call.bytes();
    let number = next_given(call);
    let mut room = next_room(call);
    let told = plural_exports::message(call.alloc, &rules, &elements, &number, &mut room);
    print_text(call, told, &room);
}

// What a pattern says, by its text and by its block.
fn pattern(call: &mut Call) {
    let cardinal = call.bytes();
    let ordinal = call.bytes();
    let pattern = next_given(call);
    let names = next_texts(call);
    let values = next_texts(call);
    let mut arguments = Vec::new(call.alloc);
    add_arguments(call, &mut arguments, &names, &values);
    let mut room = next_room(call);
    let mut other = room_of(call, room.len());
    let told = plural_exports::pattern_format(
        call.alloc, &cardinal, &ordinal, &pattern, &arguments, &mut room,
    );
    print_text(call, told, &room);
    if let Some(block) = block_of(call, &pattern) {
        let again = plural_exports::packed_format(
            call.alloc, &cardinal, &ordinal, &block, &arguments, &mut other,
        );
        if again == -1 {
            call.out_of_memory();
        } else if again != told || other != room {
            call.print(", packed otherwise");
        }
    }
}

// The block of a pattern, if it has one.
fn block_of(call: &mut Call, pattern: &[u8]) -> Option<Vec<u8>> {
    let length = plural_exports::pattern_pack(call.alloc, pattern, &mut []);
    let mut block = room_of(call, usize::try_from(length).ok()?);
    if plural_exports::pattern_pack(call.alloc, pattern, &mut block) != length {
        call.out_of_memory();
    }
    Some(block)
}

// The block of a pattern.
fn pack(call: &mut Call) {
    let pattern = next_given(call);
    let mut room = next_room(call);
    let told = plural_exports::pattern_pack(call.alloc, &pattern, &mut room);
    print_bytes(call, told, &room);
}

// What a block of a pattern says.
fn packed(call: &mut Call) {
    let cardinal = call.bytes();
    let ordinal = call.bytes();
    let block = call.bytes();
    let names = next_texts(call);
    let values = next_texts(call);
    let mut arguments = Vec::new(call.alloc);
    add_arguments(call, &mut arguments, &names, &values);
    let mut room = next_room(call);
    let told = plural_exports::packed_format(
        call.alloc, &cardinal, &ordinal, &block, &arguments, &mut room,
    );
    print_text(call, told, &room);
}

// The catalogue of a document's patterns.
fn messages(call: &mut Call) {
    let json = next_given(call);
    let locale = next_given(call);
    let mut room = next_room(call);
    let told = plural_exports::catalog_pack(call.alloc, &json, &locale, &mut room);
    print_bytes(call, told, &room);
}

// What the message under a key says.
fn say(call: &mut Call) {
    let cardinal = call.bytes();
    let ordinal = call.bytes();
    let catalog = call.bytes();
    let key = next_given(call);
    let names = next_texts(call);
    let values = next_texts(call);
    let mut arguments = Vec::new(call.alloc);
    add_arguments(call, &mut arguments, &names, &values);
    let mut room = next_room(call);
    let told = plural_exports::catalog_say(
        call.alloc, &cardinal, &ordinal, &catalog, &key, &arguments, &mut room,
    );
    print_text(call, told, &room);
}

// Adds the arguments of names and values, with the kinds of a list.
fn add_arguments<'a>(
    call: &mut Call,
    arguments: &mut Vec<GivenArgument<'a>>,
    names: &'a [Vec<u8>],
    values: &'a [Vec<u8>],
) {
    for (index, kind) in call.list().iter().enumerate() {
        let (Some(name), Some(value)) = (names.get(index), values.get(index)) else {
            return call.not("as many names, values and kinds");
        };
        let argument = GivenArgument {
            name,
            value,
            kind: argument_kind(call, kind),
        };
        call.add_item(arguments, argument);
    }
}

// The kind of an argument, from 0 to 4294967295.
fn argument_kind(call: &mut Call, kind: &Value) -> u32 {
    let number = call.number_of(kind);
    if number > 4294967295 {
        call.not("a kind");
        return 0;
    }
    number as u32
}
