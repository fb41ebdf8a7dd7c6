//! The keys that stand more than once in an object of a JSON text.

use plural_documents::{JsonTextError, KeyPath, Scratch, repeated_keys};
use row_calls::call::Call;

/// Makes the call of a kind of this file. Returns whether there is such a kind.
pub fn make(kind: &str, call: &mut Call) -> bool {
    match kind {
        "repeated_keys" => keys(call),
        _ => return false,
    }
    true
}

// The keys, each behind those that lead to its object, or why there are none.
fn keys(call: &mut Call) {
    let text = call.text();
    let mut scratch = Scratch::new(call.alloc);
    match repeated_keys(call.alloc, text.as_bytes(), &mut scratch) {
        Ok(found) => {
            for repeated in found.iter() {
                call.separate(" | ");
                print_path(call, repeated.path);
                call.print(repeated.key);
            }
            call.print_none_if_empty();
        }
        Err(JsonTextError::Json) => call.print("no JSON"),
        Err(JsonTextError::Memory) => call.out_of_memory(),
    }
}

// Prints the keys of a path, each with a point behind it.
fn print_path(call: &mut Call, path: KeyPath<'_>) {
    match path {
        KeyPath::Outermost => {}
        KeyPath::One(first) => print_key(call, first),
        KeyPath::Two(first, second) => {
            print_key(call, first);
            print_key(call, second);
        }
        KeyPath::Three(first, second, third) => {
            print_key(call, first);
            print_key(call, second);
            print_key(call, third);
        }
    }
}

// Prints a key of a path.
fn print_key(call: &mut Call, key: &str) {
    call.print(key);
    call.print(".");
}
