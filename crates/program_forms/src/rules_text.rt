//! The bytes of rules, and where they are no JSON text.

use form_commands::FormsError;
use serde_json::Value;
use std::alloc::Global;

// A place in a text: its line and its column in bytes, from 1 on.
#[derive(Clone, Copy)]
pub(crate) struct JsonPlace {
    pub(crate) line: usize,
    pub(crate) column: usize,
}

// Why there is no answer by rules.
#[derive(Drop)]
pub(crate) enum RulesFault {
    // They are no JSON text, from this line and column on.
    Json(usize, usize),
    // Something else.
    Other(FormsError),
}

// Where bytes are no JSON text; 0 if they are one, or memory runs out.
pub(crate) fn json_place(alloc: Global, bytes: &[u8]) -> JsonPlace {
    match Value::from_slice(alloc, bytes) {
        Ok(_) => JsonPlace { line: 0, column: 0 },
        Err(fault) => JsonPlace {
            line: fault.line(),
            column: fault.column(),
        },
    }
}

// Why there is no answer by the rules in these bytes.
pub(crate) fn fault_in(alloc: Global, bytes: &[u8], error: FormsError) -> RulesFault {
    match error {
        FormsError::Json => {
            let place = json_place(alloc, bytes);
            RulesFault::Json(place.line, place.column)
        }
        error => RulesFault::Other(error),
    }
}
