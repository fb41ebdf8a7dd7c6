//! Catalogues of messages.

use crate::kinds::pattern_texts::{add_numbers, add_texts, print_outcome};
use message_catalog::{MessageCatalog, MessageText, PackMessagesError, SayError, pack};
use message_format::Rules;
use row_calls::call::Call;
use std::fmt::Write;

/// Makes the call of a kind of this file. Returns whether there is such a kind.
pub fn make(kind: &str, call: &mut Call) -> bool {
    match kind {
        "message_catalog" => message_catalog(call),
        "message_catalog_refused" => message_catalog_refused(call),
        "message_catalog_keys" => message_catalog_keys(call),
        "message_catalog_error" => message_catalog_error(call),
        "message_catalog_beginnings" => message_catalog_beginnings(call),
        "catalog_says" => catalog_says(call),
        _ => return false,
    }
    true
}

// The bytes of messages: keys, each with the text of its pattern behind it.
fn packed(call: &mut Call) -> Result<Vec<u8>, PackMessagesError> {
    let texts = call.texts();
    let mut messages = Vec::new(call.alloc);
    for pair in texts.chunks_exact(2) {
        if let [key, text] = pair {
            let message = MessageText {
                key: key.as_bytes(),
                text: text.as_bytes(),
            };
            call.add_item(&mut messages, message);
        }
    }
    pack(call.alloc, &messages)
}

// The same, if there is no error.
fn block(call: &mut Call) -> Option<Vec<u8>> {
    match packed(call) {
        Ok(bytes) => Some(bytes),
        Err(error) => {
            call.print_error(&error);
            None
        }
    }
}

// The bytes of messages, if these are read as a catalogue.
fn message_catalog(call: &mut Call) {
    if let Some(bytes) = block(call) {
        match MessageCatalog::parse_bytes(&bytes) {
            Ok(catalog) if catalog.as_bytes() != bytes.as_slice() => call.print("other bytes"),
            Ok(_) => call.print_bytes(&bytes),
            Err(error) => call.print_error(&error),
        }
    }
}

// The text of the error of messages that aren't packed.
fn message_catalog_refused(call: &mut Call) {
    match packed(call) {
        Ok(_) => call.print("none"),
        Err(error) => call.print_value(&error),
    }
}

// The keys in bytes, each with how many parts its pattern has.
fn message_catalog_keys(call: &mut Call) {
    let bytes = call.bytes();
    match MessageCatalog::parse_bytes(&bytes) {
        Ok(catalog) => {
            for index in 0..catalog.len() {
                if let Some(key) = catalog.key(index) {
                    let count = match catalog.pattern(key) {
                        Some(pattern) => pattern.len(),
                        None => 0,
                    };
                    call.separate(" ");
                    let key = std::str::from_utf8(key).unwrap_or("?");
                    let _ = write!(call, "{key}:{count}");
                }
            }
            call.print_none_if_empty();
        }
        Err(error) => call.print_error(&error),
    }
}

// The text of the fault of bytes.
fn message_catalog_error(call: &mut Call) {
    let bytes = call.bytes();
    match MessageCatalog::parse_bytes(&bytes) {
        Ok(_) => call.print("none"),
        Err(error) => call.print_value(&error),
    }
}

// What the beginnings of a catalogue's bytes are, from none to all but the last byte: how many are
// refused, and how many are catalogues.
fn message_catalog_beginnings(call: &mut Call) {
    if let Some(bytes) = block(call) {
        let mut refused: u64 = 0;
        let mut accepted: u64 = 0;
        for count in 0..bytes.len() {
            match MessageCatalog::parse_bytes(&bytes[..count]) {
                Ok(_) => accepted = accepted.wrapping_add(1),
                Err(_) => refused = refused.wrapping_add(1),
            }
        }
        let _ = write!(call, "{refused} refused, {accepted} catalogues");
    }
}

// What the message under a key says, between quotes, or its fault.
fn catalog_says(call: &mut Call) {
    let block = block(call);
    let key = call.text();
    let numbers = call.texts();
    let texts = call.texts();
    let cardinal = call.plural_rules();
    let ordinal = call.plural_rules();
    let rules = Rules {
        cardinal: &cardinal,
        ordinal: &ordinal,
    };
    let mut arguments = Vec::new(call.alloc);
    add_numbers(call, &mut arguments, &numbers);
    add_texts(call, &mut arguments, &texts);
    let Some(bytes) = block else {
        return;
    };
    match MessageCatalog::parse_bytes(&bytes) {
        Ok(catalog) => match catalog.say(call.alloc, key.as_bytes(), &arguments, &rules) {
            Ok(said) => print_outcome(call, Ok(said)),
            Err(SayError::Format(error)) => print_outcome(call, Err(error)),
            Err(SayError::NoKey) => call.print_value(&SayError::NoKey),
        },
        Err(error) => call.print_error(&error),
    }
}
