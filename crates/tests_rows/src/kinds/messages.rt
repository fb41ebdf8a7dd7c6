//! Messages with a number in them.

use icu_plurals::PluralRules;
use icu_plurals::provider::PluralElementsPackedCow;
use plural_message::{Message, MessageError};
use row_calls::call::Call;

/// Makes the call of a kind of this file. Returns whether there is such a kind.
pub fn make(kind: &str, call: &mut Call) -> bool {
    match kind {
        "message" => message(call),
        "message_with" => message_with(call),
        _ => return false,
    }
    true
}

// The message of a number.
fn message(call: &mut Call) {
    if let Some(packed) = call.packed() {
        let rules = call.plural_rules();
        print_filled(call, &Message::new(packed.as_packed()), &rules);
    }
}

// Prints the message of the number in the next argument.
fn print_filled(call: &mut Call, message: &Message<'_>, rules: &PluralRules<'_>) {
    let number = call.text();
    let filled = message.format(call.alloc, number.as_str(), rules);
    call.print_said(filled);
}

// The message of a number that was read before, with a text that shows it.
fn message_with(call: &mut Call) {
    if let Some(packed) = call.packed() {
        let rules = call.plural_rules();
        print_with(call, &Message::new(packed.as_packed()), &rules);
    }
}

// Prints the message of a number that was read before, with a text that shows it.
fn print_with(call: &mut Call, message: &Message<'_>, rules: &PluralRules<'_>) {
    let number = call.compact();
    let text = call.text();
    if let Some(number) = number {
        let filled = message.format_number(call.alloc, &number, text.as_str(), rules);
        let filled = call.made(filled);
        call.print_quoted(filled.as_str());
    }
}
