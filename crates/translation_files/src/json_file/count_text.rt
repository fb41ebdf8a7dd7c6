//! The texts of i18next, where `{{count}}` is the number.

ghost use Rattle.std.specs.Prelude.{◌≤◌, ◌<◌, length, IfSome};

use crate::json_file::form_text::FormText;
use crate::json_file::text_bytes::{Class, after_byte, after_white, after_word, behind_run};
use crate::locale_name::text_of;
use std::alloc::{AllocError, Global};

// The text of a form in which `{{count}}`, `{{ count, number }}` and the like are the number.
pub(crate) fn count_text(alloc: Global, text: &str) -> Result<String, AllocError> {
    let mut form = FormText::new(alloc);
    match push_counts(&mut form, text.as_bytes()) {
        Ok(()) => form.text(alloc),
        Err(error) => Err(error),
    }
}

// Appends a text, in which the like are the number.
fn push_counts(form: &mut FormText, text: &[u8]) -> Result<(), AllocError> {
    let mut rest = text;
    while let [first, after @ ..] = rest {
        if let Some(behind) = after_count(rest) {
            form.push_number()?;
            rest = behind;
        } else {
            form.push(*first)?;
            rest = after;
        }
    }
    Ok(())
}

// What follows the number, if it is at the front.
fn after_count(text: &[u8]) -> Option<&[u8]>
    ensures { IfSome result (λ rest. length rest.now < length text.now) }
{
    let text = after_word(b"{{", text)?;
    let text = after_byte(b'-', text).unwrap_or(text);
    let text = after_white(after_word(b"count", after_white(text))?);
    let text = match after_byte(b',', text) {
        Some(format) => behind_run(Class::BetweenBraces, format),
        None => text,
    };
    after_byte(b'}', after_byte(b'}', text)?)
}

// The number as it is written first in a text, if it is in it.
pub(crate) fn first_count(text: &str) -> Option<&str> {
    let mut rest = text.as_bytes();
    while let [_, after @ ..] = rest {
        if let Some(behind) = after_count(rest) {
            return Some(text_of(&rest[..rest.len() - behind.len()]));
        }
        rest = after;
    }
    None
}
