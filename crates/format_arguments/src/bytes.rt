//! Classes of bytes, and their runs.

ghost use Rattle.std.specs.Prelude.{◌≡◌, ◌≤◌, ◌<◌, ◌+◌, length, IfSome, IfNone, None, Some, true, false};
ghost use Rattle.format_arguments.specs.DirectiveBytes.{after_directive_word, begins_with, behind_first_byte, behind_directive_run, is_directive_digit, is_in_directive_class, is_directive_letter, is_of_field, is_of_word, run_front};
ghost use Rattle.format_arguments.specs.DirectiveTables.{is_one_of};

use crate::format::Format;
use crate::table::{flags_of, sizes_of};

/// A class of bytes.
#[derive(Clone, Copy)]
pub(crate) enum Class {
    Digit,
    Letter,
    Flag(Format),
    Size(Format),
    Field(Format),
    Macro,
    Name,
    Barred,
    Unquoted,
}

// Whether the byte is among these.
#[tactic(auto, unfolding(crate::specs::DirectiveTables::is_one_of))]
pub(crate) fn is_one_of(bytes: &[u8], byte: u8) -> bool
    ensures { result ≡ is_one_of bytes.now byte }
{
    bytes.iter().any(|x| *x == byte)
}

pub(crate) fn is_digit(byte: u8) -> bool
    ensures { result ≡ is_directive_digit byte }
{
    b'0' <= byte && byte <= b'9'
}

fn is_letter(byte: u8) -> bool
    ensures { result ≡ is_directive_letter byte }
{
    b'a' <= byte && byte <= b'z' || b'A' <= byte && byte <= b'Z'
}

pub(crate) fn is_of_word(byte: u8) -> bool
    ensures { result ≡ is_of_word byte }
{
    is_letter(byte) || is_digit(byte) || byte == b'_'
}

fn is_of_field(format: Format, byte: u8) -> bool
    ensures { result ≡ is_of_field format byte }
{
    match format {
        Format::PythonBrace => is_of_word(byte) || is_one_of(b".[]", byte),
        Format::Java => is_digit(byte),
        _ => is_of_word(byte),
    }
}

fn is_in(class: Class, byte: u8) -> bool
    ensures { result ≡ is_in_directive_class class byte }
{
    match class {
        Class::Digit => is_digit(byte),
        Class::Letter => is_letter(byte),
        Class::Flag(format) => is_one_of(flags_of(format), byte),
        Class::Size(format) => is_one_of(sizes_of(format), byte),
        Class::Field(format) => is_of_field(format, byte),
        Class::Macro => b'A' <= byte && byte <= b'Z' || is_digit(byte),
        Class::Name => !(byte == b'(' || byte == b')'),
        Class::Barred => !(byte == b'|'),
        Class::Unquoted => !(byte == b'\''),
    }
}

// What follows the longest front of the class.
pub(crate) fn behind_run(class: Class, text: &[u8]) -> &[u8]
    ensures rest { result.now ≡ behind_directive_run class text.now }
    ensures shorter { length result.now ≤ length text.now }
{
    let mut rest = text;
    while let [first, after @ ..] = rest {
        if !is_in(class, *first) {
            return rest;
        }
        rest = after;
    }
    rest
}

// The longest front of the class, and what follows it.
pub(crate) fn split_run(class: Class, text: &[u8]) -> (&[u8], &[u8])
    ensures front { result.0.now ≡ run_front class text.now }
    ensures rest { result.1.now ≡ behind_directive_run class text.now }
    ensures whole { length result.0.now + length result.1.now ≡ length text.now }
{
    text.split_at(text.len() - behind_run(class, text).len())
}

// What follows the first byte.
pub(crate) fn behind_first(text: &[u8]) -> &[u8]
    ensures rest { result.now ≡ behind_first_byte text.now }
    ensures shorter { 0 < length text.now → length result.now < length text.now }
    ensures within { length result.now ≤ length text.now }
{
    match text {
        [_, rest @ ..] => rest,
        [] => b"",
    }
}

// What follows the byte, if it is at the front.
pub(crate) fn after_byte(byte: u8, text: &[u8]) -> Option<&[u8]>
    ensures none { IfNone result (begins_with byte text.now ≡ false) }
    ensures some { IfSome result (λ rest. (begins_with byte text.now ≡ true) × (rest.now ≡ behind_first_byte text.now)) }
    ensures shorter { IfSome result (λ rest. length rest.now + 1 ≡ length text.now) }
{
    match text {
        [first, rest @ ..] if *first == byte => Some(rest),
        _ => None,
    }
}

// What follows the word, if it is at the front.
pub(crate) fn after_word<'t>(word: &[u8], text: &'t [u8]) -> Option<&'t [u8]>
    ensures none { IfNone result (after_directive_word word.now text.now ≡ None) }
    ensures some { IfSome result (λ rest. (after_directive_word word.now text.now ≡ Some rest.now) × (length rest.now ≤ length text.now)) }
{
    let mut rest = text;
    for byte in word {
        let [next, after @ ..] = rest else {
            return None;
        };
        if byte != next {
            return None;
        }
        rest = after;
    }
    Some(rest)
}
