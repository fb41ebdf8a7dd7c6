//! Texts in quotation marks.

ghost use Rattle.std.specs.Prelude.{◌≡◌, ◌∷◌, ◌≤◌, ◌<◌, ◌+◌, length, IfOk, IfSome};
ghost use Rattle.po_catalog.specs.Quoted.{byte_of_letter, code_front, digit_value, escape_front, hexadecimal, hexadecimal_code, octal, of_byte, said_front};
ghost use Rattle.po_catalog.specs.ReadTexts.{ReadsTextExactly};
ghost use Rattle.po_catalog.specs.Inner.QuotedViews.{GoesOn, IsShorterBehindSaid, code_view, said_view};

use crate::fault::{Cause, ReadError};
use std::alloc::Global;

// What stands at the front of a text behind its quotation mark, and what follows it.
enum Said<'l> {
    // The mark that ends it.
    End(&'l [u8]),
    Byte(u8, &'l [u8]),
    Bad(Cause),
}

// The value of a hexadecimal digit, 16 of what is none.
#[tactic(auto, unfolding(crate::specs::Quoted::digit_value))]
fn digit_value(byte: u8) -> u8
    ensures value { result ≡ digit_value byte }
    ensures within { result ≤ 16 }
{
    if b'0' <= byte && byte <= b'9' {
        byte - b'0'
    } else if b'a' <= byte && byte <= b'f' {
        byte - b'a' + 10
    } else if b'A' <= byte && byte <= b'F' {
        byte - b'A' + 10
    } else {
        16
    }
}

// The code of hexadecimal digits of which the first one has this value, if it is a byte, and what
// follows them.
#[tactic(auto, using(crate::proofs::Codes::hexadecimal_digit, crate::proofs::Codes::hexadecimal_end, crate::proofs::Codes::of_byte_code, crate::proofs::Codes::too_large))]
fn hexadecimal_front(first: u8, text: &[u8]) -> Option<(u8, &[u8])>
    requires { first < 16 }
    ensures code { code_view result ≡ of_byte (hexadecimal first text.now) }
    ensures shorter { IfSome result (λ code. length code.1.now ≤ length text.now) }
{
    let mut code = first;
    let mut rest = text;
    while let [first, after @ ..] = rest {
        let value = digit_value(*first);
        if 16 <= value {
            return Some((code, rest));
        }
        if 16 <= code {
            return None;
        }
        code = code * 16 + value;
        rest = after;
    }
    Some((code, rest))
}

// The code of one to three octal digits, if it is a byte, and what follows them.
#[tactic(auto, using(crate::proofs::Codes::octal_digit, crate::proofs::Codes::octal_end, crate::proofs::Codes::of_byte_code))]
fn octal_front(first: u8, text: &[u8]) -> Option<(u8, &[u8])>
    requires { first < 8 }
    ensures code { code_view result ≡ of_byte (octal 2 first text.now) }
    ensures shorter { IfSome result (λ code. length code.1.now ≤ length text.now) }
{
    let [second, after @ ..] = text else {
        return Some((first, text));
    };
    let second = digit_value(*second);
    if 8 <= second {
        return Some((first, text));
    }
    third_octal(first * 8 + second, after)
}

// The code of octal digits of which a third one may follow, if it is a byte, and what follows them.
#[tactic(auto, using(crate::proofs::Codes::octal_digit, crate::proofs::Codes::octal_end, crate::proofs::Codes::of_byte_code, crate::proofs::Codes::of_byte_none))]
fn third_octal(code: u8, text: &[u8]) -> Option<(u8, &[u8])>
    requires { code < 64 }
    ensures code { code_view result ≡ of_byte (octal 1 code text.now) }
    ensures shorter { IfSome result (λ code. length code.1.now ≤ length text.now) }
{
    let [third, rest @ ..] = text else {
        return Some((code, text));
    };
    let third = digit_value(*third);
    if 8 <= third {
        return Some((code, text));
    }
    if code < 32 {
        Some((code * 8 + third, rest))
    } else {
        None
    }
}

// The byte of a letter or a mark behind a backslash.
#[tactic(auto, unfolding(crate::specs::Quoted::byte_of_letter))]
fn byte_of_letter(letter: u8) -> Option<u8>
    ensures { result ≡ byte_of_letter letter }
{
    match letter {
        b'n' => Some(b'\n'),
        b'"' => Some(b'"'),
        b'\\' => Some(b'\\'),
        b't' => Some(b'\t'),
        b'r' => Some(b'\r'),
        b'a' => Some(7),
        b'b' => Some(8),
        b'v' => Some(11),
        b'f' => Some(12),
        _ => None,
    }
}

// The code of hexadecimal digits.
fn hexadecimal_code(text: &[u8]) -> Option<(u8, &[u8])>
    ensures code { code_view result ≡ hexadecimal_code text.now }
    ensures shorter { IfSome result (λ code. length code.1.now ≤ length text.now) }
{
    let [first, rest @ ..] = text else {
        return None;
    };
    let value = digit_value(*first);
    if value < 16 {
        hexadecimal_front(value, rest)
    } else {
        None
    }
}

// The code behind a backslash, which begins with this byte.
fn code_front(first: u8, rest: &[u8]) -> Option<(u8, &[u8])>
    ensures code { code_view result ≡ code_front first rest.now }
    ensures shorter { IfSome result (λ code. length code.1.now ≤ length rest.now) }
{
    if first == b'x' {
        return hexadecimal_code(rest);
    }
    let value = digit_value(first);
    if value < 8 {
        octal_front(value, rest)
    } else {
        None
    }
}

// What stands behind a backslash.
fn escape_front(text: &[u8]) -> Said<'_>
    ensures front { said_view result ≡ escape_front text.now }
    ensures shorter { IsShorterBehindSaid result text.now }
{
    let [letter, rest @ ..] = text else {
        return Said::Bad(Cause::UnclosedText);
    };
    if let Some(byte) = byte_of_letter(*letter) {
        return Said::Byte(byte, rest);
    }
    match code_front(*letter, rest) {
        Some((byte, after)) => Said::Byte(byte, after),
        None => Said::Bad(Cause::UnknownEscape),
    }
}

// The front of a text.
#[inline(always)]
fn said_front(text: &[u8]) -> Said<'_>
    ensures front { said_view result ≡ said_front text.now }
    ensures shorter { IsShorterBehindSaid result text.now }
{
    match text {
        [] => Said::Bad(Cause::UnclosedText),
        [b'"', rest @ ..] => Said::End(rest),
        [b'\\', rest @ ..] => escape_front(rest),
        [byte, rest @ ..] => Said::Byte(*byte, rest),
    }
}

// Adds a text from behind its first mark on. Returns what follows the last one.
#[tactic(auto, using(crate::proofs::Sayings::out_of_memory))]
pub(crate) fn push_text<'l>(line: &'l [u8], text: &mut Vec<u8>) -> Result<&'l [u8], ReadError>
    ensures said { GoesOn line.now text.old.items text.new.items result }
    ensures shorter { IfOk result (λ rest. length rest.now < length line.now) }
{
    let mut rest = line;
    'said: loop {
        match said_front(rest) {
            Said::End(after) => return Ok(after),
            Said::Bad(cause) => return Err(ReadError::Fault(cause)),
            Said::Byte(byte, after) => {
                text.push(byte)?;
                rest = after;
            }
        }
    }
}

/// Reads a text from behind its first quotation mark on, as gettext's escapes say it, up to the next
/// mark. Returns its bytes, which its escapes may make no UTF-8, and what follows the mark. Memory is
/// taken for the bytes.
#[tactic(auto, using(crate::proofs::Sayings::ok_said, crate::proofs::Sayings::err_said))]
pub fn read_text(alloc: Global, line: &[u8]) -> Result<(Vec<u8>, &[u8]), ReadError>
    ensures { ReadsTextExactly line.now result }
{
    let mut text = Vec::new(alloc);
    let rest = push_text(line, &mut text)?;
    Ok((text, rest))
}
