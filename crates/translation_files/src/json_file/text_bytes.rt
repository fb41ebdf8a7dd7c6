//! White space, digits and words in the bytes of texts.

ghost use Rattle.std.specs.Prelude.{◌≡◌, ◌≤◌, ◌<◌, ◌+◌, length, IfSome};

// A class of bytes.
#[derive(Clone, Copy)]
pub(crate) enum Class {
    White,
    Digit,
    Letter,
    // What names an argument of an ICU pattern.
    Name,
    // What a word has: letters, digits, `_`, and all that isn't ASCII.
    Word,
    // All but braces.
    BetweenBraces,
    // All but `%`.
    Plain,
    // All but the ends of tags.
    OfTag,
    // The flags of a directive of Java's formats.
    Flag,
}

fn is_white(byte: u8) -> bool {
    byte == b' ' || 9 <= byte && byte <= 13
}

fn is_digit(byte: u8) -> bool {
    b'0' <= byte && byte <= b'9'
}

fn is_letter(byte: u8) -> bool {
    b'a' <= byte && byte <= b'z' || b'A' <= byte && byte <= b'Z'
}

fn is_brace(byte: u8) -> bool {
    byte == b'{' || byte == b'}'
}

fn is_flag(byte: u8) -> bool {
    match byte {
        b'-' | b'+' | b' ' | b'#' | b'0' | b',' | b'(' => true,
        _ => false,
    }
}

// Whether a byte is of a class.
pub(crate) fn is_in(class: Class, byte: u8) -> bool {
    match class {
        Class::White => is_white(byte),
        Class::Digit => is_digit(byte),
        Class::Letter => is_letter(byte),
        Class::Name => !is_white(byte) && !is_brace(byte) && byte != b',',
        Class::Word => is_letter(byte) || is_digit(byte) || byte == b'_' || 128 <= byte,
        Class::BetweenBraces => !is_brace(byte),
        Class::Plain => byte != b'%',
        Class::OfTag => byte != b'<' && byte != b'>',
        Class::Flag => is_flag(byte),
    }
}

// What follows the longest front of a class.
pub(crate) fn behind_run(class: Class, text: &[u8]) -> &[u8]
    ensures { length result.now ≤ length text.now }
{
    let mut rest = text;
    while let [first, after @ ..] = rest {
        if !is_in(class, *first) {
            return rest;
        }
        rest = after;
    }
    rest
}

// The longest front of a class, and what follows it.
pub(crate) fn split_run(class: Class, text: &[u8]) -> (&[u8], &[u8])
    ensures { length result.0.now + length result.1.now ≡ length text.now }
{
    text.split_at(text.len() - behind_run(class, text).len())
}

// What stands in a text before its rest.
pub(crate) fn before<'t>(text: &'t [u8], rest: &[u8]) -> &'t [u8] {
    &text[..text.len().saturating_sub(rest.len())]
}

// What follows the white space at the front.
pub(crate) fn after_white(text: &[u8]) -> &[u8]
    ensures { length result.now ≤ length text.now }
{
    behind_run(Class::White, text)
}

// What follows a byte, if it is at the front.
pub(crate) fn after_byte(byte: u8, text: &[u8]) -> Option<&[u8]>
    ensures { IfSome result (λ rest. length rest.now < length text.now) }
{
    match text {
        [first, rest @ ..] if *first == byte => Some(rest),
        _ => None,
    }
}

// What follows the word, if it is at the front.
pub(crate) fn after_word<'a>(word: &[u8], text: &'a [u8]) -> Option<&'a [u8]>
    ensures { IfSome result (λ rest. length rest.now ≤ length text.now) }
{
    let mut rest = text;
    for byte in word {
        let [next, after @ ..] = rest else {
            return None;
        };
        if byte != next {
            return None;
        }
        rest = after;
    }
    Some(rest)
}
