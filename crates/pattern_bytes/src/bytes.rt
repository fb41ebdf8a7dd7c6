//! Runs of bytes of one class, white space and words.

ghost use Rattle.std.specs.Prelude.{◌≡◌, ◌≢◌, ◌∷◌, ◌≤◌, ◌<◌, ◌+◌, length, take, drop, IfSome, IfNone, None, Some};
ghost use Rattle.pattern_bytes.specs.PatternBytes.{is_digit, is_letter, is_in, begins, class_front, behind_run, white_width, after_white, after_word};

/// A class of bytes.
#[derive(Clone, Copy)]
pub enum Class {
    /// Of a name: letters and digits of ASCII, `_` and all above ASCII, but for white space.
    Name,
    /// Of a number: digits, `-` and `.`.
    Number,
    /// `0` to `9`.
    Digit,
    /// The letters of ASCII.
    Letter,
    /// Of plain text: all but `'`, `{`, `}` and `#`.
    Plain,
    /// Of quoted text: all but `'`.
    Unquoted,
}

#[inline(always)]
fn is_digit(byte: u8) -> bool
    ensures { result ≡ is_digit byte }
{
    b'0' <= byte && byte <= b'9'
}

#[inline(always)]
fn is_letter(byte: u8) -> bool
    ensures { result ≡ is_letter byte }
{
    b'A' <= byte && byte <= b'Z' || b'a' <= byte && byte <= b'z'
}

#[inline(always)]
fn is_in(class: Class, byte: u8) -> bool
    ensures { result ≡ is_in class byte }
{
    match class {
        Class::Name => is_letter(byte) || is_digit(byte) || byte == b'_' || 128 <= byte,
        Class::Number => is_digit(byte) || byte == b'-' || byte == b'.',
        Class::Digit => is_digit(byte),
        Class::Letter => is_letter(byte),
        // Most bytes are told by the first two ranges, whatever the script.
        Class::Plain => {
            b'\'' < byte && byte < b'{'
                || (byte < b'#' || b'}' < byte)
                || b'#' < byte && byte < b'\''
                || byte == b'|'
        }
        Class::Unquoted => !(byte == b'\''),
    }
}

// How many bytes the white space at the front has.
fn white_width(text: &[u8]) -> usize
    ensures width { result ≡ white_width text.now }
    ensures within { result ≤ length text.now }
{
    match text {
        [a, ..] if 9 <= *a && *a <= 13 || *a == b' ' => 1,
        [a, b, ..] if *a == 0xc2 && *b == 0x85 => 2,
        [a, b, c, ..]
            if (*a == 0xe2 && *b == 0x80)
                && (0x8e <= *c && *c <= 0x8f || 0xa8 <= *c && *c <= 0xa9) => 3,
        _ => 0,
    }
}

// A byte of the class begins the text; in a name white space doesn't. A byte of ASCII that is in a
// name begins none.
#[inline(always)]
fn begins(class: Class, text: &[u8]) -> bool
    ensures { result ≡ begins class text.now }
{
    let [first, ..] = text else {
        return false;
    };
    match class {
        Class::Name => is_in(class, *first) && (*first < 128 || white_width(text) == 0),
        _ => is_in(class, *first),
    }
}

// What follows the longest front of the class.
#[inline(always)]
fn behind_run(class: Class, text: &[u8]) -> &[u8]
    ensures rest { result.now ≡ behind_run class text.now }
    ensures shorter { length result.now ≤ length text.now }
{
    let mut rest = text;
    while let [_, after @ ..] = rest {
        if !begins(class, rest) {
            return rest;
        }
        rest = after;
    }
    rest
}

/// Returns the longest run of bytes of the class at the front of a text, and what follows it.
#[inline(always)]
pub fn split_run(class: Class, text: &[u8]) -> (&[u8], &[u8])
    ensures front { result.0.now ≡ class_front class text.now }
    ensures rest { result.1.now ≡ behind_run class text.now }
    ensures whole { length result.0.now + length result.1.now ≡ length text.now }
{
    text.split_at(text.len() - behind_run(class, text).len())
}

/// Returns what follows the white space at the front of a text: Unicode's Pattern_White_Space, in
/// UTF-8.
pub fn after_white(text: &[u8]) -> &[u8]
    ensures rest { result.now ≡ after_white text.now }
    ensures shorter { length result.now ≤ length text.now }
{
    let mut rest = text;
    'white: loop {
        let width = white_width(rest);
        if width == 0 {
            return rest;
        }
        rest = &rest[width..];
    }
}

/// Returns what follows the word, if it is at the front of a text.
pub fn after_word<'a>(word: &[u8], text: &'a [u8]) -> Option<&'a [u8]>
    ensures none { IfNone result (after_word word.now text.now ≡ None) }
    ensures some { IfSome result (λ rest. (after_word word.now text.now ≡ Some rest.now) × (length rest.now ≤ length text.now)) }
{
    let mut rest = text;
    for byte in word {
        let [next, after @ ..] = rest else {
            return None;
        };
        if byte != next {
            return None;
        }
        rest = after;
    }
    Some(rest)
}
