//! How the keys of a document are printed.

ghost use Rattle.std.specs.Prelude.{◌≡◌, ◌+◌, ◌*◌, ◌<◌, Some, IfOk, MatchOption, length, string_bytes};
ghost use Rattle.std.specs.Char.{digit_char, encode_utf8};
ghost use Rattle.std.specs.Fmt.{DisplaysOnOk};
ghost use Rattle.std.specs.List.{flat_map};
ghost use Rattle.plural_documents.specs.PrintedKeys.{byte_escape, escaped_key, is_plain, key_text, length_text};
ghost use Rattle.plural_documents.specs.PrintedKeys.{name_text, printed_byte};

use std::alloc::{AllocError, Global};
use std::{fmt, str};

// The most bytes that a name prints.
const MOST_NAME_BYTES: usize = 64;

/// A key that is printed in at most so many bytes: as it is, with `\x` and two hexadecimal digits
/// for each control character of ASCII and each backslash, or `\(300 bytes)` for one that has or
/// would print more.
#[derive(Clone, Copy, Debug)]
pub struct PrintedKey<'a> {
    /// The most bytes.
    pub most: usize,
    /// The key.
    pub key: &'a str,
}

impl fmt::Display for PrintedKey<'_> {
    ghost output = { λ it. Some (key_text it.most it.key.now) };

    fn fmt<W: fmt::Write>(&self, f: &mut fmt::Formatter<W>) -> fmt::Result {
        match escapes_within(self.most, self.key) {
            None => write!(f, "\\({} bytes)", self.key.len()),
            Some(0) => f.write_str(self.key),
            Some(_) => write_escaped(self.key, f),
        }
    }
}

/// Returns a name, to be printed in at most 64 bytes.
pub fn printed_name(name: &str) -> PrintedKey<'_>
    ensures { key_text result.most result.key.now ≡ name_text name.now }
{
    PrintedKey {
        most: MOST_NAME_BYTES,
        key: name,
    }
}

/// Returns what is printed for a name in at most 64 bytes. It allocates; the only error is out of
/// memory.
pub fn name_text(alloc: Global, name: &str) -> Result<String, AllocError>
    ensures { IfOk result (λ text. string_bytes text ≡ name_text name.now) }
{
    key_text(alloc, MOST_NAME_BYTES, name)
}

/// Returns what is printed for a key in at most so many bytes ([`PrintedKey`]). It allocates; the
/// only error is out of memory.
pub fn key_text(alloc: Global, most: usize, key: &str) -> Result<String, AllocError>
    ensures { IfOk result (λ text. string_bytes text ≡ key_text most key.now) }
{
    PrintedKey { most, key }.to_string(alloc)
}

// How many bytes of a key are printed as escapes, unless it has or would print more than the most.
fn escapes_within(most: usize, key: &str) -> Option<usize>
    ensures { MatchOption result
        (key_text most key.now ≡ length_text key.now)
        (λ count. (key_text most key.now ≡ escaped_key key.now) × (length (escaped_key key.now) ≡ length key.now + 3 * count)) }
{
    if key.len() > most {
        return None;
    }
    let count = escape_count(key);
    if count > (most - key.len()) / 3 {
        return None;
    }
    Some(count)
}

// How many bytes of a key are printed as escapes.
fn escape_count(key: &str) -> usize
    ensures { length (escaped_key key.now) ≡ length key.now + 3 * result }
{
    let mut count = 0;
    for byte in key.as_bytes() {
        if !is_plain(*byte as u32) {
            count += 1;
        }
    }
    count
}

// Writes a key, with escapes.
fn write_escaped<W: fmt::Write>(key: &str, f: &mut fmt::Formatter<W>) -> fmt::Result
    ensures { DisplaysOnOk W.write_str_gives f.old result (Some (escaped_key key.now)) f.new }
{
    for c in key.chars() {
        write_char(c, f)?;
    }
    Ok(())
}

// Writes a character, or its escape.
fn write_char<W: fmt::Write>(c: char, f: &mut fmt::Formatter<W>) -> fmt::Result
    ensures { DisplaysOnOk W.write_str_gives f.old result (Some (flat_map printed_byte (encode_utf8 c))) f.new }
{
    if is_plain(c as u32) {
        return f.write_char(c);
    }
    write_escape(c as u32 as u8, f)
}

// Whether a character is printed as it is.
fn is_plain(c: u32) -> bool
    ensures { result ≡ is_plain c }
{
    c >= 32 && c != 92 && c != 127
}

// Writes the escape of a byte, as one text.
fn write_escape<W: fmt::Write>(byte: u8, f: &mut fmt::Formatter<W>) -> fmt::Result
    ensures { DisplaysOnOk W.write_str_gives f.old result (Some (byte_escape byte)) f.new }
{
    let escape = [b'\\', b'x', digit(byte / 16), digit(byte % 16)];
    match str::from_utf8(&escape) {
        Ok(text) => f.write_str(text),
        Err(_) => unreachable!(),
    }
}

// A hexadecimal digit.
fn digit(number: u8) -> u8
    requires { number < 16 }
    ensures value { result ≡ digit_char number }
    ensures ascii { result < 128 }
{
    if number < 10 {
        b'0' + number
    } else {
        b'a' - 10 + number
    }
}
