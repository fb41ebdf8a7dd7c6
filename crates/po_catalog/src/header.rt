//! The fields of a header.

ghost use Rattle.std.specs.Prelude.{◌≡◌, option_copied};
ghost use Rattle.po_catalog.specs.Headers.{charset_in, field_in, is_named, trimmed, unless_empty, value_in};

use crate::bytes::{cut_at, first_flag};

// The value of the first field of this name that has one.
pub(crate) fn field_in<'h>(header: &'h [u8], name: &[u8]) -> Option<&'h [u8]>
    ensures { option_copied result ≡ field_in name.now header.now }
{
    let mut rest = header;
    'lines: loop {
        let (line, after) = cut_at(b'\n', rest);
        match value_in(line, name) {
            Some(value) => return Some(value),
            None => rest = after?,
        }
    }
}

// The value of a line, if its field has this name, and a value.
fn value_in<'h>(line: &'h [u8], name: &[u8]) -> Option<&'h [u8]>
    ensures { option_copied result ≡ value_in name.now line.now }
{
    let (found, value) = cut_at(b':', line);
    if is_named(found, name) {
        unless_empty(trimmed(value?))
    } else {
        None
    }
}

// Whether the text is the name, without white space around it, and without regard to case.
fn is_named(found: &[u8], name: &[u8]) -> bool
    ensures { result ≡ is_named found.now name.now }
{
    trimmed(found).eq_ignore_ascii_case(name)
}

// The text without white space around it.
fn trimmed(text: &[u8]) -> &[u8]
    ensures { result.now ≡ trimmed text.now }
{
    text.trim_ascii()
}

// The text, if it is any byte.
fn unless_empty(text: &[u8]) -> Option<&[u8]>
    ensures { option_copied result ≡ unless_empty text.now }
{
    match text {
        [] => None,
        _ => Some(text),
    }
}

// The word behind the first `charset=`.
pub(crate) fn charset_in(content_type: &[u8]) -> Option<&[u8]>
    ensures { option_copied result ≡ charset_in content_type.now }
{
    let mut rest = content_type;
    'places: loop {
        if let Some(charset) = rest.strip_prefix(b"charset=") {
            let (word, _) = cut_at(b';', charset);
            return Some(first_flag(word).0);
        }
        let [_, after @ ..] = rest else {
            return None;
        };
        rest = after;
    }
}
