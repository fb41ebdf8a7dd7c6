//! The names of files as URI references.

ghost use Rattle.std.specs.Prelude.{◌≡◌, ◌++◌, IfOk, OnOk, string_bytes};
ghost use Rattle.std.specs.List.{flat_map};
ghost use Rattle.finding_formats.specs.FileReferences.{file_reference, is_alphanumeric, is_path_byte, path_byte, path_start};

use percent_encoding::percent_encode_byte;
use std::alloc::{AllocError, Global};

// What stands in a path for itself, beside letters and digits of ASCII. A colon doesn't, since in a
// first segment it would end a scheme.
const PATH_MARKS: &[u8] = b"-._~!$&'()*+,;=@/";

/// Returns the name of a file as a URI reference (RFC 3986, section 4.2), as a log of SARIF has it.
/// It allocates; the only error is out of memory.
pub fn file_reference(alloc: Global, name: &str) -> Result<String, AllocError>
    ensures { IfOk result (λ text. string_bytes text ≡ file_reference name.now) }
{
    let bytes = name.as_bytes();
    let mut text = String::from_str(alloc, path_start(bytes))?;
    push_path(&mut text, bytes)?;
    Ok(text)
}

// What keeps the beginning of a path from being an authority.
fn path_start(name: &[u8]) -> &'static str
    ensures { result.now ≡ path_start name.now }
{
    if name.len() > 1 && name[0] == b'/' && name[1] == b'/' {
        "/."
    } else {
        ""
    }
}

// Appends the bytes of a path, with escapes.
fn push_path(text: &mut String, path: &[u8]) -> Result<(), AllocError>
    ensures { OnOk result (string_bytes text.new ≡ string_bytes text.old ++ flat_map path_byte path.now) }
{
    for byte in path {
        push_byte(text, *byte)?;
    }
    Ok(())
}

// Appends a byte of a path, or its escape.
fn push_byte(text: &mut String, byte: u8) -> Result<(), AllocError>
    ensures { OnOk result (string_bytes text.new ≡ string_bytes text.old ++ path_byte byte) }
{
    if is_path_byte(byte) {
        return text.push(byte as char);
    }
    text.push_str(percent_encode_byte(byte))
}

// Whether a byte stands in a path for itself.
fn is_path_byte(byte: u8) -> bool
    ensures { result ≡ is_path_byte byte }
{
    byte < 128 && (is_alphanumeric(byte) || PATH_MARKS.contains(&byte))
}

// Whether a byte is a letter or a digit of ASCII.
fn is_alphanumeric(byte: u8) -> bool
    ensures { result ≡ is_alphanumeric byte }
{
    byte >= 48 && byte <= 57 || byte >= 65 && byte <= 90 || byte >= 97 && byte <= 122
}
