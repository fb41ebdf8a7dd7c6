//! How the keys of messages and the bytes of patterns are printed.

ghost use Rattle.std.specs.Prelude.{◌≡◌, Some};
ghost use Rattle.plural_documents.specs.PrintedKeys.{key_text};
ghost use Rattle.message_report.specs.PrintedKeys.{bytes_text, message_text};

use plural_documents::{PrintedKey, printed_name};
use std::fmt;

// The most bytes that the key of a message prints.
const MOST_MESSAGE_BYTES: usize = 255;

// The key of a message, to be printed.
pub(crate) fn message_key(key: &str) -> PrintedKey<'_>
    ensures { key_text result.most result.key.now ≡ message_text key.now }
{
    PrintedKey {
        most: MOST_MESSAGE_BYTES,
        key,
    }
}

// Bytes of a pattern, to be printed.
#[derive(Drop)]
pub(crate) struct PrintedBytes<'a>(pub(crate) &'a [u8]);

impl fmt::Display for PrintedBytes<'_> {
    ghost output = { λ bytes. Some (bytes_text bytes.0.now) };

    fn fmt<W: fmt::Write>(&self, f: &mut fmt::Formatter<W>) -> fmt::Result {
        match std::str::from_utf8(self.0) {
            Ok(text) => write!(f, "{}", printed_name(text)),
            Err(_) => write!(f, "\\({} bytes)", self.0.len()),
        }
    }
}
