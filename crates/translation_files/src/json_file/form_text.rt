//! The text of a form as a document has it: `{}` is the number.

use crate::pushed::push;
use std::alloc::{AllocError, Global};

// Such a text, as it is made.
#[derive(Drop)]
pub(crate) struct FormText {
    bytes: Vec<u8>,
    // Whether the last byte is a brace of the text that may open.
    is_open: bool,
}

impl FormText {
    // No text yet.
    pub(crate) fn new(alloc: Global) -> FormText {
        FormText {
            bytes: Vec::new(alloc),
            is_open: false,
        }
    }

    // Adds a byte of the file's text: a `{}` that isn't the number becomes `{ }`.
    pub(crate) fn push(&mut self, byte: u8) -> Result<(), AllocError> {
        if self.is_open && byte == b'}' {
            push(&mut self.bytes, b' ')?;
        }
        self.is_open = byte == b'{';
        push(&mut self.bytes, byte)
    }

    // Adds bytes of the file's text.
    pub(crate) fn push_text(&mut self, text: &[u8]) -> Result<(), AllocError> {
        for byte in text {
            self.push(*byte)?;
        }
        Ok(())
    }

    // Adds the number.
    pub(crate) fn push_number(&mut self) -> Result<(), AllocError> {
        self.is_open = false;
        self.bytes.extend_from_slice(b"{}")
    }

    // The text.
    pub(crate) fn text(&self, alloc: Global) -> Result<String, AllocError> {
        String::from_utf8_lossy(alloc, &self.bytes)
    }
}
