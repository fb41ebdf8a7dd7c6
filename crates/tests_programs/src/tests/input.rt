//! Readers that fail, and long inputs.

use std::io;
use std::io::Read;

// The most bytes that an input may have.
pub(crate) const MOST: usize = 4_194_304;

// A reader of a text and then a number of spaces, which ends or fails after them; its first calls
// are interrupted. It records how often it failed.
#[derive(Drop)]
pub(crate) struct Input<'a> {
    text: &'a [u8],
    pub(crate) spaces: usize,
    fails: bool,
    pub(crate) interrupts: usize,
    pub(crate) failures: usize,
}

impl<'a> Read for Input<'a> {
    fn read(&mut self, buf: &mut [u8]) -> io::Result<usize> {
        if self.interrupts > 0 {
            self.interrupts -= 1;
            return Err(io::Error::from(io::ErrorKind::Interrupted));
        }
        if !self.text.is_empty() {
            return self.text.read(buf);
        }
        if self.spaces == 0 && self.fails {
            self.failures = self.failures.saturating_add(1);
            return Err(io::Error::from(io::ErrorKind::BrokenPipe));
        }
        let count = buf.len().min(self.spaces);
        buf[..count].fill(b' ');
        self.spaces -= count;
        Ok(count)
    }
}

impl<'a> Input<'a> {
    // Returns a reader of the text, or one that fails at each call if there is none.
    pub(crate) fn of(text: Option<&'a [u8]>) -> Input<'a> {
        Input {
            text: text.unwrap_or(b""),
            spaces: 0,
            fails: text.is_none(),
            interrupts: 0,
            failures: 0,
        }
    }

    pub(crate) fn failing() -> Input<'static> {
        Input::of(None)
    }
    // Returns a reader of the text and spaces up to a length, which ends or fails after them.
    pub(crate) fn up_to(text: &'a [u8], length: usize, fails: bool) -> Input<'a> {
        Input {
            text,
            spaces: length.saturating_sub(text.len()),
            fails,
            interrupts: 0,
            failures: 0,
        }
    }
}
