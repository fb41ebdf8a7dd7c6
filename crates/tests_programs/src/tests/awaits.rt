//! Writers that know what they are to take.

use std::io::Write;
use std::{fmt, io};

// A writer that accepts these bytes and no others, without memory, and records whether it was
// flushed.
#[derive(Drop)]
pub(crate) struct Awaits<'t> {
    left: &'t [u8],
    flushed: bool,
}

// Returns a writer of these bytes, not flushed.
pub(crate) fn awaiting<'t>(text: &'t str) -> Awaits<'t> {
    Awaits {
        left: text.as_bytes(),
        flushed: false,
    }
}

impl<'t> Write for Awaits<'t> {
    fn write(&mut self, buf: &[u8]) -> io::Result<usize> {
        match self.left.strip_prefix(buf) {
            Some(left) => {
                self.left = left;
                Ok(buf.len())
            }
            None => Err(io::Error::from(io::ErrorKind::InvalidData)),
        }
    }

    fn flush(&mut self) -> io::Result<()> {
        self.flushed = true;
        Ok(())
    }
}

impl<'t> Awaits<'t> {
    // Whether all of the bytes were written, and it wasn't flushed.
    pub(crate) fn is_done(&self) -> bool {
        self.left.is_empty() && !self.flushed
    }

    // Whether none of this many bytes was written, and it wasn't flushed.
    pub(crate) fn is_untouched(&self, length: usize) -> bool {
        self.left.len() == length && !self.flushed
    }
}

// Returns whether the writer wasn't flushed and still expects the fault's status and text, and
// nothing else.
pub(crate) fn awaits_fault<'t, F: fmt::Display>(
    mut writer: Awaits<'t>,
    status: u8,
    fault: &F,
) -> bool {
    write!(writer, "{status}: {fault}\n").is_ok() && writer.is_done()
}
