//! Readers and writers that take few bytes at a time.

use std::io;
use std::io::{Read, Write};

// What a reader has left, or what a writer still expects: it accepts these bytes and no others. A
// call moves at most this many.
#[derive(Drop)]
pub(crate) struct Pieces<'t> {
    left: &'t [u8],
    most: usize,
}

impl<'t> Pieces<'t> {
    // Returns a reader or a writer of the bytes.
    pub(crate) fn of(left: &'t [u8], most: usize) -> Pieces<'t> {
        Pieces { left, most }
    }

    // Whether all of the bytes were read or written.
    pub(crate) fn is_done(&self) -> bool {
        self.left.is_empty()
    }
}

impl<'t> Read for Pieces<'t> {
    fn read(&mut self, buf: &mut [u8]) -> io::Result<usize> {
        let most = buf.len().min(self.most);
        self.left.read(&mut buf[..most])
    }
}

impl<'t> Write for Pieces<'t> {
    fn write(&mut self, buf: &[u8]) -> io::Result<usize> {
        let most = buf.len().min(self.most);
        match self.left.strip_prefix(&buf[..most]) {
            Some(left) => {
                self.left = left;
                Ok(most)
            }
            None => Err(io::Error::from(io::ErrorKind::InvalidData)),
        }
    }

    fn flush(&mut self) -> io::Result<()> {
        Ok(())
    }
}
