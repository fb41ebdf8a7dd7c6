//! Writers that take few bytes, and then fail.

use std::io;
use std::io::Write;

// A writer that takes one byte per call, `left` times. Then it refuses each call, or takes no byte.
// Its first calls are interrupted. It records the calls after one that took nothing, and the
// flushes.
#[derive(Drop)]
pub(crate) struct Taking {
    pub(crate) left: usize,
    refuses: bool,
    interrupts: usize,
    failed: bool,
    further: usize,
    flushed: bool,
}

impl Write for Taking {
    fn write(&mut self, buf: &[u8]) -> io::Result<usize> {
        if self.failed {
            self.further = self.further.saturating_add(1);
        }
        if self.interrupts > 0 {
            self.interrupts -= 1;
            return Err(io::Error::from(io::ErrorKind::Interrupted));
        }
        if self.left > 0 {
            self.left -= 1;
            return Ok(buf.len().min(1));
        }
        self.failed = true;
        if self.refuses {
            return Err(io::Error::from(io::ErrorKind::BrokenPipe));
        }
        Ok(0)
    }

    fn flush(&mut self) -> io::Result<()> {
        self.flushed = true;
        Ok(())
    }
}

impl Taking {
    // Returns a writer that takes this many bytes, and then refuses or takes none.
    pub(crate) fn some(left: usize, refuses: bool) -> Taking {
        Taking {
            left,
            refuses,
            interrupts: 2,
            failed: false,
            further: 0,
            flushed: false,
        }
    }

    // Whether it was left alone after a call that took nothing, and wasn't flushed.
    pub(crate) fn is_left_alone(&self) -> bool {
        self.further == 0 && !self.flushed
    }
    // Whether no call was made but the interrupted ones that each writer expects first.
    pub(crate) fn is_untouched(&self) -> bool {
        self.interrupts == 2 && !self.failed && !self.flushed
    }
}
