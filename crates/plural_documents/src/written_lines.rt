//! Lines that are written as they are printed, without memory.

ghost use Rattle.std.specs.Prelude.{◌≡◌, ◌++◌, [], false, List, ℕ, Some, IfOk, OnErr, OnOk};
ghost use Rattle.std.specs.Io.KnownBytes.{Appends};
ghost use Rattle.plural_documents.specs.Inner.WaitingSteps.{TakesPrinted, TakesBehind, IsWaiting, begun_at};
ghost use Rattle.plural_documents.specs.Inputs.{IsPartWritten};
ghost use Rattle.plural_documents.specs.PrintedKeys.{ended_line};
ghost use Rattle.plural_documents.specs.WrittenLines.{lines_behind, shown_lines, waiting_bytes};

use crate::output::{OutputError, write_output};
use std::alloc::{AllocError, Global};
use std::fmt;
use std::fmt::Write as _;
use std::io::Write;

// The most bytes that wait.
const MOST_WAITING: usize = 16384;

/// Bytes that wait to be written: at most 16384.
#[derive(Debug, Drop)]
pub struct WaitingBytes {
    // The bytes. Their room stays what it was at first.
    bytes: Vec<u8>,
    // How many bytes of the line that is printed are passed over.
    skip: usize,
    // Whether a part of the line had no room.
    is_cut: bool,
}

impl WaitingBytes {
    /// Returns no bytes, and room for all that may wait. It allocates; the only error is out of
    /// memory.
    pub fn new(alloc: Global) -> Result<WaitingBytes, AllocError>
        ensures { IfOk result (λ waiting. waiting_bytes waiting ≡ []) }
    {
        let bytes = Vec::with_capacity(alloc, MOST_WAITING)?;
        Ok(WaitingBytes {
            bytes,
            skip: 0,
            is_cut: false,
        })
    }

    // TakesPrinted bytes, as far as there is room.
    fn take(&mut self, bytes: &[u8])
        requires { self.old.is_cut ≡ false }
        ensures { TakesBehind self.old bytes.now self.new × (self.new.skip ≡ self.old.skip) }
    {
        let room = self.bytes.capacity() - self.bytes.len();
        let count = room.min(bytes.len());
        self.is_cut = count < bytes.len();
        let Ok(()) = self.bytes.extend_from_slice(&bytes[..count]) else {
            unreachable!()
        };
    }

    // Prints a line from one of its bytes on, as far as there is room.
    fn print<T: fmt::Display>(&mut self, line: &T, start: usize) -> Result<(), OutputError>
        ensures { (text : List ℕ) → T.output line.now ≡ Some text → OnOk result (TakesPrinted (begun_at start self.old) (ended_line text) self.new) }
    {
        self.skip = start;
        self.is_cut = false;
        match write!(self, "{line}\n") {
            Ok(()) => Ok(()),
            Err(_) => Err(OutputError),
        }
    }
}

/// Writes the bytes that wait, the line of each thing, and the end, and doesn't flush. It takes no
/// memory.
///
/// The error: the writer failed, or took nothing, or a thing can't be printed. Then what it took
/// before is a beginning of these.
pub fn write_lines<T: fmt::Display, W: Write>(
    mut waiting: WaitingBytes,
    things: &[T],
    end: &str,
    writer: &mut W,
) -> Result<(), OutputError>
    ensures written { (line_of : T → List ℕ) → ((thing : T) → T.output thing ≡ Some (line_of thing))
        → OnOk result (Appends (W.contents writer.old) (W.contents writer.new) (lines_behind (waiting_bytes waiting) line_of things.now end.now)) }
    ensures part { (line_of : T → List ℕ) → ((thing : T) → T.output thing ≡ Some (line_of thing))
        → OnErr result (IsPartWritten (W.contents writer.old) (W.contents writer.new) (lines_behind (waiting_bytes waiting) line_of things.now end.now)) }
{
    print_lines(&mut waiting, things, writer)?;
    write_output(writer, waiting.bytes.as_slice())?;
    write_output(writer, end.as_bytes())
}

// Prints the line of each thing.
fn print_lines<T: fmt::Display, W: Write>(
    waiting: &mut WaitingBytes,
    things: &[T],
    writer: &mut W,
) -> Result<(), OutputError>
    ensures written { (line_of : T → List ℕ) → ((thing : T) → T.output thing ≡ Some (line_of thing))
        → OnOk result (IsWaiting (W.contents writer.old) (W.contents writer.new) waiting.new.bytes.items
        (waiting.old.bytes.items ++ shown_lines line_of things.now)) }
    ensures part { (line_of : T → List ℕ) → ((thing : T) → T.output thing ≡ Some (line_of thing))
        → OnErr result (IsPartWritten (W.contents writer.old) (W.contents writer.new) (waiting.old.bytes.items ++ shown_lines line_of things.now)) }
{
    for thing in things {
        print_line(waiting, thing, writer)?;
    }
    Ok(())
}

// Prints a line, and writes what waits as often as there is no room.
fn print_line<T: fmt::Display, W: Write>(
    waiting: &mut WaitingBytes,
    line: &T,
    writer: &mut W,
) -> Result<(), OutputError>
    ensures written { (text : List ℕ) → T.output line.now ≡ Some text
        → OnOk result (IsWaiting (W.contents writer.old) (W.contents writer.new) waiting.new.bytes.items (waiting.old.bytes.items ++ ended_line text)) }
    ensures part { (text : List ℕ) → T.output line.now ≡ Some text
        → OnErr result (IsPartWritten (W.contents writer.old) (W.contents writer.new) (waiting.old.bytes.items ++ ended_line text)) }
{
    let mut start = 0usize;
    for _ in 0..u64::MAX {
        let waited = waiting.bytes.len();
        waiting.print(line, start)?;
        if !waiting.is_cut {
            return Ok(());
        }
        let printed = waiting.bytes.len().saturating_sub(waited);
        let Some(next) = start.checked_add(printed) else {
            return Err(OutputError);
        };
        start = next;
        write_output(writer, waiting.bytes.as_slice())?;
        waiting.bytes.clear();
    }
    Err(OutputError)
}

impl fmt::Write for WaitingBytes {
    ghost write_str_gives = { TakesPrinted };

    fn write_str(&mut self, text: &str) -> fmt::Result {
        let bytes = text.as_bytes();
        if self.skip >= bytes.len() {
            self.skip -= bytes.len();
            return Ok(());
        }
        let skip = self.skip;
        self.skip = 0;
        if !self.is_cut {
            self.take(&bytes[skip..]);
        }
        Ok(())
    }
}
