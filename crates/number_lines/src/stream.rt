//! The lines of an input, answered as they are read.

ghost use Rattle.std.specs.Prelude.{◌≡◌, ◌∷◌, ◌++◌, ◌<◌, [], IfErr, IfOk, OnOk, length};
ghost use Rattle.std.specs.Io.KnownBytes.{Appends};
ghost use Rattle.number_lines.specs.AnsweredInputs.{AnswersInput};
ghost use Rattle.number_lines.specs.InputLines.{HasNoEnd};
ghost use Rattle.number_lines.specs.Inner.LineSteps.{EndsByCategory, EndsLine, Forgets, KeepsBytes, TakesBytes, TakesFrontBytes};
ghost use Rattle.number_lines.specs.Inner.StreamSteps.{FinishesLines, TakesAndWrites};
ghost use Rattle.plural_documents.specs.Inputs.{IsPartWritten};

use crate::error::LinesError;
use crate::number::{MOST_NUMBER_BYTES, next_place, push_answer};
use crate::plain::plain_line;
use crate::printed::{Place, Printed};
use icu_plurals::{AskedRules, PluralCategory, PluralRules};
use memchr::memchr;
use plural_documents::write_output;
use std::alloc::{AllocError, Global};
use std::io::{ErrorKind, Read, Write};

// The bytes of the present line, as far as they are kept, its place, and what is printed and not
// yet written.
#[derive(Drop)]
pub(crate) struct Lines {
    line: Vec<u8>,
    place: u64,
    printed: Printed,
}

/// Writes a line for each line of an input: the category that the rules choose for the number, or why
/// it has none. Returns whether a line tells why.
///
/// The input is read 4096 bytes at a time. After an error the first lines may have been answered. It
/// allocates.
pub fn answer_input<N: Read, W: Write>(
    alloc: Global,
    rules: &PluralRules<'_>,
    numbers: &mut N,
    writer: &mut W,
) -> Result<bool, LinesError>
    ensures { AnswersInput rules.now (N.remaining numbers.old) (N.remaining numbers.new) (W.contents writer.old) (W.contents writer.new) result }
{
    let mut asked = AskedRules::of(rules.as_borrowed());
    let answered = answer_reads(alloc, &mut asked, numbers, writer);
    drop(asked);
    answered
}

// The same by rules that are prepared for so many numbers as are read.
fn answer_reads<N: Read, W: Write>(
    alloc: Global,
    asked: &mut AskedRules<'_>,
    numbers: &mut N,
    writer: &mut W,
) -> Result<bool, LinesError>
    ensures { AnswersInput asked.old (N.remaining numbers.old) (N.remaining numbers.new) (W.contents writer.old) (W.contents writer.new) result }
{
    let mut lines = Lines {
        line: Vec::new(alloc),
        place: 1,
        printed: Printed::new(alloc),
    };
    let mut chunk = [0u8; 4096];
    for _ in 0..u64::MAX {
        match numbers.read(&mut chunk) {
            Ok(0) => return last_line(alloc, asked, &mut lines, writer),
            Ok(count) => {
                asked.prepare(numbers_after(lines.place, count));
                if let Err(error) = answer_bytes(
                    alloc,
                    asked,
                    &chunk[..count],
                    &mut lines,
                    writer,
                ) {
                    return Err(error);
                }
            }
            Err(fault) => {
                if fault.kind() != ErrorKind::Interrupted {
                    return Err(LinesError::Read);
                }
            }
        }
    }
    Err(LinesError::Read)
}

// How many numbers are asked for up to the end of a read that begins at a place: a line has eight
// bytes or so.
fn numbers_after(place: u64, bytes: usize) -> u64 {
    place.saturating_add(bytes as u64 / 8)
}

// Writes the answers to the lines that end in these bytes.
fn answer_bytes<W: Write>(
    alloc: Global,
    rules: &AskedRules<'_>,
    bytes: &[u8],
    lines: &mut Lines,
    writer: &mut W,
) -> Result<(), LinesError>
    ensures { TakesAndWrites rules.now bytes.now lines.old lines.new (W.contents writer.old) (W.contents writer.new) result }
{
    match take_bytes(alloc, rules, bytes, lines) {
        Ok(()) => write_printed(lines, writer),
        Err(_) => Err(LinesError::Memory),
    }
}

// Writes what is printed and not yet written.
fn write_printed<W: Write>(lines: &mut Lines, writer: &mut W) -> Result<(), LinesError>
    ensures written { OnOk result (Appends (W.contents writer.old) (W.contents writer.new) lines.old.printed.text) }
    ensures forgotten { OnOk result (Forgets lines.old lines.new) }
    ensures part { IfErr result (λ e. (e ≡ LinesError.Write) × IsPartWritten (W.contents writer.old) (W.contents writer.new) lines.old.printed.text) }
{
    match write_output(writer, lines.printed.as_bytes()) {
        Ok(()) => {
            lines.printed.clear();
            Ok(())
        }
        Err(_) => Err(LinesError::Write),
    }
}

// Writes the answer to a last line that has no end.
fn last_line<W: Write>(
    alloc: Global,
    rules: &AskedRules<'_>,
    lines: &mut Lines,
    writer: &mut W,
) -> Result<bool, LinesError>
    ensures { FinishesLines rules.now lines.old (W.contents writer.old) (W.contents writer.new) result }
{
    if lines.line.is_empty() {
        return Ok(lines.printed.has_fault());
    }
    match end_line(alloc, rules, lines) {
        Ok(()) => lines.printed.write_to(writer),
        Err(_) => Err(LinesError::Memory),
    }
}

// Takes bytes.
fn take_bytes(
    alloc: Global,
    rules: &AskedRules<'_>,
    bytes: &[u8],
    lines: &mut Lines,
) -> Result<(), AllocError>
    ensures { OnOk result (TakesBytes rules.now bytes.now lines.old lines.new) }
{
    let mut rest = bytes;
    while !rest.is_empty() {
        rest = take_front(alloc, rules, rest, lines)?;
    }
    Ok(())
}

// Takes a line at the front, or the beginning of one, and returns the bytes behind it.
#[inline(always)]
fn take_front<'b>(
    alloc: Global,
    rules: &AskedRules<'_>,
    bytes: &'b [u8],
    lines: &mut Lines,
) -> Result<&'b [u8], AllocError>
    requires { 0 < length bytes.now }
    ensures { IfOk result (λ rest. TakesFrontBytes rules.now bytes.now rest.now lines.old lines.new) }
{
    if lines.line.is_empty()
        && let Some((category, after)) = plain_line(rules, bytes)
    {
        lines.push_category(category)?;
        return Ok(after);
    }
    take_any(alloc, rules, bytes, lines)
}

// The same of any line.
#[inline(never)]
fn take_any<'b>(
    alloc: Global,
    rules: &AskedRules<'_>,
    bytes: &'b [u8],
    lines: &mut Lines,
) -> Result<&'b [u8], AllocError>
    requires { 0 < length bytes.now }
    ensures { IfOk result (λ rest. TakesFrontBytes rules.now bytes.now rest.now lines.old lines.new) }
{
    match memchr(b'\n', bytes) {
        Some(end) => {
            take_line(alloc, rules, &bytes[..end], lines)?;
            Ok(&bytes[end + 1..])
        }
        None => {
            lines.keep(bytes)?;
            Ok(&bytes[bytes.len()..])
        }
    }
}

// Takes the bytes of a line, and the newline after them.
fn take_line(
    alloc: Global,
    rules: &AskedRules<'_>,
    line: &[u8],
    lines: &mut Lines,
) -> Result<(), AllocError>
    requires { HasNoEnd line.now }
    ensures { OnOk result (TakesBytes rules.now (line.now ++ 10 ∷ []) lines.old lines.new) }
{
    if lines.line.is_empty() {
        return answer_line(alloc, rules, line, lines);
    }
    lines.keep(line)?;
    end_line(alloc, rules, lines)
}

// Answers the present line, and begins the next one.
fn end_line(alloc: Global, rules: &AskedRules<'_>, lines: &mut Lines) -> Result<(), AllocError>
    ensures { OnOk result (EndsLine rules.now lines.old.line.items lines.old lines.new) }
{
    push_answer(
        alloc,
        rules,
        lines.place(),
        lines.line.as_slice(),
        &mut lines.printed,
    )?;
    lines.line.clear();
    lines.place = next_place(lines.place);
    Ok(())
}

// Answers a line of which nothing is kept, and begins the next one.
fn answer_line(
    alloc: Global,
    rules: &AskedRules<'_>,
    line: &[u8],
    lines: &mut Lines,
) -> Result<(), AllocError>
    requires { lines.old.line.items ≡ [] }
    ensures { OnOk result (EndsLine rules.now line.now lines.old lines.new) }
{
    push_answer(alloc, rules, lines.place(), line, &mut lines.printed)?;
    lines.place = next_place(lines.place);
    Ok(())
}

impl Lines {
    // The place of the present line.
    #[inline]
    fn place(&self) -> Place
        ensures { result ≡ Place.Line self.now.place }
    {
        Place::Line(self.place)
    }

    // Answers a line by its category, and begins the next one, of which nothing is kept as before.
    #[inline(always)]
    fn push_category(&mut self, category: PluralCategory) -> Result<(), AllocError>
        ensures { OnOk result (EndsByCategory category self.old self.new) }
    {
        self.printed.push_category(category)?;
        self.place = next_place(self.place);
        Ok(())
    }

    // Keeps bytes of the present line, in which it doesn't end: of a line that is too long no more
    // than one byte above the limit.
    fn keep(&mut self, bytes: &[u8]) -> Result<(), AllocError>
        ensures { OnOk result (KeepsBytes bytes.now self.old self.new) }
    {
        let room = (MOST_NUMBER_BYTES + 1).saturating_sub(self.line.len());
        let kept = room.min(bytes.len());
        self.line.extend_from_slice(&bytes[..kept])?;
        Ok(())
    }
}
