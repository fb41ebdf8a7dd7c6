//! A pattern that was read.

ghost use Rattle.std.specs.Prelude.{◌≡◌, IfOk};
ghost use Rattle.message_pattern.specs.PatternParts.{parts_view};
ghost use Rattle.message_pattern.specs.PatternAnswers.{ParsesPatternExactly, ReadsExactly};
ghost use Rattle.message_pattern.specs.PatternPrinting.{PrintsExactly};
ghost use Rattle.message_pattern.specs.Inner.PatternViews.{parts_read, pattern_error};

use crate::error::{PatternError, ReadError};
use crate::head::Formats;
use crate::part::Part;
use crate::print::print;
use crate::reader::message;
use crate::text::Context;
use std::alloc::{AllocError, Global};
use std::marker::Model;

// How many parts there is room for at first.
const ROOM: usize = 16;

/// A pattern of messages: the flat list of its parts, which borrow from the text.
#[derive(Debug)]
pub struct Pattern<'p> {
    pub(crate) parts: Vec<Part<'p>>,
}

// Written out, so that each end of a value is one call.
impl Drop for Pattern<'_> {
    fn drop(self) {
        let Pattern { parts: _ } = self;
    }
}

impl<'p> Model for Pattern<'p> {
    ghost use Rattle.std.specs.Prelude.{List};
    ghost use Rattle.message_pattern.specs.PatternParts.{parts_view};
    ghost use Rattle.message_pattern.specs.PatternParts.{Part as SpecPart};

    ghost Value = { List SpecPart };

    ghost view = { λ pattern. parts_view pattern.parts.items };
}

impl<'p> Pattern<'p> {
    /// Reads a pattern (ICU MessageFormat, in the apostrophe mode DOUBLE_OPTIONAL). It allocates
    /// the list of parts. The error is the text's first fault, with the byte where it is, or out of
    /// memory.
    pub fn parse(alloc: Global, text: &'p [u8]) -> Result<Pattern<'p>, PatternError>
        ensures { ParsesPatternExactly text.now result }
    {
        match read(alloc, Formats::Refused, text) {
            Ok(parts) => Ok(Pattern { parts }),
            Err(error) => Err(error),
        }
    }

    /// Returns the pattern of these parts, as [`parts`](Pattern::parts) returned them. They aren't
    /// checked: others, too, are printed and formatted.
    pub fn from_parts(parts: Vec<Part<'p>>) -> Pattern<'p>
        ensures { result ≡ parts_view parts.entry.items }
    {
        Pattern { parts }
    }

    /// Returns the parts, from the first to the last.
    pub fn parts(&self) -> &[Part<'p>]
        ensures { parts_view result.now ≡ self.now }
    {
        &self.parts
    }

    /// Returns the pattern's text in one form, as bytes: `{name}`, `{n, plural, offset:1 one {..}
    /// other {..}}`, and texts with each apostrophe doubled, quoted from the first byte on that has
    /// to be. It is read as a pattern that says the same: only where texts are cut into pieces may
    /// differ. It allocates the text, and the contexts that stand in each other; the error is out
    /// of memory.
    pub fn to_text(&self, alloc: Global) -> Result<Vec<u8>, AllocError>
        ensures { IfOk result (λ text. PrintsExactly self.now text.items) }
    {
        print(alloc, &self.parts)
    }
}

// The parts of a text, or its first fault.
pub(crate) fn read<'p>(
    alloc: Global,
    formats: Formats,
    text: &'p [u8],
) -> Result<Vec<Part<'p>>, PatternError>
    ensures { ReadsExactly formats text.now (parts_read result) }
{
    let mut parts = match Vec::with_capacity(alloc, ROOM) {
        Ok(parts) => parts,
        Err(_) => return Err(PatternError::Memory),
    };
    match message(formats, Context::Whole, 0, text, &mut parts) {
        Ok(_) => Ok(parts),
        Err(error) => Err(pattern_error(text, error)),
    }
}

// The error of a reading: the place of a fault is counted from the text's first byte.
fn pattern_error(text: &[u8], error: ReadError) -> PatternError
    ensures { result ≡ pattern_error text.now error }
{
    match error {
        ReadError::Fault(fault) => {
            PatternError::Fault(fault.kind, text.len().saturating_sub(fault.left))
        }
        ReadError::Memory => PatternError::Memory,
    }
}
