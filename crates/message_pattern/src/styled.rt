//! A pattern with simple formats that was read.

ghost use Rattle.std.specs.Prelude.{◌≡◌, IfOk};
ghost use Rattle.message_pattern.specs.PatternParts.{part_view, parts_view};
ghost use Rattle.message_pattern.specs.PatternAnswers.{ParsesStyledExactly};
ghost use Rattle.message_pattern.specs.PatternPrinting.{PrintsStyledExactly};
ghost use Rattle.message_pattern.specs.StyledParts.{unstyled, unstyled_part};

use crate::error::PatternError;
use crate::head::Formats;
use crate::part::{Part, Piece};
use crate::pattern::{Pattern, read};
use crate::print::print;
use pattern_bytes::{Class, split_run};
use std::alloc::{AllocError, Global};
use std::marker::Model;

/// A pattern of messages whose arguments may have simple formats, as `{d, date, short}` and
/// `{n, number}`: the flat list of its parts, which borrow from the text. An argument that doesn't
/// choose is an [`Argument`](crate::Piece::Argument) with all that stands between its braces:
/// [`StyledArgument::of`](crate::StyledArgument::of) takes it apart.
#[derive(Debug)]
pub struct StyledPattern<'p> {
    parts: Vec<Part<'p>>,
}

// Written out, so that each end of a value is one call.
impl Drop for StyledPattern<'_> {
    fn drop(self) {
        let StyledPattern { parts: _ } = self;
    }
}

impl<'p> Model for StyledPattern<'p> {
    ghost use Rattle.std.specs.Prelude.{List};
    ghost use Rattle.message_pattern.specs.PatternParts.{parts_view};
    ghost use Rattle.message_pattern.specs.PatternParts.{Part as SpecPart};

    ghost Value = { List SpecPart };

    ghost view = { λ pattern. parts_view pattern.parts.items };
}

impl<'p> StyledPattern<'p> {
    /// Reads a pattern as [`Pattern::parse`] does, and simple formats too: any type in ASCII letters
    /// but those that choose and `choice`, and a style, which is text where braces nest and an
    /// apostrophe quotes up to the next. It allocates the list of parts. The error is the text's
    /// first fault, with the byte where it is, or out of memory.
    pub fn parse(alloc: Global, text: &'p [u8]) -> Result<StyledPattern<'p>, PatternError>
        ensures { ParsesStyledExactly text.now result }
    {
        match read(alloc, Formats::Allowed, text) {
            Ok(parts) => Ok(StyledPattern { parts }),
            Err(error) => Err(error),
        }
    }

    /// Returns the parts, from the first to the last.
    pub fn parts(&self) -> &[Part<'p>]
        ensures { parts_view result.now ≡ self.now }
    {
        &self.parts
    }

    /// Returns the pattern's text in one form, as [`Pattern::to_text`] does; what stands between
    /// the braces of an argument with a simple format stays as it is written. It allocates the
    /// text, and the contexts that stand in each other; the error is out of memory.
    pub fn to_text(&self, alloc: Global) -> Result<Vec<u8>, AllocError>
        ensures { IfOk result (λ text. PrintsStyledExactly self.now text.items) }
    {
        print(alloc, &self.parts)
    }

    /// Leaves out the formats: an argument with one is its name alone. It takes no memory.
    pub fn into_pattern(self) -> Pattern<'p>
        ensures { result ≡ unstyled self.entry }
    {
        let StyledPattern { mut parts } = self;
        leave_out_formats(&mut parts);
        Pattern { parts }
    }
}

// Leaves out the formats of parts.
fn leave_out_formats(parts: &mut Vec<Part<'_>>)
    ensures { parts_view parts.new.items ≡ unstyled (parts_view parts.old.items) }
{
    for i in 0..parts.len() {
        parts[i] = unstyled_part(parts[i]);
    }
}

// The part without a format.
fn unstyled_part(part: Part<'_>) -> Part<'_>
    ensures { part_view result ≡ unstyled_part (part_view part.entry) }
{
    let piece = match part.piece {
        Piece::Argument(text) => Piece::Argument(split_run(Class::Name, text).0),
        piece => piece,
    };
    Part {
        depth: part.depth,
        piece,
    }
}
