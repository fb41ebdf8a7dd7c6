//! The lines of a file.

ghost use Rattle.std.specs.Prelude.{◌≡◌, ◌∷◌, [], MatchOption};
ghost use Rattle.po_catalog.specs.FileLines.{lines_of, numbered};

use crate::bytes::cut_at;
use std::marker::Model;

/// A line of a file without its newline, and its number, from 1 on.
#[derive(Clone, Copy)]
pub struct Line<'f> {
    pub number: usize,
    pub bytes: &'f [u8],
}

/// The lines of a file, one after the other: what stands before, between and behind its newlines.
#[derive(Drop)]
pub struct Lines<'f> {
    rest: Option<&'f [u8]>,
    number: usize,
}

impl<'f> Model for Lines<'f> {
    ghost use Rattle.std.specs.Prelude.{ℕ, List, ◌+◌, ◌<◌, ◌^◌};
    ghost use Rattle.po_catalog.specs.FileLines.{lines_left, numbered};
    ghost use Rattle.po_catalog.specs.Inner.LineViews.{file_bytes_left, left_view};

    ghost Value = { List (ℕ × List ℕ) };

    ghost view = { λ lines. numbered lines.number (lines_left (left_view lines.rest)) };

    ghost invariant = { λ lines. lines.number + file_bytes_left lines.rest < 2 ^ 64 };
}

impl<'f> Lines<'f> {
    /// The lines of a file.
    pub fn of(file: &'f [u8]) -> Self
        ensures { result ≡ numbered 1 (lines_of file.now) }
    {
        Lines {
            rest: Some(file),
            number: 1,
        }
    }

    /// The next line; `None` behind the last one.
    #[tactic(auto, using(crate::proofs::Cuts::next_fits))]
    pub fn next_line(&mut self) -> Option<Line<'f>>
        ensures { MatchOption result (self.old ≡ []) (λ line. self.old ≡ (line.number, line.bytes.now) ∷ self.new) }
    {
        let rest = self.rest?;
        let (bytes, after) = cut_at(b'\n', rest);
        let number = self.number;
        self.rest = after;
        self.number = number + 1;
        Some(Line { number, bytes })
    }
}
