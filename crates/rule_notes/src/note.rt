//! A note on a category's rule.

ghost use Rattle.std.specs.Prelude.{Some};
ghost use Rattle.rule_notes.specs.RuleNotes.{note_text};

use crate::cause::Cause;
use plural_base::PluralCategory;
use std::fmt;

/// A note on a category's rule. It prints as `few: range 4..2 is upside down`.
#[derive(Debug, Drop)]
pub struct Note {
    /// The category.
    pub category: PluralCategory,
    /// What is noted of its rule.
    pub cause: Cause,
}

impl fmt::Display for Note {
    ghost output = { λ note. Some (note_text note) };

    fn fmt<W: fmt::Write>(&self, f: &mut fmt::Formatter<W>) -> fmt::Result {
        write!(f, "{}: {}", self.category, self.cause)
    }
}
