//! What is noted of a rule.

ghost use Rattle.std.specs.Prelude.{◌≡◌, Some, IfOk};
ghost use Rattle.plural_reference.specs.Serializer.{relation_text};
ghost use Rattle.rule_notes.specs.RuleNotes.{note_cause_text};

use crate::printed::printed;
use plural_base::PluralCategory;
use plural_reference::ast::{AndCondition, Condition, Relation};
use std::alloc::{AllocError, Global};
use std::fmt;
use std::marker::Model;

/// What is noted of a rule. It prints as `range 4..2 is upside down`.
#[derive(Debug, Drop)]
pub enum Cause {
    /// The range from the first number to the second holds no value.
    UpsideDown(u64, u64),
    /// The relation has `=`, and no operands make it true.
    Empty(PrintedRelation),
    /// The condition prints as that of this earlier category.
    Alike(PluralCategory),
    /// The condition is true of some whole number below 10000 or decimal below 100 with one or two
    /// fraction digits, and that of an earlier category is true of each such number.
    Taken,
}

/// The text that a relation prints. Contracts see its bytes.
#[derive(Debug, Drop)]
pub struct PrintedRelation(pub String);

impl Model for PrintedRelation {
    ghost use Rattle.std.specs.Prelude.{List, ℕ, string_bytes};

    ghost Value = { List ℕ };

    ghost view = { λ printed. string_bytes printed.0 };
}

impl PrintedRelation {
    // The text of a relation.
    pub(crate) fn of(alloc: Global, relation: &Relation) -> Result<PrintedRelation, AllocError>
        ensures { IfOk result (λ printed. printed ≡ relation_text relation.now) }
    {
        let group = AndCondition(vec![in alloc; relation.try_clone()?]?.into());
        let condition = Condition(vec![in alloc; group]?.into());
        Ok(PrintedRelation(printed(alloc, &condition)?))
    }
}

impl fmt::Display for PrintedRelation {
    ghost output = { λ printed. Some printed };

    fn fmt<W: fmt::Write>(&self, f: &mut fmt::Formatter<W>) -> fmt::Result {
        f.write_str(self.0.as_str())
    }
}

impl fmt::Display for Cause {
    ghost output = { λ cause. Some (note_cause_text cause) };

    fn fmt<W: fmt::Write>(&self, f: &mut fmt::Formatter<W>) -> fmt::Result {
        match self {
            Cause::UpsideDown(start, end) => write!(f, "range {start}..{end} is upside down"),
            Cause::Empty(relation) => write!(f, "{relation} is never true"),
            Cause::Alike(category) => write!(f, "same condition as {category}"),
            Cause::Taken => f.write_str(
                "earlier rules have all its numbers, of 0 to 9999, 0.0 to 99.9 and 0.00 to 99.99",
            ),
        }
    }
}
