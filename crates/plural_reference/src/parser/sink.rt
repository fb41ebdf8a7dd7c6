//! What takes the relations of a condition as they are read.

ghost use Rattle.std.specs.Prelude.{◌++◌, ◌∷◌, [], List, OnOk};
ghost use Rattle.plural_reference.specs.RelationSinks.{Before, joined, relation_of_parts};
ghost use Rattle.plural_reference.specs.declared.ast.RangeListItem.{RangeListItem as Item};

use crate::ast::{Expression, Operator, RangeListItem};
use std::alloc::{AllocError, Global};

/// What takes the relations of a condition as they are read.
pub trait RelationSink {
    ghost use Rattle.std.specs.Prelude.{List};
    ghost use Rattle.plural_reference.specs.RelationSinks.{Before};
    ghost use Rattle.plural_reference.specs.declared.ast.RangeListItem.{RangeListItem};

    /// It took these relations, and these ranges of the next one.
    ghost holds: { Self → Before → List RangeListItem → Type 0 };

    /// Takes a range of the next relation.
    fn push(&mut self, alloc: Global, range: RangeListItem) -> Result<(), AllocError>
        ensures { OnOk result ((before : Before) (ranges : List Item) → holds self.old before ranges
            → holds self.new before (ranges ++ range ∷ [])) };

    /// Takes a relation with these parts and the ranges; after `or` it begins an and-condition.
    fn take(
        &mut self,
        alloc: Global,
        expression: Expression,
        operator: Operator,
        is_after_or: bool,
    ) -> Result<(), AllocError>
        ensures { OnOk result ((before : Before) (ranges : List Item) → holds self.old before ranges
            → holds self.new (joined is_after_or before (relation_of_parts expression operator ranges)) []) };
}
