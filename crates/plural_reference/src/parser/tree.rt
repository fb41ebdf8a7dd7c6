//! The tree of a condition while it is read.

ghost use Rattle.std.specs.Prelude.{◌≡◌, ◌∷◌, [], IfOk};
ghost use Rattle.plural_reference.specs.RelationSinks.{nothing, condition_of, Before};
ghost use Rattle.plural_reference.specs.Inner.TreeSink.{HoldsTree};

use crate::ast::{
    AndCondition, Condition, Expression, Operator, RangeList, RangeListItem, Relation,
};
use crate::parser::sink::RelationSink;
use crate::sequence::Sequence;
use std::alloc::{AllocError, Global};
use std::mem;

// How many items a list has room for at first: all that most lists have.
const ROOM: usize = 4;

// The and-conditions that are complete, the relations of the open one, and the ranges of the next
// relation.
#[derive(Drop)]
pub(crate) struct Tree {
    groups: Vec<AndCondition>,
    relations: Vec<Relation>,
    ranges: Vec<RangeListItem>,
}

impl Tree {
    // Nothing yet.
    pub(crate) fn new(alloc: Global) -> Tree
        ensures { HoldsTree result nothing [] }
    {
        Tree {
            groups: Vec::new(alloc),
            relations: Vec::new(alloc),
            ranges: Vec::new(alloc),
        }
    }

    // The condition that ends here.
    pub(crate) fn condition(self, alloc: Global) -> Result<Condition, AllocError>
        ensures { IfOk result (λ c. (before : Before) → HoldsTree self before []
            → c ≡ condition_of before) }
    {
        if self.relations.is_empty() {
            return Ok(Condition(Sequence(self.groups)));
        }
        let last = AndCondition(Sequence(self.relations));
        if self.groups.is_empty() {
            return Ok(Condition(Sequence(begun(alloc, last)?)));
        }
        let mut groups = self.groups;
        groups.push(last)?;
        Ok(Condition(Sequence(groups)))
    }
}

impl RelationSink for Tree {
    ghost use Rattle.plural_reference.specs.Inner.TreeSink.{HoldsTree};

    ghost holds = { HoldsTree };

    #[inline(always)]
    fn push(&mut self, alloc: Global, range: RangeListItem) -> Result<(), AllocError> {
        if self.ranges.is_empty() {
            self.ranges = Vec::with_capacity(alloc, ROOM)?;
        }
        Ok(self.ranges.push(range)?)
    }

    #[inline(always)]
    fn take(
        &mut self,
        alloc: Global,
        expression: Expression,
        operator: Operator,
        is_after_or: bool,
    ) -> Result<(), AllocError> {
        if self.relations.is_empty() {
            self.relations = Vec::with_capacity(alloc, ROOM)?;
        }
        if is_after_or {
            let group = mem::replace(&mut self.relations, Vec::with_capacity(alloc, ROOM)?);
            self.groups.push(AndCondition(Sequence(group)))?;
        }
        let ranges = mem::replace(&mut self.ranges, Vec::new(alloc));
        Ok(
            self.relations.push(Relation {
                expression,
                operator,
                range_list: RangeList(Sequence(ranges)),
            })?,
        )
    }
}

// A list that begins with an item. Room is made once, by less work than for a list that grows from
// none.
#[inline]
fn begun<T: Drop>(alloc: Global, first: T) -> Result<Vec<T>, AllocError>
    ensures { IfOk result (λ list. list.items ≡ first ∷ []) }
{
    let mut items = Vec::with_capacity(alloc, ROOM)?;
    items.push_reserved(first);
    Ok(items)
}
