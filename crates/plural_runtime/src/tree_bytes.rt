//! The relations of a tree, as items that are packed.

ghost use Rattle.std.specs.Prelude.{◌≡◌, ◌∷◌};
ghost use Rattle.std.specs.Int.{w32, to_le_bytes};
ghost use Rattle.plural_reference.specs.Truth.{ends_of, modulus_of};
ghost use Rattle.plural_runtime.specs.PackedRelations.{first_byte, range_bytes};
ghost use Rattle.plural_runtime.specs.PackedTree.{packed};
ghost use Rattle.plural_runtime.specs.Inner.RuleViews.{relations_left};

use crate::first_byte::AndOrPolarityOperand;
use crate::item::{HEAD_LENGTH, RANGE_LENGTH};
use crate::kinds::{AndOr, Operand, Polarity};
use packed_list::{ByteItem, ByteItems};
use plural_reference::ast;
use std::alloc::AllocError;

// A relation of a tree, with its mark.
#[derive(Clone, Copy)]
pub(crate) struct TreeRelation<'a> {
    and_or: AndOr,
    relation: &'a ast::Relation,
}

// The relations of a tree that are left: those of an and-condition, the first one of which has the
// mark, and those of the and-conditions after it.
#[derive(Clone, Copy)]
pub(crate) struct TreeRelations<'a> {
    and_or: AndOr,
    relations: &'a [ast::Relation],
    others: &'a [ast::AndCondition],
}

impl<'a> TreeRelations<'a> {
    // All relations of a tree.
    #[tactic(auto, unfolding(crate::specs::PackedTree::packed))]
    pub(crate) fn of(condition: &'a ast::Condition) -> TreeRelations<'a>
        ensures { relations_left result ≡ packed condition.now }
    {
        match condition.0.as_slice().split_first() {
            None => TreeRelations {
                and_or: AndOr::And,
                relations: &[],
                others: &[],
            },
            Some((first, others)) => TreeRelations {
                and_or: AndOr::And,
                relations: first.0.as_slice(),
                others,
            },
        }
    }
}

impl<'a> ByteItems for TreeRelations<'a> {
    ghost use Rattle.std.specs.Prelude.{map};
    ghost use Rattle.plural_runtime.specs.PackedRelations.{relation_bytes};
    ghost use Rattle.plural_runtime.specs.Inner.RuleViews.{relations_left};

    type Item = TreeRelation<'a>;

    ghost items = { λ walk. map relation_bytes (relations_left walk) };

    fn next_item(&mut self) -> Option<TreeRelation<'a>> {
        'groups: loop {
            if let Some((relation, relations)) = self.relations.split_first() {
                let and_or = self.and_or;
                self.and_or = AndOr::And;
                self.relations = relations;
                return Some(TreeRelation { and_or, relation });
            }
            let (group, others) = self.others.split_first()?;
            self.and_or = AndOr::Or;
            self.relations = group.0.as_slice();
            self.others = others;
        }
    }
}

impl<'a> ByteItem for TreeRelation<'a> {
    ghost use Rattle.plural_runtime.specs.PackedTree.{packed_relation};
    ghost use Rattle.plural_runtime.specs.PackedRelations.{relation_bytes};

    ghost item_bytes = { λ item. relation_bytes (packed_relation item.and_or item.relation.now) };

    #[inline]
    fn byte_count(&self) -> usize {
        HEAD_LENGTH + RANGE_LENGTH * self.relation.range_list.0.as_slice().len()
    }

    #[tactic(auto, unfolding(crate::specs::PackedRelations::relation_bytes))]
    fn write_to(&self, bytes: &mut Vec<u8>) -> Result<(), AllocError> {
        bytes.extend_from_slice(&head_of(
            self.and_or,
            self.relation.operator,
            &self.relation.expression,
        ))?;
        for item in self.relation.range_list.0.as_slice() {
            bytes.extend_from_slice(&range_of(item))?;
        }
        Ok(())
    }
}

// The bytes before the ranges of a relation: its first byte and its modulus.
pub(crate) fn head_of(
    and_or: AndOr,
    operator: ast::Operator,
    expression: &ast::Expression,
) -> [u8; HEAD_LENGTH]
    ensures { result ≡ first_byte and_or operator expression.now.operand ∷ to_le_bytes w32 (modulus_of expression.now.modulus) }
{
    let [a, b, c, d, _, _, _, _] = modulus_of(expression).to_le_bytes();
    [
        first_byte_of(and_or, operator, expression.operand),
        a,
        b,
        c,
        d,
    ]
}

// The first byte of a relation.
#[tactic(auto, using(crate::proofs::bytes::KindsAgain::byte_again))]
fn first_byte_of(and_or: AndOr, operator: ast::Operator, operand: ast::Operand) -> u8
    ensures { result ≡ first_byte and_or operator operand }
{
    let parts = AndOrPolarityOperand {
        and_or,
        polarity: Polarity::from(operator),
        operand: Operand::from(operand),
    };
    parts.to_unaligned()
}

// The modulus of an expression, or 0.
fn modulus_of(expression: &ast::Expression) -> u64
    ensures { result ≡ modulus_of expression.now.modulus }
{
    match &expression.modulus {
        None => 0,
        Some(modulus) => modulus.0,
    }
}

// Both ends of a range.
pub(crate) fn range_of(item: &ast::RangeListItem) -> [u8; RANGE_LENGTH]
    ensures { result ≡ range_bytes (ends_of item.now) }
{
    let (start, end) = match item {
        ast::RangeListItem::Range(start, end) => (start.0, end.0),
        ast::RangeListItem::Value(value) => (value.0, value.0),
    };
    let [a, b, c, d, _, _, _, _] = start.to_le_bytes();
    let [e, f, g, h, _, _, _, _] = end.to_le_bytes();
    [a, b, c, d, e, f, g, h]
}
