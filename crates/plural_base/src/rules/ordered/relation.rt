//! A relation with its ranges in order.

ghost use Rattle.std.specs.Prelude.{◌≡◌, IfOk};
ghost use Rattle.plural_reference.specs.Truth.{remainder};
ghost use Rattle.plural_runtime.specs.Inner.RuleViews.{lent_relation};
ghost use Rattle.plural_runtime.specs.PackedTruth.{is_true_at};
ghost use Rattle.plural_base.specs.Inner.OrderedRules.{IsLike, and_after};

use crate::rules::ordered::ranges::OrderedRanges;
use crate::rules::range_ends::ends_at;
use plural_reference::PluralOperands;
use plural_reference::ast::Operand;
use plural_runtime::{AndOr, Polarity, Relation};
use std::alloc::{AllocError, Global};
use std::marker::Model;

// A relation of a rule. Contracts see it as one of a packed rule.
#[derive(Debug, Drop)]
pub(crate) struct OrderedRelation {
    and_or: AndOr,
    polarity: Polarity,
    operand: Operand,
    modulo: u32,
    ranges: OrderedRanges,
}

impl Model for OrderedRelation {
    ghost use Rattle.plural_runtime.specs.PackedRelations.{PackedRelation};
    ghost use Rattle.plural_runtime.specs.RuleKinds.{operator_of};

    ghost Value = { PackedRelation };

    ghost view = { λ relation. record {
      and_or = relation.and_or;
      meaning = record {
        operand = relation.operand;
        modulus = relation.modulo;
        operator = operator_of relation.polarity;
        ranges = relation.ranges;
      };
    } };
}

impl OrderedRelation {
    // A relation that is true of the same operands.
    pub(crate) fn of(alloc: Global, relation: Relation<'_>) -> Result<OrderedRelation, AllocError>
        ensures { IfOk result (λ ordered. IsLike ordered (lent_relation relation.entry)) }
    {
        let ranges = ranges_of(alloc, &relation)?;
        Ok(OrderedRelation {
            and_or: relation.and_or(),
            polarity: relation.polarity(),
            operand: Operand::from(relation.operand()),
            modulo: relation.modulo(),
            ranges: OrderedRanges::of(alloc, ranges)?,
        })
    }

    // Whether it begins a group.
    pub(crate) fn and_or(&self) -> AndOr
        ensures { result ≡ self.now.and_or }
    {
        self.and_or
    }

    // Whether all relations of a group are true, as far as this one.
    pub(crate) fn is_true_after(&self, so_far: bool, operands: &PluralOperands) -> bool
        ensures { result ≡ and_after self.now.and_or so_far (is_true_at operands.now self.now) }
    {
        match self.and_or {
            AndOr::And => so_far && self.is_true(operands),
            AndOr::Or => self.is_true(operands),
        }
    }

    // Whether it is true.
    fn is_true(&self, operands: &PluralOperands) -> bool
        ensures { result ≡ is_true_at operands.now self.now }
    {
        let is_in = match operands.value(self.operand) {
            Some(value) => self.ranges.hold(reduced(self.modulo, value)),
            None => false,
        };
        match self.polarity {
            Polarity::Positive => is_in,
            Polarity::Negative => !is_in,
        }
    }
}

// The remainder of a value by a modulus.
fn reduced(modulo: u32, value: u64) -> u64
    ensures { result ≡ remainder modulo value }
{
    if modulo == 0 {
        value
    } else {
        value % u64::from(modulo)
    }
}

// The ranges of a relation.
fn ranges_of(alloc: Global, relation: &Relation<'_>) -> Result<Vec<(u32, u32)>, AllocError>
    ensures { IfOk result (λ ranges. ranges.items ≡ (lent_relation relation.now).meaning.ranges) }
{
    let mut ranges = Vec::new(alloc);
    for index in 0..relation.len() {
        ranges.push(ends_at(relation, index))?;
    }
    Ok(ranges)
}
