//! A rule whose relations have their ranges in order.

ghost use Rattle.std.specs.Prelude.{◌≡◌, ◌++◌, [], ◌∷◌, IfOk, OnOk, map};
ghost use Rattle.plural_operands.specs.Operands.{Operands};
ghost use Rattle.plural_runtime.specs.PackedTruth.{packed_truth};
ghost use Rattle.plural_runtime.specs.Inner.RuleViews.{lent_relation};
ghost use Rattle.plural_base.specs.Inner.OrderedRules.{AreLike, told_at};

use crate::rules::ordered::relation::OrderedRelation;
use plural_reference::PluralOperands;
use plural_runtime::{AndOr, Relation, Rule};
use std::alloc::{AllocError, Global};
use std::marker::Model;

// A rule whose relations have their ranges in order. Contracts see its relations.
#[derive(Debug, Drop)]
pub(crate) struct OrderedRule {
    relations: Vec<OrderedRelation>,
}

impl Model for OrderedRule {
    ghost use Rattle.std.specs.Prelude.{List};
    ghost use Rattle.plural_runtime.specs.PackedRelations.{PackedRelation};

    ghost Value = { List PackedRelation };

    ghost view = { λ rule. rule.relations.items };
}

impl OrderedRule {
    // A rule that is true of the same operands.
    pub(crate) fn of(alloc: Global, rule: &Rule<'_>) -> Result<OrderedRule, AllocError>
        ensures { IfOk result (λ ordered. AreLike ordered rule.now) }
    {
        let mut relations = Vec::new(alloc);
        for item in rule.iter() {
            push_ordered(alloc, item.as_relation(), &mut relations)?;
        }
        Ok(OrderedRule { relations })
    }

    // Whether all relations of some group are true.
    pub(crate) fn is_true(&self, operands: &PluralOperands) -> bool
        ensures { result ≡ packed_truth operands.now self.now }
    {
        let mut so_far = true;
        for relation in &self.relations {
            if so_far && relation.and_or() == AndOr::Or {
                return true;
            }
            so_far = relation.is_true_after(so_far, operands);
        }
        so_far
    }
}

// Puts a relation that is true of the same operands.
fn push_ordered(
    alloc: Global,
    relation: Relation<'_>,
    relations: &mut Vec<OrderedRelation>,
) -> Result<(), AllocError>
    ensures { OnOk result ((o : Operands) → map (told_at o) relations.new.items
        ≡ map (told_at o) relations.old.items ++ told_at o (lent_relation relation.entry) ∷ []) }
{
    relations.push(OrderedRelation::of(alloc, relation)?)?;
    Ok(())
}
