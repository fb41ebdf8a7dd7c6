//! What is noted of a condition by itself.

ghost use Rattle.std.specs.Prelude.{◌≡◌, ◌++◌, IfOk, OnOk, flat_map};
ghost use Rattle.rule_notes.specs.ConditionCauses.{AreConditionCauses};
ghost use Rattle.rule_notes.specs.Inner.CauseLists.{condition_causes, item_causes, relation_causes};

use crate::cause::{Cause, PrintedRelation};
use crate::empty_relation::is_empty;
use plural_reference::Sequence;
use plural_reference::ast::{Condition, RangeListItem, Relation};
use std::alloc::{AllocError, Global};

/// Returns what is noted of a condition by itself: for each relation, from the first on, its ranges
/// that are upside down, and then the relation, if no operands make it true.
///
/// It allocates; the only error is out of memory.
pub fn causes_of(alloc: Global, condition: &Condition) -> Result<Sequence<Cause>, AllocError>
    ensures { IfOk result (λ causes. AreConditionCauses condition.now causes) }
{
    let mut causes = Vec::new(alloc);
    add_condition(alloc, condition, &mut causes)?;
    Ok(causes.into())
}

// Adds what is noted of a condition.
pub(crate) fn add_condition(
    alloc: Global,
    condition: &Condition,
    causes: &mut Vec<Cause>,
) -> Result<(), AllocError>
    ensures { OnOk result (causes.new.items ≡ causes.old.items ++ condition_causes condition.now) }
{
    for group in condition.0.as_slice() {
        add_relations(alloc, group.0.as_slice(), causes)?;
    }
    Ok(())
}

// Adds what is noted of relations.
fn add_relations(
    alloc: Global,
    relations: &[Relation],
    causes: &mut Vec<Cause>,
) -> Result<(), AllocError>
    ensures { OnOk result (causes.new.items ≡ causes.old.items ++ flat_map relation_causes relations.now) }
{
    for relation in relations {
        add_relation(alloc, relation, causes)?;
    }
    Ok(())
}

// Adds what is noted of a relation.
fn add_relation(
    alloc: Global,
    relation: &Relation,
    causes: &mut Vec<Cause>,
) -> Result<(), AllocError>
    ensures { OnOk result (causes.new.items ≡ causes.old.items ++ relation_causes relation.now) }
{
    add_items(relation.range_list.0.as_slice(), causes)?;
    if is_empty(relation) {
        causes.push(Cause::Empty(PrintedRelation::of(alloc, relation)?))?;
    }
    Ok(())
}

// Adds the ranges that are upside down.
fn add_items(items: &[RangeListItem], causes: &mut Vec<Cause>) -> Result<(), AllocError>
    ensures { OnOk result (causes.new.items ≡ causes.old.items ++ flat_map item_causes items.now) }
{
    for item in items {
        if let RangeListItem::Range(start, end) = item
            && end.0 < start.0
        {
            causes.push(Cause::UpsideDown(start.0, end.0))?;
        }
    }
    Ok(())
}
