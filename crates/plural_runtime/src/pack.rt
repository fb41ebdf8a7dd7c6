//! Packs trees.

ghost use Rattle.std.specs.Prelude.{◌≡◌, ◌≢◌, ◌↔◌, List, map, Err, IfSome, IfNone, IsTrue, IsFalse};
ghost use Rattle.std.specs.List.{list_any};
ghost use Rattle.packed_list.specs.ListBytes.{has_high_start};
ghost use Rattle.plural_reference.specs.declared.ast.Condition.{Condition};
ghost use Rattle.plural_runtime.specs.PackedRelations.{PackedRelation, relation_bytes};
ghost use Rattle.plural_runtime.specs.PackedTree.{packed, has_large_value, is_large, is_large_item, is_large_modulus, is_large_relation, Packs};

use crate::error::RuleError;
use crate::laws::relations_read_again;
use crate::rule::Rule;
use crate::tree_bytes::TreeRelations;
use packed_list::{ByteItems, ListWriter, PackError};
use plural_reference::{ParseError, ast};
use std::alloc::Global;

impl Rule<'static> {
    /// Packs a tree. Its samples are left out.
    ///
    /// The first relation of each and-condition after the first place is marked Or, all others And.
    /// An empty and-condition after the first place vanishes, and an absent modulus is 0.
    ///
    /// The errors: a value above 4294967295 anywhere in the tree ([`RuleError::Parse`] of
    /// `ParseError::ValueTooLarge`), otherwise a relation that would start after place 65535
    /// ([`RuleError::StartLimit`]), as one of more than 65535 relations does; out of memory
    /// ([`RuleError::Memory`]).
    ///
    /// <!-- snippet crates/tests_libraries/src/tests/plural_runtime_examples.rt:
    /// example "let tree" to "holds!" of fn a_tree_packs_again -->
    /// ```
    /// let tree = rule.to_ast(alloc)?;
    /// let again = Rule::try_from(alloc, &tree)?;
    /// assert!(rt; again == rule);
    /// ```
    pub fn try_from(alloc: Global, rule: &ast::Rule) -> Result<Rule<'static>, RuleError>
        ensures packs { Packs rule.now.condition result }
        ensures value_too_large { (result ≡ Err (RuleError.Parse ParseError.ValueTooLarge)) ↔ IsTrue (has_large_value rule.now.condition) }
        ensures start_limit { (result ≡ Err RuleError.StartLimit)
            ↔ (IsFalse (has_large_value rule.now.condition) × IsTrue (has_high_start (map relation_bytes (packed rule.now.condition)))) }
    {
        if has_large_value(&rule.condition) {
            return Err(RuleError::Parse(ParseError::ValueTooLarge));
        }
        Rule::of_items(alloc, TreeRelations::of(&rule.condition))
    }

    // Packs items that are the relations of a condition whose values fit.
    pub(crate) fn of_items<I: ByteItems>(
        alloc: Global,
        items: I,
    ) -> Result<Rule<'static>, RuleError>
        requires { (condition : Condition) × IsFalse (has_large_value condition) × (I.items items ≡ map relation_bytes (packed condition)) }
        ensures packs { (condition : Condition) → IsFalse (has_large_value condition)
            → I.items items ≡ map relation_bytes (packed condition) → Packs condition result }
        ensures value_too_large { result ≢ Err (RuleError.Parse ParseError.ValueTooLarge) }
        ensures start_limit { (result ≡ Err RuleError.StartLimit) ↔ IsTrue (has_high_start (I.items items)) }
    {
        let Some(list) = list_of(items) else {
            return Err(RuleError::StartLimit);
        };
        relations_read_again();
        match list.to_bytes(alloc) {
            Ok(bytes) => Ok(Rule::owned(bytes)),
            Err(_) => Err(RuleError::Memory),
        }
    }
}

// Whether some value of a tree is above what four bytes hold.
#[tactic(auto, unfolding(crate::specs::PackedTree::has_large_value))]
fn has_large_value(condition: &ast::Condition) -> bool
    ensures { result ≡ has_large_value condition.now }
{
    condition
        .0
        .as_slice()
        .iter()
        .any(|group| has_large_relation(group))
}

// Whether some value of an and-condition is.
fn has_large_relation(group: &ast::AndCondition) -> bool
    ensures { result ≡ list_any is_large_relation group.now.0 }
{
    group
        .0
        .as_slice()
        .iter()
        .any(|relation| is_large_relation(relation))
}

// Whether some value of a relation is.
fn is_large_relation(relation: &ast::Relation) -> bool
    ensures { result ≡ is_large_relation relation.now }
{
    is_large_modulus(&relation.expression) || has_large_item(&relation.range_list)
}

// Whether the modulus of an expression is.
fn is_large_modulus(expression: &ast::Expression) -> bool
    ensures { result ≡ is_large_modulus expression.now.modulus }
{
    match &expression.modulus {
        None => false,
        Some(modulus) => is_large(modulus),
    }
}

// Whether some value of a list of ranges is.
fn has_large_item(list: &ast::RangeList) -> bool
    ensures { result ≡ list_any is_large_item list.now.0 }
{
    list.0.as_slice().iter().any(|item| is_large_item(item))
}

// Whether an end of a range is.
fn is_large_item(item: &ast::RangeListItem) -> bool
    ensures { result ≡ is_large_item item.now }
{
    match item {
        ast::RangeListItem::Range(start, end) => is_large(start) || is_large(end),
        ast::RangeListItem::Value(value) => is_large(value),
    }
}

// Whether a value is above what four bytes hold.
fn is_large(value: &ast::Value) -> bool
    ensures { result ≡ is_large value.now }
{
    value.0 > 4294967295
}

// Items that are relations as a list that can be packed, if none of them starts after place 65535.
// If they are more than 65535, one does.
#[inline(always)]
fn list_of<I: ByteItems>(items: I) -> Option<ListWriter<I>>
    requires { (relations : List PackedRelation) × (I.items items ≡ map relation_bytes relations) }
    ensures ok { IfSome result (λ list. list ≡ I.items items) }
    ensures low { IfSome result (λ _. IsFalse (has_high_start (I.items items))) }
    ensures high { IfNone result (IsTrue (has_high_start (I.items items))) }
{
    match ListWriter::new(items) {
        Ok(list) => Some(list),
        Err(PackError::CountLimit) => None,
        Err(PackError::StartLimit) => None,
        Err(PackError::Memory) => None,
    }
}
