//! What is known of all whole numbers from a bound on that leave one remainder by 100.

ghost use Rattle.std.specs.Prelude.{◌≡◌, ◌||◌, ℕ, List, flat_map, map};
ghost use Rattle.std.specs.List.{list_all};
ghost use Rattle.plural_reference.specs.Truth.{remainder};
ghost use Rattle.plural_runtime.specs.RuleKinds.{tree_operand_of};
ghost use Rattle.plural_runtime.specs.PackedRelations.{PackedRelation};
ghost use Rattle.plural_runtime.specs.Inner.RuleViews.{lent_relation};
ghost use Rattle.plural_base.specs.FiveRules.{rules_of};
ghost use Rattle.plural_base.specs.Inner.WholeNumbers.{Fits, IsInClass, is_list_told, whole_value};
ghost use Rattle.plural_base.specs.ToldCategories.{ends_of_relation, ends_of_rule, ends_of_rules, first_above};
ghost use Rattle.plural_base.specs.ToldCategories.{divides_100, is_of_number as of_number, is_outside, is_told};

use crate::for_five;
use crate::rules::data::PluralRulesData;
use crate::rules::known::{Known, told_list};
use crate::rules::range_ends::ends_at;
use crate::rules::told::NumberClasses;
use crate::rules::told_masks::{Told, under_polarity};
use plural_runtime::{Operand, Relation, Rule};

// The number by whose remainders the numbers are classed.
pub(crate) const CYCLE: u64 = 100;

// The mask of all classes: a mask has more places than these.
pub(crate) const ALL_RESIDUES: u128 = (1 << CYCLE) - 1;

// The whole numbers from a bound on, by what they leave by 100.
#[derive(Clone, Copy)]
pub(crate) struct ResidueClasses {
    pub(crate) bound: u64,
}

impl NumberClasses for ResidueClasses {
    ghost use Rattle.plural_base.specs.Inner.WholeNumbers.{HasResidue};
    ghost use Rattle.plural_base.specs.ToldCategories.{is_told as is_told_from};

    ghost has = { λ classes class o. HasResidue classes.bound class o };

    ghost is_told = { λ classes class relation. is_told_from classes.bound class relation };

    fn told_relation(self, relation: &Relation<'_>) -> Told {
        let known = known_value(relation.operand(), relation.modulo(), self.bound);
        under_polarity(told_list(relation, known), relation.polarity())
    }
}

// What is known of an operand's remainder by a modulus.
fn known_value(operand: Operand, modulus: u32, bound: u64) -> Known
    ensures fits { (class n : ℕ) → IsInClass bound class n
        → Fits result class (remainder modulus (whole_value (tree_operand_of operand) n)) }
    ensures told { (class : ℕ) (relation : PackedRelation) → relation.meaning.operand ≡ tree_operand_of operand
        → relation.meaning.modulus ≡ modulus → is_list_told result class relation.meaning.ranges ≡ is_told bound class relation }
{
    if is_of_number(operand) {
        known_remainder(modulus, bound)
    } else {
        Known::IsZero
    }
}

// Whether an operand is a whole number itself: the others are 0.
fn is_of_number(operand: Operand) -> bool
    ensures { result ≡ of_number (tree_operand_of operand) }
{
    match operand {
        Operand::N | Operand::I => true,
        Operand::V | Operand::W | Operand::F | Operand::T | Operand::C | Operand::E => false,
    }
}

// What is known of a number's remainder by a modulus.
fn known_remainder(modulus: u32, bound: u64) -> Known
    ensures fits { (class n : ℕ) → IsInClass bound class n → Fits result class (remainder modulus n) }
    ensures told { (class : ℕ) (ranges : List (ℕ × ℕ)) → is_list_told result class ranges
        ≡ (divides_100 modulus || list_all (is_outside bound class modulus) ranges) }
{
    let divisor = u64::from(modulus);
    if divisor == 0 {
        Known::From(bound)
    } else if CYCLE % divisor == 0 {
        Known::RemainderBy(modulus)
    } else if divisor % CYCLE == 0 {
        Known::Leaves
    } else {
        Known::Nothing
    }
}

// One more than the greatest end of a range with which a relation compares `n` or `i` without a
// modulus: from there on no such range holds a number.
pub(crate) fn bound_of(rules: &PluralRulesData<'_>) -> u64
    ensures { result ≡ first_above (ends_of_rules (rules_of rules.now)) }
{
    let mut bound = 0;
    for_five!(rules, |rule| bound = bound.max(bound_of_rule(rule)));
    bound
}

// The same of one rule, if present.
fn bound_of_rule(rule: &Option<Rule<'_>>) -> u64
    ensures { result ≡ first_above (ends_of_rule rule.now) }
{
    match rule {
        Some(rule) => bound_of_relations(rule),
        None => 0,
    }
}

// The same of the relations of a rule.
fn bound_of_relations(rule: &Rule<'_>) -> u64
    ensures { result ≡ first_above (flat_map ends_of_relation rule.now) }
{
    let mut bound = 0;
    for item in rule.iter() {
        bound = bound.max(bound_of_relation(&item.as_relation()));
    }
    bound
}

// The same of one relation.
fn bound_of_relation(relation: &Relation<'_>) -> u64
    ensures { result ≡ first_above (ends_of_relation (lent_relation relation.now)) }
{
    if is_of_number(relation.operand()) && relation.modulo() == 0 {
        first_above_ranges(relation)
    } else {
        0
    }
}

// One more than the greatest end of the ranges of a relation.
fn first_above_ranges(relation: &Relation<'_>) -> u64
    ensures { result ≡ first_above (map (λ range. range.1) (lent_relation relation.now).meaning.ranges) }
{
    let mut bound = 0;
    let count = relation.len();
    for k in 0..count {
        bound = bound.max(u64::from(ends_at(relation, k).1) + 1);
    }
    bound
}
