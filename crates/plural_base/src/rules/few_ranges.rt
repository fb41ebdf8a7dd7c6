//! Whether rules have few relations and ranges.

ghost use Rattle.std.specs.Prelude.{◌↔◌, ℕ, ◌+◌, IsTrue, length};
ghost use Rattle.plural_runtime.specs.PackedTruth.{range_count};
ghost use Rattle.plural_runtime.specs.Inner.RuleViews.{lent_relation};
ghost use Rattle.plural_base.specs.FiveRules.{rules_of};
ghost use Rattle.plural_base.specs.Inner.WholeNumbers.{IsLeft};
ghost use Rattle.plural_base.specs.RuleSizes.{HaveFewRanges, rule_size, rules_size};

use crate::for_five;
use crate::rules::data::PluralRulesData;
use plural_runtime::{Relation, Rule};

// Up to this many relations and ranges rules have few.
const FEW_RANGES: usize = 64;

// Whether rules have few ranges. It reads no relation after that which makes them too many.
pub(crate) fn has_few_ranges(rules: &PluralRulesData<'_>) -> bool
    ensures { IsTrue result ↔ HaveFewRanges (rules_of rules.now) }
{
    left_of_few(rules).is_some()
}

// How many relations and ranges rules may have more to have few.
fn left_of_few(rules: &PluralRulesData<'_>) -> Option<usize>
    ensures { IsLeft (rules_size (rules_of rules.now)) 64 result }
{
    let mut left = Some(FEW_RANGES);
    for_five!(rules, |rule| left = left_after(rule, left));
    left
}

// What is left of a number, once the relations and ranges of a rule are taken too.
fn left_after(rule: &Option<Rule<'_>>, left: Option<usize>) -> Option<usize>
    ensures { (taken number : ℕ) → IsLeft taken number left → IsLeft (taken + rule_size rule.now) number result }
{
    match rule {
        Some(rule) => left_after_relations(rule, left?),
        None => left,
    }
}

// What is left of a number once the relations and ranges of a rule are taken from it.
fn left_after_relations(rule: &Rule<'_>, number: usize) -> Option<usize>
    ensures { IsLeft (length rule.now + range_count rule.now) number result }
{
    let mut left = number;
    for item in rule.iter() {
        left = left_after_relation(&item.as_relation(), left)?;
    }
    Some(left)
}

// The same of a relation and its ranges.
fn left_after_relation(relation: &Relation<'_>, number: usize) -> Option<usize>
    ensures { IsLeft (1 + length (lent_relation relation.now).meaning.ranges) number result }
{
    number.checked_sub(relation.len())?.checked_sub(1)
}
