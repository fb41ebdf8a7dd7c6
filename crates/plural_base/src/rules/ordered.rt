//! Rules of many ranges, with these in order.

ghost use Rattle.std.specs.Prelude.{◌≡◌, Contains, IfErr, IfOk, None, OnOk};
ghost use Rattle.plural_runtime.specs.PackedTruth.{packed_truth};
ghost use Rattle.plural_base.specs.FiveRules.{ArePaired, Paired, categories_of, first_category, five, passes, rules_of};
ghost use Rattle.plural_base.specs.Inner.OrderedRules.{AreLike};

pub(crate) mod ranges;
pub(crate) mod relation;
pub(crate) mod rule;

use crate::category::PluralCategory;
use crate::five::Five;
use crate::rules::PluralRules;
use crate::rules::data::PluralRulesData;
use crate::rules::ordered::rule::OrderedRule;
use crate::{for_five, put_five};
use plural_reference::PluralOperands;
use plural_runtime::Rule;
use std::alloc::{AllocError, Global};
use std::marker::Model;

// Rules, and the same with their ranges in order. Contracts see the rules.
#[derive(Debug, Drop)]
pub(crate) struct OrderedRules<'data> {
    rules: PluralRules<'data>,
    ordered: Five<Option<OrderedRule>>,
}

impl<'data> Model for OrderedRules<'data> {
    ghost use Rattle.plural_base.specs.FiveRules.{FiveRules};

    ghost Value = { FiveRules };

    ghost use Rattle.plural_base.specs.Inner.OrderedRules.{ChooseSame};

    ghost view = { λ ordered. ordered.rules };

    ghost invariant = { λ ordered. ChooseSame ordered.ordered ordered.rules };
}

impl<'data> OrderedRules<'data> {
    // The rules, which are taken out of the place where they are unless memory runs out.
    pub(crate) fn of(
        alloc: Global,
        rules: &mut PluralRules<'data>,
    ) -> Result<OrderedRules<'data>, AllocError>
        ensures ok { IfOk result (λ ordered. ordered ≡ rules.old) }
        ensures same { IfErr result (λ _. rules.new ≡ rules.old) }
    {
        let ordered = ordered_rules(alloc, &rules.data)?;
        Ok(OrderedRules {
            rules: rules.taken(),
            ordered,
        })
    }

    // The rules.
    pub(crate) fn rules(&self) -> &PluralRules<'data>
        ensures { result.now ≡ self.now }
    {
        &self.rules
    }

    // The category of a number by its operands.
    pub(crate) fn category_for(&self, operands: &PluralOperands) -> PluralCategory
        ensures first { result ≡ first_category (packed_truth operands.now) self.now }
        ensures member { Contains (categories_of self.now) result }
    {
        first_true(&self.ordered, operands)
    }
}

// The rules with their ranges in order.
fn ordered_rules(
    alloc: Global,
    rules: &PluralRulesData<'_>,
) -> Result<Five<Option<OrderedRule>>, AllocError>
    ensures { IfOk result (λ ordered. ArePaired AreLike ordered (rules_of rules.now)) }
{
    let mut ordered = Five::none();
    put_ordered_rules(alloc, rules, &mut ordered).and(Ok(ordered))
}

// Puts the rules with their ranges in order.
fn put_ordered_rules(
    alloc: Global,
    rules: &PluralRulesData<'_>,
    ordered: &mut Five<Option<OrderedRule>>,
) -> Result<(), AllocError>
    requires { ordered.old ≡ five None None None None None }
    ensures { OnOk result (ArePaired AreLike ordered.new (rules_of rules.now)) }
{
    put_five!(
        ordered,
        rules,
        |place, rule| put_ordered(alloc, rule, place)?
    );
    Ok(())
}

// Puts the rule with its ranges in order, if it is present.
fn put_ordered(
    alloc: Global,
    rule: &Option<Rule<'_>>,
    ordered: &mut Option<OrderedRule>,
) -> Result<(), AllocError>
    requires { ordered.old ≡ None }
    ensures { OnOk result (Paired AreLike ordered.new rule.now) }
{
    if let Some(rule) = rule {
        *ordered = Some(OrderedRule::of(alloc, rule)?);
    }
    Ok(())
}

// The first category whose rule is present and true, else other.
fn first_true(rules: &Five<Option<OrderedRule>>, operands: &PluralOperands) -> PluralCategory
    ensures { result ≡ first_category (packed_truth operands.now) rules.now }
{
    for_five!(rules, |rule, category| {
        if is_true_of(rule, operands) {
            return category;
        }
    });
    PluralCategory::Other
}

// Whether a rule is present and true.
fn is_true_of(rule: &Option<OrderedRule>, operands: &PluralOperands) -> bool
    ensures { result ≡ passes (packed_truth operands.now) rule.now }
{
    match rule {
        Some(rule) => rule.is_true(operands),
        None => false,
    }
}
