//! What is noted of a rule beside earlier ones.

ghost use Rattle.std.specs.Prelude.{IfOk, MatchBool, OnOk};
ghost use Rattle.plural_reference.specs.Serializer.{condition_text};
ghost use Rattle.rule_notes.specs.ConditionCauses.{IsNotedIf};
ghost use Rattle.rule_notes.specs.EarlierRules.{AreAlikeCauses, HasFirstText, IsTakenByEarlier};
ghost use Rattle.rule_notes.specs.Inner.CauseLists.{Adds};

use crate::category_rule::CategoryRule;
use crate::cause::Cause;
use crate::own_numbers::has_own;
use crate::printed::printed;
use plural_base::PluralCategory;
use std::alloc::{AllocError, Global};

// Adds the first earlier category whose condition prints alike.
pub(crate) fn add_alike(
    alloc: Global,
    earlier: &[CategoryRule],
    rule: &CategoryRule,
    causes: &mut Vec<Cause>,
) -> Result<(), AllocError>
    ensures { OnOk result (Adds (AreAlikeCauses earlier.now rule.now) causes.old.items causes.new.items) }
{
    if let Some(category) = first_alike(alloc, earlier, rule)? {
        causes.push(Cause::Alike(category))?;
    }
    Ok(())
}

// The first earlier category whose condition prints alike.
fn first_alike(
    alloc: Global,
    earlier: &[CategoryRule],
    rule: &CategoryRule,
) -> Result<Option<PluralCategory>, AllocError>
    ensures { IfOk result (λ category. HasFirstText earlier.now (condition_text rule.now.condition) category) }
{
    if earlier.is_empty() {
        return Ok(None);
    }
    let text = printed(alloc, &rule.condition)?;
    first_with(alloc, earlier, text.as_str())
}

// The first category whose condition has this printed text.
fn first_with(
    alloc: Global,
    rules: &[CategoryRule],
    text: &str,
) -> Result<Option<PluralCategory>, AllocError>
    ensures { IfOk result (λ category. HasFirstText rules.now text.now category) }
{
    let mut rest = rules;
    while let Some((first, after)) = rest.split_first() {
        if printed(alloc, &first.condition)?.as_str() == text {
            return Ok(Some(first.category));
        }
        rest = after;
    }
    Ok(None)
}

// Adds that earlier rules have all numbers of a rule, if they do.
pub(crate) fn add_taken(
    earlier: &[CategoryRule],
    rule: &CategoryRule,
    causes: &mut Vec<Cause>,
) -> Result<(), AllocError>
    ensures { OnOk result (Adds (IsNotedIf (IsTakenByEarlier earlier.now rule.now) Cause.Taken) causes.old.items causes.new.items) }
{
    if is_taken(earlier, rule) {
        causes.push(Cause::Taken)?;
    }
    Ok(())
}

// Whether the rule is true of some number that is looked at, and an earlier one is true of each such
// number.
fn is_taken(earlier: &[CategoryRule], rule: &CategoryRule) -> bool
    ensures { MatchBool result (IsTakenByEarlier earlier.now rule.now) (¬ (IsTakenByEarlier earlier.now rule.now)) }
{
    has_own(&[], rule) && !has_own(earlier, rule)
}
