//! Rules that are read for their refusals alone.

ghost use Rattle.std.specs.Prelude.{◌≢◌, Option, Err, Some, option_map};
ghost use Rattle.plural_base.specs.declared.category.PluralCategory.{PluralCategory as Category};
ghost use Rattle.plural_base.specs.Inner.CategoryValues.{five_lent, rules_at};
ghost use Rattle.plural_base.specs.Inner.JsonSteps.{Passes};
ghost use Rattle.plural_base.specs.RulesJson.{optional_meant, rule_meant, rules_meant};
ghost use Rattle.serde_json.specs.View.{view};

use crate::category::PluralCategory;
use crate::category::by_category::ByCategory;
use crate::for_five;
use crate::json::category_values::values_by_category;
use crate::json::error::JsonError;
use crate::json::known_rules::KnownRules;
use crate::json::rule::read_rule;
use plural_runtime::RuleError;
use serde_json::Value;
use std::alloc::Global;

// Returns the refusal of five rules.
pub(crate) fn check_rules<'v>(
    alloc: Global,
    value: &'v Value,
    known: &mut KnownRules<'v>,
) -> Result<(), JsonError>
    ensures answers { Passes result (rules_meant (view value.now)) }
    ensures float { result ≢ Err JsonError.Float }
    ensures memory { (category : Option Category) → result ≢ Err (JsonError.Rule category RuleError.Memory) }
{
    match value.as_object() {
        Some(members) => check_values(alloc, &values_by_category(members), known),
        None => Err(JsonError::Shape),
    }
}

// Returns the refusal of the values under the names of the categories.
fn check_values<'v>(
    alloc: Global,
    values: &ByCategory<Option<&'v Value>>,
    known: &mut KnownRules<'v>,
) -> Result<(), JsonError>
    ensures answers { Passes result (rules_at (five_lent values.now)) }
    ensures float { result ≢ Err JsonError.Float }
    ensures memory { (category : Option Category) → result ≢ Err (JsonError.Rule category RuleError.Memory) }
{
    for_five!(
        values,
        |value, category| check_optional(alloc, *value, category, known)?
    );
    Ok(())
}

// Returns the refusal of a rule that may be absent or null.
fn check_optional<'v>(
    alloc: Global,
    value: Option<&'v Value>,
    category: PluralCategory,
    known: &mut KnownRules<'v>,
) -> Result<(), JsonError>
    ensures answers { Passes result (optional_meant category (option_map (λ v. view v.now) value.entry)) }
    ensures float { result ≢ Err JsonError.Float }
    ensures memory { (c : Option Category) → result ≢ Err (JsonError.Rule c RuleError.Memory) }
{
    let Some(value) = value else {
        return Ok(());
    };
    if value.is_null() {
        return Ok(());
    }
    check_rule(alloc, value, category, known)
}

// Returns the refusal of a rule. A text that was read before isn't read again.
fn check_rule<'v>(
    alloc: Global,
    value: &'v Value,
    category: PluralCategory,
    known: &mut KnownRules<'v>,
) -> Result<(), JsonError>
    ensures answers { Passes result (rule_meant (Some category) (view value.now)) }
    ensures float { result ≢ Err JsonError.Float }
    ensures memory { (c : Option Category) → result ≢ Err (JsonError.Rule c RuleError.Memory) }
{
    let Some(text) = value.as_str() else {
        return Err(JsonError::Shape);
    };
    if let Some(_) = known.get(text) {
        return Ok(());
    }
    match read_rule(alloc, value, Some(category)) {
        Ok(rule) => Ok(known.keep(text, rule)?),
        Err(refusal) => Err(refusal),
    }
}
