//! A rule as JSON.

ghost use Rattle.std.specs.Prelude.{◌≡◌, ◌≢◌, ◌↔◌, Option, Some, None, Err, IfOk, IfErr, IsTrue, IsFalse};
ghost use Rattle.plural_base.specs.declared.category.PluralCategory.{PluralCategory as Category};
ghost use Rattle.plural_base.specs.Inner.JsonSteps.{refusal_of};
ghost use Rattle.plural_base.specs.Json.{GivesMeaning};
ghost use Rattle.plural_base.specs.RulesJson.{rule_meant, rule_of_json, rule_json};
ghost use Rattle.plural_base.specs.RuleTexts.{IsRuleOf};
ghost use Rattle.serde_json.specs.Find.{as_str};
ghost use Rattle.serde_json.specs.View.{view};
ghost use Rattle.serde_json.specs.Written.{has_float};

use crate::category::PluralCategory;
use crate::json::error::JsonError;
use crate::json::float::holds_float;
use crate::rules::text::packed;
use plural_runtime::{Rule, RuleError};
use serde_json::Value;
use std::alloc::Global;

/// Returns the rule of a JSON value, which is a text as CLDR writes rules, samples included (UTS 35
/// Part 3, Plural Rules Syntax).
///
/// [`JsonError::Float`] if the value holds a float, else [`JsonError::Shape`] if it isn't a text,
/// else [`JsonError::Rule`] without a category if the text gives no rule. It allocates for the
/// rule; out of memory is [`JsonError::Memory`].
///
/// <!-- snippet crates/tests_libraries/src/tests/plural_base_rules.rt: example body of fn a_rule_is_its_printed_text -->
/// ```
/// let value = Value::from_str(alloc, "\"i%10=1 or n = 2..4 @integer 1\"")?;
/// let rule = rule_from_json(alloc, &value)?;
/// let written = rule_to_json(alloc, &rule)?.to_string(alloc)?;
/// assert!(rt; written.as_str() == "\"i % 10 = 1 or n = 2..4\"");
/// assert!(rt; rule == Rule::from_str(alloc, "i % 10 = 1 or n = 2..4")?);
/// ```
pub fn rule_from_json(alloc: Global, value: &Value) -> Result<Rule<'static>, JsonError>
    ensures answers { GivesMeaning (λ rule. rule) result (rule_of_json (view value.now)) }
    ensures read { IfOk result (λ rule. IsRuleOf (as_str (view value.now)) (Some rule)) }
    // Both are checked before anything is allocated.
    ensures float { (result ≡ Err JsonError.Float) ↔ IsTrue (has_float (view value.now)) }
    ensures shape { (result ≡ Err JsonError.Shape) ↔ (IsFalse (has_float (view value.now)) × (as_str (view value.now) ≡ None)) }
    ensures memory { (category : Option Category) → result ≢ Err (JsonError.Rule category RuleError.Memory) }
{
    if holds_float(value) {
        return Err(JsonError::Float);
    }
    read_rule(alloc, value, None)
}

/// Returns the JSON value of a rule, its printed text, as the example of [`rule_from_json`] shows.
/// It allocates for the text; the only error is [`JsonError::Memory`].
pub fn rule_to_json(alloc: Global, rule: &Rule<'_>) -> Result<Value, JsonError>
    ensures written { IfOk result (λ value. view value ≡ rule_json rule.now) }
    ensures memory { IfErr result (λ error. error ≡ JsonError.Memory) }
{
    Ok(Value::String(rule.to_string(alloc)?))
}

// The rule of a value without floats; its refusal names the category.
pub(crate) fn read_rule(
    alloc: Global,
    value: &Value,
    category: Option<PluralCategory>,
) -> Result<Rule<'static>, JsonError>
    ensures answers { GivesMeaning (λ rule. rule) result (rule_meant category (view value.now)) }
    ensures read { IfOk result (λ rule. IsRuleOf (as_str (view value.now)) (Some rule)) }
    ensures float { result ≢ Err JsonError.Float }
    ensures shape { (result ≡ Err JsonError.Shape) ↔ (as_str (view value.now) ≡ None) }
    ensures memory { (c : Option Category) → result ≢ Err (JsonError.Rule c RuleError.Memory) }
{
    let Some(text) = value.as_str() else {
        return Err(JsonError::Shape);
    };
    match packed(alloc, text) {
        Ok(rule) => Ok(rule),
        Err(fault) => Err(refusal(category, fault)),
    }
}

// The refusal of a text; out of memory is no reason why it gives no rule.
fn refusal(category: Option<PluralCategory>, fault: RuleError) -> JsonError
    ensures value { result ≡ refusal_of category fault }
    ensures float { result ≢ JsonError.Float }
    ensures shape { result ≢ JsonError.Shape }
{
    match fault {
        RuleError::Memory => JsonError::Memory,
        RuleError::Parse(_) | RuleError::StartLimit => JsonError::Rule(category, fault),
    }
}
