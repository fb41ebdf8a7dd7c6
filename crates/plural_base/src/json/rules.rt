//! Rules as JSON.

ghost use Rattle.std.specs.Prelude.{◌≡◌, ◌≢◌, ◌↔◌, Option, Some, None, Err, option_map, IfOk, IfErr, OnOk, IsTrue, IsFalse, string_bytes};
ghost use Rattle.std.specs.Option.{option_and_then};
ghost use Rattle.plural_base.specs.declared.category.PluralCategory.{PluralCategory as Category};
ghost use Rattle.plural_base.specs.RuleTexts.{AreRulesOf, IsRuleOf};
ghost use Rattle.plural_base.specs.Categories.{name_of};
ghost use Rattle.plural_base.specs.FiveRules.{rules_of, five};
ghost use Rattle.plural_base.specs.Inner.CategoryValues.{five_lent, five_under, rules_at, texts_among_five};
ghost use Rattle.plural_base.specs.Inner.JsonSteps.{rule_members};
ghost use Rattle.plural_base.specs.Json.{GivesMeaning};
ghost use Rattle.plural_base.specs.RulesJson.{optional_rule_json, optional_meant, rule_meant, rules_meant, texts_in};
ghost use Rattle.serde_json.specs.Find.{as_str, as_object};
ghost use Rattle.serde_json.specs.Data.{put};
ghost use Rattle.serde_json.specs.View.{view, members_view};
ghost use Rattle.serde_json.specs.Written.{has_float};

use crate::category::PluralCategory;
use crate::category::by_category::ByCategory;
use crate::category::raw::RawPluralCategory;
use crate::json::category_values::values_by_category;
use crate::json::checks::check_rules;
use crate::json::error::JsonError;
use crate::json::float::holds_float;
use crate::json::known_rules::KnownRules;
use crate::json::rows::FromJson;
use crate::json::rule::{read_rule, rule_to_json};
use crate::rules::data::PluralRulesData;
use crate::{for_five, put_five};
use plural_runtime::{Rule, RuleError};
use serde_json::{Map, Value};
use std::alloc::{AllocError, Global};

impl PluralRulesData<'static> {
    ghost use Rattle.plural_base.specs.RulesJson.{rules_of_json};

    /// Returns the rules of a JSON value: an object with a rule's text under each of `zero`, `one`,
    /// `two`, `few` and `many`, or null or nothing if there is no rule. Other keys, `other` among
    /// them, aren't read.
    ///
    /// <!-- snippet crates/tests_libraries/src/tests/plural_base_rules.rt: example body of fn rules_are_read_and_written -->
    /// ```
    /// let value = Value::from_str(alloc, "{\"one\":\"i \\u003d 1\"}")?;
    /// let rules = PluralRulesData::from_json(alloc, &value)?;
    /// let one = Some("i = 1");
    /// let wanted = PluralRulesData::from_texts(alloc, None, one, None, None, None)?;
    /// assert!(rt; rules == wanted);
    /// let written = rules.to_json(alloc)?.to_string(alloc)?;
    /// let all_five = "{\"few\":null,\"many\":null,\"one\":\"i = 1\",\"two\":null,\"zero\":null}";
    /// assert!(rt; written.as_str() == all_five);
    /// ```
    ///
    /// [`JsonError::Float`] if the value holds a float, else [`JsonError::Shape`] if it isn't an
    /// object; else the refusal of the first of the five, in this order, that is refused:
    /// [`JsonError::Shape`] if it is neither null nor a text, [`JsonError::Rule`] with its category
    /// if the text gives no rule. It allocates for each rule; out of memory is
    /// [`JsonError::Memory`], never where none of the five is a text.
    pub fn from_json(alloc: Global, value: &Value) -> Result<PluralRulesData<'static>, JsonError>
        ensures answers { GivesMeaning rules_of result (rules_of_json (view value.now)) }
        // The rules come from the texts under the five keys.
        ensures read { IfOk result (λ rules. AreRulesOf (texts_in (view value.now)) (rules_of rules)) }
        // Both are checked before anything is allocated.
        ensures float { (result ≡ Err JsonError.Float) ↔ IsTrue (has_float (view value.now)) }
        ensures shape { IsFalse (has_float (view value.now)) → as_object (view value.now) ≡ None → result ≡ Err JsonError.Shape }
        ensures memory { (category : Option Category) → result ≢ Err (JsonError.Rule category RuleError.Memory) }
        // Only texts are allocated for.
        ensures no_text { texts_in (view value.now) ≡ five None None None None None → result ≢ Err JsonError.Memory }
    {
        if holds_float(value) {
            return Err(JsonError::Float);
        }
        read_rules(alloc, value, &mut KnownRules::new(alloc))
    }
}

impl<'data> PluralRulesData<'data> {
    ghost use Rattle.plural_base.specs.RulesJson.{rules_json};

    /// Returns the JSON value of the rules: an object with all five keys, and under each the rule's
    /// printed text, or null. It allocates; the only error is [`JsonError::Memory`].
    pub fn to_json(&self, alloc: Global) -> Result<Value, JsonError>
        ensures written { IfOk result (λ value. view value ≡ rules_json (rules_of self.now)) }
        ensures memory { IfErr result (λ error. error ≡ JsonError.Memory) }
    {
        let mut members = Map::new(alloc);
        match put_texts(alloc, self, &mut members) {
            Ok(()) => Ok(Value::Object(members)),
            Err(error) => Err(error),
        }
    }
}

// What a locale has under `cardinal` and `ordinal`.
impl FromJson for PluralRulesData<'static> {
    ghost use Rattle.plural_base.specs.FiveRules.{FiveRules};

    ghost Seen = { FiveRules };

    ghost seen = { rules_of };

    ghost meant = { rules_meant };

    fn read<'v>(
        alloc: Global,
        value: &'v Value,
        known: &mut KnownRules<'v>,
    ) -> Result<PluralRulesData<'static>, JsonError> {
        read_rules(alloc, value, known)
    }

    fn check<'v>(
        alloc: Global,
        value: &'v Value,
        known: &mut KnownRules<'v>,
    ) -> Result<(), JsonError> {
        check_rules(alloc, value, known)
    }
}

// The five rules of a value without floats.
fn read_rules<'v>(
    alloc: Global,
    value: &'v Value,
    known: &mut KnownRules<'v>,
) -> Result<PluralRulesData<'static>, JsonError>
    ensures answers { GivesMeaning rules_of result (rules_meant (view value.now)) }
    ensures read { IfOk result (λ rules. AreRulesOf (texts_in (view value.now)) (rules_of rules)) }
    ensures float { result ≢ Err JsonError.Float }
    ensures shape { as_object (view value.now) ≡ None → result ≡ Err JsonError.Shape }
    ensures memory { (category : Option Category) → result ≢ Err (JsonError.Rule category RuleError.Memory) }
    ensures no_text { texts_in (view value.now) ≡ five None None None None None → result ≢ Err JsonError.Memory }
{
    match value.as_object() {
        Some(members) => read_members(alloc, members, known),
        None => Err(JsonError::Shape),
    }
}

// The five rules of an object with these members.
fn read_members<'v>(
    alloc: Global,
    members: &'v Map<String, Value>,
    known: &mut KnownRules<'v>,
) -> Result<PluralRulesData<'static>, JsonError>
    ensures answers { GivesMeaning rules_of result (rules_at (five_under (members_view members.now.entries))) }
    ensures read { IfOk result (λ rules. AreRulesOf (texts_among_five (five_under (members_view members.now.entries))) (rules_of rules)) }
    ensures float { result ≢ Err JsonError.Float }
    ensures memory { (category : Option Category) → result ≢ Err (JsonError.Rule category RuleError.Memory) }
    ensures no_text { texts_among_five (five_under (members_view members.now.entries)) ≡ five None None None None None → result ≢ Err JsonError.Memory }
{
    let values = values_by_category(members);
    let mut rules: PluralRulesData<'static> = PluralRulesData::default();
    put_values(alloc, &values, known, &mut rules).and(Ok(rules))
}

// Puts the rules of the values under the names of their categories.
fn put_values<'v>(
    alloc: Global,
    values: &ByCategory<Option<&'v Value>>,
    known: &mut KnownRules<'v>,
    rules: &mut PluralRulesData<'static>,
) -> Result<(), JsonError>
    requires { rules_of rules.old ≡ five None None None None None }
    ensures answers { GivesMeaning (λ _. rules_of rules.new) result (rules_at (five_lent values.now)) }
    ensures read { OnOk result (AreRulesOf (texts_among_five (five_lent values.now)) (rules_of rules.new)) }
    ensures float { result ≢ Err JsonError.Float }
    ensures memory { (category : Option Category) → result ≢ Err (JsonError.Rule category RuleError.Memory) }
    ensures no_text { texts_among_five (five_lent values.now) ≡ five None None None None None → result ≢ Err JsonError.Memory }
{
    put_five!(
        rules,
        values,
        |rule, value, category| put_optional(alloc, *value, category, known, rule)?
    );
    Ok(())
}

// Puts the rule of a value that may be absent or null.
fn put_optional<'v>(
    alloc: Global,
    value: Option<&'v Value>,
    category: PluralCategory,
    known: &mut KnownRules<'v>,
    rule: &mut Option<Rule<'static>>,
) -> Result<(), JsonError>
    requires { rule.old ≡ None }
    ensures answers { GivesMeaning (λ _. rule.new) result (optional_meant category (option_map (λ v. view v.now) value.entry)) }
    ensures read { OnOk result (IsRuleOf (option_and_then as_str (option_map (λ v. view v.now) value.entry)) rule.new) }
    ensures float { result ≢ Err JsonError.Float }
    ensures memory { (c : Option Category) → result ≢ Err (JsonError.Rule c RuleError.Memory) }
    ensures no_text { option_and_then as_str (option_map (λ v. view v.now) value.entry) ≡ None → result ≢ Err JsonError.Memory }
{
    let Some(value) = value else {
        return Ok(());
    };
    if value.is_null() {
        return Ok(());
    }
    match known_rule(alloc, value, category, known) {
        Ok(found) => {
            *rule = Some(found);
            Ok(())
        }
        Err(refusal) => Err(refusal),
    }
}

// The rule of a value, a copy if its text was read before.
fn known_rule<'v>(
    alloc: Global,
    value: &'v Value,
    category: PluralCategory,
    known: &mut KnownRules<'v>,
) -> Result<Rule<'static>, JsonError>
    ensures answers { GivesMeaning (λ rule. rule) result (rule_meant (Some category) (view value.now)) }
    ensures read { IfOk result (λ rule. IsRuleOf (as_str (view value.now)) (Some rule)) }
    ensures float { result ≢ Err JsonError.Float }
    ensures shape { (result ≡ Err JsonError.Shape) ↔ (as_str (view value.now) ≡ None) }
    ensures memory { (c : Option Category) → result ≢ Err (JsonError.Rule c RuleError.Memory) }
{
    let Some(text) = value.as_str() else {
        return Err(JsonError::Shape);
    };
    if let Some(rule) = known.get(text) {
        return Ok(rule.try_clone()?);
    }
    let rule = read_rule(alloc, value, Some(category))?;
    known.keep(text, rule.try_clone()?)?;
    Ok(rule)
}

// The value of a rule, null if there is none.
fn write_optional(alloc: Global, rule: &Option<Rule<'_>>) -> Result<Value, JsonError>
    ensures written { IfOk result (λ value. view value ≡ optional_rule_json rule.now) }
    ensures memory { IfErr result (λ error. error ≡ JsonError.Memory) }
{
    match rule {
        Some(rule) => rule_to_json(alloc, rule),
        None => Ok(Value::Null),
    }
}

// Puts the values of the rules under the names of their categories.
fn put_texts(
    alloc: Global,
    rules: &PluralRulesData<'_>,
    members: &mut Map<String, Value>,
) -> Result<(), JsonError>
    ensures written { OnOk result (members_view members.new.entries ≡ rule_members (rules_of rules.now) (members_view members.old.entries)) }
    ensures memory { IfErr result (λ error. error ≡ JsonError.Memory) }
{
    for_five!(
        rules,
        |rule, category| put_text(alloc, rule, category, members)?
    );
    Ok(())
}

// Puts the value of a rule under the name of its category.
fn put_text(
    alloc: Global,
    rule: &Option<Rule<'_>>,
    category: PluralCategory,
    members: &mut Map<String, Value>,
) -> Result<(), JsonError>
    ensures written { OnOk result (members_view members.new.entries ≡ put (name_of category) (optional_rule_json rule.now) (members_view members.old.entries)) }
    ensures memory { IfErr result (λ error. error ≡ JsonError.Memory) }
{
    let name = String::from_str(alloc, RawPluralCategory::from(category).as_str())?;
    let value = write_optional(alloc, rule)?;
    Ok(put_value(name, value, members)?)
}

// Puts a value under a name.
pub(crate) fn put_value(
    name: String,
    value: Value,
    members: &mut Map<String, Value>,
) -> Result<(), AllocError>
    ensures { OnOk result (members_view members.new.entries ≡ put (string_bytes name) (view value) (members_view members.old.entries)) }
{
    drop(members.insert(name, value)?);
    Ok(())
}
