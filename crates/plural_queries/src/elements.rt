//! The elements of a document.

ghost use Rattle.std.specs.Prelude.{codes};
ghost use Rattle.serde_json.specs.Find.{get};
ghost use Rattle.serde_json.specs.View.{view};
ghost use Rattle.plural_queries.specs.Input.{elements_at_key, elements_for, or_bad};
ghost use Rattle.plural_queries.specs.CallAnswers.{GivesValue};
ghost use Rattle.plural_queries.specs.QueryViews.{document_view, elements_view};

use crate::document::{Document, rules_for};
use crate::error::RunError;
use icu_plurals::provider::PluralElementsPackedCow;
use icu_plurals::{JsonError, PluralRuleType, PluralRules};
use serde_json::Value;
use std::alloc::Global;

// The elements of a document, and the rules that choose among them.
#[derive(Drop)]
pub(crate) struct RuledElements<'a> {
    pub(crate) elements: PluralElementsPackedCow<'static>,
    pub(crate) rules: PluralRules<'a>,
}

// The elements that the document has, with its rules of a type for a locale.
pub(crate) fn elements_for<'a>(
    alloc: Global,
    document: &'a Document,
    locale: &str,
    rule_type: PluralRuleType,
) -> Result<RuledElements<'a>, RunError>
    ensures { GivesValue elements_view (elements_for rule_type locale.now (document_view document.now)) result }
{
    let elements = elements_of(alloc, &document.value)?;
    match rules_for(document, locale, rule_type) {
        Ok(data) => {
            let rules = PluralRules::from_data(data);
            Ok(RuledElements { elements, rules })
        }
        Err(fault) => {
            drop(elements);
            Err(fault)
        }
    }
}

// The elements of the document that a JSON value is.
fn elements_of(alloc: Global, value: &Value) -> Result<PluralElementsPackedCow<'static>, RunError>
    ensures { GivesValue (λ elements. elements) (or_bad (elements_at_key (get (codes "elements") (view value.now)))) result }
{
    let Some(elements) = value.get("elements") else {
        return Err(RunError::Document(JsonError::Shape));
    };
    match PluralElementsPackedCow::from_json(alloc, elements) {
        Ok(elements) => Ok(elements),
        Err(JsonError::Memory) => Err(RunError::Memory),
        Err(refusal) => Err(RunError::Document(refusal)),
    }
}
