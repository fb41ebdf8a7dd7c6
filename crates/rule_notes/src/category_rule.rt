//! The conditions of a language's texts.

ghost use Rattle.std.specs.Prelude.{◌≡◌, IfOk, OnOk};
ghost use Rattle.std.specs.Option.{option_copied};
ghost use Rattle.plural_checker.specs.LanguageTexts.{six_texts};
ghost use Rattle.rule_notes.specs.RuleNotes.{AddsRule, AreCategoryRulesOf, HasCondition};

use plural_base::{PluralCategory, for_five};
use plural_checker::{LanguageTexts, MOST_TEXT_BYTES};
use plural_reference::ast::Condition;
use plural_reference::{Lexer, ReadError, parse_without_samples};
use std::alloc::{AllocError, Global};

// The condition of a category.
#[derive(Debug, Drop)]
pub(crate) struct CategoryRule {
    pub(crate) category: PluralCategory,
    pub(crate) condition: Condition,
}

// The conditions of the five texts, as far as there are any.
pub(crate) fn rules_of(
    alloc: Global,
    texts: &LanguageTexts<'_>,
) -> Result<Vec<CategoryRule>, AllocError>
    ensures { IfOk result (λ rules. AreCategoryRulesOf (six_texts texts.now).five rules.items) }
{
    let mut rules = Vec::new(alloc);
    for_five!(texts, |text, category| {
        add_rule(alloc, category, *text, &mut rules)?;
    });
    Ok(rules)
}

// Adds the condition of a category's text, if it has one.
fn add_rule(
    alloc: Global,
    category: PluralCategory,
    text: Option<&str>,
    rules: &mut Vec<CategoryRule>,
) -> Result<(), AllocError>
    ensures { OnOk result (AddsRule category (option_copied text.entry) rules.old.items rules.new.items) }
{
    if let Some(condition) = condition_if_there(alloc, text)? {
        rules.push(CategoryRule {
            category,
            condition,
        })?;
    }
    Ok(())
}

// The condition of a text, if it has one.
fn condition_if_there(alloc: Global, text: Option<&str>) -> Result<Option<Condition>, AllocError>
    ensures { IfOk result (λ condition. HasCondition (option_copied text.entry) condition) }
{
    match text {
        Some(text) => condition_of(alloc, text),
        None => Ok(None),
    }
}

// The condition of a text that isn't long and is a rule.
fn condition_of(alloc: Global, text: &str) -> Result<Option<Condition>, AllocError>
    ensures { IfOk result (λ condition. HasCondition (Some text.now) condition) }
{
    if text.len() > MOST_TEXT_BYTES {
        return Ok(None);
    }
    let bytes = text.as_bytes();
    // Only for the proof: shows that the text has tokens.
    let _tokens = Lexer::new(bytes);
    match parse_without_samples(alloc, bytes) {
        Ok(condition) => Ok(Some(condition)),
        Err(ReadError::Parse(_)) => Ok(None),
        Err(ReadError::Memory) => Err(AllocError),
    }
}
