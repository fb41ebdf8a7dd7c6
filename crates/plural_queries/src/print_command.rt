//! The command `print`.

ghost use Rattle.std.specs.Prelude.{◌≡◌, ◌++◌, codes, Ok, OnOk, IfOk, string_bytes};
ghost use Rattle.icu_plurals.specs.Categories.{name_of};
ghost use Rattle.icu_plurals.specs.FiveRules.{rules_of as data_of};
ghost use Rattle.plural_queries.specs.LookupAnswers.{AnswersFrom};
ghost use Rattle.plural_queries.specs.Input.{rules_for};
ghost use Rattle.plural_queries.specs.CallAnswers.{GivesAnswerText};
ghost use Rattle.plural_queries.specs.QueryViews.{document_view};
ghost use Rattle.plural_queries.specs.Lines.{AreRuleLines, rule_line, rule_lines};

use crate::document::{Document, rules_for};
use crate::error::RunError;
use icu_plurals::provider::rules::runtime::ast::Rule;
use icu_plurals::provider::{PluralRulesData, RawPluralCategory};
use icu_plurals::{PluralCategory, PluralRuleType};
use plural_base::for_five;
use std::alloc::{AllocError, Global};
use std::borrow::CowStr;

// The lines of the rules that a document has for a locale.
pub(crate) fn rule_lines(
    alloc: Global,
    document: &Document,
    locale: &str,
    rule_type: PluralRuleType,
) -> Result<CowStr<'static>, RunError>
    ensures { GivesAnswerText (AnswersFrom AreRuleLines
        (rules_for rule_type locale.now (document_view document.now))) result }
{
    let rules = rules_for(document, locale, rule_type)?;
    let lines = answer_of(alloc, &rules);
    drop(rules);
    lines
}

// The lines of rules, as an answer.
fn answer_of(alloc: Global, rules: &PluralRulesData<'_>) -> Result<CowStr<'static>, RunError>
    ensures { GivesAnswerText (AnswersFrom AreRuleLines (Ok (data_of rules.now))) result }
{
    match lines_of(alloc, rules) {
        Ok(lines) => Ok(CowStr::Owned(lines)),
        Err(_) => Err(RunError::Memory),
    }
}

// The lines of the rules that are present, from zero to many.
fn lines_of(alloc: Global, rules: &PluralRulesData<'_>) -> Result<String, AllocError>
    ensures { IfOk result (λ lines. string_bytes lines ≡ rule_lines (data_of rules.now)) }
{
    let mut lines = String::new(alloc);
    match push_rules(alloc, &mut lines, rules) {
        Ok(()) => Ok(lines),
        Err(error) => Err(error),
    }
}

// Appends the lines of the rules that are present, from zero to many.
fn push_rules(
    alloc: Global,
    lines: &mut String,
    rules: &PluralRulesData<'_>,
) -> Result<(), AllocError>
    ensures { OnOk result (string_bytes lines.new ≡ string_bytes lines.old ++ rule_lines (data_of rules.now)) }
{
    for_five!(rules, |rule, category| {
        push_rule(alloc, lines, category, rule)?
    });
    Ok(())
}

// Appends the line of a rule, if present.
fn push_rule(
    alloc: Global,
    lines: &mut String,
    category: PluralCategory,
    rule: &Option<Rule<'_>>,
) -> Result<(), AllocError>
    ensures { OnOk result (string_bytes lines.new ≡ string_bytes lines.old ++ rule_line category rule.now) }
{
    let Some(rule) = rule else {
        return Ok(());
    };
    match rule.to_string(alloc) {
        Ok(text) => push_line(lines, category, text.as_str()),
        Err(error) => Err(error),
    }
}

// Appends the line of a rule, given its text.
fn push_line(lines: &mut String, category: PluralCategory, text: &str) -> Result<(), AllocError>
    ensures { OnOk result (string_bytes lines.new
        ≡ string_bytes lines.old ++ (name_of category ++ codes ": " ++ text.now ++ codes "\n")) }
{
    lines.push_str(RawPluralCategory::from(category).as_str())?;
    lines.push_str(": ")?;
    lines.push_str(text)?;
    lines.push_str("\n")
}
