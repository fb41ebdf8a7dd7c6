//! The command `category`.

ghost use Rattle.icu_plurals.specs.Categories.{name_of};
ghost use Rattle.std.specs.Prelude.{◌≡◌};
ghost use Rattle.plural_queries.specs.LookupAnswers.{AnswersFrom};
ghost use Rattle.plural_queries.specs.Input.{rules_for};
ghost use Rattle.plural_queries.specs.CallAnswers.{GivesAnswerText};
ghost use Rattle.plural_queries.specs.QueryViews.{document_view};
ghost use Rattle.plural_queries.specs.Lines.{IsCategoryLine, line};

use crate::document::{Document, rules_for};
use crate::error::RunError;
use icu_plurals::{CompactDecimal, PluralCategory, PluralRuleType, PluralRules};
use std::borrow::CowStr;

// The line for a number under the rules that a document has for a locale.
pub(crate) fn category_line(
    document: &Document,
    locale: &str,
    rule_type: PluralRuleType,
    number: &CompactDecimal,
) -> Result<CowStr<'static>, RunError>
    ensures { GivesAnswerText (AnswersFrom (IsCategoryLine number.now)
        (rules_for rule_type locale.now (document_view document.now))) result }
{
    let rules = PluralRules::from_data(rules_for(document, locale, rule_type)?);
    let category = rules.category_for_compact(number);
    drop(rules);
    Ok(CowStr::Borrowed(line_of(category)))
}

// The line with a category's name.
pub(crate) fn line_of(category: PluralCategory) -> &'static str
    ensures { result.now ≡ line (name_of category) }
{
    match category {
        PluralCategory::Zero => "zero\n",
        PluralCategory::One => "one\n",
        PluralCategory::Two => "two\n",
        PluralCategory::Few => "few\n",
        PluralCategory::Many => "many\n",
        PluralCategory::Other => "other\n",
    }
}
