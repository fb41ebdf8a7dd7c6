//! The command `range`.

ghost use Rattle.plural_queries.specs.LookupAnswers.{AnswersFrom};
ghost use Rattle.plural_queries.specs.Input.{ranged_for};
ghost use Rattle.plural_queries.specs.CallAnswers.{GivesAnswerText};
ghost use Rattle.plural_queries.specs.QueryViews.{document_view};
ghost use Rattle.plural_queries.specs.Lines.{IsRangeLine};

use crate::category_command::line_of;
use crate::document::{Document, ranged_for};
use crate::error::RunError;
use icu_plurals::{CompactDecimal, PluralRuleType};
use std::borrow::CowStr;

// The line for the range of two numbers under the rules and the ranges that a document has for a
// locale.
pub(crate) fn range_line(
    document: &Document,
    locale: &str,
    rule_type: PluralRuleType,
    start: &CompactDecimal,
    end: &CompactDecimal,
) -> Result<CowStr<'static>, RunError>
    ensures { GivesAnswerText (AnswersFrom (IsRangeLine start.now end.now)
        (ranged_for rule_type locale.now (document_view document.now))) result }
{
    let ranged = ranged_for(document, locale, rule_type)?;
    let rules = ranged.rules();
    let start = rules.category_for_compact(start);
    let end = rules.category_for_compact(end);
    let range = ranged.resolve_range(start, end);
    drop(ranged);
    Ok(CowStr::Borrowed(line_of(range)))
}
