//! The answer to a query of a document.

ghost use Rattle.plural_queries.specs.CallAnswers.{GivesAnswerText};
ghost use Rattle.plural_queries.specs.LookupAnswers.{AnswersLookup};
ghost use Rattle.plural_queries.specs.QueryViews.{document_view, lookup_view};

use crate::category_command::category_line;
use crate::document::Document;
use crate::error::RunError;
use crate::message_command::message_line;
use crate::print_command::rule_lines;
use crate::query::Lookup;
use crate::range_command::range_line;
use crate::select_command::element_line;
use std::alloc::Global;
use std::borrow::CowStr;

/// Returns the answer to a query of a document that was kept for it: a line, or those of the rules.
/// It allocates.
///
/// The errors: [`RunError::Document`] if the elements that are asked for are missing, or are no
/// elements; [`RunError::Locale`] if the locale lacks the rules of the type, or the ranges that
/// are asked for; [`RunError::Memory`] if memory ran out.
pub fn text_of(
    alloc: Global,
    document: &Document,
    lookup: &Lookup<'_>,
) -> Result<CowStr<'static>, RunError>
    ensures { GivesAnswerText (AnswersLookup (lookup_view lookup.now) (document_view document.now)) result }
{
    match lookup {
        Lookup::Category(locale, rule_type, number) => {
            category_line(document, locale, *rule_type, number)
        }
        Lookup::Range(locale, rule_type, start, end) => {
            range_line(document, locale, *rule_type, start, end)
        }
        Lookup::Print(locale, rule_type) => rule_lines(alloc, document, locale, *rule_type),
        Lookup::Select(locale, rule_type, number) => {
            element_line(alloc, document, locale, *rule_type, number)
        }
        Lookup::Message(locale, rule_type, number, word) => {
            message_line(alloc, document, locale, *rule_type, number, word)
        }
    }
}
