//! The command `message`.

ghost use Rattle.std.specs.Prelude.{Ok};
ghost use Rattle.plural_queries.specs.LookupAnswers.{AnswersFrom};
ghost use Rattle.plural_queries.specs.Input.{elements_for};
ghost use Rattle.plural_queries.specs.CallAnswers.{GivesAnswerText};
ghost use Rattle.plural_queries.specs.QueryViews.{document_view, elements_view};
ghost use Rattle.plural_queries.specs.Lines.{IsMessageLine};

use crate::document::Document;
use crate::elements::{RuledElements, elements_for};
use crate::error::RunError;
use crate::line::ended;
use icu_plurals::{CompactDecimal, PluralRuleType};
use plural_message::Message;
use std::alloc::Global;
use std::borrow::CowStr;

// The line for a number and its word: the number's message, by the document's elements and its
// rules of a locale.
pub(crate) fn message_line(
    alloc: Global,
    document: &Document,
    locale: &str,
    rule_type: PluralRuleType,
    number: &CompactDecimal,
    word: &str,
) -> Result<CowStr<'static>, RunError>
    ensures { GivesAnswerText (AnswersFrom (IsMessageLine number.now word.now)
        (elements_for rule_type locale.now (document_view document.now))) result }
{
    let given = elements_for(alloc, document, locale, rule_type)?;
    let line = line_of(alloc, &given, number, word);
    drop(given);
    line
}

// The line for a number and its word: the number's message, by these elements and rules.
fn line_of(
    alloc: Global,
    given: &RuledElements<'_>,
    number: &CompactDecimal,
    word: &str,
) -> Result<CowStr<'static>, RunError>
    ensures { GivesAnswerText (AnswersFrom (IsMessageLine number.now word.now) (Ok (elements_view given.now))) result }
{
    let message = Message::new(given.elements.as_packed());
    match message.format_number(alloc, number, word, &given.rules) {
        Ok(text) => ended(text),
        Err(_) => Err(RunError::Memory),
    }
}
