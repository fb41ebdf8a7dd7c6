//! The command `select`.

ghost use Rattle.plural_queries.specs.LookupAnswers.{AnswersFrom};
ghost use Rattle.plural_queries.specs.Input.{elements_for};
ghost use Rattle.plural_queries.specs.CallAnswers.{GivesAnswerText};
ghost use Rattle.plural_queries.specs.QueryViews.{document_view};
ghost use Rattle.plural_queries.specs.Lines.{IsElementLine};

use crate::document::Document;
use crate::elements::elements_for;
use crate::error::RunError;
use crate::line::line;
use icu_plurals::laws::kept_element_is_exact;
use icu_plurals::{CompactDecimal, PluralOperands, PluralRuleType};
use std::alloc::Global;
use std::borrow::CowStr;

// The line for a number: the text of the element that it chooses, by the document's elements and
// its rules of a locale.
pub(crate) fn element_line(
    alloc: Global,
    document: &Document,
    locale: &str,
    rule_type: PluralRuleType,
    number: &CompactDecimal,
) -> Result<CowStr<'static>, RunError>
    ensures { GivesAnswerText (AnswersFrom (IsElementLine number.now)
        (elements_for rule_type locale.now (document_view document.now))) result }
{
    // Within the exactness bound the element is that of the number itself.
    kept_element_is_exact();
    let given = elements_for(alloc, document, locale, rule_type)?;
    let operands = PluralOperands::from(number);
    let text = given.elements.get(operands, &given.rules);
    let answer = line(alloc, text);
    drop(given);
    answer
}
