//! The answer to a query of a document.

ghost use Rattle.plural_queries.specs.LookupAnswers.{AnswersLookup};
ghost use Rattle.plural_queries.specs.Input.{document_of, document_of_value};
ghost use Rattle.plural_queries.specs.CallAnswers.{GivesAnswerText};
ghost use Rattle.plural_queries.specs.QueryViews.{document_view, lookup_view};
ghost use Rattle.plural_documents.specs.Outlines.{IsHeld};
ghost use Rattle.plural_documents.specs.Steps.{After};
ghost use Rattle.serde_json.specs.Data.{Data};

use plural_documents::{JsonTokens, Scratch};
use plural_queries::{Lookup, RunError, document_for, json_text, text_of};
use std::alloc::Global;
use std::borrow::CowStr;

// The answer to a query of the document that the bytes write.
pub(crate) fn text_in(
    alloc: Global,
    bytes: &[u8],
    lookup: &Lookup<'_>,
) -> Result<CowStr<'static>, RunError>
    ensures { GivesAnswerText (After (AnswersLookup (lookup_view lookup.now)) (document_of bytes.now)) result }
{
    let mut scratch = Scratch::new(alloc);
    let text = json_text(alloc, bytes, &mut scratch)?;
    text_by(alloc, &text, lookup)
}

// The answer to a query of the document that a text writes.
fn text_by(
    alloc: Global,
    text: &JsonTokens<'_>,
    lookup: &Lookup<'_>,
) -> Result<CowStr<'static>, RunError>
    ensures { (held : Data) → IsHeld text.now held → GivesAnswerText (After (AnswersLookup (lookup_view lookup.now)) (document_of_value held)) result }
{
    let document = document_for(alloc, text, lookup)?;
    let answer = text_of(alloc, &document, lookup);
    drop(document);
    answer
}
