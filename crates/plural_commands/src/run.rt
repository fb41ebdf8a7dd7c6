//! Runs the words of a command line.

ghost use Rattle.std.specs.Prelude.{◌≡◌, ◌≢◌, ◌↔◌, Err, IfErr, List, None, ℕ, map};
ghost use Rattle.plural_commands.specs.Answer.{AnswersQuery, AnswersWords, IsAnswered, IsNotRead};
ghost use Rattle.plural_queries.specs.CallAnswers.{run_origin, GivesTextAfterReading, IsOfDocument};
ghost use Rattle.plural_queries.specs.Commands.{command_of};
ghost use Rattle.plural_queries.specs.QueryViews.{lookup_view, query_view};
ghost use Rattle.plural_queries.specs.Queries.{MayRunOut, NeedsInput, of_document};
ghost use Rattle.plural_documents.specs.Inputs.{IsInput, IsReadAfterResult};

use crate::answer::text_in;
use plural_documents::{read_input, write_output};
use plural_queries::{Lookup, Query, RunError, query_of, truth_line};
use std::alloc::Global;
use std::borrow::CowStr;
use std::io::{Read, Write};

/// Writes the answer to the words of a command, and nothing else.
///
/// | Words | Answer |
/// |---|---|
/// | `test CONDITION INTEGER` | whether the condition is true of the integer (UTS 35 Part 3, Plural Rules Syntax) |
/// | `category LOCALE TYPE NUMBER` | the name of the number's category (Language Plural Rules) |
/// | `range LOCALE TYPE START END` | the name of the category of the numbers' range (Plural Ranges) |
/// | `print LOCALE TYPE` | a line for each rule |
/// | `select LOCALE TYPE NUMBER` | the text of the element that the number chooses |
/// | `message LOCALE TYPE NUMBER` | this text with the word of the number in place of each `{}` |
///
/// `test` reads nothing. The others take the rules and ranges of the locale and the type, and the
/// elements, from the input, a JSON document; they read it to its end, or to one byte past the
/// limit. All take memory.
///
/// The errors, in the order in which they are checked: [`RunError::Usage`] if the words are no
/// command; [`RunError::Condition`] if the condition can't be read; [`RunError::Number`] if the
/// integer or the number is out of form, or above its limit; of the input [`RunError::Read`] if the
/// reader failed, [`RunError::TooLong`] above 4194304 bytes, [`RunError::Json`] if it is no JSON
/// text,
/// [`RunError::Document`] if it is no document, or lacks the elements that are needed, and
/// [`RunError::Locale`] if the locale lacks the rules of the type, or the ranges that are needed;
/// [`RunError::Write`] if the writer failed. After an error nothing was written, except by a failed
/// write, which took a beginning of the answer.
///
/// [`RunError::Memory`] if memory ran out: while a condition or a number of more than 16 bytes is
/// read, or after the words, if they have no fault. So it doesn't come in place of
/// [`RunError::Usage`], nor of the fault of a number, unless a long START comes before.
pub fn run<R: Read, W: Write>(
    alloc: Global,
    words: &[&str],
    reader: &mut R,
    writer: &mut W,
) -> Result<(), RunError>
    // The answer is that of some input: what remained in the reader, if that is known.
    ensures answers { (input : List ℕ) × IsInput (R.remaining reader.old) input
        × IsAnswered (AnswersWords (map (λ w. w.now) words.now) input) (W.contents writer.old) (W.contents writer.new) result }
    ensures reads { NeedsInput (map (λ w. w.now) words.now) → IsReadAfterResult run_origin (R.remaining reader.old) (R.remaining reader.new) result }
    ensures reads_nothing { ¬ (NeedsInput (map (λ w. w.now) words.now)) → (reader.new ≡ reader.old) × IsNotRead result }
    ensures writes_nothing { IfErr result (λ e. e ≢ RunError.Write → writer.new ≡ writer.old) }
    ensures usage { (result ≡ Err RunError.Usage) ↔ (command_of (map (λ w. w.now) words.now) ≡ None) }
    ensures memory { (result ≡ Err RunError.Memory) → MayRunOut (map (λ w. w.now) words.now) }
{
    let query = query_of(alloc, words)?;
    let text = answer_of(alloc, query, reader)?;
    match write_output(writer, text.as_str().as_bytes()) {
        Ok(()) => Ok(()),
        Err(_) => Err(RunError::Write),
    }
}

// The answer to a query, which is dropped.
fn answer_of<R: Read>(
    alloc: Global,
    query: Query<'_>,
    reader: &mut R,
) -> Result<CowStr<'static>, RunError>
    ensures answers { (input : List ℕ) × IsInput (R.remaining reader.old) input
        × GivesTextAfterReading (AnswersQuery (query_view query.entry) input) result }
    ensures reads { IsOfDocument (query_view query.entry) → IsReadAfterResult run_origin (R.remaining reader.old) (R.remaining reader.new) result }
    ensures reads_nothing { ¬ (IsOfDocument (query_view query.entry)) → (reader.new ≡ reader.old) × IsNotRead result }
    ensures not_usage { result ≢ Err RunError.Usage }
    ensures memory { (result ≡ Err RunError.Memory) → IsOfDocument (query_view query.entry) }
{
    let answer = answer(alloc, &query, reader);
    drop(query);
    answer
}

// The answer to a query. A truth value needs no input.
fn answer<R: Read>(
    alloc: Global,
    query: &Query<'_>,
    reader: &mut R,
) -> Result<CowStr<'static>, RunError>
    ensures answers { (input : List ℕ) × IsInput (R.remaining reader.old) input
        × GivesTextAfterReading (AnswersQuery (query_view query.now) input) result }
    ensures reads { IsOfDocument (query_view query.now) → IsReadAfterResult run_origin (R.remaining reader.old) (R.remaining reader.new) result }
    ensures reads_nothing { ¬ (IsOfDocument (query_view query.now)) → (reader.new ≡ reader.old) × IsNotRead result }
    ensures not_usage { result ≢ Err RunError.Usage }
    ensures memory { (result ≡ Err RunError.Memory) → IsOfDocument (query_view query.now) }
{
    match query {
        Query::Test(condition, integer) => Ok(CowStr::Borrowed(truth_line(condition, *integer))),
        Query::Document(lookup) => looked_up(alloc, lookup, reader),
    }
}

// The answer to a query of the document in the reader.
fn looked_up<R: Read>(
    alloc: Global,
    lookup: &Lookup<'_>,
    reader: &mut R,
) -> Result<CowStr<'static>, RunError>
    ensures answers { (input : List ℕ) × IsInput (R.remaining reader.old) input
        × GivesTextAfterReading (AnswersQuery (of_document (lookup_view lookup.now)) input) result }
    ensures reads { IsReadAfterResult run_origin (R.remaining reader.old) (R.remaining reader.new) result }
{
    let input = read_input(alloc, reader)?;
    text_in(alloc, input.as_slice(), lookup)
}
