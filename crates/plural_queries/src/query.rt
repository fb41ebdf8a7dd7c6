//! The query that the words of a command line ask for.

ghost use Rattle.std.specs.Prelude.{◌≡◌, ◌↔◌, Err, None, Some, map};
ghost use Rattle.plural_queries.specs.Commands.{category, command_of, message, range, select, test};
ghost use Rattle.plural_queries.specs.CallAnswers.{GivesQuery};
ghost use Rattle.plural_queries.specs.KeptDocuments.{locale_of};
ghost use Rattle.plural_queries.specs.QueryViews.{command_view, lookup_view};
ghost use Rattle.plural_queries.specs.Queries.{ReadingTakesMemory, TakesMemory};

use crate::command::{Command, command_of};
use crate::condition::condition;
use crate::error::RunError;
use crate::integer::integer;
use crate::number::number;
use icu_plurals::provider::rules::reference::ast::Condition;
use icu_plurals::{CompactDecimal, PluralRuleType};
use std::alloc::Global;

/// A query.
#[derive(Drop)]
pub enum Query<'a> {
    /// Whether the condition is true of the integer.
    Test(Condition, u64),
    /// What a document has.
    Document(Lookup<'a>),
}

/// A query of a document.
#[derive(Drop)]
pub enum Lookup<'a> {
    /// The category of a number: locale, type and number.
    Category(&'a str, PluralRuleType, CompactDecimal),
    /// That of a range: locale, type, start and end.
    Range(&'a str, PluralRuleType, CompactDecimal, CompactDecimal),
    /// The rules: locale and type.
    Print(&'a str, PluralRuleType),
    /// The element of a number: locale, type and number.
    Select(&'a str, PluralRuleType, CompactDecimal),
    /// The message of a number: locale, type, number and the number's word.
    Message(&'a str, PluralRuleType, CompactDecimal, &'a str),
}

impl<'a> Lookup<'a> {
    // The locale that is asked for.
    pub(crate) fn locale(&self) -> &'a str
        ensures { result.now ≡ locale_of (lookup_view self.now) }
    {
        match self {
            Lookup::Category(locale, _, _)
            | Lookup::Range(locale, _, _, _)
            | Lookup::Print(locale, _)
            | Lookup::Select(locale, _, _)
            | Lookup::Message(locale, _, _, _) => locale,
        }
    }
}

/// Returns the query that the words of a command ask for. It allocates.
///
/// The errors, in the order in which they are checked: [`RunError::Usage`] if the words are no
/// command; [`RunError::Condition`] if the condition can't be read; [`RunError::Number`] if the
/// integer or a number is out of form, or above its limit; [`RunError::Memory`] if memory ran out
/// while a condition or a number of more than 16 bytes was read.
pub fn query_of<'a>(alloc: Global, words: &[&'a str]) -> Result<Query<'a>, RunError>
    ensures query { GivesQuery (command_of (map (λ w. w.now) words.now)) result }
    ensures usage { (result ≡ Err RunError.Usage) ↔ (command_of (map (λ w. w.now) words.now) ≡ None) }
    ensures memory { (result ≡ Err RunError.Memory) → ReadingTakesMemory (command_of (map (λ w. w.now) words.now)) }
{
    match command_of(words) {
        Some(command) => read_words(alloc, command),
        None => Err(RunError::Usage),
    }
}

// The query of a command. Its condition and its numbers are read in the order of its words.
fn read_words<'a>(alloc: Global, command: Command<'a>) -> Result<Query<'a>, RunError>
    ensures query { GivesQuery (Some (command_view command.entry)) result }
    ensures memory { (result ≡ Err RunError.Memory) → ReadingTakesMemory (Some (command_view command.entry)) }
{
    match command {
        Command::Test(word, integer_word) => test_query(alloc, word, integer_word),
        Command::Category(locale, rule_type, word) => category_query(
            alloc, locale, rule_type, word,
        ),
        Command::Range(locale, rule_type, start_word, end_word) => {
            range_query(alloc, locale, rule_type, start_word, end_word)
        }
        Command::Print(locale, rule_type) => Ok(Query::Document(Lookup::Print(locale, rule_type))),
        Command::Select(locale, rule_type, word) => select_query(alloc, locale, rule_type, word),
        Command::Message(locale, rule_type, word) => message_query(alloc, locale, rule_type, word),
    }
}

// The query of the command `test`.
fn test_query<'a>(alloc: Global, word: &str, integer_word: &str) -> Result<Query<'a>, RunError>
    ensures { GivesQuery (Some (test word.now integer_word.now)) result }
{
    let condition = condition(alloc, word)?;
    match integer(integer_word) {
        Ok(integer) => Ok(Query::Test(condition, integer)),
        Err(fault) => Err(fault),
    }
}

// The query of the command `category`.
fn category_query<'a>(
    alloc: Global,
    locale: &'a str,
    rule_type: PluralRuleType,
    word: &str,
) -> Result<Query<'a>, RunError>
    ensures query { GivesQuery (Some (category locale.now rule_type word.now)) result }
    ensures memory { (result ≡ Err RunError.Memory) → TakesMemory word.now }
{
    match number(alloc, word) {
        Ok(number) => Ok(Query::Document(Lookup::Category(locale, rule_type, number))),
        Err(fault) => Err(fault),
    }
}

// The query of the command `range`.
fn range_query<'a>(
    alloc: Global,
    locale: &'a str,
    rule_type: PluralRuleType,
    start_word: &str,
    end_word: &str,
) -> Result<Query<'a>, RunError>
    ensures query { GivesQuery (Some (range locale.now rule_type start_word.now end_word.now)) result }
    ensures memory { (result ≡ Err RunError.Memory)
        → ReadingTakesMemory (Some (range locale.now rule_type start_word.now end_word.now)) }
{
    let start = number(alloc, start_word)?;
    let end = number(alloc, end_word)?;
    Ok(Query::Document(Lookup::Range(locale, rule_type, start, end)))
}

// The query of the command `select`.
fn select_query<'a>(
    alloc: Global,
    locale: &'a str,
    rule_type: PluralRuleType,
    word: &str,
) -> Result<Query<'a>, RunError>
    ensures query { GivesQuery (Some (select locale.now rule_type word.now)) result }
    ensures memory { (result ≡ Err RunError.Memory) → TakesMemory word.now }
{
    match number(alloc, word) {
        Ok(number) => Ok(Query::Document(Lookup::Select(locale, rule_type, number))),
        Err(fault) => Err(fault),
    }
}

// The query of the command `message`.
fn message_query<'a>(
    alloc: Global,
    locale: &'a str,
    rule_type: PluralRuleType,
    word: &'a str,
) -> Result<Query<'a>, RunError>
    ensures query { GivesQuery (Some (message locale.now rule_type word.now)) result }
    ensures memory { (result ≡ Err RunError.Memory) → TakesMemory word.now }
{
    match number(alloc, word) {
        Ok(number) => Ok(Query::Document(Lookup::Message(locale, rule_type, number, word))),
        Err(fault) => Err(fault),
    }
}
