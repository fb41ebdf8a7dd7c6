//! The word CONDITION of a command.

ghost use Rattle.plural_queries.specs.CallAnswers.{GivesAnswer};
ghost use Rattle.plural_queries.specs.NumberWords.{ReadsConditionWord};

use crate::error::RunError;
use icu_plurals::laws::one_list_of_tokens;
use icu_plurals::provider::rules::reference::ast::Condition;
use icu_plurals::provider::rules::reference::{ReadError, parse_condition};
use std::alloc::Global;

// The condition that a word writes.
pub(crate) fn condition(alloc: Global, word: &str) -> Result<Condition, RunError>
    ensures { GivesAnswer (λ tree. tree) (ReadsConditionWord word.now) result }
{
    // The result is that of the word's tokens, which are one list.
    one_list_of_tokens();
    match parse_condition(alloc, word.as_bytes()) {
        Ok(condition) => Ok(condition),
        Err(ReadError::Parse(fault)) => Err(RunError::Condition(fault)),
        Err(ReadError::Memory) => Err(RunError::Memory),
    }
}
