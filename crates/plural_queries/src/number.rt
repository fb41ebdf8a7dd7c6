//! The word NUMBER of a command.

ghost use Rattle.std.specs.Prelude.{◌≡◌, Err};
ghost use Rattle.plural_queries.specs.CallAnswers.{GivesNumber};
ghost use Rattle.plural_queries.specs.Queries.{TakesMemory};

use crate::error::RunError;
use icu_plurals::{CompactDecimal, DecimalError};
use std::alloc::Global;

// The number that a word writes.
pub(crate) fn number(alloc: Global, word: &str) -> Result<CompactDecimal, RunError>
    ensures number { GivesNumber word.now result }
    ensures memory { (result ≡ Err RunError.Memory) → TakesMemory word.now }
{
    match CompactDecimal::from_str(alloc, word) {
        Ok(number) => Ok(number),
        Err(DecimalError::Syntax) => Err(RunError::Number(DecimalError::Syntax)),
        Err(DecimalError::Limit) => Err(RunError::Number(DecimalError::Limit)),
        Err(DecimalError::Memory) => Err(RunError::Memory),
    }
}
