//! The word INTEGER of a command.

ghost use Rattle.std.specs.Prelude.{◌≡◌};
ghost use Rattle.std.specs.Char.{is_ascii_digit};
ghost use Rattle.std.specs.List.{list_all};
ghost use Rattle.plural_queries.specs.CallAnswers.{GivesValue};
ghost use Rattle.plural_queries.specs.NumberWords.{integer_of, is_numeral};

use crate::error::RunError;
use icu_plurals::DecimalError;

// The number of a word of one or more digits. The form is decided before the limit.
pub(crate) fn integer(word: &str) -> Result<u64, RunError>
    ensures { GivesValue (λ n. n) (integer_of word.now) result }
{
    if !is_numeral(word) {
        return Err(RunError::Number(DecimalError::Syntax));
    }
    match word.parse::<u64>() {
        Ok(number) => Ok(number),
        Err(_) => Err(RunError::Number(DecimalError::Limit)),
    }
}

fn is_numeral(word: &str) -> bool
    ensures { result ≡ is_numeral word.now }
{
    !word.is_empty() && all_digits(word)
}

fn all_digits(word: &str) -> bool
    ensures { result ≡ list_all is_ascii_digit word.now }
{
    word.bytes().all(|byte| byte.is_ascii_digit())
}
