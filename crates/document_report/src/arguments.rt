//! The arguments of the command line.

ghost use Rattle.std.specs.Prelude.{◌≡◌, ◌↔◌, Err, IsFalse};

use std::env::FillError;

/// Returns whether there is an argument, by what the environment answers that is asked for it:
/// there is none if the answer is [`FillError::NotPresent`]. Any other answer tells of one, which
/// may be longer than the room that was given.
pub fn is_argument(answer: Result<usize, FillError>) -> bool
    ensures { IsFalse result ↔ (answer ≡ Err FillError.NotPresent) }
{
    !matches!(answer, Err(FillError::NotPresent))
}
