//! The arguments of a message, as words of a command line.

ghost use Rattle.std.specs.Prelude.{IfOk, MatchBool, map};
ghost use Rattle.message_format.specs.FormatArguments.{named_values_view};
ghost use Rattle.message_pattern.specs.PatternParts.{piece_view};
ghost use Rattle.catalog_commands.specs.GivenWords.{AreArgumentsOf, BeginsNumberArgument, TakesNumber};
ghost use Rattle.catalog_commands.specs.Inner.KeyedViews.{word_view};

use message_format::{Argument, Value};
use message_pattern::{ArgumentKind, Piece};
use packed_pattern::PackedPattern;
use std::alloc::{AllocError, Global};

/// A value under a name, as it is written.
#[derive(Clone, Copy, Debug)]
pub struct Word<'a> {
    /// The name.
    pub name: &'a str,
    /// The value.
    pub value: &'a str,
}

/// Returns the arguments that words give a pattern: of an argument that the pattern takes the
/// category of, a number, of any other a text. It allocates the list; the error is out of memory.
pub fn arguments_of<'a>(
    alloc: Global,
    pattern: &PackedPattern<'_>,
    words: &[Word<'a>],
) -> Result<Vec<Argument<'a>>, AllocError>
    ensures { IfOk result (λ arguments. AreArgumentsOf pattern.now (map word_view words.now) (named_values_view arguments.items)) }
{
    let mut arguments = Vec::with_capacity(alloc, words.len())?;
    for word in words {
        let name = word.name;
        let value = if takes_number(pattern, name) {
            Value::Number(word.value)
        } else {
            Value::Text(word.value)
        };
        arguments.push(Argument { name, value })?;
    }
    Ok(arguments)
}

/// Returns whether a pattern has a plural or an ordinal of the argument with this name.
pub fn takes_number(pattern: &PackedPattern<'_>, name: &str) -> bool
    ensures { MatchBool result (TakesNumber pattern.now name.now) (TakesNumber pattern.now name.now → ⊥) }
{
    for index in 0..pattern.len() {
        if let Some(part) = pattern.get(index) {
            if is_number(part.piece, name) {
                return true;
            }
        }
    }
    false
}

// Whether a piece begins a plural or an ordinal of the argument with this name.
fn is_number(piece: Piece<'_>, name: &str) -> bool
    ensures { MatchBool result (BeginsNumberArgument (piece_view piece.entry) name.now) (BeginsNumberArgument (piece_view piece.entry) name.now → ⊥) }
{
    match piece {
        Piece::Begin(ArgumentKind::Plural | ArgumentKind::Ordinal, other, _) => {
            other == name.as_bytes()
        }
        _ => false,
    }
}
