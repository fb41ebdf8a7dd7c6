//! Names of numbers.

ghost use Rattle.std.specs.Prelude.{◌≡◌};
ghost use Rattle.std.specs.Str.{bytes_eq};
ghost use Rattle.format_arguments.specs.CountedArguments.{is_number_name, is_number_word};
ghost use Rattle.format_arguments.specs.Inner.DirectiveViews.{is_long_number_word};

use crate::bytes::{Class, behind_first, split_run};

// Whether a word names a number.
#[tactic(auto, unfolding(crate::specs::CountedArguments::is_number_word))]
fn is_number_word(word: &[u8]) -> bool
    ensures { result ≡ is_number_word word.now }
{
    is(word, b"n") || is(word, b"num") || is(word, b"nb") || is_long_number_word(word)
}

// Whether a longer word names a number.
fn is_long_number_word(word: &[u8]) -> bool
    ensures { result ≡ is_long_number_word word.now }
{
    is(word, b"number")
        || is(word, b"count")
        || is(word, b"cnt")
        || is(word, b"amount")
        || is(word, b"quantity")
}

// Whether a word is another one.
#[inline]
pub(crate) fn is(word: &[u8], other: &[u8]) -> bool
    ensures { result ≡ bytes_eq word.now other.now }
{
    word == other
}

// Whether a word of the name names a number.
#[tactic(auto, using(crate::proofs::NumberNames::number_here))]
pub(crate) fn is_number_name(name: &[u8]) -> bool
    ensures { result ≡ is_number_name name.now }
{
    let mut rest = name;
    'words: loop {
        let (word, behind) = split_run(Class::Letter, rest);
        if is_number_word(word) {
            return true;
        }
        let [_, ..] = behind else {
            return false;
        };
        let after = behind_first(behind);
        rest = after;
    }
}
