//! Names and values, as words of a command line.

ghost use Rattle.std.specs.Prelude.{◌≡◌, IfErr, IfOk, map, option_map};
ghost use Rattle.catalog_commands.specs.GivenWords.{AreGivenBy, given_of};
ghost use Rattle.catalog_commands.specs.Inner.KeyedViews.{word_view};
ghost use Rattle.catalog_commands.specs.Inner.WordViews.{TellsUngiven, words_view};

use crate::arguments::Word;
use std::alloc::Global;

/// Why words give no names and values.
#[derive(Clone, Copy, Debug)]
pub enum GivenFault<'w> {
    /// This word is the first that isn't of the form NAME=VALUE.
    NoValue(&'w str),
    /// Out of memory.
    Memory,
}

/// Returns the names and values that words NAME=VALUE give: what stands before and after the first
/// `=` of each. It allocates the list.
pub fn given_words<'w>(alloc: Global, words: &[&'w str]) -> Result<Vec<Word<'w>>, GivenFault<'w>>
    ensures given { IfOk result (λ given. AreGivenBy (words_view words.now) (map word_view given.items)) }
    ensures refused { IfErr result (TellsUngiven (words_view words.now)) }
{
    let mut given = Vec::new(alloc);
    for word in words {
        let Some(word) = given_of(word) else {
            return Err(GivenFault::NoValue(*word));
        };
        if given.push(word).is_err() {
            return Err(GivenFault::Memory);
        }
    }
    Ok(given)
}

// The name and the value that a word gives.
fn given_of(word: &str) -> Option<Word<'_>>
    ensures { option_map word_view result ≡ given_of word.now }
{
    match word.split_once('=') {
        Some((name, value)) if !name.is_empty() => Some(Word { name, value }),
        _ => None,
    }
}
