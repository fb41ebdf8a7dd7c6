//! The words of the command line.

ghost use Rattle.std.specs.Prelude.{◌≡◌, ◌∷◌, [], map, option_map};
ghost use Rattle.document_formats.specs.CheckWords.{format_in, asked_by, asked_by_format, asked_by_word, asked_of_files, option_among};
ghost use Rattle.document_formats.specs.Inner.WordViews.{asked_view, check_words_view};

use crate::word_fault::WordFault;
use finding_formats::Format;

/// Returns the format that the words name, by `--format` and its word; without words it is text,
/// and with any others there is none.
pub fn format_of(words: &[&str]) -> Option<Format>
    ensures { result ≡ format_in (map (λ w. w.now) words.now) }
{
    match words {
        [] => Some(Format::Text),
        [option, word] if *option == "--format" => Format::from_word(word),
        _ => None,
    }
}

/// What the words of a command line ask of `plurals_check`.
#[derive(Clone, Copy, Debug)]
pub enum Asked<'w> {
    /// How the program is used.
    Help,
    /// Which version it is.
    Version,
    /// The reports of the documents in these files, in this format. Without a file the document is
    /// in standard input.
    Reports(Format, &'w [&'w str]),
}

/// Returns what the words after the program's name ask: `--help`, `--version` or
/// `[--format FORMAT] [FILE..]`, where a file's name doesn't begin with `--`. It allocates nothing.
///
/// The error names the first word that is wrong, and says why.
pub fn asked_by<'w>(words: &'w [&'w str]) -> Result<Asked<'w>, WordFault<'w>>
    ensures { asked_view result ≡ asked_by (check_words_view words.now) }
{
    match words {
        [] => of_files(Format::Text, words),
        [word] => of_word(word, words),
        [option, word, files @ ..] => {
            if *option == "--format" {
                of_format(word, files)
            } else {
                of_files(Format::Text, words)
            }
        }
    }
}

// What is asked by a word that stands alone.
fn of_word<'w>(word: &'w str, words: &'w [&'w str]) -> Result<Asked<'w>, WordFault<'w>>
    requires { check_words_view words.now ≡ word.now ∷ [] }
    ensures { asked_view result ≡ asked_by_word word.now }
{
    if word == "--help" {
        Ok(Asked::Help)
    } else if word == "--version" {
        Ok(Asked::Version)
    } else if word == "--format" {
        Err(WordFault::NoFormat)
    } else {
        of_files(Format::Text, words)
    }
}

// What is asked by the word of a format and those after it.
fn of_format<'w>(word: &'w str, files: &'w [&'w str]) -> Result<Asked<'w>, WordFault<'w>>
    ensures { asked_view result ≡ asked_by_format word.now (check_words_view files.now) }
{
    match Format::from_word(word) {
        Some(format) => of_files(format, files),
        None => Err(WordFault::Format(word)),
    }
}

// What is asked by the names of files.
fn of_files<'w>(format: Format, files: &'w [&'w str]) -> Result<Asked<'w>, WordFault<'w>>
    ensures { asked_view result ≡ asked_of_files format (check_words_view files.now) }
{
    match option_among(files) {
        Some(option) => Err(WordFault::Option(option)),
        None => Ok(Asked::Reports(format, files)),
    }
}

// The first word that begins as an option does.
fn option_among<'w>(words: &[&'w str]) -> Option<&'w str>
    ensures { option_map (λ word. word.now) result ≡ option_among (check_words_view words.now) }
{
    let mut rest = words;
    while let [word, after @ ..] = rest {
        if word.starts_with("--") {
            return Some(*word);
        }
        rest = after;
    }
    None
}
