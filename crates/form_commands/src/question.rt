//! The question that the words of a command line ask.

ghost use Rattle.std.specs.Prelude.{◌≡◌, map, option_map};
ghost use Rattle.std.specs.Option.{option_copied};
ghost use Rattle.form_commands.specs.Questions.{rules_file_of, report_format_of, has_option, in_part, of_check, of_command, of_files, of_other, of_word, of_words, options_after, options_of, options_with, part_of_words, with_file, check_with_rules};
ghost use Rattle.form_commands.specs.Inner.QuestionViews.{format_and_rest_view, options_view, question_view};
ghost use Rattle.number_lines.specs.NumberAnswers.{command_words_view};

use finding_formats::Format;
use plural_fallback::Part;

/// Whose rules are asked for, and where they are.
#[derive(Clone, Copy, Debug)]
pub struct Wanted<'w> {
    /// The part: for cardinal or for ordinal numbers.
    pub part: Part,
    /// The locale.
    pub locale: &'w str,
    /// The file after `--rules`, if there is one.
    pub file: Option<&'w str>,
}

/// What the words of a command line ask.
#[derive(Clone, Copy, Debug)]
pub enum Question<'w> {
    /// How the program is used.
    Help,
    /// Which version it is.
    Version,
    /// Which forms a language has.
    List(Wanted<'w>),
    /// How gettext's files number the forms of a language.
    Gettext(Wanted<'w>),
    /// Which category each of these numbers has. Without any, they are in the input.
    Category(Wanted<'w>, &'w [&'w str]),
    /// What these files of messages lack, by the rules in the file after `--rules`, if there is
    /// one, in this format.
    Check(Option<&'w str>, Format, &'w [&'w str]),
}

// The format that is named, and the words after it.
#[derive(Clone, Copy)]
struct Formatted<'w> {
    format: Format,
    rest: &'w [&'w str],
}

// The words that are options, and those after them.
#[derive(Clone, Copy)]
struct Options<'w> {
    part: Part,
    file: Option<&'w str>,
    rest: &'w [&'w str],
}

/// Returns the question of the words after the program's name: `--help`, `--version`,
/// `list LOCALE [OPTION..]`, `gettext LOCALE [OPTION..]`, `category LOCALE [OPTION..] [NUMBER..]`
/// or `check [OPTION..] FILE..`, where an option is `--ordinal` or `--rules FILE`, and of `check`
/// `--rules FILE` or `--format FORMAT`, each at most once. `None` for other words. It allocates
/// nothing.
pub fn question_of<'w>(words: &'w [&'w str]) -> Option<Question<'w>>
    ensures { option_map question_view result ≡ of_words (command_words_view words.now) }
{
    match words {
        [command, rest @ ..] => {
            if *command == "check" {
                of_check(rest)
            } else {
                of_other(command, rest)
            }
        }
        [] => None,
    }
}

// The question of the words after `check`.
fn of_check<'w>(words: &'w [&'w str]) -> Option<Question<'w>>
    ensures { option_map question_view result ≡ of_check (command_words_view words.now) }
{
    let (file, rest) = file_of(words);
    if file.is_some() {
        let found = format_of(rest)?;
        return of_files(file, found.format, found.rest);
    }
    let found = format_of(words)?;
    with_rules(found.format, found.rest)
}

// The question of the words behind a format, where a file may be named.
fn with_rules<'w>(format: Format, words: &'w [&'w str]) -> Option<Question<'w>>
    ensures { option_map question_view result ≡ check_with_rules format (rules_file_of (command_words_view words.now)) }
{
    let (file, rest) = file_of(words);
    of_files(file, format, rest)
}

// The question of the words behind the options.
fn of_files<'w>(file: Option<&'w str>, format: Format, words: &'w [&'w str]) -> Option<Question<'w>>
    ensures { option_map question_view result ≡ of_files (option_copied file.entry) format (command_words_view words.now) }
{
    if words.is_empty() || has_option(words) {
        None
    } else {
        Some(Question::Check(file, format, words))
    }
}

// The question of another command and the words after it.
fn of_other<'w>(command: &str, words: &'w [&'w str]) -> Option<Question<'w>>
    ensures { option_map question_view result ≡ of_other command.now (command_words_view words.now) }
{
    match words {
        [locale, rest @ ..] => of_command(command, locale, rest),
        [] => of_word(command),
    }
}

// The question of a single word.
fn of_word<'w>(word: &str) -> Option<Question<'w>>
    ensures { option_map question_view result ≡ of_word word.now }
{
    match word {
        "--help" => Some(Question::Help),
        "--version" => Some(Question::Version),
        _ => None,
    }
}

// The question of a command, a locale and the words after it.
fn of_command<'w>(command: &str, locale: &'w str, words: &'w [&'w str]) -> Option<Question<'w>>
    ensures { option_map question_view result ≡ of_command command.now locale.now (command_words_view words.now) }
{
    let options = options_of(words);
    let wanted = Wanted {
        part: options.part,
        locale,
        file: options.file,
    };
    if command == "list" && options.rest.is_empty() {
        Some(Question::List(wanted))
    } else if command == "gettext" && options.rest.is_empty() {
        Some(Question::Gettext(wanted))
    } else if command == "category" && !has_option(options.rest) {
        Some(Question::Category(wanted, options.rest))
    } else {
        None
    }
}

// The options at the front of the words, in either order.
fn options_of<'w>(words: &'w [&'w str]) -> Options<'w>
    ensures { options_view result ≡ options_of (command_words_view words.now) }
{
    let (part, rest) = part_of(words);
    options_after(part, rest)
}

// The options after `--ordinal`, or without it.
fn options_after<'w>(part: Part, words: &'w [&'w str]) -> Options<'w>
    ensures { options_view result ≡ options_after part (rules_file_of (command_words_view words.now)) }
{
    let (file, rest) = file_of(words);
    match part {
        Part::Ordinal => Options { part, file, rest },
        _ => options_with(file, rest),
    }
}

// The options after `--rules FILE`, or without it.
fn options_with<'w>(file: Option<&'w str>, words: &'w [&'w str]) -> Options<'w>
    ensures { options_view result ≡ options_with (option_copied file.entry) (part_of_words (command_words_view words.now)) }
{
    let (part, rest) = part_of(words);
    Options { part, file, rest }
}

// The part that `--ordinal` at the front names, or the cardinal one; and the words after it.
fn part_of<'w>(words: &'w [&'w str]) -> (Part, &'w [&'w str])
    ensures { in_part result.0 (command_words_view result.1.now) ≡ part_of_words (command_words_view words.now) }
{
    match words {
        [first, rest @ ..] if *first == "--ordinal" => (Part::Ordinal, rest),
        _ => (Part::Cardinal, words),
    }
}

// The file that `--rules` at the front names, and the words after it.
fn file_of<'w>(words: &'w [&'w str]) -> (Option<&'w str>, &'w [&'w str])
    ensures { with_file (option_copied result.0) (command_words_view result.1.now) ≡ rules_file_of (command_words_view words.now) }
{
    match words {
        [first, file, rest @ ..] if *first == "--rules" => (Some(*file), rest),
        _ => (None, words),
    }
}

// The format that `--format` at the front names, and the words after it. None, if it names none.
fn format_of<'w>(words: &'w [&'w str]) -> Option<Formatted<'w>>
    ensures { option_map format_and_rest_view result ≡ report_format_of (command_words_view words.now) }
{
    match words {
        [first, word, rest @ ..] if *first == "--format" => {
            let format = Format::from_word(word)?;
            Some(Formatted { format, rest })
        }
        _ => Some(Formatted {
            format: Format::Text,
            rest: words,
        }),
    }
}

// Whether one of the words begins as an option does.
fn has_option(words: &[&str]) -> bool
    ensures { result ≡ has_option (command_words_view words.now) }
{
    let mut rest = words;
    while let [word, after @ ..] = rest {
        if word.starts_with("--") {
            return true;
        }
        rest = after;
    }
    false
}
