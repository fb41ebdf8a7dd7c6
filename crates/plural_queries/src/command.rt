//! The words of a command.

ghost use Rattle.std.specs.Prelude.{◌≡◌, map, option_map};
ghost use Rattle.plural_queries.specs.Commands.{command_of, of_two, of_three, of_four, type_of};
ghost use Rattle.plural_queries.specs.QueryViews.{command_view};

use icu_plurals::PluralRuleType;

// A command, with its words.
#[derive(Drop)]
pub(crate) enum Command<'a> {
    // Condition and integer.
    Test(&'a str, &'a str),
    // Locale, type and number.
    Category(&'a str, PluralRuleType, &'a str),
    // Locale, type, start and end.
    Range(&'a str, PluralRuleType, &'a str, &'a str),
    // Locale and type.
    Print(&'a str, PluralRuleType),
    // Locale, type and number.
    Select(&'a str, PluralRuleType, &'a str),
    // Locale, type and number.
    Message(&'a str, PluralRuleType, &'a str),
}

// The command of the words, if they are one.
pub(crate) fn command_of<'a>(words: &[&'a str]) -> Option<Command<'a>>
    ensures { option_map command_view result ≡ command_of (map (λ w. w.now) words.now) }
{
    match words {
        [command, first, second] => of_two(command, first, second),
        [command, locale, rule_type, number] => of_three(command, locale, rule_type, number),
        [command, locale, rule_type, start, end] => of_four(command, locale, rule_type, start, end),
        _ => None,
    }
}

// A command with two words after it.
fn of_two<'a>(command: &str, first: &'a str, second: &'a str) -> Option<Command<'a>>
    ensures { option_map command_view result ≡ of_two command.now first.now second.now }
{
    if command == "test" {
        Some(Command::Test(first, second))
    } else if command == "print" {
        Some(Command::Print(first, type_of(second)?))
    } else {
        None
    }
}

// A command with three words after it.
fn of_three<'a>(
    command: &str,
    locale: &'a str,
    rule_type: &str,
    number: &'a str,
) -> Option<Command<'a>>
    ensures { option_map command_view result ≡ of_three command.now locale.now rule_type.now number.now }
{
    let rule_type = type_of(rule_type)?;
    match command {
        "category" => Some(Command::Category(locale, rule_type, number)),
        "select" => Some(Command::Select(locale, rule_type, number)),
        "message" => Some(Command::Message(locale, rule_type, number)),
        _ => None,
    }
}

// A command with four words after it.
fn of_four<'a>(
    command: &str,
    locale: &'a str,
    rule_type: &str,
    start: &'a str,
    end: &'a str,
) -> Option<Command<'a>>
    ensures { option_map command_view result ≡ of_four command.now locale.now rule_type.now start.now end.now }
{
    if command == "range" {
        Some(Command::Range(locale, type_of(rule_type)?, start, end))
    } else {
        None
    }
}

// The type that a word names.
fn type_of(word: &str) -> Option<PluralRuleType>
    ensures { result ≡ type_of word.now }
{
    match word {
        "cardinal" => Some(PluralRuleType::Cardinal),
        "ordinal" => Some(PluralRuleType::Ordinal),
        _ => None,
    }
}
