//! Which argument of a text is the number that its plural forms go by.

ghost use Rattle.std.specs.Prelude.{◌≡◌, ◌||◌, not};
ghost use Rattle.std.specs.List.{list_all};
ghost use Rattle.format_arguments.specs.SameArguments.{is_same_name};
ghost use Rattle.format_arguments.specs.CountedArguments.{else_only, first_showing, has_name, has_number_name, has_sign, is_integer, is_place, number_of, only, shows};

use crate::argument::{Argument, Kind, Name};
use crate::name::is_number_name;
use crate::same::{is_same_name, is_unknown};

// What shows that an argument is the number.
#[derive(Clone, Copy)]
pub(crate) enum Sign {
    // It is an integer without a name.
    Counted,
    // It has a number's name.
    Named,
    // The singular text lacks it.
    Lacking,
    // It is an integer, or has a place.
    Alone,
}

fn is_integer(kind: Kind) -> bool
    ensures { result ≡ is_integer kind }
{
    match kind {
        Kind::Integer | Kind::Unsigned => true,
        _ => false,
    }
}

fn is_place(name: &Name<'_>) -> bool
    ensures { result ≡ is_place name.now }
{
    match name {
        Name::Place(_) => true,
        Name::Word(_) => false,
    }
}

fn has_number_name(name: &Name<'_>) -> bool
    ensures { result ≡ has_number_name name.now }
{
    match name {
        Name::Place(_) => false,
        Name::Word(word) => is_number_name(word),
    }
}

// Whether the text has an argument of this name.
#[tactic(auto, unfolding(crate::specs::CountedArguments::has_name))]
fn has_name(text: &[Argument<'_>], name: &Name<'_>) -> bool
    ensures { result ≡ has_name text.now name.now }
{
    text.iter()
        .any(|argument| is_same_name(name, &argument.name))
}

fn has_sign(sign: Sign, singular: &[Argument<'_>], argument: &Argument<'_>) -> bool
    ensures { result ≡ has_sign sign singular.now argument.now }
{
    match sign {
        Sign::Counted => is_integer(argument.kind) && is_place(&argument.name),
        Sign::Named => has_number_name(&argument.name),
        Sign::Lacking => !has_name(singular, &argument.name),
        Sign::Alone => is_integer(argument.kind) || is_place(&argument.name),
    }
}

// Whether it may be the number, and shows it so.
#[tactic(auto, unfolding(crate::specs::CountedArguments::shows))]
fn shows(sign: Sign, singular: &[Argument<'_>], argument: &Argument<'_>) -> bool
    ensures { result ≡ shows sign singular.now argument.now }
{
    (is_integer(argument.kind) || is_unknown(argument.kind)) && has_sign(sign, singular, argument)
}

// The first argument that shows so.
fn first<'t>(sign: Sign, plural: &[Argument<'t>], singular: &[Argument<'_>]) -> Option<Argument<'t>>
    ensures { result ≡ first_showing sign plural.now singular.now }
{
    for argument in plural {
        if shows(sign, singular, argument) {
            return Some(*argument);
        }
    }
    None
}

// Whether all arguments that show so have this name.
fn have_name(
    sign: Sign,
    plural: &[Argument<'_>],
    singular: &[Argument<'_>],
    name: &Name<'_>,
) -> bool
    ensures { result ≡ list_all (λ b. not (shows sign singular.now b) || is_same_name name.now b.name) plural.now }
{
    plural.iter().all(|argument| !shows(sign, singular, argument)
        || is_same_name(name, &argument.name))
}

// The only argument that shows so.
#[tactic(auto, unfolding(crate::specs::CountedArguments::only))]
fn only<'t>(sign: Sign, plural: &[Argument<'t>], singular: &[Argument<'_>]) -> Option<Argument<'t>>
    ensures { result ≡ only sign plural.now singular.now }
{
    match first(sign, plural, singular) {
        Some(argument) => {
            if have_name(sign, plural, singular, &argument.name) {
                Some(argument)
            } else {
                None
            }
        }
        None => None,
    }
}

// The one that was found, else the only one that shows so.
fn else_only<'t>(
    found: Option<Argument<'t>>,
    sign: Sign,
    plural: &[Argument<'t>],
    singular: &[Argument<'_>],
) -> Option<Argument<'t>>
    ensures { result ≡ else_only sign plural.now singular.now found.entry }
{
    match found {
        Some(argument) => Some(argument),
        None => only(sign, plural, singular),
    }
}

/// Returns the argument of a text with plural forms that is the number, where it first stands; none
/// if that isn't clear. `singular` is the text of the form for 1, which may lack it.
///
/// It is the first integer without a name; else the only argument with a number's name, as `n` and
/// `num_files`, else the only one that the singular text lacks, else the only one that may be a
/// number at all.
pub fn number_of<'t>(plural: &[Argument<'t>], singular: &[Argument<'_>]) -> Option<Argument<'t>>
    ensures { result ≡ number_of plural.now singular.now }
{
    let counted = first(Sign::Counted, plural, singular);
    let named = else_only(counted, Sign::Named, plural, singular);
    let lacking = else_only(named, Sign::Lacking, plural, singular);
    else_only(lacking, Sign::Alone, plural, singular)
}
