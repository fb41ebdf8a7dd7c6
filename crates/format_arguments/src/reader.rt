//! Reading a text.

ghost use Rattle.std.specs.Prelude.{◌≡◌, ◌≤◌, ◌<◌, ◌+◌, ◌^◌, ◌++◌, ◌∷◌, [], IfOk, OnOk};
ghost use Rattle.format_arguments.specs.DirectiveTables.{first_place};
ghost use Rattle.format_arguments.specs.ToldArguments.{TellsExactly};
ghost use Rattle.format_arguments.specs.CutTexts.{argument_at, argument_told, argument_view, arguments_view, name_in_turn, name_view, next_behind, next_in_turn};
ghost use Rattle.format_arguments.specs.Inner.DirectiveViews.{directive_view, least_width, says_view, which_view};

use crate::argument::{Argument, Arguments, Name};
use crate::directive::{Directive, Front, Which};
use crate::format::Format;
use crate::front::front_of;
use std::alloc::{AllocError, Global};

// The number of the first argument that has no place of its own.
fn first_place(format: Format) -> usize
    ensures { result ≡ first_place format }
{
    match format {
        Format::PythonBrace => 0,
        _ => 1,
    }
}

// How an argument is named, where the next one in turn has this number.
fn name_in_turn<'t>(next: usize, stars: usize, which: Which<'t>) -> Name<'t>
    requires { next + stars < 2 ^ 64 }
    ensures { name_view result ≡ name_in_turn next stars (which_view which.entry) }
{
    match which {
        Which::Next => Name::Place(next + stars),
        Which::At(place) => Name::Place(place),
        Which::Named(word) => Name::Word(word),
    }
}

// The number of the next one behind it.
fn next_in_turn(next: usize, stars: usize, which: Which<'_>) -> usize
    requires { next + stars + 1 < 2 ^ 64 }
    ensures next { result ≡ next_in_turn next stars (which_view which.entry) }
    ensures within { result ≤ next + stars + 1 }
{
    match which {
        Which::Next => next + stars + 1,
        _ => next + stars,
    }
}

// The argument of a directive that stands there.
fn argument_at<'t>(next: usize, start: usize, end: usize, directive: Directive<'t>) -> Argument<'t>
    requires { next + directive.stars < 2 ^ 64 }
    ensures { argument_view result ≡ argument_at next start end (directive_view directive.entry) }
{
    Argument {
        start,
        end,
        name: name_in_turn(next, directive.stars, directive.which),
        kind: directive.kind,
        size: directive.size,
    }
}

// Adds an argument.
#[tactic(auto, using(crate::proofs::Readings::pushed))]
fn push<'t>(items: &mut Vec<Argument<'t>>, argument: Argument<'t>) -> Result<(), AllocError>
    ensures { OnOk result (arguments_view items.new.items ≡ arguments_view items.old.items ++ argument_view argument.entry ∷ []) }
{
    items.push(argument)?;
    Ok(())
}

// Adds the argument of a piece, if it is a directive. Returns the number of the next one.
#[tactic(auto, using(crate::proofs::Readings::none_pushed))]
fn tell<'t>(
    items: &mut Vec<Argument<'t>>,
    next: usize,
    start: usize,
    end: usize,
    says: Option<Directive<'t>>,
) -> Result<usize, AllocError>
    requires { next + least_width says < 2 ^ 64 }
    ensures told { OnOk result (arguments_view items.new.items ≡ arguments_view items.old.items ++ argument_told next start end (says_view says.entry)) }
    ensures next { IfOk result (λ behind. behind ≡ next_behind next (says_view says.entry)) }
    ensures within { IfOk result (λ behind. behind ≤ next + least_width says.entry) }
{
    match says {
        None => Ok(next),
        Some(directive) => {
            push(items, argument_at(next, start, end, directive))?;
            Ok(next_in_turn(next, directive.stars, directive.which))
        }
    }
}

/// Returns the arguments of a text, in the order in which they stand there, up to its end or its
/// first fault. It allocates their list; the error is out of memory.
pub fn arguments<'t>(
    alloc: Global,
    format: Format,
    text: &'t [u8],
) -> Result<Arguments<'t>, AllocError>
    ensures { TellsExactly format text.now result }
{
    let mut items = Vec::new(alloc);
    let mut next = first_place(format);
    let mut rest = text;
    'pieces: loop {
        let start = text.len() - rest.len();
        match front_of(format, rest) {
            Front::End => return Ok(Arguments { items, fault: None }),
            Front::Broken => return Ok(Arguments {
                items,
                fault: Some(start),
            }),
            Front::Takes(says, after) => {
                next = tell(&mut items, next, start, text.len() - after.len(), says)?;
                rest = after;
            }
        }
    }
}
