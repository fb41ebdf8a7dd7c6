//! Arguments by place.

ghost use Rattle.std.specs.Prelude.{◌≡◌, [], ◌∷◌, IfOk, OnOk, MatchOption};
ghost use Rattle.message_pattern.specs.PatternParts.{piece_view};
ghost use Rattle.message_format.specs.FormatArguments.{value_named};
ghost use Rattle.message_format.specs.Inner.FormatViews.{any_value};
ghost use Rattle.packed_format.specs.PlacedArguments.{at_places, names_in, names_of, names_view, values_view};
ghost use Rattle.packed_format.specs.Inner.FoundNames.{is_name_among, with_names};

use crate::parts::BlockParts;
use message_format::{Arguments, MessageParts, Value};
use message_pattern::Piece;
use packed_pattern::PackedPattern;
use std::alloc::{AllocError, Global};

/// Values at the places of names: [`argument_names`] has the names of a pattern's arguments. A name
/// whose place has no value is missing.
#[derive(Clone, Copy, Debug)]
pub struct PlacedValues<'v> {
    /// The names, as a caller looked them up once.
    pub names: &'v [&'v [u8]],
    /// The value of each.
    pub values: &'v [Value<'v>],
}

impl<'v> Arguments for PlacedValues<'v> {
    ghost use Rattle.packed_format.specs.Inner.FoundNames.{placed_arguments};

    ghost arguments = { placed_arguments };

    #[inline(always)]
    fn value<'s>(&'s self, name: &[u8]) -> Option<Value<'s>> {
        value_at(name, self.names, self.values)
    }
}

// The value at the place of a name.
#[inline(always)]
fn value_at<'v>(name: &[u8], names: &[&[u8]], values: &[Value<'v>]) -> Option<Value<'v>>
    ensures { any_value result ≡ value_named name.now (at_places (names_view names.now) (values_view values.now)) }
{
    let mut left = names;
    let mut others = values;
    'names: while let [first, rest @ ..] = left {
        let [value, behind @ ..] = others else {
            return None;
        };
        if *first == name {
            return Some(*value);
        }
        left = rest;
        others = behind;
    }
    None
}

/// Returns the names of a pattern's arguments, each once, in the order in which they are first used.
/// It allocates the list; the error is out of memory.
pub fn argument_names<'a>(
    alloc: Global,
    pattern: &PackedPattern<'a>,
) -> Result<Vec<&'a [u8]>, AllocError>
    ensures { IfOk result (λ names. names_view names.items ≡ names_of pattern.now) }
{
    let mut names = Vec::new(alloc);
    let mut left = BlockParts::of(pattern);
    while let Some((part, rest)) = left.first() {
        add_name(&mut names, part.piece)?;
        left = rest;
    }
    Ok(names)
}

// Adds the name that a piece uses, if it isn't there.
fn add_name<'a>(names: &mut Vec<&'a [u8]>, piece: Piece<'a>) -> Result<(), AllocError>
    ensures { OnOk result (names_view names.new.items ≡ with_names (names_view names.old.items) (names_in (piece_view piece.entry))) }
{
    let Some(name) = name_in(piece) else {
        return Ok(());
    };
    if has_name(name, names.as_slice()) {
        return Ok(());
    }
    names.push(name)?;
    Ok(())
}

// The name that a piece uses.
fn name_in<'a>(piece: Piece<'a>) -> Option<&'a [u8]>
    ensures { MatchOption result (names_in (piece_view piece.entry) ≡ []) (λ name. names_in (piece_view piece.entry) ≡ name.now ∷ []) }
{
    match piece {
        Piece::Argument(name) => Some(name),
        Piece::Begin(_, name, _) => Some(name),
        _ => None,
    }
}

// Whether a name is among others.
fn has_name(name: &[u8], names: &[&[u8]]) -> bool
    ensures { result ≡ is_name_among name.now (names_view names.now) }
{
    let mut left = names;
    'names: while let [first, rest @ ..] = left {
        if *first == name {
            return true;
        }
        left = rest;
    }
    false
}
