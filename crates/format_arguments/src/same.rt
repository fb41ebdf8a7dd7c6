//! When an argument of a translation stands for one of its source.

ghost use Rattle.std.specs.Prelude.{◌≡◌};
ghost use Rattle.std.specs.List.{list_any};
ghost use Rattle.format_arguments.specs.SameArguments.{converts_alike, integer_size, is_long_long, is_same_kind, is_same_name, is_same_size, is_unknown_kind};
ghost use Rattle.format_arguments.specs.SameArguments.{number_size, size_said, stands_for, text_size};

use crate::argument::{Argument, Kind, Name};
use crate::name::is;

// Whether two names are one.
pub(crate) fn is_same_name(one: &Name<'_>, other: &Name<'_>) -> bool
    ensures { result ≡ is_same_name one.now other.now }
{
    match (one, other) {
        (Name::Place(one), Name::Place(other)) => *one == *other,
        (Name::Word(one), Name::Word(other)) => *one == *other,
        _ => false,
    }
}

// Whether two kinds are one.
fn is_same_kind(one: Kind, other: Kind) -> bool
    ensures { result ≡ is_same_kind one other }
{
    match (one, other) {
        (Kind::Integer, Kind::Integer)
        | (Kind::Unsigned, Kind::Unsigned)
        | (Kind::Number, Kind::Number)
        | (Kind::Character, Kind::Character)
        | (Kind::Text, Kind::Text)
        | (Kind::Unknown, Kind::Unknown) => true,
        (Kind::Other(one), Kind::Other(other)) => one == other,
        _ => false,
    }
}

// Whether the directive doesn't say what it converts.
pub(crate) fn is_unknown(kind: Kind) -> bool
    ensures { result ≡ is_unknown_kind kind }
{
    match kind {
        Kind::Unknown => true,
        _ => false,
    }
}

// Whether a size is that of `long long`, or of `long double`.
fn is_long_long(size: &[u8]) -> bool
    ensures { result ≡ is_long_long size.now }
{
    is(size, b"ll") || is(size, b"L") || is(size, b"q")
}

// The size of an integer, by one of the ways to write it.
fn integer_size(size: &[u8]) -> &[u8]
    ensures { result.now ≡ integer_size size.now }
{
    if is_long_long(size) {
        b"ll"
    } else if is(size, b"Z") {
        b"z"
    } else {
        size
    }
}

// The size of another number.
fn number_size(size: &[u8]) -> &'static [u8]
    ensures { result.now ≡ number_size size.now }
{
    if is_long_long(size) { b"ll" } else { b"" }
}

// The size of a character or a text.
fn text_size(size: &[u8]) -> &'static [u8]
    ensures { result.now ≡ text_size size.now }
{
    if is_long_long(size) || is(size, b"l") {
        b"l"
    } else {
        b""
    }
}

// The size of an argument of a kind, by one of the ways to write it.
fn size_said(kind: Kind, size: &[u8]) -> &[u8]
    ensures { result.now ≡ size_said kind size.now }
{
    match kind {
        Kind::Number => number_size(size),
        Kind::Character | Kind::Text => text_size(size),
        _ => integer_size(size),
    }
}

// Whether the sizes of two arguments are one.
fn is_same_size(one: &Argument<'_>, other: &Argument<'_>) -> bool
    ensures { result ≡ is_same_size one.now other.now }
{
    size_said(one.kind, one.size) == size_said(other.kind, other.size)
}

// Whether two arguments convert alike, as far as they say so.
#[tactic(auto, unfolding(crate::specs::SameArguments::converts_alike))]
fn converts_alike(one: &Argument<'_>, other: &Argument<'_>) -> bool
    ensures { result ≡ converts_alike one.now other.now }
{
    is_unknown(one.kind)
        || is_unknown(other.kind)
        || is_same_kind(one.kind, other.kind) && is_same_size(one, other)
}

/// Tells whether an argument of a translation stands for one of its source: it has the same place or
/// name, and they convert alike, or one of them doesn't say what it converts.
#[tactic(auto, unfolding(crate::specs::SameArguments::stands_for))]
pub fn stands_for(source: &Argument<'_>, translation: &Argument<'_>) -> bool
    ensures { result ≡ stands_for source.now translation.now }
{
    is_same_name(&source.name, &translation.name) && converts_alike(source, translation)
}

/// Tells whether a translation has the number of its source: an argument that stands for it.
pub fn has_number(translation: &[Argument<'_>], number: &Argument<'_>) -> bool
    ensures { result ≡ list_any (stands_for number.now) translation.now }
{
    translation
        .iter()
        .any(|argument| stands_for(number, argument))
}
