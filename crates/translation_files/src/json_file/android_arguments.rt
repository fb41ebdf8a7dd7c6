//! The arguments of Android's texts, as Java's formats write them: `%d`, `%2$s`, `%1$,d`.

ghost use Rattle.std.specs.Prelude.{◌≤◌, ◌<◌, length, IfSome};

use crate::json_file::text_bytes::{Class, after_byte, before, behind_run, is_in, split_run};
use crate::pushed::push;
use std::alloc::AllocError;

// What an argument converts.
#[derive(Clone, Copy, PartialEq, Eq)]
pub(crate) enum AndroidKind {
    Integer,
    Unsigned,
    Fraction,
    Character,
    Text,
    Date,
}

// An argument.
#[derive(Clone, Copy)]
pub(crate) struct AndroidArgument<'t> {
    // Its place, from 1 on: as it is written, or the next one in turn.
    pub(crate) place: usize,
    pub(crate) kind: AndroidKind,
    pub(crate) text: &'t [u8],
}

// A piece of a text.
#[derive(Clone, Copy)]
pub(crate) enum AndroidPiece<'t> {
    Text(&'t [u8]),
    Argument(AndroidArgument<'t>),
}

// A directive behind its `%`: its place, if it is written, what it converts, and what follows it.
#[derive(Clone, Copy)]
struct Directive<'t> {
    place: Option<usize>,
    kind: AndroidKind,
    rest: &'t [u8],
}

impl AndroidArgument<'_> {
    // Whether it is one of the same place and kind.
    pub(crate) fn is_same(&self, other: &AndroidArgument<'_>) -> bool {
        self.place == other.place && self.kind == other.kind
    }

    // Whether it is a whole number.
    pub(crate) fn is_integer(&self) -> bool {
        match self.kind {
            AndroidKind::Integer | AndroidKind::Unsigned => true,
            _ => false,
        }
    }
}

// Appends the pieces of a text.
pub(crate) fn push_pieces<'t>(
    pieces: &mut Vec<AndroidPiece<'t>>,
    text: &'t [u8],
) -> Result<(), AllocError> {
    let mut turn: usize = 0;
    let mut rest = text;
    while let [first, after @ ..] = rest {
        let (piece, behind) = if *first == b'%' {
            percent_front(rest, after, &mut turn)
        } else {
            let (plain, behind) = split_run(Class::Plain, after);
            (AndroidPiece::Text(&rest[..plain.len() + 1]), behind)
        };
        push(pieces, piece)?;
        rest = behind;
    }
    Ok(())
}

// The piece that begins with a `%`, and what follows it.
fn percent_front<'t>(
    text: &'t [u8],
    after: &'t [u8],
    turn: &mut usize,
) -> (AndroidPiece<'t>, &'t [u8])
    requires { length after.now < length text.now }
    ensures { length result.1.now < length text.now }
{
    if let Some(behind) = after_byte(b'%', after) {
        return (AndroidPiece::Text(before(text, behind)), behind);
    }
    let Some(directive) = directive_front(after) else {
        return (AndroidPiece::Text(before(text, after)), after);
    };
    let place = match directive.place {
        Some(place) => place,
        None => {
            *turn = turn.saturating_add(1);
            *turn
        }
    };
    let argument = AndroidArgument {
        place,
        kind: directive.kind,
        text: before(text, directive.rest),
    };
    (AndroidPiece::Argument(argument), directive.rest)
}

// The directive behind a `%`, if it is one.
fn directive_front(text: &[u8]) -> Option<Directive<'_>>
    ensures { IfSome result (λ directive. length directive.rest.now ≤ length text.now) }
{
    let (place, rest) = place_front(text);
    let rest = behind_run(Class::Digit, behind_run(Class::Flag, rest));
    let rest = match after_byte(b'.', rest) {
        Some(precision) => behind_run(Class::Digit, precision),
        None => rest,
    };
    let (kind, rest) = match rest {
        [b't' | b'T', part, behind @ ..] if is_in(Class::Letter, *part) => {
            (AndroidKind::Date, behind)
        }
        [conversion, behind @ ..] => (kind_of(*conversion)?, behind),
        [] => return None,
    };
    Some(Directive { place, kind, rest })
}

// The place in front of a directive, if it is written, and what follows it.
fn place_front(text: &[u8]) -> (Option<usize>, &[u8])
    ensures { length result.1.now ≤ length text.now }
{
    let (digits, rest) = split_run(Class::Digit, text);
    match after_byte(b'$', rest) {
        Some(behind) if !digits.is_empty() => (Some(number_of_digits(digits)), behind),
        _ => (None, text),
    }
}

// The number of digits; one that is too large is the largest.
fn number_of_digits(digits: &[u8]) -> usize {
    let mut number: usize = 0;
    for digit in digits {
        if is_in(Class::Digit, *digit) {
            number = number
                .saturating_mul(10)
                .saturating_add(usize::from(digit.saturating_sub(b'0')));
        }
    }
    number
}

// What a letter converts.
fn kind_of(conversion: u8) -> Option<AndroidKind> {
    match conversion {
        b'd' => Some(AndroidKind::Integer),
        b'o' | b'x' | b'X' => Some(AndroidKind::Unsigned),
        b'e' | b'E' | b'f' | b'g' | b'G' | b'a' | b'A' => Some(AndroidKind::Fraction),
        b'c' | b'C' => Some(AndroidKind::Character),
        b's' | b'S' => Some(AndroidKind::Text),
        _ => None,
    }
}
