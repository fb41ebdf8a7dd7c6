//! The arguments of a message's texts.

use crate::po::text_format::TextFormat;
use crate::pushed::push;
use format_arguments::{Argument, Format, Kind, Name, arguments};
use std::alloc::{AllocError, Global};

// How many percent signs and braces a text has at most, and so arguments.
pub(crate) const MOST_SIGNS: usize = 64;

// How many bytes the directive of a text without a flag has at most.
const MOST_BYTES: usize = 100;

// The arguments of a text, and the first byte that begins one and is none.
#[derive(Drop)]
pub(crate) struct Read<'t> {
    pub(crate) text: &'t [u8],
    pub(crate) items: Vec<Argument<'t>>,
    pub(crate) fault: Option<usize>,
    // How many arguments come in turn before the next one.
    turns: usize,
}

// Whether a text has more percent signs or braces than are read.
pub(crate) fn has_too_many(text: &[u8]) -> bool {
    let mut count = 0usize;
    for byte in text {
        if is_sign(*byte) {
            count = count.saturating_add(1);
        }
    }
    count > MOST_SIGNS
}

// Whether a byte begins arguments.
fn is_sign(byte: u8) -> bool {
    byte == b'%' || byte == b'{'
}

// The arguments of a text. Nothing is read of more than so many bytes at once, and nothing of a text
// with too many signs.
pub(crate) fn read_text<'t>(
    alloc: Global,
    format: TextFormat,
    text: &'t [u8],
) -> Result<Read<'t>, AllocError> {
    let mut read = Read::new(alloc, text);
    let filled = match format {
        TextFormat::Flagged(format) => read.fill_flagged(alloc, format),
        TextFormat::Unflagged => read.fill_unflagged(alloc),
        TextFormat::Unread => Ok(()),
    };
    match filled {
        Ok(()) => Ok(read),
        Err(error) => Err(error),
    }
}

impl<'t> Read<'t> {
    // No arguments yet.
    fn new(alloc: Global, text: &'t [u8]) -> Read<'t> {
        Read {
            text,
            items: Vec::new(alloc),
            fault: None,
            turns: 0,
        }
    }

    // Takes the arguments in a format, those behind its faults among them.
    fn fill_flagged(&mut self, alloc: Global, format: Format) -> Result<(), AllocError> {
        let mut start = 0usize;
        for _ in 0..MOST_SIGNS + 1 {
            let Some(fault) = self.take_from(alloc, format, start)? else {
                return Ok(());
            };
            self.fault = self.fault.or(Some(fault));
            start = fault.saturating_add(1);
        }
        Ok(())
    }

    // Takes the arguments in a format from a byte on, up to their fault, which is returned.
    fn take_from(
        &mut self,
        alloc: Global,
        format: Format,
        start: usize,
    ) -> Result<Option<usize>, AllocError> {
        let Some(rest) = self.text.get(start..) else {
            return Ok(None);
        };
        match arguments(alloc, format, rest) {
            Ok(found) => self.push_moved(start, found.items.as_slice(), found.fault),
            Err(error) => Err(error),
        }
    }

    // Appends the arguments of what stands from a byte on. Returns where their fault is.
    fn push_moved(
        &mut self,
        start: usize,
        items: &[Argument<'t>],
        fault: Option<usize>,
    ) -> Result<Option<usize>, AllocError> {
        let turns = self.turns;
        for it in items {
            let moved = self.moved(start, turns, it);
            push(&mut self.items, moved)?;
        }
        Ok(match fault {
            Some(fault) => Some(start.saturating_add(fault)),
            None => None,
        })
    }

    // An argument of what stands from a byte on, where so many come before that in turn.
    fn moved(&mut self, start: usize, turns: usize, argument: &Argument<'t>) -> Argument<'t> {
        let mut moved = *argument;
        moved.start = start.saturating_add(argument.start);
        moved.end = start.saturating_add(argument.end);
        if let Name::Place(written) = argument.name {
            let bytes = directive(self.text, &moved);
            let place = if has_own_place(bytes) {
                written
            } else {
                turns.saturating_add(written)
            };
            moved.name = Name::Place(place);
            self.turns = self.turns.max(turns_behind(bytes, place));
        }
        moved
    }

    // Takes what looks like an argument, where no flag tells of any.
    fn fill_unflagged(&mut self, alloc: Global) -> Result<(), AllocError> {
        let text = self.text;
        let mut behind = 0usize;
        for (start, byte) in text.iter().enumerate() {
            if behind <= start && is_sign(*byte) {
                behind = self.take_front(alloc, start)?;
            }
        }
        Ok(())
    }

    // Takes the argument that begins at a sign, if one does. Returns where to go on.
    fn take_front(&mut self, alloc: Global, start: usize) -> Result<usize, AllocError> {
        let rest = self.text.get(start..).unwrap_or(b"");
        if is_doubled(rest) {
            return Ok(start.saturating_add(2));
        }
        match first_argument(alloc, rest)? {
            Some(found) => {
                self.push_moved(start, &[found], None)?;
                Ok(start.saturating_add(found.end))
            }
            None => Ok(start),
        }
    }
}

// The bytes of an argument.
pub(crate) fn directive<'t>(text: &'t [u8], argument: &Argument<'_>) -> &'t [u8] {
    text.get(argument.start..argument.end).unwrap_or(b"")
}

// How many arguments come in turn before the one behind a place.
fn turns_behind(directive: &[u8], place: usize) -> usize {
    if directive.starts_with(b"{") {
        place.saturating_add(1)
    } else {
        place
    }
}

// Whether a directive writes its place.
fn has_own_place(directive: &[u8]) -> bool {
    match directive {
        [b'{', second, ..] => second.is_ascii_digit(),
        [b'%', b'|', ..] | [b'%', b'L', ..] => true,
        [b'%', second, ..] if second.is_ascii_digit() => directive.contains(&b'$')
            || ends_in_digit(directive),
        _ => false,
    }
}

// Whether the last byte is a digit, or another percent sign.
fn ends_in_digit(directive: &[u8]) -> bool {
    match directive.last() {
        Some(last) => last.is_ascii_digit() || *last == b'%',
        None => false,
    }
}

// Whether a sign stands twice, and so for itself.
fn is_doubled(text: &[u8]) -> bool {
    match text {
        [first, second, ..] => *first == *second,
        _ => false,
    }
}

// The argument at the front of a text, by the first format in which it is one.
fn first_argument<'t>(alloc: Global, text: &'t [u8]) -> Result<Option<Argument<'t>>, AllocError> {
    let front = text.get(..MOST_BYTES).unwrap_or(text);
    match front {
        [b'{', ..] => front_argument(alloc, Format::PythonBrace, front),
        [b'%', b'(', ..] => front_argument(alloc, Format::Python, front),
        [b'%', b' ', ..] => Ok(None),
        _ => match enclosed_argument(front) {
            Some(found) => Ok(Some(found)),
            None => percent_argument(alloc, front),
        },
    }
}

// The argument behind a percent sign, as C or Qt has it.
fn percent_argument<'t>(
    alloc: Global,
    front: &'t [u8],
) -> Result<Option<Argument<'t>>, AllocError> {
    match front_argument(alloc, Format::C, front)? {
        Some(found) if is_of_c(front, &found) => Ok(Some(found)),
        _ => match front_argument(alloc, Format::QtPlural, front)? {
            Some(found) if is_of_qt(front, &found) => Ok(Some(found)),
            _ => Ok(None),
        },
    }
}

// Whether a directive of C has a conversion that Python has, too, and is no encoded byte, as `%2F`.
fn is_of_c(front: &[u8], found: &Argument<'_>) -> bool {
    let bytes = directive(front, found);
    is_common(bytes) && !(has_width(bytes) && begins_word(front, found.end))
}

// Whether digits that are no place stand behind a percent sign.
fn has_width(directive: &[u8]) -> bool {
    match directive {
        [_, second, ..] => second.is_ascii_digit() && !directive.contains(&b'$'),
        _ => false,
    }
}

// Whether a directive of Qt is no encoded byte, as `%20`, and no part of a word.
fn is_of_qt(front: &[u8], found: &Argument<'_>) -> bool {
    match directive(front, found) {
        [_, b'n'] => !begins_word(front, found.end),
        [_, second] if second.is_ascii_digit() => match front.get(found.end) {
            Some(next) => !next.is_ascii_hexdigit(),
            None => true,
        },
        [_, second, _] => !second.is_ascii_digit(),
        _ => true,
    }
}

// Whether a letter or a digit stands there.
fn begins_word(text: &[u8], place: usize) -> bool {
    match text.get(place) {
        Some(byte) => byte.is_ascii_alphanumeric(),
        None => false,
    }
}

// The argument `%name%` at the front of a text, if no letter, digit or percent sign follows it.
fn enclosed_argument(front: &[u8]) -> Option<Argument<'_>> {
    let end = end_of_name(front)?;
    let behind = end.saturating_add(1);
    if end < 3 || begins_word(front, behind) || front.get(behind) == Some(&b'%') {
        return None;
    }
    Some(Argument {
        start: 0,
        end: behind,
        name: Name::Word(front.get(1..end).unwrap_or(b"")),
        kind: Kind::Unknown,
        size: b"",
    })
}

// Where the percent sign stands that ends a name behind the one at the front.
fn end_of_name(front: &[u8]) -> Option<usize> {
    for (place, byte) in front.iter().enumerate() {
        if place == 1 && !byte.is_ascii_alphabetic() {
            return None;
        }
        if place > 1 && *byte == b'%' {
            return Some(place);
        }
        if place > 1 && !is_of_name(*byte) {
            return None;
        }
    }
    None
}

// Whether a byte is of a name between percent signs.
fn is_of_name(byte: u8) -> bool {
    byte.is_ascii_alphanumeric() || byte == b'_' || byte == b'-' || byte == b'.'
}

// Whether a directive has a conversion that is C's and Python's.
fn is_common(directive: &[u8]) -> bool {
    match directive.last() {
        Some(last) => b"diouxXeEfFgGcs>".contains(last),
        None => false,
    }
}

// The argument in a format at the front of a text.
fn front_argument<'t>(
    alloc: Global,
    format: Format,
    front: &'t [u8],
) -> Result<Option<Argument<'t>>, AllocError> {
    match arguments(alloc, format, front) {
        Ok(read) => Ok(argument_at_start(read.items.as_slice())),
        Err(error) => Err(error),
    }
}

// The first argument, if it stands at the start.
fn argument_at_start<'t>(items: &[Argument<'t>]) -> Option<Argument<'t>> {
    match items.first() {
        Some(found) if found.start == 0 => Some(*found),
        _ => None,
    }
}
