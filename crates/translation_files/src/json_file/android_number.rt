//! Which argument of an Android message is the number.

ghost use Rattle.std.specs.Prelude.{◌≤◌, length};

use crate::json_file::android_arguments::{AndroidArgument, AndroidPiece};
use crate::json_file::text_bytes::{Class, behind_run, is_in, split_run};

// What is known of the number.
#[derive(Clone, Copy)]
pub(crate) enum AndroidNumber<'t> {
    // There are no arguments.
    Absent,
    // It isn't clear which argument it is.
    Unclear,
    Known(AndroidArgument<'t>),
}

// The number of a message, given its text with the most arguments and that of one: the integer; of
// several the only one that the text of one lacks, or has before another word; else the first.
pub(crate) fn android_number<'t>(
    longest: &[AndroidPiece<'t>],
    singular: &[AndroidPiece<'_>],
) -> AndroidNumber<'t> {
    if count_arguments(longest) == 0 {
        return AndroidNumber::Absent;
    }
    let mut integers = Integers::none();
    for (index, piece) in longest.iter().enumerate() {
        if let AndroidPiece::Argument(argument) = *piece {
            let before = longest.get(..index).unwrap_or(longest);
            if argument.is_integer() && !has_place(before, argument.place) {
                integers.add(argument, longest, singular);
            }
        }
    }
    integers.number()
}

// How many arguments are among pieces.
pub(crate) fn count_arguments(pieces: &[AndroidPiece<'_>]) -> usize {
    let mut count: usize = 0;
    for piece in pieces {
        if let AndroidPiece::Argument(_) = piece {
            count = count.saturating_add(1);
        }
    }
    count
}

// Whether an argument among pieces has this place.
fn has_place(pieces: &[AndroidPiece<'_>], place: usize) -> bool {
    for piece in pieces {
        if let AndroidPiece::Argument(known) = piece {
            if known.place == place {
                return true;
            }
        }
    }
    false
}

// The integers among arguments: all, those that the text of one lacks, and those that it has before
// another word.
#[derive(Clone, Copy)]
struct Integers<'t> {
    all: Choice<'t>,
    lacking: Choice<'t>,
    changing: Choice<'t>,
}

impl<'t> Integers<'t> {
    fn none() -> Integers<'t> {
        Integers {
            all: Choice::none(),
            lacking: Choice::none(),
            changing: Choice::none(),
        }
    }

    // Adds an integer.
    fn add(
        &mut self,
        integer: AndroidArgument<'t>,
        longest: &[AndroidPiece<'t>],
        singular: &[AndroidPiece<'_>],
    ) {
        self.all.add(integer);
        match word_behind(singular, integer.place) {
            None => self.lacking.add(integer),
            Some(word) if Some(word) != word_behind(longest, integer.place) => {
                self.changing.add(integer)
            }
            Some(_) => (),
        }
    }

    // The number among them.
    fn number(&self) -> AndroidNumber<'t> {
        let is_several = self.all.count > 1;
        if is_several && self.lacking.count > 0 && self.changing.count > 0 {
            return AndroidNumber::Unclear;
        }
        let shown = self.lacking.only().or(self.changing.only());
        match self.all.only().or(shown).or(self.all.first) {
            Some(number) => AndroidNumber::Known(number),
            None => AndroidNumber::Unclear,
        }
    }
}

// Arguments of which one may be chosen: how many, and the first.
#[derive(Clone, Copy)]
struct Choice<'t> {
    count: usize,
    first: Option<AndroidArgument<'t>>,
}

impl<'t> Choice<'t> {
    fn none() -> Choice<'t> {
        Choice {
            count: 0,
            first: None,
        }
    }

    fn add(&mut self, argument: AndroidArgument<'t>) {
        self.count = self.count.saturating_add(1);
        if self.first.is_none() {
            self.first = Some(argument);
        }
    }

    // The only one.
    fn only(&self) -> Option<AndroidArgument<'t>> {
        if self.count == 1 { self.first } else { None }
    }
}

// The word behind the last argument of a place, empty if there is none before the next argument; none
// if no argument has the place.
fn word_behind<'t>(pieces: &[AndroidPiece<'t>], place: usize) -> Option<&'t [u8]> {
    let mut found: Option<&'t [u8]> = None;
    let mut is_behind = false;
    for piece in pieces {
        match *piece {
            AndroidPiece::Argument(argument) => {
                is_behind = argument.place == place;
                if is_behind {
                    found = Some(b"");
                }
            }
            AndroidPiece::Text(text) => {
                if is_behind {
                    let word = first_word(text);
                    is_behind = word.is_empty();
                    found = Some(word);
                }
            }
        }
    }
    found
}

// The first word of a text, outside of tags as `<b>`.
fn first_word(text: &[u8]) -> &[u8] {
    let mut rest = text;
    while let [first, after @ ..] = rest {
        if is_in(Class::Word, *first) {
            let (word, _) = split_run(Class::Word, rest);
            return word;
        }
        rest = if *first == b'<' {
            after_tag(after)
        } else {
            after
        };
    }
    b""
}

// What follows a tag behind its `<`; all, if it isn't closed before another one begins.
fn after_tag(text: &[u8]) -> &[u8]
    ensures { length result.now ≤ length text.now }
{
    match behind_run(Class::OfTag, text) {
        [b'>', rest @ ..] => rest,
        _ => text,
    }
}
