//! Which argument of a message's source is the number.

use crate::po::read_text::{Read, directive};
use format_arguments::{Argument, Kind, Name, number_of};
use std::str;

// Whether two names are one.
pub(crate) fn is_same_name(one: &Name<'_>, other: &Name<'_>) -> bool {
    match (one, other) {
        (Name::Place(one), Name::Place(other)) => *one == *other,
        (Name::Word(one), Name::Word(other)) => *one == *other,
        _ => false,
    }
}

// The first argument of a name.
pub(crate) fn find_name<'a, 't>(
    items: &'a [Argument<'t>],
    name: &Name<'_>,
) -> Option<&'a Argument<'t>> {
    for it in items {
        if is_same_name(&it.name, name) {
            return Some(it);
        }
    }
    None
}

// Whether an argument is the first one of its name.
pub(crate) fn is_first(items: &[Argument<'_>], index: usize, argument: &Argument<'_>) -> bool {
    find_name(items.get(..index).unwrap_or(items), &argument.name).is_none()
}

// How many names arguments have.
pub(crate) fn count_names(items: &[Argument<'_>]) -> usize {
    let mut count = 0usize;
    for (index, it) in items.iter().enumerate() {
        if is_first(items, index, it) {
            count = count.saturating_add(1);
        }
    }
    count
}

// What an argument of a text is, its style in braces considered.
fn kind_in(read: &Read<'_>, argument: &Argument<'_>) -> Kind {
    match argument.kind {
        Kind::Unknown => kind_of_style(directive(read.text, argument)),
        kind => kind,
    }
}

// What a directive in braces says by its style, as `{size:d}` and `{0,number}`.
fn kind_of_style(directive: &[u8]) -> Kind {
    match directive {
        [b'{', .., b'}'] if directive.contains(&b':') => kind_of_letter(directive),
        [b'{', .., b'}'] if names_number(directive) => Kind::Integer,
        _ => Kind::Unknown,
    }
}

// What Python's style says by its last letter.
fn kind_of_letter(directive: &[u8]) -> Kind {
    match directive {
        [.., b'd' | b'b' | b'o' | b'x' | b'X', _] => Kind::Integer,
        [.., b'e' | b'E' | b'f' | b'F' | b'g' | b'G' | b'%', _] => Kind::Number,
        _ => Kind::Unknown,
    }
}

// Whether Java's style is that of a number.
fn names_number(directive: &[u8]) -> bool {
    let Some((_, style)) = str::from_utf8(directive).unwrap_or("").split_once(',') else {
        return false;
    };
    let style = style.trim_start();
    style.starts_with("number") || style.starts_with("choice")
}

// Whether an argument is an integer.
fn is_integer(read: &Read<'_>, argument: &Argument<'_>) -> bool {
    matches!(kind_in(read, argument), Kind::Integer | Kind::Unsigned)
}

// Whether a directive doesn't say what it converts.
fn is_unknown(read: &Read<'_>, argument: &Argument<'_>) -> bool {
    matches!(kind_in(read, argument), Kind::Unknown)
}

// Whether an argument has the name of a number.
fn has_numbers_name(argument: &Argument<'_>) -> bool {
    match argument.name {
        Name::Place(_) => false,
        Name::Word(_) => {
            // The text with this argument alone, of which nothing else is known.
            let mut alone = *argument;
            alone.kind = Kind::Unknown;
            number_of(&[alone], &[alone]).is_some()
        }
    }
}

// What shows that an argument is the number.
#[derive(Clone, Copy)]
enum Sign {
    Integer,
    // It has a number's name.
    Named,
    // It says nothing of what it converts, and the singular lacks it.
    Lacking,
    // An integer that the singular lacks.
    LackingInteger,
    // An integer whose next word is another one in the singular.
    ChangingInteger,
    // An integer with a number's name.
    NamedInteger,
}

// The texts of a source.
#[derive(Clone, Copy)]
struct Source<'a, 't> {
    plural: &'a Read<'t>,
    singular: &'a Read<'t>,
}

impl<'t> Source<'_, 't> {
    // Whether the singular lacks an argument.
    fn lacks(&self, argument: &Argument<'_>) -> bool {
        find_name(self.singular.items.as_slice(), &argument.name).is_none()
    }

    // Whether an argument of the plural shows that it is the number.
    fn shows(&self, sign: Sign, argument: &Argument<'_>) -> bool {
        match sign {
            Sign::Integer => is_integer(self.plural, argument),
            Sign::Named => has_numbers_name(argument),
            Sign::Lacking => is_unknown(self.plural, argument) && self.lacks(argument),
            Sign::LackingInteger => is_integer(self.plural, argument) && self.lacks(argument),
            Sign::ChangingInteger => {
                is_integer(self.plural, argument) && changes(argument, self.plural, self.singular)
            }
            Sign::NamedInteger => is_integer(self.plural, argument) && has_numbers_name(argument),
        }
    }

    // How many arguments show so, of each name the first one.
    fn count(&self, sign: Sign, items: &[Argument<'_>]) -> usize {
        let mut count = 0usize;
        for (index, it) in items.iter().enumerate() {
            if is_first(items, index, it) && self.shows(sign, it) {
                count = count.saturating_add(1);
            }
        }
        count
    }

    // The only argument that shows so; none if there are none or several.
    fn only(&self, sign: Sign, items: &[Argument<'t>]) -> Option<Name<'t>> {
        if self.count(sign, items) != 1 {
            return None;
        }
        self.first(sign, items)
    }

    // The first argument that shows so.
    fn first(&self, sign: Sign, items: &[Argument<'t>]) -> Option<Name<'t>> {
        for (index, it) in items.iter().enumerate() {
            if is_first(items, index, it) && self.shows(sign, it) {
                return Some(it.name);
            }
        }
        None
    }

    // The one of several integers that is the number: the only one that the singular lacks, or whose
    // next word is another one there; if there are both, a number's name decides. Else the first.
    fn of_integers(&self, items: &[Argument<'t>]) -> Option<Name<'t>> {
        let lacking = self.count(Sign::LackingInteger, items);
        let changing = self.count(Sign::ChangingInteger, items);
        if lacking > 0 && changing > 0 {
            return self.only(Sign::NamedInteger, items);
        }
        let found = self.only(Sign::LackingInteger, items);
        let found = found.or(self.only(Sign::ChangingInteger, items));
        let found = found.or(self.only(Sign::NamedInteger, items));
        found.or(self.first(Sign::Integer, items))
    }

    // The one of some arguments, none of which is an integer.
    fn of_others(&self, items: &[Argument<'t>]) -> Option<Name<'t>> {
        let named = self.only(Sign::Named, items);
        let found = named.or(self.only(Sign::Lacking, items));
        found.or(number_alone(self.plural, items))
    }
}

// The name of the argument that is the number, and none if there is none or it isn't clear which.
pub(crate) fn number_in<'t>(
    kept: &[Argument<'t>],
    plural: &Read<'t>,
    singular: &Read<'t>,
) -> Option<Name<'t>> {
    let source = Source { plural, singular };
    match source.count(Sign::Integer, kept) {
        0 => source.of_others(kept),
        1 => source.only(Sign::Integer, kept),
        _ => source.of_integers(kept),
    }
}

// The number, if it is the only argument, and has a place.
fn number_alone<'t>(plural: &Read<'_>, items: &[Argument<'t>]) -> Option<Name<'t>> {
    if count_names(items) != 1 {
        return None;
    }
    match items.first() {
        Some(only) if has_place(only) && is_unknown(plural, only) => Some(only.name),
        _ => None,
    }
}

// Whether an argument has a place.
fn has_place(argument: &Argument<'_>) -> bool {
    match argument.name {
        Name::Place(_) => true,
        Name::Word(_) => false,
    }
}

// Whether the word behind an argument is another one in the singular.
fn changes(argument: &Argument<'_>, plural: &Read<'_>, singular: &Read<'_>) -> bool {
    match word_behind(singular, &argument.name) {
        Some(word) => word_behind(plural, &argument.name) != Some(word),
        None => false,
    }
}

// The word behind the last argument of a name, before the next argument; empty if there is none, and
// `None` if there is no such argument.
fn word_behind<'t>(read: &Read<'t>, name: &Name<'_>) -> Option<&'t [u8]> {
    let mut word = None;
    for (index, it) in read.items.iter().enumerate() {
        if is_same_name(&it.name, name) {
            let end = match read.items.get(index.saturating_add(1)) {
                Some(next) => next.start,
                None => read.text.len(),
            };
            word = Some(first_word(read.text.get(it.end..end).unwrap_or(b"")));
        }
    }
    word
}

// How many bytes a word stands behind its argument at most.
const MOST_BEHIND: usize = 100;

// The first word of a text, which isn't between `<` and `>`.
fn first_word(text: &[u8]) -> &[u8] {
    let front = text.get(..MOST_BEHIND).unwrap_or(text);
    let Some(start) = start_of_word(front) else {
        return b"";
    };
    let word = match end_of_word(front, start) {
        Some(end) => text.get(start..end),
        None => text.get(start..),
    };
    word.unwrap_or(b"")
}

// Where the first word begins that isn't between `<` and `>`.
fn start_of_word(text: &[u8]) -> Option<usize> {
    let mut is_tag = false;
    for (index, byte) in text.iter().enumerate() {
        if !is_tag && is_of_word(*byte) {
            return Some(index);
        }
        is_tag = *byte == b'<' || is_tag && *byte != b'>';
    }
    None
}

// Where the word that begins there ends.
fn end_of_word(text: &[u8], start: usize) -> Option<usize> {
    for (index, byte) in text.iter().enumerate() {
        if start < index && !is_of_word(*byte) {
            return Some(index);
        }
    }
    None
}

// Whether a byte is of a word: a letter, a digit or `_`, or one of a character that isn't ASCII.
fn is_of_word(byte: u8) -> bool {
    byte.is_ascii_alphanumeric() || byte == b'_' || byte >= 128
}
