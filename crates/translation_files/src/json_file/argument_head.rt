//! The heads of a pattern's arguments, as `{n, plural,`, also those that are written wrong.

ghost use Rattle.std.specs.Prelude.{◌<◌, length, IfSome};

use crate::json_file::text_bytes::{Class, after_byte, before, is_in};
use crate::locale_name::text_of;
use icu_plurals::PluralCategory;

// The head of an argument, behind its brace: a name and a type, and whether a comma is behind each.
#[derive(Clone, Copy)]
struct Head<'t> {
    name: &'t [u8],
    has_comma: bool,
    kind: &'t [u8],
    is_ended: bool,
    // What follows the type, and what follows white space and the comma behind it.
    behind: &'t [u8],
    rest: &'t [u8],
}

// A head of branches that is written wrong.
#[derive(Clone, Copy)]
pub(crate) struct WrongHead<'t> {
    // What is written, from the brace on up to the type.
    pub(crate) written: &'t [u8],
    pub(crate) name: &'t [u8],
    // The type that is meant.
    pub(crate) meant: &'static str,
}

impl<'t> Head<'t> {
    // The head at the front of a text, if it has a name and a type.
    fn of(text: &'t [u8]) -> Option<Head<'t>> {
        let (name, rest) = word_front(Word::Name, text);
        if name.is_empty() {
            return None;
        }
        let comma = after_comma(rest);
        let text = behind_space(comma.unwrap_or(rest));
        let behind = behind_word(Word::Other, text);
        let kind = before(text, behind);
        if kind.is_empty() {
            return None;
        }
        let rest = behind_space(behind);
        let end = after_comma(rest);
        Some(Head {
            name,
            has_comma: comma.is_some(),
            kind,
            is_ended: end.is_some(),
            behind,
            rest: end.unwrap_or(rest),
        })
    }

    // Whether it is that of a plural or an ordinal.
    fn is_counting(&self) -> bool {
        let is_known = self.kind.eq_ignore_ascii_case(b"plural")
            || self.kind.eq_ignore_ascii_case(b"selectordinal");
        self.has_comma && self.is_ended && is_known
    }

    // Whether it is written wrong, and branches follow it: it lacks a comma, or has another type.
    fn is_wrong(&self) -> bool {
        if is_type(self.kind) {
            return !(self.has_comma && self.is_ended) && begins_branch(self.rest, true);
        }
        self.has_comma && begins_branch(self.rest, is_like_select(self.kind))
    }
}

// Whether a text behind a brace goes on as the head of a plural or an ordinal, `n, plural,`.
pub(crate) fn begins_plural(text: &[u8]) -> bool {
    match Head::of(text) {
        Some(head) => head.is_counting(),
        None => false,
    }
}

// The first head in a text that is written wrong, though branches follow it.
pub(crate) fn wrong_head(text: &str) -> Option<WrongHead<'_>> {
    let mut rest = text.as_bytes();
    while let [first, after @ ..] = rest {
        if *first == b'{' {
            let wrong = wrong_front(rest, after);
            if wrong.is_some() {
                return wrong;
            }
        }
        rest = after;
    }
    None
}

// The head at the front of a text, of which this is behind the brace, if it is written wrong.
fn wrong_front<'t>(text: &'t [u8], after: &'t [u8]) -> Option<WrongHead<'t>> {
    let head = Head::of(after)?;
    if !head.is_wrong() {
        return None;
    }
    Some(WrongHead {
        written: before(text, head.behind),
        name: head.name,
        meant: meant_type(head.kind),
    })
}

// Whether a word is a type of arguments that have branches.
fn is_type(word: &[u8]) -> bool {
    word.eq_ignore_ascii_case(b"plural")
        || (word.eq_ignore_ascii_case(b"selectordinal") || word.eq_ignore_ascii_case(b"select"))
}

// Whether a word may be a misspelt `select`.
fn is_like_select(word: &[u8]) -> bool {
    let word = text_of(word);
    word.starts_with("sel") || word.ends_with("lect")
}

// The type that a word is meant as.
fn meant_type(word: &[u8]) -> &'static str {
    if word.eq_ignore_ascii_case(b"plural") {
        "plural"
    } else if text_of(word).contains("ord") || word.eq_ignore_ascii_case(b"selectordinal") {
        "selectordinal"
    } else if is_like_select(word) || word.eq_ignore_ascii_case(b"select") {
        "select"
    } else {
        "plural"
    }
}

// Whether a branch is at the front of a text: of a category or a number, or of any keyword.
fn begins_branch(text: &[u8], has_any: bool) -> bool {
    let (first, rest) = word_front(Word::Other, text);
    let (selector, rest) = if text_of(first).starts_with("offset:") {
        word_front(Word::Other, rest)
    } else {
        (first, rest)
    };
    let is_known = has_any
        || (text_of(selector).starts_with("=")
            || PluralCategory::get_for_cldr_bytes(selector).is_some());
    !selector.is_empty() && is_known && after_byte(b'{', rest).is_some()
}

// A word: a name, in which white space that isn't ASCII may stand, or another one.
#[derive(Clone, Copy, PartialEq, Eq)]
enum Word {
    Name,
    Other,
}

// The word at the front of a text, behind white space, and what follows it and white space.
fn word_front(word: Word, text: &[u8]) -> (&[u8], &[u8]) {
    let text = behind_space(text);
    let rest = behind_word(word, text);
    (before(text, rest), behind_space(rest))
}

// What follows the longest front without white space, commas and braces.
fn behind_word(word: Word, text: &[u8]) -> &[u8] {
    let mut rest = text;
    while let [first, after @ ..] = rest {
        let ends = !is_in(Class::Name, *first)
            || (after_comma(rest).is_some() || word == Word::Other && after_space(rest).is_some());
        if ends {
            return rest;
        }
        rest = after;
    }
    rest
}

// What follows the white space at the front.
fn behind_space(text: &[u8]) -> &[u8] {
    let mut rest = text;
    while let [_, ..] = rest {
        let Some(after) = after_space(rest) else {
            return rest;
        };
        rest = after;
    }
    rest
}

// What follows one white space or mark of direction at the front, also one that ICU takes for none.
fn after_space(text: &[u8]) -> Option<&[u8]>
    ensures { IfSome result (λ rest. length rest.now < length text.now) }
{
    match text {
        [first, rest @ ..] if is_in(Class::White, *first) => Some(rest),
        [0xc2, 0x85 | 0xa0, rest @ ..] => Some(rest),
        [0xe2, 0x80, 0x80..=0x8f | 0xa8..=0xaf, rest @ ..] => Some(rest),
        [0xe3, 0x80, 0x80, rest @ ..] => Some(rest),
        _ => None,
    }
}

// What follows a comma at the front, also one of Chinese, Japanese or Arabic, which ICU takes for
// none.
fn after_comma(text: &[u8]) -> Option<&[u8]> {
    match text {
        [b',', rest @ ..] => Some(rest),
        [0xef, 0xbc, 0x8c, rest @ ..] => Some(rest),
        [0xe3, 0x80, 0x81, rest @ ..] => Some(rest),
        [0xd8, 0x8c, rest @ ..] => Some(rest),
        _ => None,
    }
}
