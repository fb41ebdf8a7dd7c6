//! What stands at the front of a line.

ghost use Rattle.std.specs.Prelude.{◌≡◌, ◌≤◌, ◌<◌, ◌+◌, length, IfSome};
ghost use Rattle.po_catalog.specs.Fronts.{behind_digit, index_digit_of, form_front, front_of, index_front, word_front};
ghost use Rattle.po_catalog.specs.Inner.FrontViews.{IsBehindLineFront, IsBelow, IsNotLongerThanText, line_front_view, index_view, other_front};

use crate::bytes::{Class, after_white, split_run};
use crate::fault::Cause;

// A keyword; `msgstr` with its index, if it has one.
#[derive(Clone, Copy)]
pub(crate) enum Keyword {
    Domain,
    Context,
    Id,
    PluralId,
    Form(Option<usize>),
}

// What stands at the front of a line, and what follows it.
pub(crate) enum Front<'l> {
    // Nothing more, or a comment.
    End,
    Keyword(Keyword, &'l [u8]),
    // The quotation mark before a text.
    Quote(&'l [u8]),
    Bad(Cause),
}

// The front of a line.
#[tactic(auto, unfolding(crate::specs::Fronts::front_of))]
pub(crate) fn front_of(line: &[u8]) -> Front<'_>
    ensures front { line_front_view result ≡ front_of line.now }
    ensures shorter { IsBehindLineFront result line.now }
{
    let text = after_white(line);
    match text {
        [] | [b'#', ..] => Front::End,
        [b'"', rest @ ..] => Front::Quote(rest),
        _ => word_front(text),
    }
}

// The keyword at the front.
#[tactic(auto, unfolding(crate::specs::Fronts::word_front), using(crate::proofs::FrontLengths::behind_word))]
fn word_front(text: &[u8]) -> Front<'_>
    ensures front { line_front_view result ≡ word_front text.now }
    ensures shorter { IsBehindLineFront result text.now }
{
    let (word, rest) = split_run(Class::Word, text);
    if word == b"msgid".as_slice() {
        Front::Keyword(Keyword::Id, rest)
    } else if word == b"msgstr".as_slice() {
        form_front(rest)
    } else {
        other_front(word, rest)
    }
}

// A keyword that is rarer, with what follows it.
fn other_front<'l>(word: &[u8], rest: &'l [u8]) -> Front<'l>
    ensures front { line_front_view result ≡ other_front word.now rest.now }
    ensures shorter { IsBelow result (length word.now + length rest.now) }
{
    if word == b"msgid_plural".as_slice() {
        Front::Keyword(Keyword::PluralId, rest)
    } else if word == b"msgctxt".as_slice() {
        Front::Keyword(Keyword::Context, rest)
    } else if word == b"domain".as_slice() {
        Front::Keyword(Keyword::Domain, rest)
    } else {
        Front::Bad(Cause::UnknownWord)
    }
}

// The keyword `msgstr`, with what follows it.
fn form_front(rest: &[u8]) -> Front<'_>
    ensures front { line_front_view result ≡ form_front rest.now }
    ensures shorter { IsNotLongerThanText result rest.now }
{
    let [b'[', inner @ ..] = after_white(rest) else {
        return Front::Keyword(Keyword::Form(None), rest);
    };
    let Some((index, after)) = index_front(after_white(inner)) else {
        return Front::Bad(Cause::BadIndex);
    };
    match after_white(after) {
        [b']', behind @ ..] => Front::Keyword(Keyword::Form(Some(index)), behind),
        _ => Front::Bad(Cause::BadIndex),
    }
}

// The index of one or two digits at the front, and what follows it.
fn index_front(text: &[u8]) -> Option<(usize, &[u8])>
    ensures index { index_view result ≡ index_front text.now }
    ensures shorter { IfSome result (λ index. length index.1.now ≤ length text.now) }
{
    let [first, after @ ..] = text else {
        return None;
    };
    match digit_of(*first) {
        Some(first) => Some(behind_digit(first, after)),
        None => None,
    }
}

// The number of a digit and the next one, if it is one, and what follows.
fn behind_digit(first: usize, text: &[u8]) -> (usize, &[u8])
    requires { first < 10 }
    ensures number { result.0 ≡ (behind_digit first text.now).0 }
    ensures rest { result.1.now ≡ (behind_digit first text.now).1 }
    ensures shorter { length result.1.now ≤ length text.now }
{
    let [second, rest @ ..] = text else {
        return (first, text);
    };
    match digit_of(*second) {
        Some(second) => (first * 10 + second, rest),
        None => (first, text),
    }
}

// The value of a digit.
fn digit_of(byte: u8) -> Option<usize>
    ensures value { result ≡ index_digit_of byte }
    ensures within { IfSome result (λ value. value < 10) }
{
    if b'0' <= byte && byte <= b'9' {
        Some(usize::from(byte - b'0'))
    } else {
        None
    }
}
