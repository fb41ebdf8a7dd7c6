//! The text of a message: what stands for itself, and apostrophes.

ghost use Rattle.std.specs.Prelude.{◌≡◌, ◌∷◌, [], ◌≤◌, ◌<◌, ◌+◌, ℕ, List, length};
ghost use Rattle.pattern_bytes.specs.PatternBytes.{apostrophe};
ghost use Rattle.message_pattern.specs.PatternText.{is_nested, is_counted, is_quotable, apostrophe_front, plain_front, takes_text, quoted_front, message_front};
ghost use Rattle.message_pattern.specs.Inner.PatternViews.{front_view, IsShorter};

use crate::part::Piece;
use pattern_bytes::{Class, split_run};

// Where a message stands.
#[derive(Clone, Copy)]
pub(crate) enum Context {
    // The whole pattern.
    Whole,
    // A branch of a plural or an ordinal.
    Counted,
    // A branch of a select.
    Selected,
}

// What ends a run of pieces in a message, and what follows it.
pub(crate) enum Stop<'p> {
    End,
    Closes(&'p [u8]),
    Opens(&'p [u8]),
}

// What stands at the front of a message's text, and what follows it.
pub(crate) enum Front<'p> {
    Stops(Stop<'p>),
    // A piece, or none for an apostrophe that begins or ends quoted text; whether what follows is
    // quoted.
    Takes(Option<Piece<'p>>, bool, &'p [u8]),
}

impl<'p> Front<'p> {
    // Text that stands for itself.
    fn text(text: &'p [u8], quoted: bool, rest: &'p [u8]) -> Self
        ensures { front_view result ≡ takes_text text.now quoted rest.now }
    {
        Front::Takes(Some(Piece::Text(text)), quoted, rest)
    }
}

impl Context {
    // A branch, which `}` ends.
    pub(crate) fn is_nested(self) -> bool
        ensures { result ≡ is_nested self }
    {
        match self {
            Context::Whole => false,
            Context::Counted | Context::Selected => true,
        }
    }

    // A branch where `#` is the number.
    fn is_counted(self) -> bool
        ensures { result ≡ is_counted self }
    {
        match self {
            Context::Counted => true,
            Context::Whole | Context::Selected => false,
        }
    }

    // An apostrophe before this byte begins quoted text.
    pub(crate) fn is_quotable(self, byte: u8) -> bool
        ensures { result ≡ is_quotable self byte }
    {
        match byte {
            b'{' | b'}' => true,
            b'#' => self.is_counted(),
            _ => false,
        }
    }
}

// The front of text, quoted or not.
pub(crate) fn front_of(context: Context, quoted: bool, text: &[u8]) -> Front<'_>
    ensures front { front_view result ≡ message_front context quoted text.now }
    ensures shorter { IsShorter (front_view result) text.now }
{
    let [first, rest @ ..] = text else {
        return Front::Stops(Stop::End);
    };
    if quoted {
        quoted_front(text, *first, rest)
    } else {
        plain_front(context, text, *first, rest)
    }
}

// Quoted text: all but an apostrophe stands for itself.
fn quoted_front<'p>(text: &'p [u8], first: u8, rest: &'p [u8]) -> Front<'p>
    requires { text.now ≡ first ∷ rest.now }
    ensures front { front_view result ≡ quoted_front text.now }
    ensures shorter { IsShorter (front_view result) text.now }
{
    if first != b'\'' {
        let (run, after) = split_run(Class::Unquoted, text);
        return Front::text(run, true, after);
    }
    match rest {
        [second, after @ ..] if *second == b'\'' => Front::text(one(text), true, after),
        _ => Front::Takes(None, false, rest),
    }
}

// Text that isn't quoted.
fn plain_front<'p>(context: Context, text: &'p [u8], first: u8, rest: &'p [u8]) -> Front<'p>
    requires { text.now ≡ first ∷ rest.now }
    ensures front { front_view result ≡ plain_front context text.now }
    ensures shorter { IsShorter (front_view result) text.now }
{
    match first {
        b'\'' => apostrophe_front(context, text, rest),
        b'{' => Front::Stops(Stop::Opens(rest)),
        b'}' if context.is_nested() => Front::Stops(Stop::Closes(rest)),
        b'#' if context.is_counted() => Front::Takes(Some(Piece::Hash), false, rest),
        b'}' | b'#' => Front::text(one(text), false, rest),
        _ => {
            let (run, after) = split_run(Class::Plain, text);
            Front::text(run, false, after)
        }
    }
}

// Behind an apostrophe that isn't in quoted text: two are one, before what can be quoted it quotes,
// else it stands for itself.
fn apostrophe_front<'p>(context: Context, text: &'p [u8], rest: &'p [u8]) -> Front<'p>
    requires { text.now ≡ apostrophe ∷ rest.now }
    ensures front { front_view result ≡ apostrophe_front context rest.now }
    ensures shorter { IsShorter (front_view result) text.now }
{
    match rest {
        [next, after @ ..] if *next == b'\'' => Front::text(one(text), false, after),
        [next, ..] if context.is_quotable(*next) => Front::Takes(None, true, rest),
        _ => Front::text(one(text), false, rest),
    }
}

// The first byte alone.
fn one(text: &[u8]) -> &[u8]
    requires { 0 < length text.now }
    ensures { (b : ℕ) (s : List ℕ) → text.now ≡ b ∷ s → result.now ≡ b ∷ [] }
{
    &text[..1]
}
