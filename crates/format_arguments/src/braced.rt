//! Directives in braces.

ghost use Rattle.std.specs.Prelude.{◌≡◌, ◌≤◌, ◌<◌, ◌+◌, ◌^◌, ◌∷◌, ℕ, List, length, false, IfSome};
ghost use Rattle.format_arguments.specs.Directives.{begins_style, behind_closing, brace_front, field_end, field_front, field_which, fits_field, has_quotes, no_field, styled_field};
ghost use Rattle.format_arguments.specs.Inner.DirectiveViews.{LeavesLess, closed_behind, piece_front_view, rest_view, which_view};

use crate::bytes::{Class, after_byte, behind_run, is_digit, is_of_word, split_run};
use crate::directive::{Front, Which, place_of};
use crate::format::Format;
use crate::printf::takes;

// Whether text may be quoted.
pub(crate) fn has_quotes(format: Format) -> bool
    ensures { result ≡ has_quotes format }
{
    match format {
        Format::Java => true,
        _ => false,
    }
}

// What follows the brace that closes those that are open.
fn behind_closing(quotes: bool, text: &[u8]) -> Option<&[u8]>
    ensures rest { rest_view result ≡ behind_closing quotes false 0 text.now }
    ensures shorter { IfSome result (λ rest. length rest.now < length text.now) }
{
    let mut quoted = false;
    let mut depth = 0usize;
    let mut rest = text;
    while let [first, after @ ..] = rest {
        match behind_byte(quotes, quoted, depth, *first) {
            Some((is_quoted, open)) => {
                quoted = is_quoted;
                depth = open;
                rest = after;
            }
            None => return Some(after),
        }
    }
    None
}

// Whether text is quoted behind a byte of a style, and how many braces are open there; none behind
// the brace that closes the style.
fn behind_byte(quotes: bool, quoted: bool, depth: usize, byte: u8) -> Option<(bool, usize)>
    requires { depth + 1 < 2 ^ 64 }
    ensures same { (s : List ℕ) → behind_closing quotes quoted depth (byte ∷ s) ≡ closed_behind quotes s result }
    ensures within { IfSome result (λ state. state.1 ≤ depth + 1) }
{
    if byte == b'\'' && quotes {
        Some((!quoted, depth))
    } else if quoted {
        Some((quoted, depth))
    } else if byte == b'{' {
        Some((quoted, depth + 1))
    } else if byte == b'}' && depth == 0 {
        None
    } else if byte == b'}' {
        Some((quoted, depth - 1))
    } else {
        Some((quoted, depth))
    }
}

// Whether a name may stand between braces.
fn fits_field(format: Format, name: &[u8]) -> bool
    ensures { result ≡ fits_field format name.now }
{
    match format {
        Format::PythonBrace => match name {
            [] => true,
            [first, ..] => is_of_word(*first),
        },
        Format::PerlBrace => match name {
            [] => false,
            [first, ..] => !is_digit(*first),
        },
        _ => !name.is_empty(),
    }
}

// Whether the byte ends a name, and begins a style.
fn begins_style(format: Format, byte: u8) -> bool
    ensures { result ≡ begins_style format byte }
{
    match format {
        Format::PythonBrace => byte == b'!' || byte == b':',
        Format::Java => byte == b',',
        _ => false,
    }
}

// Which argument a name between braces is.
fn field_which(name: &[u8]) -> Which<'_>
    ensures { which_view result ≡ field_which name.now }
{
    if name.is_empty() {
        Which::Next
    } else if behind_run(Class::Digit, name).is_empty() {
        Which::At(place_of(name))
    } else {
        Which::Named(name)
    }
}

// A brace without a name.
fn no_field(format: Format, text: &[u8]) -> Front<'_>
    ensures front { piece_front_view result ≡ no_field format text.now }
    ensures shorter { LeavesLess result (length text.now) }
{
    match format {
        Format::PerlBrace => Front::Takes(None, text),
        _ => Front::Broken,
    }
}

// A style behind a name.
fn styled_field<'t>(which: Which<'t>, quotes: bool, text: &'t [u8]) -> Front<'t>
    ensures front { piece_front_view result ≡ styled_field (which_view which.entry) (behind_closing quotes false 0 text.now) }
    ensures shorter { LeavesLess result (length text.now) }
{
    match behind_closing(quotes, text) {
        Some(rest) => takes(which, rest),
        None => Front::Broken,
    }
}

// A name in the text behind a brace, and what follows it there.
fn field_end<'t>(format: Format, text: &'t [u8], name: &'t [u8], behind: &'t [u8]) -> Front<'t>
    requires { length behind.now ≤ length text.now }
    ensures front { piece_front_view result ≡ field_end format text.now name.now behind.now }
    ensures shorter { LeavesLess result (length text.now) }
{
    match behind {
        [end, rest @ ..] if fits_field(format, name) => {
            if *end == b'}' {
                takes(field_which(name), rest)
            } else if begins_style(format, *end) {
                styled_field(field_which(name), has_quotes(format), rest)
            } else {
                no_field(format, text)
            }
        }
        _ => no_field(format, text),
    }
}

// A name in the text behind a brace.
fn field_front(format: Format, text: &[u8]) -> Front<'_>
    ensures front { piece_front_view result ≡ field_front format text.now }
    ensures shorter { LeavesLess result (length text.now) }
{
    let (name, behind) = split_run(Class::Field(format), text);
    field_end(format, text, name, behind)
}

// Behind a brace.
#[tactic(auto, unfolding(crate::specs::Directives::brace_front))]
pub(crate) fn brace_front(format: Format, text: &[u8]) -> Front<'_>
    ensures front { piece_front_view result ≡ brace_front format text.now }
    ensures shorter { LeavesLess result (length text.now) }
{
    match format {
        Format::PythonBrace => match after_byte(b'{', text) {
            Some(rest) => Front::Takes(None, rest),
            None => field_front(format, text),
        },
        _ => field_front(format, text),
    }
}
