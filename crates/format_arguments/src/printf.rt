//! Directives as C's `printf` has them.

ghost use Rattle.std.specs.Prelude.{◌≡◌, ◌≤◌, ◌+◌, [], ◌∷◌, length, codes, Some};
ghost use Rattle.format_arguments.specs.DirectiveBytes.{after_directive_word, behind_directive_run, run_front};
ghost use Rattle.format_arguments.specs.Directives.{takes, barred_end, boost_front, closed_name, conversion_front, converts, macro_end, macro_letter, bracketed_name_front, at_place, place_front, precision_front, printf_front, size_at, argument_size_of, width_front, which_front, widths_front};
ghost use Rattle.format_arguments.specs.Inner.DirectiveViews.{IsNotLonger, LeavesLess, piece_front_view, which_rest_view, which_view, width_view};

use crate::argument::Kind;
use crate::bytes::{Class, after_byte, after_word, behind_run, is_one_of, split_run};
use crate::directive::{Directive, Front, Which, place_of};
use crate::format::Format;
use crate::table::{c_kind, has_macros, has_stars, kind_of, silent_conversions, tells_sizes};

// The argument at this place, if there is one.
fn at_place(place: usize, rest: &[u8]) -> Option<(Which<'_>, &[u8])>
    ensures front { which_rest_view result ≡ at_place place rest.now }
    ensures shorter { IsNotLonger result (length rest.now) }
{
    if place == 0 {
        None
    } else {
        Some((Which::At(place), rest))
    }
}

// A place and a dollar sign, else the next argument.
#[tactic(auto, unfolding(crate::specs::Directives::place_front))]
fn place_front(text: &[u8]) -> Option<(Which<'_>, &[u8])>
    ensures front { which_rest_view result ≡ place_front text.now }
    ensures shorter { IsNotLonger result (length text.now) }
{
    let (digits, behind) = split_run(Class::Digit, text);
    match after_byte(b'$', behind) {
        Some(rest) if !digits.is_empty() => at_place(place_of(digits), rest),
        _ => Some((Which::Next, text)),
    }
}

// A name, if a bracket ends it.
fn closed_name<'t>(name: &'t [u8], text: &'t [u8]) -> Option<(Which<'t>, &'t [u8])>
    ensures front { which_rest_view result ≡ closed_name name.now text.now }
    ensures shorter { IsNotLonger result (length text.now) }
{
    match after_byte(b')', text) {
        Some(rest) => Some((Which::Named(name), rest)),
        None => None,
    }
}

// A name in round brackets, else the next argument.
#[tactic(auto, unfolding(crate::specs::Directives::bracketed_name_front))]
fn name_front(text: &[u8]) -> Option<(Which<'_>, &[u8])>
    ensures front { which_rest_view result ≡ bracketed_name_front text.now }
    ensures shorter { IsNotLonger result (length text.now) }
{
    match after_byte(b'(', text) {
        Some(inner) => {
            let (name, behind) = split_run(Class::Name, inner);
            closed_name(name, behind)
        }
        None => Some((Which::Next, text)),
    }
}

// Which argument a directive takes.
fn which_front(format: Format, text: &[u8]) -> Option<(Which<'_>, &[u8])>
    ensures front { which_rest_view result ≡ which_front format text.now }
    ensures shorter { IsNotLonger result (length text.now) }
{
    match format {
        Format::Python => name_front(text),
        _ => place_front(text),
    }
}

// A width: how many arguments it takes in turn, and what follows it.
#[tactic(auto, unfolding(crate::specs::Directives::width_front))]
fn width_front(format: Format, text: &[u8]) -> (usize, &[u8])
    ensures front { width_view result ≡ width_front format text.now }
    ensures shorter { result.0 + length result.1.now ≤ length text.now }
    ensures within { result.0 ≤ 1 }
{
    match after_byte(b'*', text) {
        Some(behind) if has_stars(format) => match which_front(format, behind) {
            Some((Which::At(_), rest)) => (0, rest),
            _ => (1, behind),
        },
        _ => (0, behind_run(Class::Digit, text)),
    }
}

// A point and a precision, or neither.
#[tactic(auto, unfolding(crate::specs::Directives::precision_front))]
fn precision_front(format: Format, text: &[u8]) -> (usize, &[u8])
    ensures front { width_view result ≡ precision_front format text.now }
    ensures shorter { result.0 + length result.1.now ≤ length text.now }
    ensures within { result.0 ≤ 1 }
{
    match after_byte(b'.', text) {
        Some(behind) => width_front(format, behind),
        None => (0, text),
    }
}

// A width, then a precision.
fn widths_front(format: Format, text: &[u8]) -> (usize, &[u8])
    ensures front { width_view result ≡ widths_front format text.now }
    ensures shorter { result.0 + length result.1.now ≤ length text.now }
{
    let (stars, behind) = width_front(format, text);
    let (more, rest) = precision_front(format, behind);
    (stars + more, rest)
}

// A directive with this conversion, if it is one.
fn converts<'t>(
    which: Which<'t>,
    stars: usize,
    size: &'t [u8],
    kind: Option<Kind>,
    rest: &'t [u8],
) -> Front<'t>
    ensures front { piece_front_view result ≡ converts (which_view which.entry) stars size.now kind rest.now }
    ensures shorter { LeavesLess result (stars + 1 + length rest.now) }
{
    match kind {
        Some(kind) => Front::Takes(
            Some(Directive {
                which,
                stars,
                kind,
                size,
            }),
            rest,
        ),
        None => Front::Broken,
    }
}

// Bits, and the bracket that ends a macro.
fn macro_end<'t>(which: Which<'t>, stars: usize, kind: Option<Kind>, text: &'t [u8]) -> Front<'t>
    ensures front { piece_front_view result
        ≡ macro_end (which_view which.entry) stars kind (run_front Class.Macro text.now) (behind_directive_run Class.Macro text.now) }
    ensures shorter { LeavesLess result (stars + length text.now) }
{
    let (bits, behind) = split_run(Class::Macro, text);
    match after_byte(b'>', behind) {
        Some(rest) if !bits.is_empty() => converts(which, stars, bits, kind, rest),
        _ => Front::Broken,
    }
}

// The macro behind its bracket.
fn macro_front<'t>(which: Which<'t>, stars: usize, text: &'t [u8]) -> Front<'t>
    ensures front { piece_front_view result ≡ macro_letter (which_view which.entry) stars (after_directive_word (codes "PRI") text.now) }
    ensures shorter { LeavesLess result (stars + length text.now) }
{
    match after_word(b"PRI", text) {
        Some([letter, rest @ ..]) if is_one_of(b"diouxX", *letter) => {
            macro_end(which, stars, c_kind(*letter), rest)
        }
        _ => Front::Broken,
    }
}

// The size of a directive with this conversion.
fn size_at<'t>(format: Format, letter: u8, size: &'t [u8]) -> &'t [u8]
    ensures { result.now ≡ size_at format letter size.now }
{
    if tells_sizes(format) && is_one_of(b"CS", letter) {
        b"l"
    } else {
        size
    }
}

// The conversion at the end of a directive of this size.
fn conversion_front<'t>(
    format: Format,
    which: Which<'t>,
    stars: usize,
    size: &'t [u8],
    text: &'t [u8],
) -> Front<'t>
    ensures front { piece_front_view result ≡ conversion_front format (which_view which.entry) stars size.now text.now }
    ensures shorter { LeavesLess result (stars + length text.now) }
{
    let [letter, rest @ ..] = text else {
        return Front::Broken;
    };
    if is_one_of(silent_conversions(format), *letter) {
        Front::Takes(None, rest)
    } else if *letter == b'<' && has_macros(format) {
        macro_front(which, stars, rest)
    } else {
        let size = size_at(format, *letter, size);
        converts(which, stars, size, kind_of(format, *letter), rest)
    }
}

// A directive behind its percent sign.
#[tactic(auto, unfolding(crate::specs::Directives::printf_front))]
pub(crate) fn printf_front(format: Format, text: &[u8]) -> Front<'_>
    ensures front { piece_front_view result ≡ printf_front format text.now }
    ensures shorter { LeavesLess result (length text.now) }
{
    let Some((which, behind)) = which_front(format, text) else {
        return Front::Broken;
    };
    let (stars, behind) = widths_front(format, behind_run(Class::Flag(format), behind));
    let (size, behind) = split_run(Class::Size(format), behind);
    let size = if tells_sizes(format) { size } else { b"" };
    conversion_front(format, which, stars, size, behind)
}

// A directive between bars, behind the first one.
fn barred_front(text: &[u8]) -> Front<'_>
    ensures front { piece_front_view result ≡ barred_end (place_front text.now) }
    ensures shorter { LeavesLess result (length text.now) }
{
    let Some((which, behind)) = place_front(text) else {
        return Front::Broken;
    };
    match after_byte(b'|', behind_run(Class::Barred, behind)) {
        Some(rest) => takes(which, rest),
        None => Front::Broken,
    }
}

// A directive of Boost.
#[tactic(auto, unfolding(crate::specs::Directives::boost_front))]
pub(crate) fn boost_front(text: &[u8]) -> Front<'_>
    ensures front { piece_front_view result ≡ boost_front text.now }
    ensures shorter { LeavesLess result (length text.now) }
{
    if let Some(inner) = after_byte(b'|', text) {
        return barred_front(inner);
    }
    let (digits, behind) = split_run(Class::Digit, text);
    match after_byte(b'%', behind) {
        Some(rest) if !digits.is_empty() => match at_place(place_of(digits), rest) {
            Some((which, rest)) => takes(which, rest),
            None => Front::Broken,
        },
        _ => printf_front(Format::Boost, text),
    }
}

// A directive that says no more than which argument it takes.
pub(crate) fn takes<'t>(which: Which<'t>, rest: &'t [u8]) -> Front<'t>
    ensures front { piece_front_view result ≡ takes (which_view which.entry) rest.now }
    ensures shorter { LeavesLess result (1 + length rest.now) }
{
    Front::Takes(
        Some(Directive {
            which,
            stars: 0,
            kind: Kind::Unknown,
            size: b"",
        }),
        rest,
    )
}
