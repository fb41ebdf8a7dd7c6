//! What stands at the front of a text.

ghost use Rattle.std.specs.Prelude.{◌≡◌, ◌≤◌, ◌<◌, ◌+◌, length};
ghost use Rattle.format_arguments.specs.DirectiveTables.{family_of};
ghost use Rattle.format_arguments.specs.Directives.{closing_front, directive_front, piece_front, opening_in, java_quoted_front};
ghost use Rattle.format_arguments.specs.Inner.DirectiveViews.{LeavesLess, Shortens, piece_front_view};

use crate::braced::{brace_front, has_quotes};
use crate::bytes::{Class, after_byte, behind_first, behind_run};
use crate::directive::Front;
use crate::format::Format;
use crate::numbered::numbered_front;
use crate::printf::{boost_front, printf_front};

// The byte that begins directives.
fn opening_of(format: Format) -> u8
    ensures { result ≡ opening_in (family_of format) }
{
    match format {
        Format::PythonBrace | Format::PerlBrace | Format::Java => b'{',
        _ => b'%',
    }
}

// What stands behind that byte.
fn directive_front(format: Format, text: &[u8]) -> Front<'_>
    ensures front { piece_front_view result ≡ directive_front format text.now }
    ensures shorter { LeavesLess result (length text.now) }
{
    match format {
        Format::Boost => boost_front(text),
        Format::Qt | Format::QtPlural | Format::Kde => numbered_front(format, text),
        Format::PythonBrace | Format::PerlBrace | Format::Java => brace_front(format, text),
        _ => printf_front(format, text),
    }
}

// Quoted text behind its apostrophe.
fn quoted_front(text: &[u8]) -> Front<'_>
    ensures front { piece_front_view result ≡ java_quoted_front text.now }
    ensures shorter { LeavesLess result (length text.now) }
{
    Front::Takes(None, behind_first(behind_run(Class::Unquoted, text)))
}

// A brace that closes nothing.
fn closing_front(format: Format, text: &[u8]) -> Front<'_>
    ensures front { piece_front_view result ≡ closing_front format text.now }
    ensures shorter { LeavesLess result (length text.now) }
{
    match format {
        Format::PythonBrace => match after_byte(b'}', text) {
            Some(rest) => Front::Takes(None, rest),
            None => Front::Broken,
        },
        Format::Java => Front::Broken,
        _ => Front::Takes(None, text),
    }
}

// The front of a text.
pub(crate) fn front_of(format: Format, text: &[u8]) -> Front<'_>
    ensures front { piece_front_view result ≡ piece_front format text.now }
    ensures shorter { Shortens result (length text.now) }
{
    let [first, rest @ ..] = text else {
        return Front::End;
    };
    if *first == opening_of(format) {
        directive_front(format, rest)
    } else if *first == b'\'' && has_quotes(format) {
        quoted_front(rest)
    } else if *first == b'}' {
        closing_front(format, rest)
    } else {
        Front::Takes(None, rest)
    }
}
