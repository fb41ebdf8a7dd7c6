//! An argument of a styled pattern, taken apart.

ghost use Rattle.std.specs.Prelude.{◌≡◌};
ghost use Rattle.pattern_bytes.specs.declared.bytes.Class.TheVariants.{Letter};
ghost use Rattle.pattern_bytes.specs.PatternBytes.{after_white, behind_run, class_front};
ghost use Rattle.message_pattern.specs.StyledParts.{format_behind, format_of, format_view, argument_name_of, style_behind, style_view};

use pattern_bytes::{Class, after_white, split_run};

/// The simple format of an argument, as `date, short`.
#[derive(Clone, Copy, Debug)]
pub struct SimpleFormat<'p> {
    /// Its type, in letters as they are written: `date`.
    pub format_type: &'p [u8],
    /// Its style: all behind the comma, with its blanks and apostrophes, as ` short`.
    pub style: Option<&'p [u8]>,
}

/// An argument that doesn't choose among branches.
#[derive(Clone, Copy, Debug)]
pub struct StyledArgument<'p> {
    /// Its name.
    pub name: &'p [u8],
    /// Its simple format, if it has one.
    pub format: Option<SimpleFormat<'p>>,
}

impl<'p> StyledArgument<'p> {
    /// Takes apart the text between the braces of an argument, which an
    /// [`Argument`](crate::Piece::Argument) of a [`StyledPattern`](crate::StyledPattern) has. Of
    /// another text it is the name in front of it, and what stands where a format would.
    pub fn of(text: &'p [u8]) -> StyledArgument<'p>
        ensures name { result.name.now ≡ argument_name_of text.now }
        ensures format { format_view result.format ≡ format_of text.now }
    {
        let (name, rest) = split_run(Class::Name, text);
        StyledArgument {
            name,
            format: format_behind(after_white(rest)),
        }
    }
}

// The format behind the name and white space.
#[tactic(auto, using(crate::proofs::WithFormats::format_shown))]
fn format_behind(text: &[u8]) -> Option<SimpleFormat<'_>>
    ensures { format_view result ≡ format_behind text.now }
{
    match text {
        [_, rest @ ..] => Some(format_front(after_white(rest))),
        [] => None,
    }
}

// The type in front of the text, and the style behind it.
fn format_front(text: &[u8]) -> SimpleFormat<'_>
    ensures format_type { result.format_type.now ≡ class_front Letter text.now }
    ensures style { style_view result.style ≡ style_behind (after_white (behind_run Letter text.now)) }
{
    let (format_type, after) = split_run(Class::Letter, text);
    SimpleFormat {
        format_type,
        style: style_behind(after_white(after)),
    }
}

// The style behind the type and white space.
fn style_behind(text: &[u8]) -> Option<&[u8]>
    ensures { style_view result ≡ style_behind text.now }
{
    match text {
        [_, style @ ..] => Some(style),
        [] => None,
    }
}
