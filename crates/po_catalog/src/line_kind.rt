//! The kinds of lines.

ghost use Rattle.std.specs.Prelude.{◌≡◌};
ghost use Rattle.po_catalog.specs.LineKinds.{hash_line, line_of};
ghost use Rattle.po_catalog.specs.Inner.LineViews.{kind_view};

use crate::bytes::after_white;

// What a line is.
pub(crate) enum LineKind<'l> {
    Empty,
    // What stands behind the `#` of a comment, and the flags in it.
    Comment(&'l [u8], &'l [u8]),
    // Whether the line is obsolete, and what stands in it.
    Fields(bool, &'l [u8]),
}

// The kind of a line.
pub(crate) fn kind_of(line: &[u8]) -> LineKind<'_>
    ensures { kind_view result ≡ line_of line.now }
{
    match after_white(line) {
        [] => LineKind::Empty,
        [b'#', comment @ ..] => hash_kind(comment),
        fields => LineKind::Fields(false, fields),
    }
}

// The kind of a line that begins with `#`.
fn hash_kind(comment: &[u8]) -> LineKind<'_>
    ensures { kind_view result ≡ hash_line comment.now }
{
    match comment {
        [b'~', b'|', ..] => LineKind::Comment(comment, b""),
        [b'~', fields @ ..] => LineKind::Fields(true, fields),
        [b',' | b'=', flags @ ..] => LineKind::Comment(comment, flags),
        _ => LineKind::Comment(comment, b""),
    }
}
