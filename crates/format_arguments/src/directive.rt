//! Directives, and numbers in them.

ghost use Rattle.std.specs.Prelude.{◌≡◌, ◌≤◌};
ghost use Rattle.format_arguments.specs.DirectiveBytes.{place_of_digits};

use crate::argument::Kind;

/// All places from this one on are one.
pub(crate) const PLACE_LIMIT: usize = 999_999_999;

// Which argument a directive takes: the one after the last, that at a place, or that of a name.
#[derive(Clone, Copy)]
pub(crate) enum Which<'t> {
    Next,
    At(usize),
    Named(&'t [u8]),
}

// A directive: which argument it takes, how many arguments before it are its width and its
// precision, what it converts, and how its size is written.
#[derive(Clone, Copy)]
pub(crate) struct Directive<'t> {
    pub(crate) which: Which<'t>,
    pub(crate) stars: usize,
    pub(crate) kind: Kind,
    pub(crate) size: &'t [u8],
}

// What stands at the front of a text: nothing, a directive or text that stands for itself, with what
// follows, or what begins as a directive and is none.
pub(crate) enum Front<'t> {
    End,
    Takes(Option<Directive<'t>>, &'t [u8]),
    Broken,
}

// The place that digits write.
pub(crate) fn place_of(digits: &[u8]) -> usize
    ensures { result ≡ place_of_digits digits.now }
{
    let mut place = 0;
    for digit in digits {
        let value = usize::from(digit.saturating_sub(b'0'));
        place = PLACE_LIMIT.min(place * 10 + value);
    }
    place
}
