//! The branches of plural arguments in patterns.

ghost use Rattle.std.specs.Prelude.{◌≡◌, ◌<◌, IfOk, map};
ghost use Rattle.message_pattern.specs.PatternParts.{branches_of, Exactly, Keyword, part_view, parts_view, selector_view};
ghost use Rattle.fixed_decimal.specs.Written.{CompactNumber, WritesCompact};
ghost use Rattle.message_report.specs.Inner.ArgumentViews.{plural_argument_view};
ghost use Rattle.message_report.specs.Inner.BranchKinds.{has_number_branch};
ghost use Rattle.message_report.specs.PatternFaults.{IsArgumentAt};
ghost use Rattle.message_report.specs.PatternBranches.{IsOwn, has_number, inside_of};
ghost use Rattle.message_report.specs.PatternBranches.{same_selector, says_number, stands_in};

use crate::branch_kinds::BranchKinds;
use crate::plural_argument::Argument;
use fixed_decimal::CompactDecimal;
use message_format::has_branch_of_value;
use message_pattern::{Part, Piece, Selector};
use std::alloc::{AllocError, Global};

// The argument at a depth, of which these parts follow its beginning.
pub(crate) fn argument_at<'a, 'p>(
    alloc: Global,
    name: &'a [u8],
    has_offset: bool,
    depth: usize,
    parts: &'p [Part<'a>],
) -> Result<Argument<'a, 'p>, AllocError>
    ensures { IfOk result (λ a. IsArgumentAt name.now has_offset depth (parts_view parts.now) (plural_argument_view a)) }
{
    let kinds = BranchKinds::of(depth, parts);
    let own_zero = is_own(alloc, "0", has_offset, depth, parts, kinds)?;
    let own_one = is_own(alloc, "1", has_offset, depth, parts, kinds)?;
    Ok(Argument {
        name,
        has_offset,
        depth,
        parts,
        kinds,
        own_zero,
        own_one,
    })
}

// Whether exactly the number that a text writes has a branch of its own. Without a branch of a
// number, the text isn't read.
fn is_own(
    alloc: Global,
    number: &str,
    has_offset: bool,
    depth: usize,
    parts: &[Part<'_>],
    kinds: BranchKinds,
) -> Result<bool, AllocError>
    requires number { (x : CompactNumber) × WritesCompact number.now x }
    requires kinds { kinds.number ≡ has_number_branch (branches_of depth (parts_view parts.now)) }
    ensures { IfOk result (λ own. IsOwn number.now has_offset (branches_of depth (parts_view parts.now)) own) }
{
    if has_offset {
        return Ok(false);
    }
    if !kinds.number {
        return Ok(false);
    }
    match CompactDecimal::from_str(alloc, number) {
        Ok(number) => has_branch_of_value(alloc, &number, depth, parts),
        // A digit is a number, so memory ran out.
        Err(_) => Err(AllocError),
    }
}

// Whether a part says the number of an argument of this depth and name.
fn says_number(depth: usize, name: &[u8], part: &Part<'_>) -> bool
    requires { depth < part.now.depth }
    ensures { result ≡ says_number depth name.now (part_view part.now) }
{
    match part.piece {
        Piece::Hash => part.depth == depth + 1,
        Piece::Argument(other) => other == name,
        _ => false,
    }
}

// Whether the branch that begins with these parts says the number.
pub(crate) fn has_number(depth: usize, name: &[u8], parts: &[Part<'_>]) -> bool
    ensures { result ≡ has_number depth name.now (inside_of depth (parts_view parts.now)) }
{
    let mut left = parts;
    while let [part, rest @ ..] = left {
        if part.depth <= depth {
            return false;
        }
        if says_number(depth, name, part) {
            return true;
        }
        left = rest;
    }
    false
}

// Whether a selector is `=` and this number, as it is written.
fn is_number(number: &[u8], selector: Selector<'_>) -> bool
    ensures { result ≡ same_selector (Exactly number.now) (selector_view selector.entry) }
{
    match selector {
        Selector::Exactly(other) => number == other,
        Selector::Keyword(_) => false,
    }
}

// Whether a selector is this keyword.
fn is_keyword(word: &[u8], selector: Selector<'_>) -> bool
    ensures { result ≡ same_selector (Keyword word.now) (selector_view selector.entry) }
{
    match selector {
        Selector::Exactly(_) => false,
        Selector::Keyword(other) => word == other,
    }
}

// Whether two selectors are the same.
fn same_selector(one: Selector<'_>, other: Selector<'_>) -> bool
    ensures { result ≡ same_selector (selector_view one.entry) (selector_view other.entry) }
{
    match one {
        Selector::Exactly(a) => is_number(a, other),
        Selector::Keyword(a) => is_keyword(a, other),
    }
}

// Whether a selector stands among these.
pub(crate) fn stands_in(selector: Selector<'_>, others: &[Selector<'_>]) -> bool
    ensures { result ≡ stands_in (selector_view selector.entry) (map selector_view others.now) }
{
    let mut left = others;
    while let [other, rest @ ..] = left {
        if same_selector(*other, selector) {
            return true;
        }
        left = rest;
    }
    false
}
