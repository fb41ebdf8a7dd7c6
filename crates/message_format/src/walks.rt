//! Walks over the branches of an argument in a list of parts.

ghost use Rattle.std.specs.Prelude.{◌≡◌, ◌≤◌, length, IsTrue, IfOk, IfSome};
ghost use Rattle.message_pattern.specs.PatternParts.{parts_view, branches_of};
ghost use Rattle.message_format.specs.FormatBranches.{behind_end, is_keyword, branch_of_keyword, branch_or_other};
ghost use Rattle.message_format.specs.FormatParts.{IsFirstChosen};
ghost use Rattle.message_format.specs.Inner.FormatViews.{any_parts};

use crate::source::{Chooser, Found, Seen};
use message_pattern::{Part, Piece, Selector};
use std::convert::Infallible;

// The parts that follow the end of an argument at this depth.
#[inline(always)]
pub(crate) fn behind_end<'s, 'p>(depth: usize, parts: &'s [Part<'p>]) -> &'s [Part<'p>]
    ensures rest { parts_view result.now ≡ behind_end depth (parts_view parts.now) }
    ensures shorter { length result.now ≤ length parts.now }
{
    let mut left = parts;
    while let [part, rest @ ..] = left {
        if part.depth <= depth {
            if let Piece::End = part.piece {
                return rest;
            }
        }
        left = rest;
    }
    left
}

// The first branch that is chosen; the error is why a selector isn't compared.
#[inline(always)]
pub(crate) fn first_chosen<'s, 'p, C: Chooser>(
    chooser: &C,
    depth: usize,
    parts: &'s [Part<'p>],
) -> Result<Seen<&'s [Part<'p>]>, C::Stop>
    requires { C.IsReady chooser.now }
    ensures first { IfOk result (λ seen. IsFirstChosen (C.IsChosen chooser.now) (branches_of depth (parts_view parts.now)) (any_parts seen.branch)) }
    ensures left { IfOk result (λ seen. behind_end depth (parts_view seen.left.now) ≡ behind_end depth (parts_view parts.now)) }
    ensures shorter { IfOk result (λ seen. IfSome seen.branch (λ x. length x.now ≤ length parts.now)) }
    ensures fewer { IfOk result (λ seen. length seen.left.now ≤ length parts.now) }
{
    let mut left = parts;
    while let [part, rest @ ..] = left {
        if part.depth <= depth {
            let Piece::Branch(selector) = part.piece else {
                return Ok(Seen { branch: None, left });
            };
            let chosen = match chooser.chooses(selector) {
                Ok(chosen) => chosen,
                Err(stop) => return Err(stop),
            };
            if chosen {
                return Ok(Seen {
                    branch: Some(rest),
                    left: rest,
                });
            }
        }
        left = rest;
    }
    Ok(Seen { branch: None, left })
}

// A keyword, which chooses a branch of its own.
#[derive(Clone, Copy)]
struct Word<'s>(&'s [u8]);

impl<'s> Chooser for Word<'s> {
    type Stop = Infallible;

    ghost IsReady = { λ _. Unit {0} };

    ghost IsChosen = { λ keyword selector. IsTrue (is_keyword keyword.0.now selector) };

    #[inline(always)]
    fn chooses(&self, selector: Selector<'_>) -> Result<bool, Infallible> {
        match selector {
            Selector::Exactly(_) => Ok(false),
            Selector::Keyword(word) => Ok(word == self.0),
        }
    }
}

// The first branch of a keyword.
#[inline(always)]
fn branch_of_keyword<'s, 'p>(
    word: &[u8],
    depth: usize,
    parts: &'s [Part<'p>],
) -> Seen<&'s [Part<'p>]>
    ensures branch { any_parts result.branch ≡ branch_of_keyword word.now (branches_of depth (parts_view parts.now)) }
    ensures left { behind_end depth (parts_view result.left.now) ≡ behind_end depth (parts_view parts.now) }
    ensures shorter { IfSome result.branch (λ x. length x.now ≤ length parts.now) }
    ensures fewer { length result.left.now ≤ length parts.now }
{
    match first_chosen(&Word(word), depth, parts) {
        Ok(seen) => seen,
        Err(never) => match never {},
    }
}

// The branch of a keyword, or of `other` if there is none.
pub(crate) fn branch_or_other<'s, 'p>(
    word: &[u8],
    depth: usize,
    parts: &'s [Part<'p>],
) -> Found<&'s [Part<'p>]>
    ensures branch { parts_view result.branch.now ≡ branch_or_other word.now (branches_of depth (parts_view parts.now)) }
    ensures left { behind_end depth (parts_view result.left.now) ≡ behind_end depth (parts_view parts.now) }
    ensures shorter { length result.branch.now ≤ length parts.now }
    ensures fewer { length result.left.now ≤ length parts.now }
{
    let Seen { branch, left } = branch_of_keyword(word, depth, parts);
    if let Some(branch) = branch {
        return Found { branch, left };
    }
    if let Some(branch) = branch_of_keyword(b"other", depth, parts).branch {
        return Found { branch, left };
    }
    Found {
        branch: &parts[parts.len()..],
        left,
    }
}
