//! The branches of an argument.

ghost use Rattle.std.specs.Prelude.{◌↔◌, IsTrue, IfOk, option_map};
ghost use Rattle.message_pattern.specs.PatternParts.{parts_view, branches_of};
ghost use Rattle.message_format.specs.FormatBranches.{Equals, HasBranchOfValue, IsBranchOfNumber};
ghost use Rattle.message_format.specs.FormatParts.{branches_at, AreLeftOf, AreWithin, IsFirstChosen};
ghost use Rattle.message_format.specs.Inner.FormatViews.{IsWithin};

use crate::numbers::Compared;
use crate::source::{Found, MessageParts, Seen};
use crate::text_rules::TextRules;
use crate::walks::first_chosen;
use fixed_decimal::CompactDecimal;
use message_pattern::Part;
use std::alloc::{AllocError, Global};

// The first branch whose selector is `=` and a number of the same value.
fn branch_of_value<'p, P: MessageParts<'p>>(
    alloc: Global,
    number: &CompactDecimal,
    argument: P,
) -> Result<Seen<P>, AllocError>
    ensures branch { IfOk result (λ seen. IsFirstChosen (λ s. Equals number.now s) (branches_at (P.parts argument)) (option_map P.parts seen.branch)) }
    ensures shorter { IfOk result (λ seen. AreWithin (P.parts argument) (option_map P.parts seen.branch)) }
    ensures left { IfOk result (λ seen. AreLeftOf (P.parts argument) (P.parts seen.left)) }
{
    argument.first_chosen(&Compared::of(alloc, number))
}

/// Returns whether a number chooses a branch by its value: whether the argument at this depth, of
/// which these parts follow the beginning, has a branch whose selector is `=` and a number of the
/// same value. It allocates the digits of long numbers; the error is out of memory.
pub fn has_branch_of_value(
    alloc: Global,
    number: &CompactDecimal,
    depth: usize,
    parts: &[Part<'_>],
) -> Result<bool, AllocError>
    ensures { IfOk result (λ has. IsTrue has ↔ HasBranchOfValue number.now (branches_of depth (parts_view parts.now))) }
{
    match first_chosen(&Compared::of(alloc, number), depth, parts)?.branch {
        Some(_) => Ok(true),
        None => Ok(false),
    }
}

// The branch for a number: the first of its value, else that of the category of the number less the
// offset, else `other`.
pub(crate) fn branch_of_number<'p, R: TextRules, P: MessageParts<'p>>(
    alloc: Global,
    rules: &R,
    number: &CompactDecimal,
    less: &CompactDecimal,
    argument: P,
) -> Result<Found<P>, AllocError>
    ensures branch { IfOk result (λ x. IsBranchOfNumber (R.rules rules.now) number.now less.now (branches_at (P.parts argument)) (P.parts x.branch)) }
    ensures within { IfOk result (λ x. IsWithin (P.parts argument) (P.parts x.branch) (P.parts x.left)) }
{
    let Seen { branch, left } = branch_of_value(alloc, number, argument)?;
    match branch {
        Some(branch) => Ok(Found { branch, left }),
        None => {
            let category = rules.category_for_compact(less);
            let branch = argument.branch_of_category(category);
            Ok(Found { branch, left })
        }
    }
}
