//! Categories that an argument of a pattern lacks because a keyword misspells them.

use crate::similar_keys::is_one_edit;
use message_report::{BranchFault, Cause, Finding};
use plural_fallback::is_same;
use std::alloc::{AllocError, Global};

// How many findings of a pattern are told at most.
const MOST: usize = 10;

// Whether a finding is that an argument lacks a category, and one of those behind it that a keyword
// there is no category, and one mistake away from this one.
pub(crate) fn is_misspelt(
    alloc: Global,
    finding: &Finding<'_>,
    behind: &[Finding<'_>],
) -> Result<bool, AllocError> {
    if !is_missing(finding.cause) {
        return Ok(false);
    }
    let place = finding.place.text(alloc)?;
    for it in behind.iter().take(MOST) {
        if matches!(it.cause, Cause::Branch(BranchFault::NoCategory)) {
            let other = it.place.text(alloc)?;
            if is_one_mistake(place.as_str().as_bytes(), other.as_str().as_bytes()) {
                return Ok(true);
            }
        }
    }
    Ok(false)
}

// Whether a category is missing.
fn is_missing(cause: Cause) -> bool {
    matches!(
        cause,
        Cause::Branch(BranchFault::Missing(..) | BranchFault::MissingRare(..))
    )
}

// Whether two texts differ in the case of letters alone, or in one letter, or in two that stand the
// other way round.
fn is_one_mistake(one: &[u8], other: &[u8]) -> bool {
    is_same(one, other) || (is_one_edit(one, other) || is_swapped(one, other))
}

// Whether two texts differ in two letters alone, which stand the other way round.
fn is_swapped(one: &[u8], other: &[u8]) -> bool {
    let start = one
        .iter()
        .zip(other.iter())
        .take_while(|(left, right)| **left == **right)
        .count();
    match (one.get(start..), other.get(start..)) {
        (Some([first, second, rest @ ..]), Some([left, right, behind @ ..])) => {
            *first == *right && *second == *left && rest == behind
        }
        _ => false,
    }
}
