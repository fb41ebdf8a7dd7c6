//! A walk over the parts of a block.

ghost use Rattle.std.specs.Prelude.{◌≡◌, ◌≤◌, ℕ, List, drop, length, IsTrue, None};
ghost use Rattle.message_format.specs.FormatArguments.{Argument};
ghost use Rattle.message_format.specs.FormatMeaning.{MessageSays, Said};
ghost use Rattle.message_format.specs.FormatSteps.{TwoRules, both};
ghost use Rattle.message_format.specs.Inner.FormatViews.{GivesOutcome};
ghost use Rattle.packed_pattern.specs.PartOrder.{before_all, first_misplaced};

use crate::parts::BlockParts;
use crate::sight::chosen_at_sight;
use message_format::{Arguments, FormatError, Sink, TextRules, say, shown_value};
use message_pattern::Piece;
use packed_pattern::PackedPattern;
use std::alloc::Global;

// Whether the message ends at a place.
#[inline(always)]
fn ends_at(pattern: &PackedPattern<'_>, at: usize) -> bool
    ensures { IsTrue result → (arguments : List Argument) (rules : TwoRules) (hash before : List ℕ)
        → MessageSays arguments rules hash before (drop at pattern.now) (Said before) }
{
    let Some(part) = pattern.get(at) else {
        return true;
    };
    match part.piece {
        Piece::Branch(_) | Piece::End => true,
        _ => false,
    }
}

// Says the message from a place on, where `#` is a text, behind what was said before. From an argument
// on that isn't told at sight it is said step by step.
pub(crate) fn say_from<'s, 'a, R: TextRules, A: Arguments, W: Sink>(
    alloc: Global,
    arguments: &'s A,
    cardinal: &R,
    ordinal: &R,
    hash: &'s [u8],
    pattern: &PackedPattern<'a>,
    at: usize,
    said: &mut W,
) -> Result<(), FormatError<'a>>
    requires few { length pattern.now ≤ 65535 }
    requires ordered { first_misplaced 0 before_all pattern.now ≡ None }
    ensures { (before : List ℕ) → W.IsSaid said.old before → GivesOutcome (λ f. f) (A.arguments arguments.now)
        (both (R.rules cardinal.now) (R.rules ordinal.now)) hash.now (drop at pattern.now) before (W.IsSaid said.new) result }
{
    let mut hash = hash;
    let mut next = at;
    'parts: while let Some(placed) = pattern.placed(next) {
        match placed.part().piece {
            Piece::Text(text) => {
                said.add(text)?;
                next += 1;
            }
            Piece::Hash => {
                said.add(hash)?;
                next += 1;
            }
            Piece::Argument(name) => {
                let text = shown_value(name, arguments.value(name))?;
                said.add(text)?;
                next += 1;
            }
            Piece::Begin(kind, name, offset) => {
                let value = arguments.value(name);
                if let Some((shown, branch)) = chosen_at_sight(
                    alloc, cardinal, ordinal, hash, kind, offset, value, pattern, next, &placed,
                ) {
                    let behind = next + 2 + placed.place(0);
                    if ends_at(pattern, behind) {
                        hash = shown;
                        next = branch;
                    } else {
                        say_from(
                            alloc, arguments, cardinal, ordinal, shown, pattern, branch, said,
                        )?;
                        next = behind;
                    }
                } else {
                    let parts = BlockParts::at(pattern, next);
                    return say(alloc, arguments, cardinal, ordinal, hash, parts, said);
                }
            }
            Piece::Branch(_) | Piece::End => return Ok(()),
        }
    }
    Ok(())
}
