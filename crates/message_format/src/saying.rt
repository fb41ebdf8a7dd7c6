//! A walk over the parts of a message.

ghost use Rattle.std.specs.Prelude.{ℕ, List};
ghost use Rattle.message_format.specs.FormatSteps.{both};
ghost use Rattle.message_format.specs.Inner.FormatViews.{AreFewer, GivesOutcome, StepsTo};

use crate::arguments::Arguments;
use crate::error::FormatError;
use crate::shown::Shown;
use crate::sink::Sink;
use crate::source::MessageParts;
use crate::steps::{chosen, shown_value};
use crate::text_rules::TextRules;
use message_pattern::{Part, Piece};
use std::alloc::Global;

/// How a message goes on behind its first part.
pub struct Next<'s, P> {
    /// The branch that is said before, if the part begins an argument that chooses: the text of `#`
    /// in it, and the parts from it on.
    pub branch: Option<(Shown<'s>, P)>,
    /// The parts that are said then.
    pub rest: P,
}

/// Parts that are said step by step.
pub trait MessageSteps: Copy {
    ghost use Rattle.std.specs.Prelude.{List};
    ghost use Rattle.message_pattern.specs.PatternParts.{Part as SpecPart};
    ghost use Rattle.message_format.specs.declared.error.FormatError.{FormatError};

    /// Why nothing is said.
    type Fault;

    ghost parts: { Self → List SpecPart };

    ghost error: { Self.Fault → FormatError };

    /// Says the first part, if it is a text, `#` or `{name}`, and returns how the message goes on;
    /// none at its end.
    fn step<'s, R: TextRules, A: Arguments, W: Sink>(
        self,
        alloc: Global,
        arguments: &'s A,
        cardinal: &R,
        ordinal: &R,
        hash: &'s [u8],
        said: &mut W,
    ) -> Result<Option<Next<'s, Self>>, Self::Fault>
        ensures said { (before : List ℕ) → W.IsSaid said.old before → StepsTo parts error (A.arguments arguments.now)
            (both (R.rules cardinal.now) (R.rules ordinal.now)) hash.now (parts self) before (W.IsSaid said.new) result }
        ensures fewer { AreFewer parts (parts self) result };
}

/// Makes a step of parts: [`MessageSteps::step`] for each type of parts.
#[inline(always)]
pub fn step_of<'s, 'p, R: TextRules, A: Arguments, P: MessageParts<'p>, W: Sink>(
    parts: P,
    alloc: Global,
    arguments: &'s A,
    cardinal: &R,
    ordinal: &R,
    hash: &'s [u8],
    said: &mut W,
) -> Result<Option<Next<'s, P>>, FormatError<'p>>
    ensures said { (before : List ℕ) → W.IsSaid said.old before → StepsTo P.parts (λ f. f) (A.arguments arguments.now)
        (both (R.rules cardinal.now) (R.rules ordinal.now)) hash.now (P.parts parts) before (W.IsSaid said.new) result }
    ensures fewer { AreFewer P.parts (P.parts parts) result }
{
    let Some(found) = parts.first() else {
        return Ok(None);
    };
    match found.0.piece {
        Piece::Text(text) => {
            said.add(text)?;
            Ok(Some(Next {
                branch: None,
                rest: found.1,
            }))
        }
        Piece::Hash => {
            said.add(hash)?;
            Ok(Some(Next {
                branch: None,
                rest: found.1,
            }))
        }
        Piece::Argument(name) => {
            let text = shown_value(name, arguments.value(name))?;
            said.add(text)?;
            Ok(Some(Next {
                branch: None,
                rest: found.1,
            }))
        }
        Piece::Begin(kind, name, offset) => {
            let value = arguments.value(name);
            let (shown, taken) = chosen(
                alloc, cardinal, ordinal, hash, kind, name, offset, parts, value,
            )?;
            let rest = parts.behind(taken.left);
            let branch = Some((shown, taken.branch));
            Ok(Some(Next { branch, rest }))
        }
        Piece::Branch(_) | Piece::End => Ok(None),
    }
}

impl<'l, 'p> MessageSteps for &'l [Part<'p>] {
    ghost use Rattle.message_pattern.specs.PatternParts.{parts_view};

    type Fault = FormatError<'p>;

    ghost parts = { λ parts. parts_view parts.now };

    ghost error = { λ f. f };

    fn step<'s, R: TextRules, A: Arguments, W: Sink>(
        self,
        alloc: Global,
        arguments: &'s A,
        cardinal: &R,
        ordinal: &R,
        hash: &'s [u8],
        said: &mut W,
    ) -> Result<Option<Next<'s, Self>>, FormatError<'p>> {
        step_of(self, alloc, arguments, cardinal, ordinal, hash, said)
    }
}

/// Says the message at the front of parts, where `#` is a text, behind what was said before.
pub fn say<'s, R: TextRules, A: Arguments, S: MessageSteps, W: Sink>(
    alloc: Global,
    arguments: &'s A,
    cardinal: &R,
    ordinal: &R,
    hash: &'s [u8],
    parts: S,
    said: &mut W,
) -> Result<(), S::Fault>
    ensures { (before : List ℕ) → W.IsSaid said.old before → GivesOutcome S.error (A.arguments arguments.now)
        (both (R.rules cardinal.now) (R.rules ordinal.now)) hash.now (S.parts parts) before (W.IsSaid said.new) result }
{
    let mut left = parts;
    'parts: while let Some(next) = left.step(alloc, arguments, cardinal, ordinal, hash, said)? {
        let Next { branch, rest } = next;
        if let Some((shown, branch)) = branch {
            say(
                alloc,
                &*arguments,
                cardinal,
                ordinal,
                shown.as_bytes(),
                branch,
                said,
            )?;
        }
        left = rest;
    }
    Ok(())
}
