//! Reading a pattern: messages, arguments and branches.

ghost use Rattle.std.specs.Prelude.{◌≡◌, ◌≤◌, ◌<◌, ◌++◌, [], true, false, IfOk, IfErr, OnOk, MatchResult, length};
ghost use Rattle.message_pattern.specs.declared.head.Formats.{Formats};
ghost use Rattle.message_pattern.specs.PatternParts.{parts_view, piece_view};
ghost use Rattle.message_pattern.specs.PatternReading.{read_step, message_step, one, at_most_one, context_of, InMessage, InArgument, InBranches, ReadOutcome, ReadsTo};
ghost use Rattle.message_pattern.specs.PatternText.{is_nested};
ghost use Rattle.message_pattern.specs.PatternHeads.{unclosed};
ghost use Rattle.message_pattern.specs.Inner.PatternViews.{GivesReadOutcome, IsShorter, stop_view, any_view};

use crate::branch::{BranchFront, branch_front};
use crate::error::{FaultKind, ReadError};
use crate::head::{Formats, Head, fault_at, head_front, unclosed};
use crate::part::{ArgumentKind, Part, Piece};
use crate::text::{Context, Front, Stop, front_of};

/// How many branches a part is in at most.
pub const DEPTH_LIMIT: usize = 32;

impl ArgumentKind {
    // What a branch of such an argument is.
    pub(crate) fn context(self) -> Context
        ensures { result ≡ context_of self }
    {
        match self {
            ArgumentKind::Plural | ArgumentKind::Ordinal => Context::Counted,
            ArgumentKind::Select => Context::Selected,
        }
    }
}

// Adds a part.
#[tactic(auto, using(crate::proofs::Parts::pushed))]
fn push<'p>(parts: &mut Vec<Part<'p>>, depth: usize, piece: Piece<'p>) -> Result<(), ReadError>
    ensures ok { OnOk result (parts_view parts.new.items ≡ parts_view parts.old.items ++ one depth (piece_view piece.entry)) }
    ensures err { IfErr result (λ e. e ≡ ReadError.Memory) }
{
    parts.push(Part { depth, piece })?;
    Ok(())
}

// Adds a part, or none.
#[tactic(auto, using(crate::proofs::Parts::none_pushed))]
fn push_any<'p>(
    parts: &mut Vec<Part<'p>>,
    depth: usize,
    piece: Option<Piece<'p>>,
) -> Result<(), ReadError>
    ensures ok { OnOk result (parts_view parts.new.items ≡ parts_view parts.old.items ++ at_most_one depth (any_view piece.entry)) }
    ensures err { IfErr result (λ e. e ≡ ReadError.Memory) }
{
    match piece {
        Some(piece) => push(parts, depth, piece),
        None => Ok(()),
    }
}

// Reads the pieces of a message up to an argument or its end.
fn pieces<'p>(
    context: Context,
    depth: usize,
    text: &'p [u8],
    parts: &mut Vec<Part<'p>>,
) -> Result<Stop<'p>, ReadError>
    ensures read { IfOk result (λ stop. (formats : Formats) (outcome : ReadOutcome)
        → ReadsTo formats (message_step context depth (stop_view stop)) (parts_view parts.new.items) outcome
        → ReadsTo formats (read_step formats (InMessage context depth false) text.now) (parts_view parts.old.items) outcome) }
    ensures shorter { IfOk result (λ stop. IsShorter (stop_view stop) text.now) }
    ensures err { IfErr result (λ e. e ≡ ReadError.Memory) }
{
    let mut quoted = false;
    let mut rest = text;
    'pieces: loop {
        match front_of(context, quoted, rest) {
            Front::Stops(stop) => return Ok(stop),
            Front::Takes(piece, remains, after) => {
                push_any(parts, depth, piece)?;
                quoted = remains;
                rest = after;
            }
        }
    }
}

// What follows a message that ends with the text: a branch doesn't.
fn end_of_text<'p>(context: Context) -> Result<&'p [u8], ReadError>
    ensures { MatchResult result
        (λ rest. (rest.now ≡ []) × (is_nested context ≡ false))
        (λ e. (e ≡ ReadError.Fault unclosed) × (is_nested context ≡ true)) }
{
    if context.is_nested() {
        return Err(ReadError::Fault(unclosed()));
    }
    Ok(&[])
}

// Reads a message.
#[cycle(read)]
pub(crate) fn message<'p>(
    formats: Formats,
    context: Context,
    depth: usize,
    text: &'p [u8],
    parts: &mut Vec<Part<'p>>,
) -> Result<&'p [u8], ReadError>
    requires { depth ≤ DEPTH_LIMIT }
    ensures outcome { GivesReadOutcome formats (read_step formats (InMessage context depth false) text.now) parts.old.items parts.new.items result }
    ensures shorter { IfOk result (λ rest. length rest.now ≤ length text.now) }
{
    let mut rest = text;
    'arguments: loop {
        match pieces(context, depth, rest, parts)? {
            Stop::End => return end_of_text(context),
            Stop::Closes(after) => return Ok(after),
            Stop::Opens(after) => rest = argument(formats, depth, after, parts)?,
        }
    }
}

// Reads an argument, behind its brace.
#[cycle(read)]
fn argument<'p>(
    formats: Formats,
    depth: usize,
    text: &'p [u8],
    parts: &mut Vec<Part<'p>>,
) -> Result<&'p [u8], ReadError>
    requires { depth ≤ DEPTH_LIMIT }
    ensures outcome { GivesReadOutcome formats (read_step formats (InArgument depth) text.now) parts.old.items parts.new.items result }
    ensures shorter { IfOk result (λ rest. length rest.now ≤ length text.now) }
{
    let (head, rest) = head_front(formats, text)?;
    match head {
        Head::Plain(name) => {
            push(parts, depth, Piece::Argument(name))?;
            Ok(rest)
        }
        Head::Choice(kind, name, offset) => {
            push(parts, depth, Piece::Begin(kind, name, offset))?;
            branches(formats, kind, depth, rest, parts)
        }
    }
}

// Reads the branches of an argument, up to its end.
#[cycle(read)]
fn branches<'p>(
    formats: Formats,
    kind: ArgumentKind,
    depth: usize,
    text: &'p [u8],
    parts: &mut Vec<Part<'p>>,
) -> Result<&'p [u8], ReadError>
    requires { depth ≤ DEPTH_LIMIT }
    ensures outcome { GivesReadOutcome formats (read_step formats (InBranches kind depth false) text.now) parts.old.items parts.new.items result }
    ensures shorter { IfOk result (λ rest. length rest.now ≤ length text.now) }
{
    let mut has_other = false;
    let mut rest = text;
    'selectors: loop {
        match branch_front(kind, has_other, rest)? {
            BranchFront::Closes(after) => {
                push(parts, depth, Piece::End)?;
                return Ok(after);
            }
            BranchFront::Opens(selector, inner) => {
                if depth >= DEPTH_LIMIT {
                    return Err(ReadError::Fault(fault_at(FaultKind::TooDeep, inner)));
                }
                push(parts, depth, Piece::Branch(selector))?;
                rest = message(formats, kind.context(), depth + 1, inner, parts)?;
                has_other = has_other || selector.is_other();
            }
        }
    }
}
