//! Reading an expression: each token does what it does to what was read before it, and what waits
//! for an operand stands in a list, the innermost last.

ghost use Rattle.std.specs.Prelude.{◌≡◌, ◌≤◌, ◌+◌, ◌++◌, ℕ, List, [], ◌∷◌, true, false, IfOk, IfErr, OnOk, MatchOption, length, option_map};
ghost use Rattle.gettext_plural.specs.PluralExpressions.{Formula};
ghost use Rattle.gettext_plural.specs.PluralTokens.{is_end};
ghost use Rattle.gettext_plural.specs.PluralViews.{formula_view};
ghost use Rattle.gettext_plural.specs.Inner.FormulaViews.{pendings_view, stage_view, HasTaken, IsPopped, IsStep, IsFinish, IsFormulaReading, IsStopped};
ghost use Rattle.gettext_plural.specs.Inner.PluralMachine.{close_stage, close_with, colon_stage, colon_with, unwind, expects, has};

use crate::error::{Fault, FaultKind, ReadError};
use crate::expression::Expression;
use crate::lexer::{is_blank, is_end, token_at};
use crate::pending::Pending;
use crate::token::{Operator, Token};
use std::alloc::{AllocError, Global};

// Returns the expression at the front of a text, up to its end.
#[tactic(auto, using(crate::proofs::ReaderSteps::none_taken, crate::proofs::ReaderSteps::finish_reads))]
pub(crate) fn read(alloc: Global, text: &[u8]) -> Result<Expression, ReadError>
    ensures { IsFormulaReading text.now result }
{
    let mut pending = Vec::new(alloc);
    let mut operand = None;
    let mut rest = text;
    'bytes: while let Some((first, behind)) = next_byte(rest) {
        match advance(alloc, &mut pending, operand, first, behind) {
            Ok((read, after)) => {
                operand = read;
                rest = after;
            }
            Err(error) => return Err(error),
        }
    }
    finish(alloc, &mut pending, operand, rest.len())
}

// Returns the next byte of an expression, and what follows it.
fn next_byte(text: &[u8]) -> Option<(u8, &[u8])>
    ensures { MatchOption result (is_end text.now ≡ true) (λ it. (text.now ≡ it.0 ∷ it.1.now) × (is_end (it.0 ∷ it.1.now) ≡ false)) }
{
    match text {
        [first, behind @ ..] if !is_end(text) => Some((*first, behind)),
        _ => None,
    }
}

// Takes a blank, or a token that begins with a byte, and returns the operand that was read then, and
// what follows.
fn advance<'a>(
    alloc: Global,
    pending: &mut Vec<Pending>,
    operand: Option<Expression>,
    first: u8,
    behind: &'a [u8],
) -> Result<(Option<Expression>, &'a [u8]), ReadError>
    ensures taken { IfOk result
        (λ it. (text : List ℕ) → is_end (first ∷ behind.now) ≡ false → HasTaken text (stage_view pending.old.items operand) (first ∷ behind.now)
        → HasTaken text (stage_view pending.new.items it.0) it.1.now) }
    ensures stopped { IfErr result
        (λ e. (text : List ℕ) → is_end (first ∷ behind.now) ≡ false → HasTaken text (stage_view pending.old.items operand) (first ∷ behind.now)
        → IsStopped text e) }
    ensures shorter { IfOk result (λ it. length it.1.now ≤ length behind.now) }
{
    if is_blank(first) {
        return Ok((operand, behind));
    }
    let left = left_before(behind);
    let (token, after) = token_at(first, behind);
    match take(alloc, pending, operand, token, left) {
        Ok(operand) => Ok((operand, after)),
        Err(error) => Err(error),
    }
}

// How many bytes are left from the byte before these on.
fn left_before(behind: &[u8]) -> usize
    ensures { result ≡ length behind.now + 1 }
{
    behind.len().saturating_add(1)
}

// Takes a token, where so many bytes are left, and returns the operand that was read then, unless
// one is expected.
fn take(
    alloc: Global,
    pending: &mut Vec<Pending>,
    operand: Option<Expression>,
    token: Token,
    left: usize,
) -> Result<Option<Expression>, ReadError>
    ensures { IsStep (stage_view pending.old.items operand) token left pending.new.items result }
{
    match operand {
        None => begin(pending, token, left),
        Some(operand) => follow(alloc, pending, operand, token, left),
    }
}

// Takes a token where an operand is expected.
#[tactic(auto, using(crate::proofs::PendingViews::pushed))]
fn begin(
    pending: &mut Vec<Pending>,
    token: Token,
    left: usize,
) -> Result<Option<Expression>, ReadError>
    ensures { IsStep (expects (pendings_view pending.old.items)) token left pending.new.items result }
{
    match token {
        Token::Number(number) => Ok(Some(Expression::Number(number))),
        Token::N => Ok(Some(Expression::N)),
        Token::Not => {
            put(pending, Pending::Negation)?;
            Ok(None)
        }
        Token::Open => {
            put(pending, Pending::Bracket)?;
            Ok(None)
        }
        Token::Joint(_) => Err(fault(FaultKind::ExpectedOperand, left)),
        Token::Question => Err(fault(FaultKind::ExpectedOperand, left)),
        Token::Colon => Err(fault(FaultKind::ExpectedOperand, left)),
        Token::Close => Err(fault(FaultKind::ExpectedOperand, left)),
        Token::Junk => Err(fault(FaultKind::ExpectedOperand, left)),
    }
}

// Takes a token behind an operand.
fn follow(
    alloc: Global,
    pending: &mut Vec<Pending>,
    operand: Expression,
    token: Token,
    left: usize,
) -> Result<Option<Expression>, ReadError>
    ensures { IsStep (has (pendings_view pending.old.items) (formula_view operand)) token left pending.new.items result }
{
    match token {
        Token::Joint(operator) => joint(alloc, pending, operand, operator, left),
        Token::Question => question(alloc, pending, operand, left),
        Token::Colon => colon(alloc, pending, operand, left),
        Token::Close => close(alloc, pending, operand, left),
        Token::Number(_) => Err(misplaced(operand, left)),
        Token::N => Err(misplaced(operand, left)),
        Token::Not => Err(misplaced(operand, left)),
        Token::Open => Err(misplaced(operand, left)),
        Token::Junk => Err(misplaced(operand, left)),
    }
}

// Takes an operator behind an operand.
fn joint(
    alloc: Global,
    pending: &mut Vec<Pending>,
    operand: Expression,
    operator: Operator,
    left: usize,
) -> Result<Option<Expression>, ReadError>
    ensures { IsStep (has (pendings_view pending.old.items) (formula_view operand)) (Token.Joint operator) left pending.new.items result }
{
    let joined = unwind(alloc, pending, operator.binding(), operand)?;
    put(pending, Pending::Left(operator, joined))?;
    Ok(None)
}

// Takes `?` behind an operand.
fn question(
    alloc: Global,
    pending: &mut Vec<Pending>,
    operand: Expression,
    left: usize,
) -> Result<Option<Expression>, ReadError>
    ensures { IsStep (has (pendings_view pending.old.items) (formula_view operand)) Token.Question left pending.new.items result }
{
    let condition = unwind(alloc, pending, 1, operand)?;
    put(pending, Pending::Question(condition))?;
    Ok(None)
}

// Takes `:` behind an operand.
fn colon(
    alloc: Global,
    pending: &mut Vec<Pending>,
    operand: Expression,
    left: usize,
) -> Result<Option<Expression>, ReadError>
    ensures { IsStep (has (pendings_view pending.old.items) (formula_view operand)) Token.Colon left pending.new.items result }
{
    let yes = unwind(alloc, pending, 0, operand)?;
    match pop_condition(pending) {
        Some(condition) => {
            put(pending, Pending::Colon(condition, yes))?;
            Ok(None)
        }
        None => Err(misplaced(yes, left)),
    }
}

// Takes the innermost, and returns its condition, if it is a `?`.
#[tactic(auto, using(crate::proofs::PendingViews::condition_popped))]
fn pop_condition(pending: &mut Vec<Pending>) -> Option<Expression>
    ensures { (yes : Formula) → colon_stage (pendings_view pending.old.items) yes
        ≡ colon_with (option_map formula_view result) (pendings_view pending.new.items) yes }
{
    match pending.pop() {
        Some(last) => last.condition(),
        None => None,
    }
}

// Takes `)` behind an operand.
fn close(
    alloc: Global,
    pending: &mut Vec<Pending>,
    operand: Expression,
    left: usize,
) -> Result<Option<Expression>, ReadError>
    ensures { IsStep (has (pendings_view pending.old.items) (formula_view operand)) Token.Close left pending.new.items result }
{
    let inner = unwind(alloc, pending, 0, operand)?;
    if pop_bracket(pending) {
        Ok(Some(inner))
    } else {
        Err(misplaced(inner, left))
    }
}

// Takes the innermost, and returns whether it is a bracket.
#[tactic(auto, using(crate::proofs::PendingViews::bracket_popped))]
fn pop_bracket(pending: &mut Vec<Pending>) -> bool
    ensures { (inner : Formula) → close_stage (pendings_view pending.old.items) inner ≡ close_with result (pendings_view pending.new.items) inner }
{
    match pending.pop() {
        Some(last) => {
            let is_bracket = last.is_bracket();
            drop(last);
            is_bracket
        }
        None => false,
    }
}

// Takes the end.
fn finish(
    alloc: Global,
    pending: &mut Vec<Pending>,
    operand: Option<Expression>,
    left: usize,
) -> Result<Expression, ReadError>
    ensures { IsFinish (stage_view pending.old.items operand) left result }
{
    match operand {
        None => Err(fault(FaultKind::ExpectedOperand, left)),
        Some(operand) => end_at(alloc, pending, operand, left),
    }
}

// Takes the end behind an operand.
fn end_at(
    alloc: Global,
    pending: &mut Vec<Pending>,
    operand: Expression,
    left: usize,
) -> Result<Expression, ReadError>
    ensures { IsFinish (has (pendings_view pending.old.items) (formula_view operand)) left result }
{
    let whole = unwind(alloc, pending, 0, operand)?;
    if pending.is_empty() {
        return Ok(whole);
    }
    drop(whole);
    Err(fault(FaultKind::Unfinished, left))
}

// Ends all that ends before an operator that binds so much, and returns the operand before it.
#[tactic(auto, using(crate::proofs::PendingViews::stays_so, crate::proofs::PendingViews::ends_so))]
fn unwind(
    alloc: Global,
    pending: &mut Vec<Pending>,
    binding: u8,
    operand: Expression,
) -> Result<Expression, AllocError>
    ensures { IfOk result (λ e. unwind binding (pendings_view pending.old.items) (formula_view operand) ≡ (pendings_view pending.new.items, formula_view e)) }
{
    let mut operand = operand;
    'ended: while let Some(last) = pop_closed(pending, binding)? {
        operand = last.filled(alloc, operand)?;
    }
    Ok(operand)
}

// Takes the innermost, if it ends before an operator that binds so much.
#[tactic(auto, using(crate::proofs::PendingViews::one_popped, crate::proofs::PendingViews::put_back))]
fn pop_closed(pending: &mut Vec<Pending>, binding: u8) -> Result<Option<Pending>, AllocError>
    ensures { IfOk result (λ last. IsPopped binding (pendings_view pending.old.items) (pendings_view pending.new.items) last) }
{
    let Some(last) = pending.pop() else {
        return Ok(None);
    };
    if last.closes(binding) {
        return Ok(Some(last));
    }
    put(pending, last)?;
    Ok(None)
}

// Adds what waits behind all else.
fn put(pending: &mut Vec<Pending>, last: Pending) -> Result<(), AllocError>
    ensures { OnOk result (pending.new.items ≡ pending.old.items ++ last ∷ []) }
{
    pending.push(last)?;
    Ok(())
}

// The fault of a token behind an operand, which is dropped.
fn misplaced(operand: Expression, left: usize) -> ReadError
    ensures { result ≡ ReadError.Fault (record { kind = FaultKind.ExpectedOperator; left = left }) }
{
    drop(operand);
    fault(FaultKind::ExpectedOperator, left)
}

// A fault where so many bytes are left.
fn fault(kind: FaultKind, left: usize) -> ReadError
    ensures { result ≡ ReadError.Fault (record { kind = kind; left = left }) }
{
    ReadError::Fault(Fault { kind, left })
}
