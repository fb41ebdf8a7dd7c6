//! Where a text stops being a rule.

ghost use Rattle.std.specs.Prelude.{◌≡◌, ◌↔◌, ◌≤◌, ◌-◌, ◌++◌, [], List, None, Some, IfOk, MatchOption, length};
ghost use Rattle.plural_reference.specs.declared.ast.Rule.{Rule as RuleRead};
ghost use Rattle.plural_reference.specs.declared.token.Token.{Token as TokenLeft};
ghost use Rattle.plural_reference.specs.Reading.{IsAnswer};
ghost use Rattle.plural_reference.specs.Samples.{ReadsRule};
ghost use Rattle.plural_reference.specs.FaultPlaces.{FaultyRuleAt, StandsAt, TextFaultyAt, TextIsRead};
ghost use Rattle.plural_reference.specs.Inner.BehindFirst.{HasFirst};
ghost use Rattle.plural_reference.specs.Inner.Scan.{tokens_of};

use super::Parser;
use crate::error::{ParseError, ReadError};
use crate::lexer::{Lexer, first_token, strip_byte};
use std::alloc::{AllocError, Global};

/// Why a text isn't a rule, and where.
#[derive(Clone, Copy)]
pub struct RuleFault {
    /// What is expected there.
    pub kind: ParseError,
    /// The first byte, counted from 0, of the token that doesn't continue the rule, or the length of
    /// the text if it ends there.
    pub byte: usize,
}

/// Returns the fault for which [`parse`](crate::parse) refuses a text, and its byte (UTS 35 Part 3,
/// Plural Rules Syntax and Samples); `None` if the text is read as a rule.
///
/// Of `i = 1 and` the fault is that a relation is expected, at byte 9, and of `i = x` that a value
/// is, at byte 4. A condition is allocated; the error is out of memory.
pub fn fault_of(alloc: Global, text: &[u8]) -> Result<Option<RuleFault>, AllocError>
    ensures read { IfOk result (λ found. (found ≡ None) ↔ TextIsRead text.now) }
    ensures fault { IfOk result (λ found. (f : RuleFault) → (found ≡ Some f) ↔ TextFaultyAt text.now f.kind f.byte) }
{
    let mut parser = Parser::new(text);
    match parser.take_rule(alloc) {
        Ok(()) => Ok(None),
        Err(ReadError::Parse(kind)) => {
            let rest = last_tokens(text, parser.count());
            let byte = text.len() - rest.len();
            Ok(Some(RuleFault { kind, byte }))
        }
        Err(ReadError::Memory) => Err(AllocError),
    }
}

impl<'p> Parser<'p> {
    // Takes the tokens of a rule, up to its fault if it has one.
    fn take_rule(&mut self, alloc: Global) -> Result<(), ReadError>
        ensures { IsAnswer (λ _. (rule : RuleRead) × ReadsRule self.old rule) (λ kind. FaultyRuleAt self.old kind self.new) result }
    {
        self.condition(alloc)?;
        self.leave_samples_out(alloc)?;
        Ok(())
    }

    // How many tokens are left.
    fn count(&self) -> usize
        ensures { result ≡ length self.now }
    {
        count_tokens(self.rest)
    }
}

// How many tokens a text has.
fn count_tokens(text: &[u8]) -> usize
    ensures { result ≡ length (tokens_of text.now) }
{
    let mut tokens = Lexer::new(text);
    let mut count = 0_usize;
    'tokens: while let Some(_token) = tokens.next() {
        count += 1;
    }
    count
}

// The bytes from which on a text has this many tokens: they begin with the first of them.
fn last_tokens(text: &[u8], left: usize) -> &[u8]
    ensures shorter { length result.now ≤ length text.now }
    ensures stands { (before rest : List TokenLeft) → tokens_of text.now ≡ before ++ rest → length rest ≡ left
        → StandsAt text.now (length text.now - length result.now) rest }
{
    let mut rest = text;
    let mut ahead = count_tokens(text);
    'pieces: while let Some((is_token, after)) = behind_piece(rest) {
        if is_token {
            if ahead == left {
                return rest;
            }
            ahead -= 1;
        }
        rest = after;
    }
    rest
}

// The bytes after the first piece of a text, and whether that is a token.
fn behind_piece(text: &[u8]) -> Option<(bool, &[u8])>
    ensures { MatchOption result (text.now ≡ []) (λ it. HasFirst text.now it.0 it.1.now) }
{
    if let Some(after) = strip_byte(text, b' ') {
        return Some((false, after));
    }
    let (_, after) = first_token(text)?;
    Some((true, after))
}
